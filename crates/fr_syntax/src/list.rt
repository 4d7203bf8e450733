//! The list of a source's tokens.

ghost use Rattle.std.specs.Prelude.{◌≡◌, ◌+◌, ◌≤◌, ◌<◌, ◌++◌, [], ◌∷◌, length, slice_get, IfOk, IsOk, OnOk, OnErr, IfSome, option_copied};
ghost use Rattle.fr_syntax.specs.Bounds.{most_numbered, most_tokens};
ghost use Rattle.fr_syntax.specs.TokenList.{IsReadable, AreReadable};
ghost use Rattle.fr_syntax.specs.declared.token.Token.{Token};

use crate::kind::TokenKind;
use crate::token::Token;
use fr_base::{List, NoMemory};
use std::alloc::Global;
use std::marker::Model;

/// The tokens of a source in order, and the texts of its names. Contracts see both lists, and beside them how many more
/// tokens fit without memory. A name's number counts from 0 in the order of `add_name`. The name of each token is there, no
/// number has a sign, and there are at most 67,108,865 tokens.
#[derive(Drop)]
pub struct Tokens {
    alloc: Global,
    items: List<Token>,
    names: Vec<String>,
}

impl Model for Tokens {
    ghost use Rattle.std.specs.Prelude.{length, map, string_bytes};
    ghost use Rattle.fr_syntax.specs.TokenList.{TokenList, IsTokenList};

    ghost Value = { TokenList };

    ghost view = { λ t. record { items = t.items.items; names = map string_bytes t.names.items; spare = t.items.spare } };

    ghost invariant = { λ t. IsTokenList (length t.names.items) t.items.items };
}

impl Tokens {
    /// No token and no name, and no memory taken yet.
    pub fn new(alloc: Global) -> Tokens
        ensures items { result.items ≡ [] }
        ensures names { result.names ≡ [] }
    {
        Tokens {
            alloc,
            items: List::new(alloc),
            names: Vec::new(alloc),
        }
    }

    /// Makes room, so that the next `n` pushes can't be refused; a refusal changes nothing.
    pub fn reserve(&mut self, n: usize) -> Result<(), NoMemory>
        ensures items { self.new.items ≡ self.old.items }
        ensures names { self.new.names ≡ self.old.names }
        ensures room { OnOk result (n ≤ self.new.spare) }
        ensures had_room { n ≤ self.old.spare → IsOk result }
        ensures spare { self.old.spare ≤ self.new.spare }
        ensures refused { OnErr result (self.new ≡ self.old) }
    {
        self.items.reserve(n)
    }

    /// Adds a token at the end, behind at most 67,108,864 others; the name of a `Name` is there, and a number has no sign.
    /// With room it can't be refused; a refusal changes nothing.
    pub fn push(&mut self, token: Token) -> Result<(), NoMemory>
        requires readable { IsReadable (length self.old.names) token.kind }
        requires few { length self.old.items < most_tokens }
        ensures pushed { OnOk result (self.new.items ≡ self.old.items ++ token ∷ []) }
        ensures names { self.new.names ≡ self.old.names }
        ensures spare { OnOk result (self.old.spare ≤ self.new.spare + 1) }
        ensures room { 0 < self.old.spare → IsOk result }
        ensures refused { OnErr result (self.new ≡ self.old) }
    {
        self.items.push(token)
    }

    /// How many tokens there are.
    pub fn len(&self) -> u64
        ensures { result ≡ length self.now.items }
    {
        self.items.len()
    }

    /// The token at that place, from 0; `None` exactly past the end.
    pub fn at(&self, at: u64) -> Option<&Token>
        ensures token { option_copied result ≡ slice_get self.now.items at }
        ensures readable { IfSome result (λ t. IsReadable (length self.now.names) t.now.kind) }
    {
        self.items.at(at)
    }

    /// The tokens in order.
    pub fn as_slice(&self) -> &[Token]
        ensures items { result.now ≡ self.now.items }
        ensures readable { AreReadable (length self.now.names) result.now }
        ensures few { length result.now ≤ most_tokens }
        ensures few_names { length self.now.names ≤ most_numbered }
    {
        self.items.as_slice()
    }

    /// Adds a name behind fewer than 268,435,456 others, and gives its number. A refusal changes nothing.
    pub fn add_name(&mut self, text: &str) -> Result<u32, NoMemory>
        requires few { length self.old.names < most_numbered }
        ensures number { IfOk result (λ n. n ≡ length self.old.names) }
        ensures names { OnOk result (self.new.names ≡ self.old.names ++ text.now ∷ []) }
        ensures items { self.new.items ≡ self.old.items }
        ensures spare { self.new.spare ≡ self.old.spare }
        ensures err { OnErr result (self.new ≡ self.old) }
    {
        let number = self.names.len() as u32;
        let owned = String::from_str(self.alloc, text)?;
        self.names.push(owned)?;
        Ok(number)
    }

    /// The text of the name with that number; `None` exactly past the end.
    pub fn name(&self, no: u32) -> Option<&str>
        ensures { option_copied result ≡ slice_get self.now.names no }
    {
        match self.names.get(no as usize) {
            Some(text) => Some(text.as_str()),
            None => None,
        }
    }
}
