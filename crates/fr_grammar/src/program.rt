//! The tree of a list of tokens.

ghost use Rattle.std.specs.Prelude.{◌≡◌, ◌≢◌, ◌+◌, ◌*◌, ◌<◌, ◌≤◌, [], length, Some, IfOk, IfErr, OnOk};
ghost use Rattle.fr_terms.specs.Terms.{Term};
ghost use Rattle.fr_syntax.specs.Arena.{Arena};
ghost use Rattle.fr_syntax.specs.Meanings.{meanings, term_at, term_of, term_s, IsTree};
ghost use Rattle.fr_grammar.specs.Growth.{IsGrown};
ghost use Rattle.fr_syntax.specs.TokenList.{AreReadable};
ghost use Rattle.fr_syntax.specs.Bounds.{most_numbered};
ghost use Rattle.fr_grammar.specs.Reading.{Gives, program_at};
ghost use Rattle.fr_grammar.specs.Source.{Spelled};
ghost use Rattle.fr_grammar.specs.Table.{refusal};

use crate::fault::ParseError;
use crate::marks::ended_at;
use crate::parser::body;
use fr_base::NoMemory;
use fr_syntax::{Token, Tokens, Tree};
use std::alloc::Global;

// Adds the names of the tokens, so that each keeps its number.
fn copy_names(tokens: &Tokens, tree: &mut Tree) -> Result<(), NoMemory>
    requires none { tree.old.names ≡ [] }
    requires few { length tokens.now.names ≤ most_numbered }
    ensures names { OnOk result (tree.new.names ≡ tokens.now.names) }
    ensures meanings { OnOk result (meanings tree.new ≡ meanings tree.old) }
{
    let mut no = 0u32;
    'each: loop {
        let Some(name) = tokens.name(no) else {
            return Ok(());
        };
        tree.add_name(name)?;
        no += 1;
    }
}

// The program that the tokens spell, as the last node.
#[tactic(auto, unfolding(crate::specs::Reading::program_at))]
fn program(alloc: Global, tree: &mut Tree, tokens: &[Token]) -> Result<u32, ParseError>
    requires room { length (meanings tree.old) + 2 * length tokens.now < most_numbered }
    requires readable { AreReadable (length tree.old.names) tokens.now }
    ensures value { Gives (λ n. term_at (meanings tree.new) n) result (program_at tree.old.names tokens.now) }
    ensures node { IfOk result (λ n. IsGrown term_s tree.old tree.new n) }
{
    let (node, rest) = body(alloc, tree, 64, tokens)?;
    ended_at(rest)?;
    Ok(node)
}

/// The one tree of the program that these tokens spell, with their names.
/// `Syntax` is at the first token for which the grammar has no entry, `TooDeep` at a term of level 65 or at the ninth star
/// of a place, whichever comes first. Then the tokens spell no program within the limits.
/// Want of memory comes at any time. It takes time in the number of tokens.
pub fn parse(alloc: Global, tokens: &Tokens) -> Result<Tree, ParseError>
    ensures names { IfOk result (λ tree. tree.names ≡ tokens.now.names) }
    ensures tree { IfOk result IsTree }
    ensures spelled { IfOk result (λ tree. Spelled tokens.now.names tokens.now.items (term_of tree)) }
    ensures first { IfErr result (λ fault. fault ≢ ParseError.NoMemory → refusal tokens.now.items ≡ Some fault) }
    ensures refused { IfErr result (λ fault. fault ≢ ParseError.NoMemory → (t : Term) → ¬ (Spelled tokens.now.names tokens.now.items t)) }
{
    let items = tokens.as_slice();
    let mut tree = Tree::new(alloc);
    copy_names(tokens, &mut tree)?;
    program(alloc, &mut tree, items)?;
    Ok(tree)
}
