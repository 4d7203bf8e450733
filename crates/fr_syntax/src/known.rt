//! Which texts of a source have come before.

ghost use Rattle.std.specs.Prelude.{◌≡◌, ◌<◌, ◌≤◌, [], length, IfOk, OnErr, not};
ghost use Rattle.std.specs.List.{position_or_len, list_any};
ghost use Rattle.std.specs.Str.{bytes_eq};
ghost use Rattle.fr_syntax.specs.Names.{with_text};

use indexmap::IndexSet;
use std::alloc::{AllocError, Global};
use std::marker::Model;

/// Different texts of a source, in the order in which they first came. They stay in the source: none is copied.
#[derive(Drop)]
pub(crate) struct Known<'a> {
    texts: IndexSet<&'a str>,
}

impl<'a> Model for Known<'a> {
    ghost use Rattle.std.specs.Prelude.{List, ℕ, map};

    ghost Value = { List (List ℕ) };

    ghost view = { λ n. map (λ r. r.now) n.texts.keys };
}

impl<'a> Known<'a> {
    pub fn new(alloc: Global) -> Known<'a>
        ensures { result ≡ [] }
    {
        Known {
            texts: IndexSet::new(alloc),
        }
    }

    /// The number of a text, and whether it is new: then it goes last.
    pub fn number(&mut self, text: &'a str) -> Result<(usize, bool), AllocError>
        ensures texts { IfOk result (λ n. self.new ≡ with_text self.old text.now) }
        ensures place { IfOk result (λ n. n.0 ≡ position_or_len (bytes_eq text.now) self.old) }
        ensures is_new { IfOk result (λ n. n.1 ≡ not (list_any (bytes_eq text.now) self.old)) }
        ensures within { IfOk result (λ n. n.0 < length self.new) }
        ensures err { OnErr result (self.new ≡ self.old) }
    {
        Ok(self.texts.insert_full(text)?)
    }
}
