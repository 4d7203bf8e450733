//! The arena of a source's terms.

ghost use Rattle.std.specs.Prelude.{◌≡◌, ◌+◌, ◌<◌, ◌≤◌, ◌++◌, [], ◌∷◌, ◌↔◌, length, slice_get, IfOk, IfSome, IsSome, OnOk, OnErr, option_copied};
ghost use Rattle.fr_syntax.specs.Arena.{Arena};
ghost use Rattle.fr_syntax.specs.Bounds.{most_numbered};
ghost use Rattle.fr_syntax.specs.Meanings.{meanings, meaning_at, build, stands_for, nodes_in, needs, names_in, root_of, AreBelow, AllBelow, Keeps};
ghost use Rattle.fr_syntax.specs.Ordered.{IsArena};

use fr_base::{BoxedList, NoMemory, Op};
use std::alloc::Global;
use std::marker::Model;

/// Numbers of nodes, in order.
pub type Nodes = BoxedList<u32>;

/// A term, a place of a term, or a captured name. Its parts are numbers of nodes that stand before it, its names are
/// numbers of names.
#[derive(Drop)]
pub enum Term {
    /// The items in order.
    Block(Nodes),
    /// A name and a term.
    Let(u32, u32),
    /// A place node and a term.
    Assign(u32, u32),
    /// A place node.
    Read(u32),
    /// A place node.
    Dup(u32),
    /// A place node.
    Borrow(u32),
    /// A place node.
    BorrowMut(u32),
    Number(i64),
    Unit,
    /// A term.
    Box(u32),
    /// A term.
    Print(u32),
    /// A term.
    Join(u32),
    /// A term.
    Mutex(u32),
    /// The left and the right term.
    Arith(Op, u32, u32),
    /// Capture nodes, and the body.
    Spawn(Nodes, u32),
    /// Capture nodes and a body, twice. The captures stand behind a pointer each, so that a node takes 40 bytes and not 64.
    Par(Box<Nodes>, u32, Box<Nodes>, u32),
    /// A place node, a name and a block.
    Lock(u32, u32, u32),
    /// A name and its stars.
    Place(u32, u8),
    /// A name.
    Capture(u32),
}

/// A node, and the place of its first token: a byte of the source, from 0.
#[derive(Drop)]
pub struct Node {
    pub term: Term,
    pub place: u32,
}

/// The nodes of a source, each after its parts, and the texts of its names. Contracts see both lists.
/// A node's number counts from 0 in the order of `add`, a name's in the order of `add_name`.
#[derive(Drop)]
pub struct Tree {
    alloc: Global,
    names: Vec<String>,
    nodes: Vec<Node>,
}

impl Model for Tree {
    ghost use Rattle.std.specs.Prelude.{map, string_bytes};
    ghost use Rattle.fr_syntax.specs.Arena.{Arena};
    ghost use Rattle.fr_syntax.specs.Ordered.{IsArena};

    ghost Value = { Arena };

    ghost view = { λ t. record { names = map string_bytes t.names.items; nodes = t.nodes.items } };

    ghost invariant = { λ t. IsArena (record { names = map string_bytes t.names.items; nodes = t.nodes.items }) };
}

impl Tree {
    /// A tree with no name and no node.
    pub fn new(alloc: Global) -> Tree
        ensures names { result.names ≡ [] }
        ensures nodes { result.nodes ≡ [] }
        ensures meanings { meanings result ≡ [] }
    {
        Tree {
            alloc,
            names: Vec::new(alloc),
            nodes: Vec::new(alloc),
        }
    }

    /// Adds a name behind fewer than 268,435,456 others, and gives its number. No node changes what it means. A refusal changes nothing.
    pub fn add_name(&mut self, text: &str) -> Result<u32, NoMemory>
        requires few { length self.old.names < most_numbered }
        ensures number { IfOk result (λ n. n ≡ length self.old.names) }
        ensures names { OnOk result (self.new.names ≡ self.old.names ++ text.now ∷ []) }
        ensures nodes { OnOk result (self.new.nodes ≡ self.old.nodes) }
        ensures meanings { OnOk result (meanings self.new ≡ meanings self.old) }
        ensures err { OnErr result (self.new ≡ self.old) }
    {
        let number = self.names.len() as u32;
        let owned = String::from_str(self.alloc, text)?;
        self.names.push(owned)?;
        Ok(number)
    }

    /// Adds a node whose parts and names are there behind fewer than 268,435,456 others, and gives its number. A refusal changes nothing.
    #[tactic(auto, using(crate::proofs::TreeLemmas::length_meanings, crate::proofs::TreeLemmas::node_added, crate::proofs::TreeLemmas::arena_push))]
    pub fn add(&mut self, term: Term, place: u32) -> Result<u32, NoMemory>
        requires parts { AreBelow (meanings self.old) (length (meanings self.old)) (needs term) }
        requires names { AllBelow (length self.old.names) (names_in term) }
        requires few { length (meanings self.old) < most_numbered }
        ensures number { IfOk result (λ n. n ≡ length (meanings self.old)) }
        ensures last { IfOk result (λ n. n ≡ root_of self.new) }
        ensures len { OnOk result (length (meanings self.new) ≡ length (meanings self.old) + 1) }
        ensures names_kept { OnOk result (self.new.names ≡ self.old.names) }
        ensures meaning { IfOk result (λ n. meaning_at (meanings self.new) n ≡ build self.old.names (meanings self.old) place term) }
        ensures keeps { OnOk result (Keeps (meanings self.old) (meanings self.new)) }
        ensures err { OnErr result (self.new ≡ self.old) }
    {
        let number = self.nodes.len() as u32;
        self.nodes.push(Node { term, place })?;
        Ok(number)
    }

    /// How many nodes there are: at most 268,435,456. Each node's parts stand before it.
    #[tactic(auto, using(crate::proofs::TreeLemmas::length_meanings))]
    pub fn len(&self) -> u64
        ensures nodes { result ≡ length self.now.nodes }
        ensures meanings { result ≡ length (meanings self.now) }
        ensures few { result ≤ most_numbered }
        ensures arena { IsArena self.now }
    {
        self.nodes.len() as u64
    }

    /// The node that was added last.
    pub fn root(&self) -> u32
        requires { 0 < length self.now.nodes }
        ensures { result ≡ root_of self.now }
    {
        (self.nodes.len() - 1) as u32
    }

    /// The node with that number; `None` exactly past the end.
    #[tactic(auto, using(crate::proofs::TreeLemmas::length_meanings))]
    pub fn node(&self, at: u32) -> Option<&Node>
        ensures found { IsSome result ↔ (at < length (meanings self.now)) }
        ensures what { IfSome result (λ n. (meaning_at (meanings self.now) at).what ≡ stands_for self.now.names (meanings self.now) n.now.place n.now.term) }
        ensures nodes { IfSome result (λ n. (meaning_at (meanings self.now) at).nodes ≡ nodes_in (meanings self.now) (needs n.now.term) ++ at ∷ []) }
        ensures parts { IfSome result (λ n. AreBelow (meanings self.now) at (needs n.now.term)) }
        ensures names { IfSome result (λ n. AllBelow (length self.now.names) (names_in n.now.term)) }
    {
        let at = at as usize;
        if at < self.nodes.len() {
            Some(&self.nodes[at])
        } else {
            None
        }
    }

    /// The text of the name with that number; `None` exactly past the end.
    pub fn name(&self, no: u32) -> Option<&str>
        ensures { option_copied result ≡ slice_get self.now.names no }
    {
        match self.names.get(no as usize) {
            Some(text) => Some(text.as_str()),
            None => None,
        }
    }
}
