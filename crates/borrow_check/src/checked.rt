//! Checked programs.

ghost use Rattle.std.specs.Prelude.{◌≡◌, ◌↔◌, ◌<◌, [], length, IsSome, IfOk, IfErr, OnOk};
ghost use Rattle.fr_typing.specs.Laws.{IsTyped};
ghost use Rattle.fr_syntax.specs.Meanings.{meanings, meaning_at, term_of};
ghost use Rattle.borrow_check.specs.Programs.{IsCheckable, IsChecked, IsFault, HasPlace, lval_of, takes_of};

use crate::check_error::CheckError;
use crate::checker::{Checker, check_term};
use crate::spare::Spare;
use crate::usage::Usage;
use fr_base::{Lval, NoMemory};
use fr_syntax::{Term, Tree};
use fr_types::Env;
use std::alloc::Global;
use std::marker::Model;

/// A program whose terms have types. Contracts see its tree, and by node how the places, reads and captured names are used.
#[derive(Drop)]
pub struct Checked {
    tree: Tree,
    usages: Vec<Usage>,
}

impl Model for Checked {
    ghost use Rattle.borrow_check.specs.Programs.{Program, IsChecked};

    ghost Value = { Program };

    ghost view = { λ c. record { arena = c.tree; usages = c.usages.items } };

    ghost invariant = { λ c. IsChecked (record { arena = c.tree; usages = c.usages.items }) };
}

impl Checked {
    /// The program's tree, which is typed and meets the condition of `check`.
    pub fn tree(&self) -> &Tree
        ensures tree { result.now ≡ self.now.arena }
        ensures checked { IsChecked self.now }
    {
        &self.tree
    }

    /// The place of a node: its variable's slot under its stars; of a captured name the variable that is captured. `None` exactly for a
    /// node without a place.
    pub fn lval(&self, node: u32) -> Option<Lval>
        requires { node < length self.now.arena.nodes }
        ensures value { result ≡ lval_of self.now node }
        ensures place { IsSome result ↔ HasPlace (meaning_at (meanings self.now.arena) node).what }
    {
        let Some(found) = self.tree.node(node) else {
            unreachable!()
        };
        match found.term {
            Term::Place(_, stars) => Some(Lval {
                slot: self.usages[node as usize].slot,
                depth: stars,
            }),
            Term::Capture(_) => Some(Lval {
                slot: self.usages[node as usize].slot,
                depth: 0,
            }),
            _ => None,
        }
    }

    /// Whether the node is a read of a type that moves, which takes out what it reads, or a captured name whose variable moves.
    pub fn takes(&self, node: u32) -> bool
        requires { node < length self.now.arena.nodes }
        ensures { result ≡ takes_of self.now node }
    {
        let Some(found) = self.tree.node(node) else {
            unreachable!()
        };
        match found.term {
            Term::Read(_) | Term::Capture(_) => self.usages[node as usize].takes,
            _ => false,
        }
    }
}

// As many usages of nothing.
fn no_usages(alloc: Global, count: u64) -> Result<Vec<Usage>, NoMemory>
    ensures { IfOk result (λ us. length us.items ≡ count) }
{
    let none = Usage {
        slot: 0,
        takes: false,
    };
    Ok(vec![in alloc; none; count as usize]?)
}

/// Checks a tree: its terms have types, or the first check that fails is the answer. A refusal drops the tree.
pub fn check(alloc: Global, tree: Tree) -> Result<Checked, CheckError>
    requires { IsCheckable tree }
    ensures tree { IfOk result (λ c. c.arena ≡ tree) }
    ensures typed { OnOk result (IsTyped [] (term_of tree)) }
    ensures fault { IfErr result (λ e. IsFault e (term_of tree)) }
{
    let usages = no_usages(alloc, tree.len())?;
    let spare = Spare::new(alloc);
    let mut checker = Checker {
        alloc,
        usages,
        spare,
    };
    let mut env = Env::new(alloc);
    match check_term(&mut checker, &tree, tree.root(), &mut env) {
        Ok(_) => {
            let Checker { usages, .. } = checker;
            Ok(Checked { tree, usages })
        }
        Err(e) => Err(e),
    }
}
