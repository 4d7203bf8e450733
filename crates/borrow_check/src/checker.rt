//! The types of a tree's terms.

ghost use Rattle.std.specs.Prelude.{◌≡◌, ◌<◌, ◌≤◌, ◌+◌, ◌++◌, [], length, IfOk, OnOk};
ghost use Rattle.fr_base.specs.declared.place.Op.{Op};
ghost use Rattle.fr_terms.specs.Terms.{arith_t, spawn_t, start_of};
ghost use Rattle.fr_typing.specs.Places.{AreBelow, kind_places};
ghost use Rattle.fr_typing.specs.Captures.{by_spawn};
ghost use Rattle.fr_typing.specs.Typing.{typing};
ghost use Rattle.fr_syntax.specs.Meanings.{meanings, meaning_at, term_at, items_at, captures_at, sort_of, term_s, capture_s, all_need, nodes_in};
ghost use Rattle.fr_types.specs.Types.{kind_of};
ghost use Rattle.fr_types.specs.States.{env_of};
ghost use Rattle.borrow_check.specs.Rules.{IsInScope, Gives, GivesType, GivesItems};
ghost use Rattle.borrow_check.specs.Nodes.{IsReady, AreReady};
ghost use Rattle.borrow_check.specs.Capturing.{AreNames};
ghost use Rattle.borrow_check.specs.Usages.{operand_usages, thread_usages, usages_of, usages_in, AreWritten};
ghost use Rattle.fr_types.specs.Bounds.{most_slots};

use crate::captures::{capture_all, capture_both};
use crate::check_error::CheckError;
use crate::nodes::{assign, borrow, borrow_mut, dup, lock, read};
use crate::rules::{
    Typed, bind, combined, end_block, in_box, in_mutex, in_task, joined, number, paired, printed,
    unlock,
};
use crate::spare::Spare;
use crate::usage::Usage;
use crate::written::Starter;
use fr_syntax::{Nodes, Term, Tree};
use fr_types::{Env, Ty};
use std::alloc::Global;
use std::mem;

/// What a check has at hand beside the tree: the allocator, by node how its place is used, and the environments that are kept
/// for the next thread.
#[derive(Drop)]
pub struct Checker {
    pub alloc: Global,
    pub usages: Vec<Usage>,
    pub spare: Spare,
}

// Where the first token of a term stands.
fn start(tree: &Tree, at: u32) -> u32
    requires here { at < length (meanings tree.now) }
    requires sort { sort_of (meaning_at (meanings tree.now) at).what ≡ term_s }
    ensures { result ≡ start_of (term_at (meanings tree.now) at) }
{
    let Some(node) = tree.node(at) else {
        unreachable!()
    };
    node.place
}

/// The type of the term of a node, or its first fault. Each slot that it leaves has a node of its own.
#[cycle(check)]
pub fn check_term(
    checker: &mut Checker,
    tree: &Tree,
    at: u32,
    env: &mut Env,
) -> Result<Ty, CheckError>
    requires ready { IsReady tree.now at }
    requires scope { IsInScope tree.now.names env.old }
    requires usages { length checker.old.usages.items ≡ length (meanings tree.now) }
    requires few { length env.old + length (meaning_at (meanings tree.now) at).nodes ≤ most_slots }
    ensures gives { Gives result (typing (term_at (meanings tree.now) at) (env_of tree.now.names env.old)) (env_of tree.now.names env.new) }
    ensures below { IfOk result (λ t. AreBelow (length env.new) (kind_places (kind_of t))) }
    ensures scope { OnOk result (IsInScope tree.now.names env.new) }
    ensures grows { OnOk result (length env.old ≤ length env.new) }
    ensures few { OnOk result (length env.new ≤ length env.old + length (meaning_at (meanings tree.now) at).nodes) }
    ensures usages { OnOk result (AreWritten checker.old.usages.items checker.new.usages.items (meaning_at (meanings tree.now) at).nodes (usages_of (term_at (meanings tree.now) at) (env_of tree.now.names env.old))) }
{
    let Some(node) = tree.node(at) else {
        unreachable!()
    };
    match &node.term {
        Term::Number(_) => Ok(Ty::Int),
        Term::Unit => Ok(Ty::Unit),
        Term::Read(from) => read(checker, tree, env, at, *from),
        Term::Borrow(of) => borrow(checker, tree, env, *of),
        Term::BorrowMut(of) => borrow_mut(checker, tree, env, *of),
        Term::Box(value) => {
            let t = check_term(checker, tree, *value, env)?;
            in_box(checker.alloc, t, start(tree, *value))
        }
        Term::Print(value) => {
            let t = check_term(checker, tree, *value, env)?;
            printed(&t, start(tree, *value))
        }
        Term::Arith(_, left, right) => check_arith(checker, tree, *left, *right, at, env),
        Term::Let(name, value) => {
            let t = check_term(checker, tree, *value, env)?;
            bind(env, *name, t, node.place)
        }
        Term::Assign(to, value) => {
            let t = check_term(checker, tree, *value, env)?;
            let value = Typed {
                t,
                place: start(tree, *value),
            };
            assign(checker, tree, env, *to, value)
        }
        Term::Join(task) => {
            let t = check_term(checker, tree, *task, env)?;
            joined(t, start(tree, *task))
        }
        Term::Spawn(captures, body) => check_spawn(checker, tree, captures, *body, env),
        Term::Block(items) => {
            let base = env.len();
            let (t, last) = check_items(checker, tree, items, node.place, at, env)?;
            end_block(env, base, t, last)
        }
        Term::Mutex(value) => {
            let t = check_term(checker, tree, *value, env)?;
            in_mutex(checker.alloc, t, start(tree, *value))
        }
        Term::Dup(of) => dup(checker, tree, env, *of),
        Term::Lock(of, name, body) => {
            let base = env.len();
            lock(checker, tree, env, *of, *name, node.place)?;
            let t = check_term(checker, tree, *body, env)?;
            unlock(env, base, t, node.place, start(tree, *body))
        }
        Term::Par(captures, body, others, other) => {
            let (ours, theirs) = capture_both(checker, tree, captures, others, env)?;
            let first = check_branch(checker, tree, *body, ours)?;
            let second = check_branch(checker, tree, *other, theirs)?;
            paired(&first, start(tree, *body), &second, start(tree, *other))
        }
        Term::Place(..) | Term::Capture(_) => unreachable!(),
    }
}

// The operands, which stand before this node: the right one is typed in the environment that the left one leaves.
#[cycle(check)]
fn check_arith(
    checker: &mut Checker,
    tree: &Tree,
    left: u32,
    right: u32,
    bound: u32,
    env: &mut Env,
) -> Result<Ty, CheckError>
    requires left { left < bound }
    requires right { right < bound }
    requires left_ready { IsReady tree.now left }
    requires right_ready { IsReady tree.now right }
    requires scope { IsInScope tree.now.names env.old }
    requires usages { length checker.old.usages.items ≡ length (meanings tree.now) }
    requires few { length env.old + length (meaning_at (meanings tree.now) left).nodes + length (meaning_at (meanings tree.now) right).nodes ≤ most_slots }
    ensures gives { (op : Op) → Gives result (typing (arith_t 0 op (term_at (meanings tree.now) left) (term_at (meanings tree.now) right)) (env_of tree.now.names env.old)) (env_of tree.now.names env.new) }
    ensures below { IfOk result (λ t. AreBelow (length env.new) (kind_places (kind_of t))) }
    ensures scope { OnOk result (IsInScope tree.now.names env.new) }
    ensures grows { OnOk result (length env.old ≤ length env.new) }
    ensures few { OnOk result (length env.new ≤ length env.old + length (meaning_at (meanings tree.now) left).nodes + length (meaning_at (meanings tree.now) right).nodes) }
    ensures usages { let ms = meanings tree.now in
        OnOk result (AreWritten checker.old.usages.items checker.new.usages.items ((meaning_at ms left).nodes ++ (meaning_at ms right).nodes)
        (operand_usages (term_at ms left) (term_at ms right) (env_of tree.now.names env.old))) }
{
    let first = check_term(checker, tree, left, env)?;
    number(&first, start(tree, left))?;
    drop(first);
    let second = check_term(checker, tree, right, env)?;
    combined(&second, start(tree, right))
}

// A new thread's captures and its body: the body is typed in an environment of the captures alone.
#[cycle(check)]
fn check_spawn(
    checker: &mut Checker,
    tree: &Tree,
    captures: &Nodes,
    body: u32,
    env: &mut Env,
) -> Result<Ty, CheckError>
    requires names { AreNames tree.now captures.now.items }
    requires ready { IsReady tree.now body }
    requires scope { IsInScope tree.now.names env.old }
    requires usages { length checker.old.usages.items ≡ length (meanings tree.now) }
    requires few { length (nodes_in (meanings tree.now) (all_need capture_s captures.now.items)) + length (meaning_at (meanings tree.now) body).nodes ≤ most_slots }
    ensures gives { Gives result (typing (spawn_t 0 (captures_at (meanings tree.now) captures.now.items) (term_at (meanings tree.now) body)) (env_of tree.now.names env.old)) (env_of tree.now.names env.new) }
    ensures below { IfOk result (λ t. kind_places (kind_of t) ≡ []) }
    ensures scope { OnOk result (IsInScope tree.now.names env.new) }
    ensures same { OnOk result (length env.new ≡ length env.old) }
    ensures usages { let ms = meanings tree.now in
        OnOk result (AreWritten checker.old.usages.items checker.new.usages.items (nodes_in ms (all_need capture_s captures.now.items) ++ (meaning_at ms body).nodes)
        (thread_usages by_spawn (captures_at ms captures.now.items) (term_at ms body) (env_of tree.now.names env.old))) }
{
    let mut new = checker.spare.take();
    capture_all(checker, tree, Starter::Spawn, captures, env, &mut new)?;
    let t = check_term(checker, tree, body, &mut new)?;
    checker.spare.put(new)?;
    in_task(checker.alloc, t, start(tree, body))
}

// A block of a `par`, in an environment of its captures alone, which is kept for the next thread.
#[cycle(check)]
fn check_branch(checker: &mut Checker, tree: &Tree, body: u32, new: Env) -> Result<Ty, CheckError>
    requires ready { IsReady tree.now body }
    requires scope { IsInScope tree.now.names new }
    requires usages { length checker.old.usages.items ≡ length (meanings tree.now) }
    requires few { length new + length (meaning_at (meanings tree.now) body).nodes ≤ most_slots }
    ensures gives { GivesType result (typing (term_at (meanings tree.now) body) (env_of tree.now.names new)) }
    ensures usages { OnOk result (AreWritten checker.old.usages.items checker.new.usages.items (meaning_at (meanings tree.now) body).nodes (usages_of (term_at (meanings tree.now) body) (env_of tree.now.names new))) }
{
    let mut new = new;
    let t = check_term(checker, tree, body, &mut new)?;
    checker.spare.put(new)?;
    Ok(t)
}

// The items in order: the last one's type and place.
#[cycle(check)]
fn check_items(
    checker: &mut Checker,
    tree: &Tree,
    items: &Nodes,
    place: u32,
    bound: u32,
    env: &mut Env,
) -> Result<(Ty, u32), CheckError>
    requires ready { AreReady tree.now bound items.now.items }
    requires scope { IsInScope tree.now.names env.old }
    requires usages { length checker.old.usages.items ≡ length (meanings tree.now) }
    requires few { length env.old + length (nodes_in (meanings tree.now) (all_need term_s items.now.items)) ≤ most_slots }
    ensures gives { GivesItems result (items_at (meanings tree.now) items.now.items) place (env_of tree.now.names env.old) (env_of tree.now.names env.new) }
    ensures below { IfOk result (λ p. AreBelow (length env.new) (kind_places (kind_of p.0))) }
    ensures scope { OnOk result (IsInScope tree.now.names env.new) }
    ensures grows { OnOk result (length env.old ≤ length env.new) }
    ensures few { OnOk result (length env.new ≤ length env.old + length (nodes_in (meanings tree.now) (all_need term_s items.now.items))) }
    ensures usages { OnOk result (AreWritten checker.old.usages.items checker.new.usages.items (nodes_in (meanings tree.now) (all_need term_s items.now.items)) (usages_in (items_at (meanings tree.now) items.now.items) (env_of tree.now.names env.old))) }
{
    let mut t = Ty::Unit;
    let mut last = place;
    'items: for next in 0..items.len() {
        let Some(item) = items.at(next) else {
            unreachable!()
        };
        let found = check_term(checker, tree, *item, env)?;
        drop(mem::replace(&mut t, found));
        last = start(tree, *item);
    }
    Ok((t, last))
}
