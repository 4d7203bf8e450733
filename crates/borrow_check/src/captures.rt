//! Captured names: what their variables hold becomes slots of a new environment.

ghost use Rattle.std.specs.Prelude.{◌≡◌, ℕ, ◌+◌, ◌<◌, ◌≤◌, ◌∷◌, [], List, length, IfOk, OnOk, false};
ghost use Rattle.fr_terms.specs.Terms.{Text};
ghost use Rattle.fr_typing.specs.Places.{AreBelow, kind_places, found, type_at, Env as TypingEnv};
ghost use Rattle.fr_typing.specs.Finding.{Outcome};
ghost use Rattle.fr_typing.specs.Kinds.{map_some, view, whole};
ghost use Rattle.fr_typing.specs.Checks.{is_owned};
ghost use Rattle.fr_typing.specs.Captures.{by_par, captured_kind, capture, capture_all, capture_both, env_left_by_all, env_of_all};
ghost use Rattle.fr_syntax.specs.Meanings.{meanings, meaning_at, captures_at, sort_of, capture_s, all_need, nodes_in};
ghost use Rattle.fr_types.specs.Bounds.{most_slots};
ghost use Rattle.fr_types.specs.Types.{kind_of, piece_of};
ghost use Rattle.fr_types.specs.States.{slot_in, env_of, AreNested};
ghost use Rattle.borrow_check.specs.Rules.{IsInScope, Passes};
ghost use Rattle.borrow_check.specs.Capturing.{captured_of, capture_at, capturer_of, AreNames, IsFull, IsSent, when_free, GoesOn, GoesOnBoth};
ghost use Rattle.borrow_check.specs.Heaps.{owned_in};
ghost use Rattle.borrow_check.specs.Usages.{capture_usage, capture_usages, AreWritten, AreBothWritten};

use crate::check_error::CheckError;
use crate::checker::Checker;
use crate::finding::find;
use crate::heap_place::heap_type;
use crate::rules::bind;
use crate::usage::Usage;
use crate::written::{Name, Starter, Written};
use fr_base::{Lval, NoMemory};
use fr_syntax::{Nodes, Term, Tree};
use fr_types::{Env, O, Part, Ty, copies, is_owned};
use fr_typing::Reason;
use std::alloc::Global;

// The name that a node captures.
fn name_at(tree: &Tree, at: u32) -> Name
    requires here { at < length (meanings tree.now) }
    requires sort { sort_of (meaning_at (meanings tree.now) at).what ≡ capture_s }
    ensures capture { capture_at (meanings tree.now) at ≡ captured_of tree.now.names result }
    ensures name { result.name < length tree.now.names }
    ensures nodes { (meaning_at (meanings tree.now) at).nodes ≡ at ∷ [] }
{
    let Some(node) = tree.node(at) else {
        unreachable!()
    };
    match node.term {
        Term::Capture(name) => Name {
            name,
            place: node.place,
        },
        _ => unreachable!(),
    }
}

// The type of a part that is whole.
fn full(part: Part, place: u32) -> Result<Ty, CheckError>
    ensures { IsFull result place (piece_of part) }
{
    match part {
        Part::Whole(t) => Ok(t),
        Part::Gone(t) => {
            drop(t);
            Err(CheckError::Fault {
                place,
                reason: Reason::NotDefined,
            })
        }
        Part::Box(p) => {
            drop(p);
            Err(CheckError::Fault {
                place,
                reason: Reason::NotFull,
            })
        }
    }
}

// The type that a variable of this slot and type has in a new thread: an owned type as it is; a thread that is waited for has a
// view of what a shared reference leads to in the heap.
fn sent(
    alloc: Global,
    env: &Env,
    by: Starter,
    slot: u32,
    t: &Ty,
    place: u32,
) -> Result<Ty, CheckError>
    requires here { slot < length env.now }
    requires nested { AreNested env.now }
    ensures sent { (names : List Text) → type_at (env_of names env.now) (record { slot = slot; depth = 0 }) ≡ found (whole (kind_of t.now)) → IsSent result place (captured_kind (capturer_of by) (env_of names env.now) (kind_of t.now)) }
    ensures places { IfOk result (λ u. kind_places (kind_of u) ≡ []) }
{
    if is_owned(t) {
        return Ok(t.copy(alloc)?);
    }
    match view(alloc, env, by, slot, t)? {
        Some(o) => Ok(Ty::View(o)),
        None => Err(CheckError::Fault {
            place,
            reason: Reason::NotOwned,
        }),
    }
}

// What a thread that is waited for has a view of.
fn view(alloc: Global, env: &Env, by: Starter, slot: u32, t: &Ty) -> Result<Option<O>, NoMemory>
    requires here { slot < length env.now }
    requires nested { AreNested env.now }
    requires other { is_owned (kind_of t.now) ≡ false }
    ensures { (names : List Text) → IfOk result (λ o. type_at (env_of names env.now) (record { slot = slot; depth = 0 }) ≡ found (whole (kind_of t.now)) → captured_kind (capturer_of by) (env_of names env.now) (kind_of t.now) ≡ map_some view (owned_in o)) }
{
    match by {
        Starter::Spawn => Ok(None),
        Starter::Par => match t {
            Ty::View(o) => Ok(Some(o.copy(alloc)?)),
            Ty::Shared(_) => heap_type(alloc, env, slot),
            _ => Ok(None),
        },
    }
}

// The checks that a variable of this type may be handed on. What moves is gone afterwards.
fn hand_on(alloc: Global, env: &mut Env, x: Lval, t: &Ty, place: u32) -> Result<(), CheckError>
    requires here { x.slot < length env.old }
    requires below { AreBelow x.slot (kind_places (kind_of t.now)) }
    ensures passes { (names : List Text) (rest : TypingEnv → Outcome) → Passes result (when_free (env_of names env.old) place x (kind_of t.now) rest) (rest (env_of names env.new)) }
    ensures names { OnOk result ((name : ℕ) → slot_in env.new name ≡ slot_in env.old name) }
    ensures same { OnOk result (length env.new ≡ length env.old) }
{
    if copies(t) {
        if env.read_blocked(x.slot) {
            return Err(CheckError::Fault {
                place,
                reason: Reason::ReadBlocked,
            });
        }
        return Ok(());
    }
    if env.write_blocked(x.slot) {
        return Err(CheckError::Fault {
            place,
            reason: Reason::WriteBlocked,
        });
    }
    let gone = t.copy(alloc)?;
    env.put(alloc, x, Part::Gone(gone))?;
    Ok(())
}

// Captures a name: what its variable holds stands in a new slot of the new environment. The answer is how the variable is used.
fn capture(
    alloc: Global,
    by: Starter,
    env: &mut Env,
    new: &mut Env,
    captured: Name,
) -> Result<Usage, CheckError>
    requires few { length new.old < most_slots }
    ensures goes_on { (names : List Text) → IsInScope names env.old → IsInScope names new.old → captured.name < length names → GoesOn result (capture (capturer_of by) (env_of names env.old) (env_of names new.old) (captured_of names captured)) (env_of names env.new) (env_of names new.new) }
    ensures usage { IfOk result (λ u. (names : List Text) → IsInScope names env.old → captured.name < length names → u ≡ capture_usage (env_of names env.old) (captured_of names captured)) }
    ensures scope { OnOk result ((names : List Text) → IsInScope names env.old → IsInScope names env.new) }
    ensures new_scope { OnOk result ((names : List Text) → IsInScope names new.old → captured.name < length names → IsInScope names new.new) }
    ensures same { OnOk result (length env.new ≡ length env.old) }
    ensures one { OnOk result (length new.new ≡ length new.old + 1) }
{
    let Name { name, place } = captured;
    let written = Written {
        name,
        stars: 0,
        place,
    };
    let (x, part) = find(alloc, env, written)?;
    let t = full(part, place)?;
    let sent = sent(alloc, env, by, x.slot, &t, place)?;
    let usage = Usage {
        slot: x.slot,
        takes: !copies(&t),
    };
    hand_on(alloc, env, x, &t, place)?;
    drop(t);
    drop(bind(new, name, sent, place)?);
    Ok(usage)
}

/// Captures the names of nodes in order, and notes how their variables are used.
pub fn capture_all(
    checker: &mut Checker,
    tree: &Tree,
    by: Starter,
    captures: &Nodes,
    env: &mut Env,
    new: &mut Env,
) -> Result<(), CheckError>
    requires names { AreNames tree.now captures.now.items }
    requires scope { IsInScope tree.now.names env.old }
    requires new_scope { IsInScope tree.now.names new.old }
    requires usages { length checker.old.usages.items ≡ length (meanings tree.now) }
    requires few { length new.old + length (nodes_in (meanings tree.now) (all_need capture_s captures.now.items)) ≤ most_slots }
    ensures goes_on { GoesOn result (capture_all (capturer_of by) (captures_at (meanings tree.now) captures.now.items) (env_of tree.now.names env.old) (env_of tree.now.names new.old)) (env_of tree.now.names env.new) (env_of tree.now.names new.new) }
    ensures scope { OnOk result (IsInScope tree.now.names env.new) }
    ensures new_scope { OnOk result (IsInScope tree.now.names new.new) }
    ensures same { OnOk result (length env.new ≡ length env.old) }
    ensures few { OnOk result (length new.new ≡ length new.old + length (nodes_in (meanings tree.now) (all_need capture_s captures.now.items))) }
    ensures usages { OnOk result (AreWritten checker.old.usages.items checker.new.usages.items (nodes_in (meanings tree.now) (all_need capture_s captures.now.items)) (capture_usages (capturer_of by) (env_of tree.now.names env.old) (env_of tree.now.names new.old) (captures_at (meanings tree.now) captures.now.items))) }
{
    'names: for next in 0..captures.len() {
        let Some(at) = captures.at(next) else {
            unreachable!()
        };
        let usage = capture(checker.alloc, by, env, new, name_at(tree, *at))?;
        checker.usages[*at as usize] = usage;
    }
    Ok(())
}

/// Captures the two lists of names of a `par`, the second from what the first leaves.
pub fn capture_both(
    checker: &mut Checker,
    tree: &Tree,
    first: &Nodes,
    second: &Nodes,
    env: &mut Env,
) -> Result<(Env, Env), CheckError>
    requires first { AreNames tree.now first.now.items }
    requires second { AreNames tree.now second.now.items }
    requires scope { IsInScope tree.now.names env.old }
    requires usages { length checker.old.usages.items ≡ length (meanings tree.now) }
    requires few { length (nodes_in (meanings tree.now) (all_need capture_s first.now.items)) + length (nodes_in (meanings tree.now) (all_need capture_s second.now.items)) ≤ most_slots }
    ensures goes_on { GoesOnBoth result tree.now.names (capture_both (captures_at (meanings tree.now) first.now.items) (captures_at (meanings tree.now) second.now.items) (env_of tree.now.names env.old)) (env_of tree.now.names env.new) }
    ensures scope { OnOk result (IsInScope tree.now.names env.new) }
    ensures first_scope { IfOk result (λ p. IsInScope tree.now.names p.0) }
    ensures second_scope { IfOk result (λ p. IsInScope tree.now.names p.1) }
    ensures same { OnOk result (length env.new ≡ length env.old) }
    ensures first_few { IfOk result (λ p. length p.0 ≡ length (nodes_in (meanings tree.now) (all_need capture_s first.now.items))) }
    ensures second_few { IfOk result (λ p. length p.1 ≡ length (nodes_in (meanings tree.now) (all_need capture_s second.now.items))) }
    ensures first_new { IfOk result (λ p. env_of tree.now.names p.0 ≡ env_of_all by_par (env_of tree.now.names env.old) (captures_at (meanings tree.now) first.now.items)) }
    ensures second_new { let left = env_left_by_all by_par (env_of tree.now.names env.old) (captures_at (meanings tree.now) first.now.items) in
        IfOk result (λ p. env_of tree.now.names p.1 ≡ env_of_all by_par left (captures_at (meanings tree.now) second.now.items)) }
    ensures usages { let left = env_left_by_all by_par (env_of tree.now.names env.old) (captures_at (meanings tree.now) first.now.items) in
        OnOk result (AreBothWritten checker.old.usages.items checker.new.usages.items
        (nodes_in (meanings tree.now) (all_need capture_s first.now.items)) (nodes_in (meanings tree.now) (all_need capture_s second.now.items))
        (capture_usages by_par (env_of tree.now.names env.old) [] (captures_at (meanings tree.now) first.now.items)) (capture_usages by_par left [] (captures_at (meanings tree.now) second.now.items))) }
{
    let mut ours = checker.spare.take();
    capture_all(checker, tree, Starter::Par, first, env, &mut ours)?;
    let mut theirs = checker.spare.take();
    capture_all(checker, tree, Starter::Par, second, env, &mut theirs)?;
    Ok((ours, theirs))
}
