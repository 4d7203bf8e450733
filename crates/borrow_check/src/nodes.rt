//! Nodes with a place: its use is noted, and the rule follows.

ghost use Rattle.std.specs.Prelude.{◌≡◌, ◌<◌, ◌≤◌, ◌+◌, ◌∷◌, [], length, Some, false, IfOk, OnOk};
ghost use Rattle.fr_terms.specs.Terms.{read_t, borrow_t, borrow_mut_t, dup_t};
ghost use Rattle.fr_typing.specs.Kinds.{own, unit};
ghost use Rattle.fr_typing.specs.Places.{AreBelow, kind_places, Env as TypingEnv};
ghost use Rattle.fr_typing.specs.Finding.{Outcome, find_shown};
ghost use Rattle.fr_typing.specs.Rules.{assign_rule, lock_rule};
ghost use Rattle.fr_typing.specs.Typing.{typing};
ghost use Rattle.fr_syntax.specs.Arena.{text_of};
ghost use Rattle.fr_syntax.specs.Meanings.{meanings, meaning_at, place_at, sort_of, place_s};
ghost use Rattle.fr_types.specs.Bounds.{most_slots};
ghost use Rattle.fr_types.specs.Types.{kind_of};
ghost use Rattle.fr_types.specs.States.{env_of};
ghost use Rattle.borrow_check.specs.Rules.{IsInScope, Gives, GoesTo};
ghost use Rattle.borrow_check.specs.Usages.{write, usage_of, read_usage};

use crate::check_error::CheckError;
use crate::checker::Checker;
use crate::finding::{find, find_shown, find_whole, written_at};
use crate::rules::{Typed, borrow_mut_whole, borrow_whole, content, read_whole, with_lock, write};
use crate::usage::Usage;
use fr_base::Lval;
use fr_syntax::Tree;
use fr_types::{Env, Ty, copies};

// The use of a place where nothing is taken out.
fn used(x: Lval) -> Usage
    ensures { result ≡ record { slot = x.slot; takes = false } }
{
    Usage {
        slot: x.slot,
        takes: false,
    }
}

/// Types a read node of the place of a node, and notes its use at both.
pub fn read(
    checker: &mut Checker,
    tree: &Tree,
    env: &mut Env,
    at: u32,
    from: u32,
) -> Result<Ty, CheckError>
    requires here { from < length (meanings tree.now) }
    requires sort { sort_of (meaning_at (meanings tree.now) from).what ≡ place_s }
    requires scope { IsInScope tree.now.names env.old }
    requires usages { from < length checker.old.usages.items }
    requires read { at < length checker.old.usages.items }
    ensures gives { Gives result (typing (read_t 0 (place_at (meanings tree.now) from)) (env_of tree.now.names env.old)) (env_of tree.now.names env.new) }
    ensures below { IfOk result (λ t. AreBelow (length env.new) (kind_places (kind_of t))) }
    ensures scope { OnOk result (IsInScope tree.now.names env.new) }
    ensures same { OnOk result (length env.new ≡ length env.old) }
    ensures place { OnOk result ((meaning_at (meanings tree.now) from).nodes ≡ from ∷ []) }
    ensures usages { let usage = Some (read_usage (place_at (meanings tree.now) from) (env_of tree.now.names env.old)) in
        OnOk result (checker.new.usages.items ≡ write (write checker.old.usages.items from usage) at usage) }
{
    let w = written_at(tree, from);
    let (x, t) = find_whole(checker.alloc, env, w)?;
    let usage = Usage {
        slot: x.slot,
        takes: !copies(&t),
    };
    let t = read_whole(checker.alloc, env, w, x, t)?;
    checker.usages[from as usize] = usage;
    checker.usages[at as usize] = usage;
    Ok(t)
}

/// Types a shared borrow of the place of a node, and notes its use there.
pub fn borrow(checker: &mut Checker, tree: &Tree, env: &Env, of: u32) -> Result<Ty, CheckError>
    requires here { of < length (meanings tree.now) }
    requires sort { sort_of (meaning_at (meanings tree.now) of).what ≡ place_s }
    requires scope { IsInScope tree.now.names env.now }
    requires usages { of < length checker.old.usages.items }
    ensures gives { Gives result (typing (borrow_t 0 (place_at (meanings tree.now) of)) (env_of tree.now.names env.now)) (env_of tree.now.names env.now) }
    ensures below { IfOk result (λ t. AreBelow (length env.now) (kind_places (kind_of t))) }
    ensures place { OnOk result ((meaning_at (meanings tree.now) of).nodes ≡ of ∷ []) }
    ensures usages { OnOk result (checker.new.usages.items ≡ write checker.old.usages.items of (Some (usage_of (env_of tree.now.names env.now) (place_at (meanings tree.now) of) false))) }
{
    let w = written_at(tree, of);
    let (x, t) = find_whole(checker.alloc, env, w)?;
    drop(t);
    let t = borrow_whole(checker.alloc, env, w, x)?;
    checker.usages[of as usize] = used(x);
    Ok(t)
}

/// The same of a mutable borrow.
pub fn borrow_mut(checker: &mut Checker, tree: &Tree, env: &Env, of: u32) -> Result<Ty, CheckError>
    requires here { of < length (meanings tree.now) }
    requires sort { sort_of (meaning_at (meanings tree.now) of).what ≡ place_s }
    requires scope { IsInScope tree.now.names env.now }
    requires usages { of < length checker.old.usages.items }
    ensures gives { Gives result (typing (borrow_mut_t 0 (place_at (meanings tree.now) of)) (env_of tree.now.names env.now)) (env_of tree.now.names env.now) }
    ensures below { IfOk result (λ t. AreBelow (length env.now) (kind_places (kind_of t))) }
    ensures place { OnOk result ((meaning_at (meanings tree.now) of).nodes ≡ of ∷ []) }
    ensures usages { OnOk result (checker.new.usages.items ≡ write checker.old.usages.items of (Some (usage_of (env_of tree.now.names env.now) (place_at (meanings tree.now) of) false))) }
{
    let w = written_at(tree, of);
    let (x, t) = find_whole(checker.alloc, env, w)?;
    drop(t);
    let t = borrow_mut_whole(checker.alloc, env, w, x)?;
    checker.usages[of as usize] = used(x);
    Ok(t)
}

/// Types an assignment to the place of a node, after its value, and notes the use of the place.
pub fn assign(
    checker: &mut Checker,
    tree: &Tree,
    env: &mut Env,
    to: u32,
    value: Typed,
) -> Result<Ty, CheckError>
    requires here { to < length (meanings tree.now) }
    requires sort { sort_of (meaning_at (meanings tree.now) to).what ≡ place_s }
    requires scope { IsInScope tree.now.names env.old }
    requires below { AreBelow (length env.old) (kind_places (kind_of value.t)) }
    requires usages { to < length checker.old.usages.items }
    ensures gives { Gives result (assign_rule (place_at (meanings tree.now) to) value.place (kind_of value.t) (env_of tree.now.names env.old)) (env_of tree.now.names env.new) }
    ensures unit { IfOk result (λ u. kind_of u ≡ own unit) }
    ensures scope { OnOk result (IsInScope tree.now.names env.new) }
    ensures same { OnOk result (length env.new ≡ length env.old) }
    ensures place { OnOk result ((meaning_at (meanings tree.now) to).nodes ≡ to ∷ []) }
    ensures usages { OnOk result (checker.new.usages.items ≡ write checker.old.usages.items to (Some (usage_of (env_of tree.now.names env.old) (place_at (meanings tree.now) to) false))) }
{
    let w = written_at(tree, to);
    let (x, part) = find(checker.alloc, env, w)?;
    drop(write(checker.alloc, env, w, x, part, value)?);
    checker.usages[to as usize] = used(x);
    Ok(Ty::Unit)
}

/// Types a second value of the mutex at the place of a node, and notes the use of the place.
pub fn dup(checker: &mut Checker, tree: &Tree, env: &Env, of: u32) -> Result<Ty, CheckError>
    requires here { of < length (meanings tree.now) }
    requires sort { sort_of (meaning_at (meanings tree.now) of).what ≡ place_s }
    requires scope { IsInScope tree.now.names env.now }
    requires usages { of < length checker.old.usages.items }
    ensures gives { Gives result (typing (dup_t 0 (place_at (meanings tree.now) of)) (env_of tree.now.names env.now)) (env_of tree.now.names env.now) }
    ensures below { IfOk result (λ t. kind_places (kind_of t) ≡ []) }
    ensures place { OnOk result ((meaning_at (meanings tree.now) of).nodes ≡ of ∷ []) }
    ensures usages { OnOk result (checker.new.usages.items ≡ write checker.old.usages.items of (Some (usage_of (env_of tree.now.names env.now) (place_at (meanings tree.now) of) false))) }
{
    let w = written_at(tree, of);
    let (x, t) = find_shown(checker.alloc, env, w)?;
    let o = content(t, w.place)?;
    checker.usages[of as usize] = used(x);
    Ok(Ty::Mutex(o))
}

/// Takes the content of the mutex at the place of a node, by a `lock` at `at`: the mutex's slot has no name, and the content's stands above
/// it. Notes the use of the place.
pub fn lock(
    checker: &mut Checker,
    tree: &Tree,
    env: &mut Env,
    of: u32,
    name: u32,
    at: u32,
) -> Result<(), CheckError>
    requires here { of < length (meanings tree.now) }
    requires sort { sort_of (meaning_at (meanings tree.now) of).what ≡ place_s }
    requires scope { IsInScope tree.now.names env.old }
    requires name { name < length tree.now.names }
    requires usages { of < length checker.old.usages.items }
    requires few { length env.old + length (meaning_at (meanings tree.now) of).nodes + 1 ≤ most_slots }
    ensures goes_to { let e = env_of tree.now.names env.old in
        GoesTo result (λ (go : TypingEnv → Outcome). find_shown e (place_at (meanings tree.now) of) (lock_rule at e (place_at (meanings tree.now) of) (text_of tree.now.names name) go)) (env_of tree.now.names env.new) }
    ensures scope { OnOk result (IsInScope tree.now.names env.new) }
    ensures two { OnOk result (length env.new ≡ length env.old + 2) }
    ensures place { OnOk result ((meaning_at (meanings tree.now) of).nodes ≡ of ∷ []) }
    ensures usages { OnOk result (checker.new.usages.items ≡ write checker.old.usages.items of (Some (usage_of (env_of tree.now.names env.old) (place_at (meanings tree.now) of) false))) }
{
    let w = written_at(tree, of);
    let (x, t) = find_shown(checker.alloc, env, w)?;
    let o = content(t, w.place)?;
    with_lock(checker.alloc, env, x, name, o, at)?;
    checker.usages[of as usize] = used(x);
    Ok(())
}
