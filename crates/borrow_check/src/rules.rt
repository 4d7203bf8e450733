//! The rules of the typing table, after the parts of a term.

ghost use Rattle.std.specs.Prelude.{◌≡◌, ℕ, ◌-◌, ◌+◌, ◌<◌, ◌≤◌, [], List, length, drop, false, is_some, IfOk, OnOk};
ghost use Rattle.fr_terms.specs.Terms.{Text};
ghost use Rattle.fr_typing.specs.declared.reason.Reason.TheVariants.{NameInScope, ReadBlocked, WrongType};
ghost use Rattle.fr_typing.specs.Kinds.{Owned, mutex, task, Kind, own, unit};
ghost use Rattle.fr_typing.specs.Places.{AreBelow, kind_places, found, read_blocked, slot_of, type_at, Env as TypingEnv};
ghost use Rattle.fr_typing.specs.Checks.{is_kept_out, is_unit, is_whole, mutex_of, names_from, set_through, with_lock};
ghost use Rattle.fr_typing.specs.Finding.{Outcome, given, typed, unless};
ghost use Rattle.fr_typing.specs.Rules.{read_rule, borrow_rule, borrow_mut_rule, held_rule, box_rule, int_rule, print_rule, arith_rule, let_rule, write_rule, end_rule, join_rule, par_rule, unlock_rule};
ghost use Rattle.fr_syntax.specs.Arena.{text_of};
ghost use Rattle.fr_types.specs.Bounds.{most_slots};
ghost use Rattle.fr_types.specs.OwnedTypes.{owned_of};
ghost use Rattle.fr_types.specs.Types.{kind_of, piece_of};
ghost use Rattle.fr_types.specs.States.{slot_in, env_of};
ghost use Rattle.borrow_check.specs.Rules.{spot_of, when_open, when_fitting, IsInScope, Gives, GoesTo, Follows, Passes, IsContent, IsHeld};

use crate::check_error::CheckError;
use crate::written::Written;
use fr_base::{Lval, NoMemory};
use fr_types::{
    Env, O, Part, Places, Ty, copies, goes_through_mutable, has_shape_of, is_full, is_int,
    is_own_path, is_owned, is_writable, names_from,
};
use fr_typing::Reason;
use std::alloc::Global;

/// The type of a value, and the byte of the source where its first token stands.
#[derive(Drop)]
pub struct Typed {
    pub t: Ty,
    pub place: u32,
}

/// A read of a whole place: the type copies where the place may be read, or moves out where nothing refers to it.
pub fn read_whole(
    alloc: Global,
    env: &mut Env,
    w: Written,
    x: Lval,
    t: Ty,
) -> Result<Ty, CheckError>
    requires here { x.slot < length env.old }
    requires below { AreBelow x.slot (kind_places (kind_of t)) }
    ensures gives { (names : List Text) → Gives result (read_rule (env_of names env.old) (spot_of names w) x (kind_of t)) (env_of names env.new) }
    ensures kind { IfOk result (λ u. kind_of u ≡ kind_of t) }
    ensures names { OnOk result ((name : ℕ) → slot_in env.new name ≡ slot_in env.old name) }
    ensures same { OnOk result (length env.new ≡ length env.old) }
{
    if copies(&t) {
        if env.read_blocked(x.slot) {
            return Err(CheckError::Fault {
                place: w.place,
                reason: Reason::ReadBlocked,
            });
        }
        return Ok(t);
    }
    if env.write_blocked(x.slot) {
        return Err(CheckError::Fault {
            place: w.place,
            reason: Reason::WriteBlocked,
        });
    }
    if !is_own_path(alloc, env, x)? {
        return Err(CheckError::Fault {
            place: w.place,
            reason: Reason::MovedThrough,
        });
    }
    let gone = t.copy(alloc)?;
    env.put(alloc, x, Part::Gone(gone))?;
    Ok(t)
}

/// A shared reference to a whole place.
pub fn borrow_whole(alloc: Global, env: &Env, w: Written, to: Lval) -> Result<Ty, CheckError>
    requires here { to.slot < length env.now }
    ensures gives { (names : List Text) (k : Kind) → Gives result (unless (read_blocked (env_of names env.now) to.slot) w.place ReadBlocked (borrow_rule (env_of names env.now) to k)) (env_of names env.now) }
    ensures below { IfOk result (λ t. AreBelow (length env.now) (kind_places (kind_of t))) }
{
    if env.read_blocked(to.slot) {
        return Err(CheckError::Fault {
            place: w.place,
            reason: Reason::ReadBlocked,
        });
    }
    Ok(Ty::Shared(Places::one(alloc, to)?))
}

/// A mutable reference to a whole place.
pub fn borrow_mut_whole(alloc: Global, env: &Env, w: Written, x: Lval) -> Result<Ty, CheckError>
    requires here { x.slot < length env.now }
    ensures gives { (names : List Text) (k : Kind) → Gives result (borrow_mut_rule (env_of names env.now) (spot_of names w) x k) (env_of names env.now) }
    ensures below { IfOk result (λ t. AreBelow (length env.now) (kind_places (kind_of t))) }
{
    may_open(alloc, env, w.place, x)?;
    Ok(Ty::Mut(Places::one(alloc, x)?))
}

// The owned type of a value that something may hold: one of fewer than 64 levels. A fault stands at this place.
fn held(alloc: Global, t: Ty, place: u32) -> Result<O, CheckError>
    ensures { (hold : Owned → Owned) (e : TypingEnv) → IsHeld result (held_rule hold place (kind_of t) e) hold e }
{
    if !is_owned(&t) {
        return Err(CheckError::Fault {
            place,
            reason: Reason::NotOwned,
        });
    }
    let owned = t.into_owned(alloc)?;
    if is_full(&owned) {
        return Err(CheckError::Fault {
            place,
            reason: Reason::NotOwned,
        });
    }
    Ok(owned)
}

/// The type of a box around a value of this type; a fault stands at this place.
pub fn in_box(alloc: Global, t: Ty, place: u32) -> Result<Ty, CheckError>
    ensures follows { Follows result (box_rule place (kind_of t)) }
    ensures below { IfOk result (λ u. kind_places (kind_of u) ≡ []) }
{
    let o = held(alloc, t, place)?;
    Ok(Ty::Box(o))
}

/// The type of a thread that ends with a value of this type; a fault stands at this place.
pub fn in_task(alloc: Global, t: Ty, place: u32) -> Result<Ty, CheckError>
    ensures follows { Follows result (held_rule task place (kind_of t)) }
    ensures below { IfOk result (λ u. kind_places (kind_of u) ≡ []) }
{
    let o = held(alloc, t, place)?;
    Ok(Ty::Task(o))
}

/// The type of a mutex around a value of this type; a fault stands at this place.
pub fn in_mutex(alloc: Global, t: Ty, place: u32) -> Result<Ty, CheckError>
    ensures follows { Follows result (held_rule mutex place (kind_of t)) }
    ensures below { IfOk result (λ u. kind_places (kind_of u) ≡ []) }
{
    let o = held(alloc, t, place)?;
    Ok(Ty::Mutex(o))
}

/// The type of the content of a mutex of this type; a fault stands at this place.
pub fn content(t: Ty, place: u32) -> Result<O, CheckError>
    ensures { (rest : Owned → Outcome) → IsContent result (given place WrongType (mutex_of (kind_of t)) rest) rest }
{
    match t {
        Ty::Mutex(o) => Ok(o),
        other => {
            drop(other);
            Err(CheckError::Fault {
                place,
                reason: Reason::WrongType,
            })
        }
    }
}

/// The type of what a thread of this type ends with; a fault stands at this place.
pub fn joined(t: Ty, place: u32) -> Result<Ty, CheckError>
    ensures follows { Follows result (join_rule place (kind_of t)) }
    ensures below { IfOk result (λ u. kind_places (kind_of u) ≡ []) }
{
    match t {
        Ty::Task(o) => Ok(o.into_type()),
        other => {
            drop(other);
            Err(CheckError::Fault {
                place,
                reason: Reason::WrongType,
            })
        }
    }
}

// Whether the type is that of unit.
fn is_unit(t: &Ty) -> bool
    ensures { result ≡ is_unit (kind_of t.now) }
{
    match t {
        Ty::Unit => true,
        _ => false,
    }
}

/// The type of a `par` of blocks of these types; a fault stands at the block's place.
pub fn paired(first: &Ty, ours: u32, second: &Ty, theirs: u32) -> Result<Ty, CheckError>
    ensures follows { Follows result (par_rule ours theirs (kind_of first.now) (kind_of second.now)) }
    ensures below { IfOk result (λ u. kind_places (kind_of u) ≡ []) }
{
    if !is_unit(first) {
        return Err(CheckError::Fault {
            place: ours,
            reason: Reason::WrongType,
        });
    }
    if !is_unit(second) {
        return Err(CheckError::Fault {
            place: theirs,
            reason: Reason::WrongType,
        });
    }
    Ok(Ty::Unit)
}

/// The check that a value of this type is a number; a fault stands at this place.
pub fn number(t: &Ty, place: u32) -> Result<(), CheckError>
    ensures { (rest : Outcome) → Passes result (int_rule place (kind_of t.now) rest) rest }
{
    if is_int(t) {
        Ok(())
    } else {
        Err(CheckError::Fault {
            place,
            reason: Reason::WrongType,
        })
    }
}

/// The type of a print of a value of this type; a fault stands at this place.
pub fn printed(t: &Ty, place: u32) -> Result<Ty, CheckError>
    ensures follows { Follows result (print_rule place (kind_of t.now)) }
    ensures below { IfOk result (λ u. kind_places (kind_of u) ≡ []) }
{
    number(t, place)?;
    Ok(Ty::Unit)
}

/// The type of arithmetic with a right operand of this type; a fault stands at this place.
pub fn combined(t: &Ty, place: u32) -> Result<Ty, CheckError>
    ensures follows { Follows result (arith_rule place (kind_of t.now)) }
    ensures below { IfOk result (λ u. kind_places (kind_of u) ≡ []) }
{
    number(t, place)?;
    Ok(Ty::Int)
}

/// A new variable of that type, by a `let` at this place.
pub fn bind(env: &mut Env, name: u32, t: Ty, place: u32) -> Result<Ty, CheckError>
    requires below { AreBelow (length env.old) (kind_places (kind_of t)) }
    requires few { length env.old < most_slots }
    ensures gives { (names : List Text) → IsInScope names env.old → name < length names → Gives result (let_rule place (text_of names name) (kind_of t) (env_of names env.old)) (env_of names env.new) }
    ensures unit { IfOk result (λ u. kind_of u ≡ own unit) }
    ensures scope { OnOk result ((names : List Text) → IsInScope names env.old → name < length names → IsInScope names env.new) }
    ensures one { OnOk result (length env.new ≡ length env.old + 1) }
{
    if env.find(name).is_some() {
        return Err(CheckError::Fault {
            place,
            reason: Reason::NameInScope,
        });
    }
    env.push(Some(name), Part::Whole(t))?;
    Ok(Ty::Unit)
}

// The checks that the place may be written to.
fn may_open(alloc: Global, env: &Env, at: u32, to: Lval) -> Result<(), CheckError>
    requires here { to.slot < length env.now }
    ensures { (names : List Text) (rest : Outcome) → Passes result (when_open (env_of names env.now) at to rest) rest }
{
    if env.write_blocked(to.slot) {
        return Err(CheckError::Fault {
            place: at,
            reason: Reason::WriteBlocked,
        });
    }
    if !is_writable(alloc, env, to)? {
        return Err(CheckError::Fault {
            place: at,
            reason: Reason::NotWritable,
        });
    }
    Ok(())
}

// Whether the type is a reference or a view, to be written under a star.
fn is_kept_out(t: &Ty, stars: u8) -> bool
    ensures { result ≡ is_kept_out (kind_of t.now) stars }
{
    !is_owned(t) && stars > 0
}

// The checks that the type may be written at a place where this part stands.
fn may_hold(env: &Env, at: u32, x: Lval, part: &Part, t: &Ty) -> Result<(), CheckError>
    ensures passes { (names : List Text) (rest : Outcome) → Passes result (when_fitting (env_of names env.now) at x (piece_of part.now) (kind_of t.now) rest) rest }
    ensures stays { OnOk result (names_from x.slot (kind_of t.now) ≡ false) }
{
    if is_kept_out(t, x.depth) {
        return Err(CheckError::Fault {
            place: at,
            reason: Reason::NotOwned,
        });
    }
    if !has_shape_of(env, part, t) {
        return Err(CheckError::Fault {
            place: at,
            reason: Reason::WrongType,
        });
    }
    if names_from(t, x.slot) {
        return Err(CheckError::Fault {
            place: at,
            reason: Reason::Outlives,
        });
    }
    Ok(())
}

// What was written stands at the place, unless a mutable reference leads there.
fn set_through(alloc: Global, env: &mut Env, x: Lval, t: Ty) -> Result<(), NoMemory>
    requires here { x.slot < length env.old }
    requires below { AreBelow x.slot (kind_places (kind_of t)) }
    ensures set { OnOk result ((names : List Text) → env_of names env.new ≡ set_through (env_of names env.old) x (kind_of t)) }
    ensures names { OnOk result ((name : ℕ) → slot_in env.new name ≡ slot_in env.old name) }
    ensures same { OnOk result (length env.new ≡ length env.old) }
{
    if goes_through_mutable(alloc, env, x)? {
        return Ok(());
    }
    env.put(alloc, x, Part::Whole(t))
}

/// An assignment of a value of this type to a place that is found, where this part stands.
pub fn write(
    alloc: Global,
    env: &mut Env,
    w: Written,
    x: Lval,
    part: Part,
    value: Typed,
) -> Result<Ty, CheckError>
    requires here { x.slot < length env.old }
    requires below { AreBelow (length env.old) (kind_places (kind_of value.t)) }
    ensures gives { (names : List Text) → Gives result (write_rule (env_of names env.old) (spot_of names w) value.place (kind_of value.t) x (piece_of part)) (env_of names env.new) }
    ensures unit { IfOk result (λ u. kind_of u ≡ own unit) }
    ensures names { OnOk result ((name : ℕ) → slot_in env.new name ≡ slot_in env.old name) }
    ensures same { OnOk result (length env.new ≡ length env.old) }
{
    let Typed { t, place } = value;
    may_open(alloc, env, w.place, x)?;
    may_hold(env, place, x, &part, &t)?;
    drop(part);
    set_through(alloc, env, x, t)?;
    Ok(Ty::Unit)
}

/// Only the first slots stay, so many of them.
pub fn keep(env: &mut Env, base: u32)
    requires { base ≤ length env.old }
    ensures { env.new ≡ drop (length env.old - base) env.old }
{
    'slots: while env.len() > base {
        drop(env.pop());
    }
}

/// The end of a block that began with so many slots and ends with a value of this type, from an item at `last`.
pub fn end_block(env: &mut Env, base: u32, t: Ty, last: u32) -> Result<Ty, CheckError>
    requires base { base ≤ length env.old }
    ensures gives { (names : List Text) → Gives result (end_rule base (kind_of t) last (env_of names env.old)) (env_of names env.new) }
    ensures below { IfOk result (λ u. AreBelow (length env.new) (kind_places (kind_of u))) }
    ensures scope { OnOk result ((names : List Text) → IsInScope names env.old → IsInScope names env.new) }
    ensures base { OnOk result (length env.new ≡ base) }
{
    if names_from(&t, base) {
        return Err(CheckError::Fault {
            place: last,
            reason: Reason::Outlives,
        });
    }
    keep(env, base);
    Ok(t)
}

/// The two slots of a `lock` at this place: one without a name, which refers to the mutex at the place `x`, and one for the content.
pub fn with_lock(
    alloc: Global,
    env: &mut Env,
    x: Lval,
    name: u32,
    content: O,
    at: u32,
) -> Result<(), CheckError>
    requires here { x.slot < length env.old }
    requires few { length env.old + 2 ≤ most_slots }
    ensures goes_to { (names : List Text) → IsInScope names env.old → name < length names → GoesTo result (λ (go : TypingEnv → Outcome). unless (is_some (slot_of (env_of names env.old) (text_of names name))) at NameInScope (go (with_lock (env_of names env.old) x (text_of names name) (owned_of content)))) (env_of names env.new) }
    ensures scope { OnOk result ((names : List Text) → IsInScope names env.old → name < length names → IsInScope names env.new) }
    ensures two { OnOk result (length env.new ≡ length env.old + 2) }
{
    if env.find(name).is_some() {
        return Err(CheckError::Fault {
            place: at,
            reason: Reason::NameInScope,
        });
    }
    env.push(None, Part::Whole(Ty::Shared(Places::one(alloc, x)?)))?;
    env.push(Some(name), Part::Whole(content.into_type()))?;
    Ok(())
}

// Whether what the slot holds is whole.
fn is_whole(env: &Env, slot: u32) -> bool
    requires here { slot < length env.now }
    ensures { (names : List Text) → result ≡ is_whole (type_at (env_of names env.now) (record { slot = slot; depth = 0 })) }
{
    let Some(part) = env.slot(slot) else {
        unreachable!()
    };
    holds_whole(part)
}

// Whether the part is whole.
fn holds_whole(part: &Part) -> bool
    ensures { result ≡ is_whole (found (piece_of part.now)) }
{
    match part {
        Part::Whole(_) => true,
        _ => false,
    }
}

/// The end of a `lock` at `at`, which began with so many slots, and whose block at `body` ends with a value of this type.
pub fn unlock(env: &mut Env, base: u32, t: Ty, at: u32, body: u32) -> Result<Ty, CheckError>
    requires base { base + 2 ≤ length env.old }
    requires few { base < most_slots }
    ensures gives { (names : List Text) → Gives result (unlock_rule at body base (kind_of t) (env_of names env.old)) (env_of names env.new) }
    ensures below { IfOk result (λ u. kind_places (kind_of u) ≡ []) }
    ensures scope { OnOk result ((names : List Text) → IsInScope names env.old → IsInScope names env.new) }
    ensures base { OnOk result (length env.new ≡ base) }
{
    if !is_owned(&t) {
        return Err(CheckError::Fault {
            place: body,
            reason: Reason::NotOwned,
        });
    }
    if !is_whole(env, base + 1) {
        return Err(CheckError::Fault {
            place: at,
            reason: Reason::NotFull,
        });
    }
    keep(env, base);
    Ok(t)
}
