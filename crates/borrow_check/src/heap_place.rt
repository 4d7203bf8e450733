//! Places in the heap.

ghost use Rattle.std.specs.Prelude.{◌≡◌, ◌<◌, List, length, IfOk, Some, None, if◌then◌else◌};
ghost use Rattle.std.specs.List.{list_all};
ghost use Rattle.fr_terms.specs.Terms.{Text};
ghost use Rattle.fr_typing.specs.Kinds.{whole, map_some};
ghost use Rattle.fr_typing.specs.Places.{AreBelow, kind_places, piece_places, found, type_at, leads_to_heap, is_heap_place, whole_owned};
ghost use Rattle.fr_types.specs.Types.{kind_of, piece_of};
ghost use Rattle.fr_types.specs.States.{env_of};
ghost use Rattle.fr_types.specs.Bases.{starred, single, target};
ghost use Rattle.borrow_check.specs.Heaps.{owned_in};

use fr_base::{Lval, NoMemory};
use fr_types::{Env, O, Part, Ty, TypeError, is_owned, lval_type};
use std::alloc::Global;

/// Whether the place is in the heap, whoever owns it: with one star less it is a box or a view, or a reference to places in the
/// heap. It costs the references on the way, which it follows one after another; the places of a larger set are looked up each.
#[cycle(heap)]
fn is_heap_place(alloc: Global, env: &Env, w: Lval) -> Result<bool, NoMemory>
    requires here { w.slot < length env.now }
    ensures { (names : List Text) → IfOk result (λ b. b ≡ is_heap_place (env_of names env.now) w) }
{
    let mut at = w;
    'references: while at.depth > 0 {
        let outer = Lval {
            slot: at.slot,
            depth: at.depth - 1,
        };
        match lval_type(alloc, env, outer) {
            Ok(part) => match only_place(&part) {
                Some(u) => {
                    drop(part);
                    at = u;
                }
                None => return leads_to_heap(alloc, env, &part, at.slot),
            },
            Err(TypeError::NotDefined) => return Ok(false),
            Err(TypeError::NoTarget) => return Ok(false),
            Err(TypeError::NoMemory) => return Err(NoMemory),
        }
    }
    Ok(false)
}

// The place that a whole reference leads to, where it is one alone.
fn only_place(part: &Part) -> Option<Lval>
    ensures { map_some starred result ≡ target (piece_of part.now) }
{
    match part {
        Part::Whole(Ty::Shared(us) | Ty::Mut(us)) => only(us.as_slice()),
        _ => None,
    }
}

// The only place of a list.
fn only(us: &[Lval]) -> Option<Lval>
    ensures { map_some starred result ≡ single us.now }
{
    match us {
        [u] => Some(*u),
        _ => None,
    }
}

// Whether the part, whose places are below this slot, leads into the heap.
#[cycle(heap)]
fn leads_to_heap(alloc: Global, env: &Env, part: &Part, bound: u32) -> Result<bool, NoMemory>
    requires here { bound < length env.now }
    requires below { AreBelow bound (piece_places (piece_of part.now)) }
    ensures { (names : List Text) → IfOk result (λ b. b ≡ leads_to_heap (is_heap_place (env_of names env.now)) (found (piece_of part.now))) }
{
    match part {
        Part::Box(_) => Ok(true),
        Part::Whole(t) => refers_to_heap(alloc, env, t, bound),
        Part::Gone(_) => Ok(false),
    }
}

// The same of a whole value's type.
#[cycle(heap)]
fn refers_to_heap(alloc: Global, env: &Env, t: &Ty, bound: u32) -> Result<bool, NoMemory>
    requires here { bound < length env.now }
    requires below { AreBelow bound (kind_places (kind_of t.now)) }
    ensures { (names : List Text) → IfOk result (λ b. b ≡ leads_to_heap (is_heap_place (env_of names env.now)) (found (whole (kind_of t.now)))) }
{
    match t {
        Ty::Box(_) | Ty::View(_) => Ok(true),
        Ty::Shared(us) => are_heap_places(alloc, env, us.as_slice(), bound),
        Ty::Mut(us) => are_heap_places(alloc, env, us.as_slice(), bound),
        Ty::Unit | Ty::Int | Ty::Mutex(_) | Ty::Task(_) => Ok(false),
    }
}

// Whether all places, which are below this slot, are in the heap.
#[cycle(heap)]
fn are_heap_places(alloc: Global, env: &Env, us: &[Lval], bound: u32) -> Result<bool, NoMemory>
    requires here { bound < length env.now }
    requires below { AreBelow bound us.now }
    ensures { (names : List Text) → IfOk result (λ b. b ≡ list_all (is_heap_place (env_of names env.now)) us.now) }
{
    'places: for next in 0..us.len() {
        if !is_heap_place(alloc, env, us[next])? {
            return Ok(false);
        }
    }
    Ok(true)
}

/// The owned type that the reference of this slot leads to, where that is in the heap.
pub fn heap_type(alloc: Global, env: &Env, slot: u32) -> Result<Option<O>, NoMemory>
    requires here { slot < length env.now }
    ensures { (names : List Text) → IfOk result (λ o. owned_in o ≡ (if is_heap_place (env_of names env.now) (record { slot = slot; depth = 1 }) then whole_owned (type_at (env_of names env.now) (record { slot = slot; depth = 1 })) else None)) }
{
    let target = Lval { slot, depth: 1 };
    if !is_heap_place(alloc, env, target)? {
        return Ok(None);
    }
    match lval_type(alloc, env, target) {
        Ok(part) => owned(alloc, part),
        Err(TypeError::NotDefined) => Ok(None),
        Err(TypeError::NoTarget) => Ok(None),
        Err(TypeError::NoMemory) => Err(NoMemory),
    }
}

// The owned type of a part that is whole.
fn owned(alloc: Global, part: Part) -> Result<Option<O>, NoMemory>
    ensures { IfOk result (λ o. owned_in o ≡ whole_owned (found (piece_of part))) }
{
    match part {
        Part::Whole(t) => {
            if is_owned(&t) {
                return Ok(Some(t.into_owned(alloc)?));
            }
            drop(t);
            Ok(None)
        }
        Part::Gone(t) => {
            drop(t);
            Ok(None)
        }
        Part::Box(p) => {
            drop(p);
            Ok(None)
        }
    }
}
