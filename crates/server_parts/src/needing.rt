//! What an instruction needs of a place before it can be done.

ghost use Rattle.std.specs.Prelude.{◌≡◌, ◌-◌, ◌^◌, ◌<◌, length};
ghost use Rattle.server_model.specs.Places.{in_slot, on_top};
ghost use Rattle.server_model.specs.Prepare.{access_of, assigned, ending, read_or_taken};
ghost use Rattle.server_model.specs.Work.{last_of};
ghost use Rattle.server_parts.specs.Accesses.{access, access_in};
ghost use Rattle.server_parts.specs.Spots.{spot};

use crate::access::Access;
use crate::spot::Spot;
use fr_base::{Instr, Lval};
use heap_partition::Owned;
use thread_state::{Thread, Value};

// A mutable reference at that spot ends.
fn ending(at: Spot, value: Option<Value>) -> Option<Access>
    ensures { access_in result ≡ ending (spot at) value }
{
    match value {
        Some(Value::Mut(_)) => Some(Access::EndRef(at)),
        _ => None,
    }
}

// An assignment to a variable ends a mutable reference that stands there, and one through a star writes.
fn assigned(place: Lval, thread: &Thread) -> Option<Access>
    ensures { access_in result ≡ assigned place place.depth thread.now.state }
{
    // The check asks that each type inside a value is named where a value is moved.
    let _inside: Option<Owned> = None;
    if place.depth > 0 {
        return Some(Access::WriteTo(place));
    }
    let value = thread.slots.get(place.slot as usize).copied();
    ending(Spot::Slot(place.slot), value)
}

// A reference on top ends.
fn discarded(thread: &Thread) -> Option<Access>
    ensures { access_in result ≡ ending on_top (last_of thread.now.state.temps) }
{
    let _inside: Option<Owned> = None;
    let value = thread.temps.last().copied();
    ending(Spot::Top, value)
}

// A move out through a star writes.
fn read_or_taken(place: Lval, take: bool) -> Access
    ensures { access result ≡ read_or_taken place place.depth take }
{
    if take && place.depth > 0 {
        Access::WriteTo(place)
    } else {
        Access::ReadTo(place)
    }
}

// A reference in the last slot ends.
fn dropped(thread: &Thread) -> Option<Access>
    requires few { length thread.now.state.slots < 2 ^ 32 }
    ensures { access_in result ≡ ending (in_slot (length thread.now.state.slots - 1)) (last_of thread.now.state.slots) }
{
    let _inside: Option<Owned> = None;
    let Some(value) = thread.slots.last().copied() else {
        return None;
    };
    let last = thread.slots.len() - 1;
    ending(Spot::Slot(last as u32), Some(value))
}

/// What the instruction needs of a place; `None` where it follows none. The thread has fewer than 2^32 slots.
pub fn access_of(instr: &Instr, thread: &Thread) -> Option<Access>
    requires few { length thread.now.state.slots < 2 ^ 32 }
    ensures { access_in result ≡ access_of instr.now thread.now.state }
{
    match instr {
        Instr::Assign(place, _) => assigned(*place, thread),
        Instr::Read(place, take) => Some(read_or_taken(*place, *take)),
        Instr::Borrow(place) => Some(Access::ReadPointer(*place)),
        Instr::BorrowMut(place) => Some(Access::LendTo(*place)),
        Instr::Discard => discarded(thread),
        Instr::DropSlot => dropped(thread),
        Instr::Dup(place) => Some(Access::ReadTo(*place)),
        Instr::Lock(place) => Some(Access::ReadTo(*place)),
        _ => None,
    }
}
