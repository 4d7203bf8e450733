//! Objects that come to a thread that waits for them: the new word is put where the pointer stands that the thread waits at.

ghost use Rattle.std.specs.Prelude.{◌≡◌, ◌+◌, ◌^◌, ◌<◌, ◌≤◌, length, slice_get, Some, IsSome};
ghost use Rattle.server_model.specs.Objects.{chased, waits_under, arrived_at, arrived_read, arrived_write, arrived_lend, arrived_end, arrived, came, deliver_moved};
ghost use Rattle.server_model.specs.Places.{value_at};
ghost use Rattle.server_parts.specs.Accesses.{access_in};
ghost use Rattle.server_parts.specs.Hands.{hand};
ghost use Rattle.server_deliveries.specs.Passes.{pass_spot, passes};
ghost use Rattle.server_parts.specs.Spots.{spot};

use fr_base::{Code, Lval};
use global_addr::Word;
use heap_partition::{Cell, Owned};
use journal::Act;
use place_walk::{Hop, write_hop};
use server_parts::{Access, Spot, Work, access_of, place, set_pointer, value_at};
use thread_state::{Phase, Thread, Value};

// Where references to slots lead from a slot, at most so many of them.
fn chased(thread: &Thread, depth: u8, slot: u32) -> u32
    ensures { result ≡ chased depth thread.now.state.slots slot }
{
    let _inside: Option<Owned> = None;
    if depth == 0 {
        return slot;
    }
    match thread.slots.get(slot as usize).copied() {
        Some(Value::SharedSlot(next)) => chased(thread, depth - 1, next),
        Some(Value::MutSlot(next)) => chased(thread, depth - 1, next),
        _ => slot,
    }
}

// Whether a mutable reference with that word stands in the slot.
fn waits_under(thread: &Thread, old: Word, slot: u32) -> bool
    ensures { result ≡ waits_under old (slice_get thread.now.state.slots slot) }
{
    let _inside: Option<Owned> = None;
    match thread.slots.get(slot as usize).copied() {
        Some(Value::Mut(reference)) => reference.word == old,
        _ => false,
    }
}

// One hop of a write that is ready already.
fn pass_spot(at: &Spot, kind: Hop) -> Spot
    requires result { IsSome (pass_spot (spot at.now) (Some kind)) }
    ensures { pass_spot (spot at.now) (Some kind) ≡ Some (spot result) }
{
    match kind {
        Hop::Slot(slot) => Spot::Slot(slot),
        Hop::NeedTint(word) => Spot::Cell(word, None),
        Hop::AtCell(word) => match *at {
            Spot::Slot(slot) => Spot::Cell(word, Some(slot)),
            _ => Spot::Cell(word, None),
        },
        _ => unreachable!(),
    }
}

// Where so many hops of a write lead that are ready already.
fn passed_at(work: &Work, thread: &Thread, depth: u8, at: Spot) -> Spot
    requires result { IsSome (passes depth (hand work.now thread.now) (spot at)) }
    ensures { passes depth (hand work.now thread.now) (spot at) ≡ Some (spot result) }
{
    let _inside: Option<Owned> = None;
    if depth == 0 {
        return at;
    }
    let Some(value) = value_at(work, thread, &at) else {
        unreachable!();
    };
    let next = pass_spot(&at, write_hop(&value, work.number));
    passed_at(work, thread, depth - 1, next)
}

// The pointer at a spot gets the new word.
fn arrived_at(work: &mut Work, thread: &mut Thread, at: &Spot, new: Word)
    requires result { IsSome (arrived_at (spot at.now) new (hand work.old thread.old)) }
    ensures state { arrived_at (spot at.now) new (hand work.old thread.old) ≡ Some (hand work.new thread.new) }
    ensures number { thread.new.state.number ≡ thread.old.state.number }
    ensures room { work.new.room ≡ work.old.room }
    ensures thread_room { thread.new.room ≡ thread.old.room }
{
    set_pointer(work, thread, at, new);
    thread.phase = Phase::Got;
}

// A mutable reference in the slot to which references to slots lead gets it.
fn arrived_read(work: &mut Work, thread: &mut Thread, place: Lval, old: Word, new: Word)
    requires result { IsSome (arrived_read place old new (hand work.old thread.old)) }
    ensures state { arrived_read place old new (hand work.old thread.old) ≡ Some (hand work.new thread.new) }
    ensures number { thread.new.state.number ≡ thread.old.state.number }
    ensures room { work.new.room ≡ work.old.room }
    ensures thread_room { thread.new.room ≡ thread.old.room }
{
    let _old = old;
    let slot = chased(thread, place.depth.saturating_sub(1), place.slot);
    arrived_at(work, thread, &Spot::Slot(slot), new);
}

// A write waits for the object of its first hop that isn't ready, and from then on that hop is.
#[tactic(auto, using(crate::proofs::PassLemmas::passed_there))]
fn arrived_write(work: &mut Work, thread: &mut Thread, place: Lval, new: Word)
    requires few { thread.old.state.passed < 255 }
    requires result { IsSome (arrived_write place new (hand work.old thread.old)) }
    ensures state { arrived_write place new (hand work.old thread.old) ≡ Some (hand work.new thread.new) }
    ensures number { thread.new.state.number ≡ thread.old.state.number }
    ensures room { work.new.room ≡ work.old.room }
    ensures thread_room { thread.new.room ≡ thread.old.room }
{
    let at = passed_at(work, thread, thread.passed, Spot::Slot(place.slot));
    thread.passed += 1;
    arrived_at(work, thread, &at, new);
}

// For the pointer of a mutable borrow nothing is put; a mutable reference on the way to it may be waited for as in a read.
fn arrived_lend(work: &mut Work, thread: &mut Thread, place: Lval, old: Word, new: Word)
    requires result { IsSome (arrived_lend place.slot place.depth old new (hand work.old thread.old)) }
    ensures state { arrived_lend place.slot place.depth old new (hand work.old thread.old) ≡ Some (hand work.new thread.new) }
    ensures number { thread.new.state.number ≡ thread.old.state.number }
    ensures room { work.new.room ≡ work.old.room }
    ensures thread_room { thread.new.room ≡ thread.old.room }
{
    if place.depth > 1 {
        let slot = chased(thread, place.depth - 2, place.slot);
        if waits_under(thread, old, slot) {
            arrived_at(work, thread, &Spot::Slot(slot), new);
            return;
        }
    }
    thread.phase = Phase::Taken(new);
}

// A mutable reference that ends waits for its own object exactly where it has the old word, else for one of its holder's place.
fn arrived_end(work: &mut Work, thread: &mut Thread, at: &Spot, old: Word, new: Word)
    requires few { thread.old.state.passed < 255 }
    requires result { IsSome (arrived_end (spot at.now) (value_at (hand work.old thread.old) (spot at.now)) old new (hand work.old thread.old)) }
    ensures state { arrived_end (spot at.now) (value_at (hand work.old thread.old) (spot at.now)) old new (hand work.old thread.old) ≡ Some (hand work.new thread.new) }
    ensures number { thread.new.state.number ≡ thread.old.state.number }
    ensures room { work.new.room ≡ work.old.room }
    ensures thread_room { thread.new.room ≡ thread.old.room }
{
    let _inside: Option<Owned> = None;
    let Some(Value::Mut(reference)) = value_at(work, thread, at) else {
        unreachable!();
    };
    if reference.word == old {
        arrived_at(work, thread, at, new);
    } else {
        arrived_write(work, thread, reference.holder, new);
    }
}

// The new word is put where the pointer stands that the thread waits at.
fn arrived(work: &mut Work, thread: &mut Thread, access: Option<Access>, old: Word, new: Word)
    requires few { thread.old.state.passed < 255 }
    requires result { IsSome (arrived (access_in access) old new (hand work.old thread.old)) }
    ensures state { arrived (access_in access) old new (hand work.old thread.old) ≡ Some (hand work.new thread.new) }
    ensures number { thread.new.state.number ≡ thread.old.state.number }
    ensures room { work.new.room ≡ work.old.room }
    ensures thread_room { thread.new.room ≡ thread.old.room }
{
    match access {
        Some(Access::ReadTo(place)) => arrived_read(work, thread, place, old, new),
        Some(Access::ReadPointer(place)) => arrived_read(work, thread, place, old, new),
        Some(Access::WriteTo(place)) => arrived_write(work, thread, place, new),
        Some(Access::LendTo(place)) => arrived_lend(work, thread, place, old, new),
        Some(Access::EndRef(at)) => arrived_end(work, thread, &at, old, new),
        None => unreachable!(),
    }
}

/// The object comes here, under a new word, to the thread that waits for it.
pub(crate) fn deliver_moved(
    work: &mut Work,
    thread: &mut Thread,
    code: &Code,
    old: Word,
    cell: Cell,
)
    requires result { IsSome (deliver_moved code.now.items old cell (hand work.old thread.old)) }
    requires slots { length thread.old.state.slots < 2 ^ 32 }
    requires few { thread.old.state.passed < 255 }
    requires room { 2 ≤ work.old.room }
    ensures state { deliver_moved code.now.items old cell (hand work.old thread.old) ≡ Some (hand work.new thread.new) }
    ensures number { thread.new.state.number ≡ thread.old.state.number }
    ensures spare { work.old.room ≤ work.new.room + 2 }
    ensures thread_room { thread.new.room ≡ thread.old.room }
{
    let _inside: Option<Owned> = None;
    let object = cell.object;
    let new = place(work, cell);
    work.note(Act::Take(object, old, new));
    let access = match code.at(thread.pc) {
        Some(instr) => access_of(instr, thread),
        None => None,
    };
    arrived(work, thread, access, old, new);
}
