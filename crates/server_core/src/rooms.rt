//! Room that is made before an event.

ghost use Rattle.std.specs.Prelude.{◌≡◌, ◌≤◌, slice_get, IsOk, OnOk};
ghost use Rattle.rank_map.specs.Places.{item_at};
ghost use Rattle.server_parts.specs.Growing.{HasWorkGrown, HaveSparesGrown, HaveThreadsGrown};
ghost use Rattle.server_core.specs.Rooms.{HasRoomOf, HasPlaceFor, stars_at};
ghost use Rattle.server_parts.specs.Sites.{copies_in};
ghost use Rattle.server_parts.specs.Spares.{HasSpares};
ghost use Rattle.server_ready.specs.Stars.{ended_stars, stars};
ghost use Rattle.server_model.specs.Prepare.{assigned};

use fr_base::{Code, Instr, Lval, NoMemory, ThreadNo};
use heap_partition::{Cell, Owned};
use server_msgs::Message;
use server_parts::{Spares, Threads, Work, has_items};
use thread_state::{Thread, Value};

// How many stars a mutable reference that ends has.
fn ended_stars(value: Option<Value>) -> usize
    ensures stars { result ≡ ended_stars value }
    ensures few { result ≤ 256 }
{
    let _inside: Option<Owned> = None;
    match value {
        Some(Value::Mut(reference)) => reference.holder.depth as usize + 1,
        _ => 0,
    }
}

// An assignment to a variable ends a mutable reference that stands there.
#[tactic(auto, using(crate::proofs::StarLemmas::ending_stars))]
fn assigned_stars(place: Lval, thread: &Thread) -> usize
    ensures stars { result ≡ stars (assigned place place.depth thread.now.state) thread.now.state }
    ensures few { result ≤ 256 }
{
    let _inside: Option<Owned> = None;
    if place.depth > 0 {
        return place.depth as usize;
    }
    ended_stars(thread.slots.get(place.slot as usize).copied())
}

// How many stars the thread follows at most at that instruction.
#[tactic(auto, using(crate::proofs::StarLemmas::ending_stars, crate::proofs::StarLemmas::read_stars, crate::proofs::StarLemmas::last_stars))]
fn stars_at(instr: &Instr, thread: &Thread) -> usize
    ensures stars { result ≡ stars_at instr.now thread.now.state }
    ensures few { result ≤ 256 }
{
    let _inside: Option<Owned> = None;
    match instr {
        Instr::Assign(place, _) => assigned_stars(*place, thread),
        Instr::Read(place, _) => place.depth as usize,
        Instr::Borrow(place) => place.depth as usize,
        Instr::BorrowMut(place) => place.depth as usize,
        Instr::Discard => ended_stars(thread.temps.last().copied()),
        Instr::DropSlot => ended_stars(thread.slots.last().copied()),
        Instr::Dup(place) => place.depth as usize,
        Instr::Lock(place) => place.depth as usize,
        _ => 0,
    }
}

// Boxes and room for the slots of the threads that a step starts.
fn slots_room(spares: &mut Spares, instr: &Instr) -> Result<(), NoMemory>
    ensures room { OnOk result (HasSpares spares.new instr.now) }
    ensures had_room { HasSpares spares.old instr.now → IsOk result }
    ensures grown { HaveSparesGrown spares.old spares.new }
{
    match instr {
        Instr::Spawn(captures, _) => {
            spares.reserve_boxes(1)?;
            spares.reserve(captures.as_slice().len(), 0)
        }
        Instr::Par(captures, _, others, _) => {
            spares.reserve_boxes(2)?;
            spares.reserve(captures.as_slice().len(), others.as_slice().len())
        }
        _ => Ok(()),
    }
}

/// Room for a step of that thread, where it stands there.
pub(crate) fn step_room(
    work: &mut Work,
    threads: &mut Threads,
    spares: &mut Spares,
    code: &Code,
    thread: ThreadNo,
) -> Result<(), NoMemory>
    ensures room { OnOk result (HasRoomOf code.now.items work.new.room spares.new (item_at threads.new thread)) }
    ensures had_room { HasRoomOf code.now.items work.old.room spares.old (item_at threads.old thread) → IsOk result }
    ensures work { HasWorkGrown work.old work.new }
    ensures threads { HaveThreadsGrown threads.old threads.new }
    ensures spares { HaveSparesGrown spares.old spares.new }
{
    let Some(standing) = threads.get(thread) else {
        return Ok(());
    };
    let Some(instr) = code.at(standing.pc) else {
        return Ok(());
    };
    let stars = stars_at(instr, standing);
    let has_items = has_items(standing, stars + 2);
    work.reserve(5 * stars + 7)?;
    slots_room(spares, instr)?;
    if has_items {
        return Ok(());
    }
    threads.reserve_lists(thread, stars + 2)
}

// A place for what the message brings.
fn place_room(work: &mut Work, threads: &mut Threads, at: usize) -> Result<(), NoMemory>
    ensures room { OnOk result (HasPlaceFor (copies_in work.new) threads.new (slice_get work.old.state.rest.inbox at)) }
    ensures had_room { HasPlaceFor (copies_in work.old) threads.old (slice_get work.old.state.rest.inbox at) → IsOk result }
    ensures work { HasWorkGrown work.old work.new }
    ensures things { work.new.room ≡ work.old.room }
    ensures threads { HaveThreadsGrown threads.old threads.new }
{
    let _inside: Option<(Cell, Owned)> = None;
    match work.inbox.at(at) {
        Some(Message::Fetched(word, _, thread)) => {
            let (word, thread) = (*word, *thread);
            work.reserve_copy(word)?;
            threads.reserve_lists(thread, 1)
        }
        Some(Message::Start(parcel)) => threads.reserve(parcel.number()),
        Some(Message::Migrate(parcel)) => threads.reserve(parcel.number()),
        _ => Ok(()),
    }
}

/// Room for the delivery of the message at that place, where one waits there.
pub(crate) fn delivery_room(
    work: &mut Work,
    threads: &mut Threads,
    at: usize,
) -> Result<(), NoMemory>
    ensures room { OnOk result ((3 ≤ work.new.room) × HasPlaceFor (copies_in work.new) threads.new (slice_get work.old.state.rest.inbox at)) }
    ensures had_room { 3 ≤ work.old.room → HasPlaceFor (copies_in work.old) threads.old (slice_get work.old.state.rest.inbox at) → IsOk result }
    ensures work { HasWorkGrown work.old work.new }
    ensures threads { HaveThreadsGrown threads.old threads.new }
{
    work.reserve(3)?;
    place_room(work, threads, at)
}
