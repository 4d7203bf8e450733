//! The plain steps that take no name and wait for nothing.

ghost use Rattle.std.specs.Prelude.{◌≡◌, ◌+◌, ◌-◌, ◌^◌, ◌<◌, ◌≤◌, true};
ghost use Rattle.server_model.specs.Commit.{commit};
ghost use Rattle.server_steps.specs.Committeds.{committed, goes_alone, is_committed};
ghost use Rattle.server_parts.specs.Hands.{hand};
ghost use Rattle.server_parts.specs.Spots.{spot};

use crate::committed::Committed;
use crate::settling::go_on;
use crate::steps_mutexes::unlock;
use crate::steps_objects::{arith, box_up, print};
use crate::steps_places::{assign, let_slot, read};
use crate::steps_references::{borrow, borrow_mut, discard, drop_slot};
use fr_base::{Fresh, Instr};
use server_parts::{Spot, Work};
use thread_state::Thread;

/// The plain step of an instruction that takes no name and waits for nothing; the spot is what its place came to.
pub(crate) fn commit_alone(
    servers: u8,
    instr: &Instr,
    at: &Spot,
    work: &mut Work,
    thread: &mut Thread,
) -> Committed
    requires alone { goes_alone instr.now ≡ true }
    requires ready { is_committed (commit servers instr.now (spot at.now) (hand work.old thread.old)) ≡ true }
    requires pc { thread.old.state.pc < 2 ^ 32 - 1 }
    requires made { thread.old.state.made < 2 ^ 64 - 1 }
    requires room { 4 ≤ work.old.room }
    requires thread_room { 0 < thread.old.room }
    ensures state { commit servers instr.now (spot at.now) (hand work.old thread.old) ≡ committed result (hand work.new thread.new) }
    ensures spare { work.old.room ≤ work.new.room + 4 }
    ensures copies { work.new.copies ≡ work.old.copies }
    ensures thread_spare { thread.old.room ≤ thread.new.room + 1 }
{
    let _servers = servers; // named in the contract alone
    match instr {
        Instr::Let(operand) => let_slot(work, thread, *operand),
        Instr::Assign(place, operand) => assign(work, thread, *place, *operand, at),
        Instr::Read(_, take) => read(work, thread, *take, at),
        Instr::Borrow(place) => borrow(work, thread, *place, at),
        Instr::BorrowMut(place) => borrow_mut(work, thread, *place, at),
        Instr::Box(operand) => box_up(work, thread, *operand),
        Instr::Arith(op, left, right) => arith(work, thread, *op, *left, *right),
        Instr::Print(operand) => print(work, thread, *operand),
        Instr::Discard => discard(work, thread, at),
        Instr::DropSlot => drop_slot(work, thread, at),
        Instr::Unlock => unlock(work, thread),
        Instr::ParEnd => {}
        _ => unreachable!(),
    }
    go_on(work, thread);
    Committed::Done(Fresh::None)
}
