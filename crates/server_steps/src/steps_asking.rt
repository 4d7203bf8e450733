//! The plain steps that ask for something, take the name of a mutex, or are a thread's last one.

ghost use Rattle.std.specs.Prelude.{◌≡◌, ◌+◌, ◌-◌, ◌^◌, ◌<◌, ◌≤◌, true};
ghost use Rattle.server_model.specs.Commit.{commit};
ghost use Rattle.server_steps.specs.Committeds.{asks_or_ends, committed, is_committed};
ghost use Rattle.server_parts.specs.Hands.{hand};
ghost use Rattle.server_parts.specs.Spots.{spot};

use crate::committed::Committed;
use crate::steps_mutexes::{dup, lock, mutex};
use crate::steps_threads::{end_thread, join};
use fr_base::{Fresh, Instr};
use server_parts::{Spot, Work};
use thread_state::Thread;

/// The plain step of a join, of a mutex, a dup or a lock, or of a thread's end; the spot is what its place came to.
pub(crate) fn commit_asking(
    servers: u8,
    instr: &Instr,
    at: &Spot,
    work: &mut Work,
    thread: &mut Thread,
) -> Committed
    requires asks { asks_or_ends instr.now ≡ true }
    requires ready { is_committed (commit servers instr.now (spot at.now) (hand work.old thread.old)) ≡ true }
    requires pc { thread.old.state.pc < 2 ^ 32 - 1 }
    requires room { 4 ≤ work.old.room }
    requires thread_room { 1 < thread.old.room }
    ensures state { commit servers instr.now (spot at.now) (hand work.old thread.old) ≡ committed result (hand work.new thread.new) }
    ensures spare { work.old.room ≤ work.new.room + 4 }
    ensures copies { work.new.copies ≡ work.old.copies }
    ensures thread_spare { thread.old.room ≤ thread.new.room + 2 }
{
    let _servers = servers; // named in the contract alone
    match instr {
        Instr::Join(operand) => join(work, thread, *operand),
        Instr::Mutex(operand) => mutex(work, thread, *operand),
        Instr::Dup(_) => dup(work, thread, at),
        Instr::Lock(_) => lock(work, thread, at),
        Instr::End(operand) => {
            end_thread(work, thread, *operand);
            Committed::Done(Fresh::None)
        }
        _ => unreachable!(),
    }
}
