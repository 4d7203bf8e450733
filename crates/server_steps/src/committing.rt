//! The plain step of an instruction whose place is ready.

ghost use Rattle.std.specs.Prelude.{◌≡◌, ◌+◌, ◌-◌, ◌^◌, ◌<◌, ◌≤◌, true};
ghost use Rattle.server_model.specs.Commit.{commit};
ghost use Rattle.server_steps.specs.Committeds.{committed, is_committed};
ghost use Rattle.server_parts.specs.Hands.{hand};
ghost use Rattle.server_parts.specs.Spares.{HasSpares};
ghost use Rattle.server_parts.specs.Spots.{spot};

use crate::committed::Committed;
use crate::steps_alone::commit_alone;
use crate::steps_asking::commit_asking;
use crate::steps_starting::{par, spawn};
use fr_base::Instr;
use server_parts::{Spares, Spot, Work};
use thread_state::Thread;

/// The plain step of any instruction; the spot is what its place came to, and `servers` the number of servers of the run.
pub fn commit(
    servers: u8,
    instr: &Instr,
    at: &Spot,
    work: &mut Work,
    thread: &mut Thread,
    spares: &mut Spares,
) -> Committed
    requires ready { is_committed (commit servers instr.now (spot at.now) (hand work.old thread.old)) ≡ true }
    requires servers { 0 < servers }
    requires started { work.old.state.rest.started < 2 ^ 32 - 2 }
    requires pc { thread.old.state.pc < 2 ^ 32 - 1 }
    requires made { thread.old.state.made < 2 ^ 64 - 1 }
    requires room { 7 ≤ work.old.room }
    requires thread_room { 2 ≤ thread.old.room }
    requires slots { HasSpares spares.old instr.now }
    ensures state { commit servers instr.now (spot at.now) (hand work.old thread.old) ≡ committed result (hand work.new thread.new) }
    ensures spare { work.old.room ≤ work.new.room + 7 }
    ensures copies { work.new.copies ≡ work.old.copies }
    ensures thread_spare { thread.old.room ≤ thread.new.room + 2 }
{
    match instr {
        Instr::Spawn(captures, pc) => spawn(work, thread, servers, captures, *pc, spares),
        Instr::Par(_, _, _, _) => par(work, thread, servers, instr, spares),
        Instr::Join(_) | Instr::Mutex(_) | Instr::Dup(_) | Instr::Lock(_) | Instr::End(_) => {
            commit_asking(servers, instr, at, work, thread)
        }
        _ => commit_alone(servers, instr, at, work, thread),
    }
}
