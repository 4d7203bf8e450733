//! The servers of a round, one after another, each where it is.

ghost use Rattle.std.specs.Prelude.{◌≡◌, ◌+◌, ◌≤◌, length, min, OnOk};
ghost use Rattle.drust_run.specs.Turns.{CanTakeTurn, CanTakeTurns, TakesTurn, TakeTurns};

use crate::work::quantum;
use controller::Choice;
use drust_io::Gate;
use fr_base::NoMemory;
use journal::Journal;
use server_core::Server;
use std::alloc::Global;

// A quantum, and no more events than are left.
fn at_most(quantum: u32, left: u64) -> u32
    ensures { result ≡ min quantum left }
{
    if left < u64::from(quantum) {
        left as u32
    } else {
        quantum
    }
}

// A server does its work, at most a quantum and no more events than are left, and its entries stand at the end of the journal. How many there are.
fn take_turn(
    alloc: Global,
    server: &mut Server,
    choice: &mut Choice,
    journal: &mut Journal,
) -> Result<u64, NoMemory>
    requires ready { CanTakeTurn (length journal.old.items) server.old choice.old }
    ensures { OnOk result (TakesTurn journal.old.items server.old choice.old server.new choice.new journal.new.items) }
{
    let options = server.options();
    let before = journal.len();
    let most = at_most(options.quantum, options.turns.saturating_sub(before));
    quantum(alloc, server, choice, journal, most)?;
    Ok(journal.len().saturating_sub(before))
}

// The servers from that number on arrive and work, one after another. The most events that one of them did.
#[cycle(turns)]
pub(crate) fn take_turns<G: Gate>(
    alloc: Global,
    servers: &mut [Server],
    choices: &mut [Choice],
    journal: &mut Journal,
    number: u8,
    gate: &G,
) -> Result<u64, NoMemory>
    requires as_many { length choices.old ≡ length servers.old }
    requires few { number + length servers.old ≤ 64 }
    requires ready { CanTakeTurns (length journal.old.items) servers.old choices.old }
    ensures { OnOk result (TakeTurns journal.old.items servers.old choices.old servers.new choices.new journal.new.items) }
{
    let Some((server, others)) = servers.split_first_mut() else {
        return Ok(0);
    };
    let Some((choice, rest)) = choices.split_first_mut() else {
        unreachable!()
    };
    gate.arrive(number);
    let done = take_turn(alloc, server, choice, journal)?;
    let most = take_turns(alloc, others, rest, journal, number + 1, gate)?;
    Ok(done.max(most))
}
