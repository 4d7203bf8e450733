//! A server's work in a round.

ghost use Rattle.std.specs.Prelude.{◌≡◌, ◌≤◌, ◌^◌, true, length, Some, IsSome, IfOk, OnOk, option_map};
ghost use Rattle.server_model.specs.Events.{does, enabled};
ghost use Rattle.server_core.specs.Steps.{CountsLeft};
ghost use Rattle.drive_model.specs.Rounds.{work};
ghost use Rattle.law_runs_rounds.specs.rounds.Working.{CanWork};
ghost use Rattle.drust_run.specs.Desks.{IsReady, Works};
ghost use Rattle.drust_run.specs.Turns.{with_before};

use crate::desk::Desk;
use crate::fitted::fitted;
use controller::{Choice, next};
use drust_io::Gate;
use fr_base::NoMemory;
use journal::{Entry, Journal};
use server_core::Server;
use server_model::What;
use std::alloc::Global;

// Room for an event, and then it is done.
pub(crate) fn act(server: &mut Server, what: &What) -> Result<Entry, NoMemory>
    requires enabled { enabled server.old.options server.old.state what.now ≡ true }
    requires result { IsSome (does server.old.code server.old.options server.old.state what.now) }
    requires counts { CountsLeft server.old.state }
    ensures done { IfOk result (λ e. does server.old.code server.old.options server.old.state what.now ≡ Some (server.new.state, e)) }
    ensures kept { (server.new.code ≡ server.old.code) × (server.new.options ≡ server.old.options) }
{
    server.room(*what)?;
    Ok(server.act(*what))
}

// The same, with the entry in lists that have no more room than they need (those of an entry without acts and labels have none); the server uses again
// those in which it wrote.
fn act_fitted(alloc: Global, server: &mut Server, what: &What) -> Result<Entry, NoMemory>
    requires enabled { enabled server.old.options server.old.state what.now ≡ true }
    requires result { IsSome (does server.old.code server.old.options server.old.state what.now) }
    requires counts { CountsLeft server.old.state }
    ensures done { IfOk result (λ e. does server.old.code server.old.options server.old.state what.now ≡ Some (server.new.state, e)) }
    ensures kept { (server.new.code ≡ server.old.code) × (server.new.options ≡ server.old.options) }
{
    let written = act(server, what)?;
    if written.acts.len() == 0 && written.labels.len() == 0 {
        return Ok(written);
    }
    let entry = fitted(alloc, &written)?;
    server.reuse(written);
    Ok(entry)
}

// At most so many events of a server, each the next one, until it has none. Their entries stand at the end of the journal.
pub(crate) fn quantum(
    alloc: Global,
    server: &mut Server,
    choice: &mut Choice,
    journal: &mut Journal,
    most: u32,
) -> Result<(), NoMemory>
    requires able { CanWork server.old.code server.old.options most server.old.state choice.old }
    requires short { length server.old.code ≤ 2 ^ 30 }
    ensures worked { OnOk result (option_map (with_before journal.old.items) (work server.old.code server.old.options most server.old.state choice.old) ≡ Some (record { server = server.new.state; generator = choice.new; entries = journal.new.items })) }
    ensures kept { (server.new.code ≡ server.old.code) × (server.new.options ≡ server.old.options) }
{
    'events: for _ in 0..most {
        let Some(what) = next(server, choice) else {
            return Ok(());
        };
        journal.push(act_fitted(alloc, server, &what)?)?;
    }
    Ok(())
}

// The server's work arrives, and it does at most so many events; where memory is wanting, that is marked.
pub(crate) fn work_at<G: Gate>(alloc: Global, desk: &mut Desk, most: u32, gate: &G)
    requires ready { IsReady most desk.old }
    ensures { Works most desk.old desk.new }
{
    gate.arrive(desk.number);
    if quantum(
        alloc,
        &mut desk.server,
        &mut desk.choice,
        &mut desk.entries,
        most,
    )
    .is_err()
    {
        desk.lacks = true;
    }
}
