//! One round of a run.

ghost use Rattle.std.specs.Prelude.{◌≡◌, ◌*◌, ◌<◌, ◌≤◌, true, length, Some, IfOk};
ghost use Rattle.std.specs.Arc.{arc_value};
ghost use Rattle.server_model.specs.Clusters.{hand_over};
ghost use Rattle.drive_model.specs.Rounds.{events_left, round};
ghost use Rattle.cluster_core.specs.Views.{AreServersOf, cluster_of, events_in, states};
ghost use Rattle.law_runs_whole.specs.runs.Runs.{EachKeepsCoherence};
ghost use Rattle.law_runs_rounds.specs.rounds.UnderWay.{IsUnderWay};
ghost use Rattle.drust_run.specs.Drives.{run_of};

use crate::desks::{at_work, done_beside};
use crate::drive::Drive;
use crate::seats::{none_lacks, rise, seat};
use crate::turns::take_turns;
use borrow_check::Checked;
use cluster_core::Cluster;
use controller::Choice;
use drust_io::Gate;
use fr_base::{NoMemory, Options};
use journal::Journal;
use law_runs_rounds::rounds_go_on;
use server_core::Server;
use std::alloc::Global;
use std::sync::Arc;
use std::thread::Threads;

// A thread takes as long to start as some hundred events.
const WORTH_A_THREAD: u64 = 512;

// How many workers a round has, where so many events were done beside the busiest server's in the round before: one, and one more for each
// number of events that are worth it, but no more than there may be.
fn workers_for(most: u8, beside: u64) -> usize
    ensures some { 0 < result }
    ensures few { 0 < most → result ≤ most }
{
    let others = u64::from(most.saturating_sub(1));
    (beside / WORTH_A_THREAD).min(others) as usize + 1
}

// Whether a quantum is left for each server.
fn is_enough(options: &Options, left: u64) -> bool
    ensures { result ≡ true → options.now.servers * options.now.quantum ≤ left }
{
    u64::from(options.servers) * u64::from(options.quantum) <= left
}

// The run after a round that left these servers: their messages are handed over.
fn handed(
    checked: Arc<Checked>,
    servers: Vec<Server>,
    choices: Vec<Choice>,
    journal: Journal,
    beside: u64,
) -> Result<Drive, NoMemory>
    requires run { AreServersOf (arc_value checked) servers.items }
    requires few { events_in (states servers.items) ≤ 1000000000 }
    ensures cluster { IfOk result (λ d. d.cluster.state ≡ hand_over (cluster_of servers.items)) }
    ensures choices { IfOk result (λ d. d.choices.items ≡ choices.items) }
    ensures journal { IfOk result (λ d. d.journal.items ≡ journal.items) }
    ensures program { IfOk result (λ d. d.cluster.program ≡ arc_value checked) }
{
    let mut cluster = Cluster::from_servers(checked, servers);
    cluster.hand_over()?;
    Ok(Drive {
        cluster,
        choices,
        journal,
        beside,
    })
}

// A round in which the servers work one after another, each where it is.
fn round_in_turn<G: Gate>(alloc: Global, drive: Drive, gate: &G) -> Result<Drive, NoMemory>
    requires each { EachKeepsCoherence }
    requires way { IsUnderWay (run_of drive) }
    requires counted { events_in drive.cluster.state.servers ≡ length drive.journal.items }
    ensures round { IfOk result (λ d. round (run_of drive) ≡ Some (run_of d)) }
    ensures counted { IfOk result (λ d. events_in d.cluster.state.servers ≡ length d.journal.items) }
    ensures program { IfOk result (λ d. d.cluster.program ≡ drive.cluster.program) }
{
    rounds_go_on();
    let Drive {
        cluster,
        mut choices,
        mut journal,
        ..
    } = drive;
    let before = journal.len();
    let (checked, mut servers) = cluster.into_servers();
    let most = take_turns(alloc, &mut servers, &mut choices, &mut journal, 0, gate)?;
    let beside = journal.len().saturating_sub(before).saturating_sub(most);
    handed(checked, servers, choices, journal, beside)
}

// A round in which a quantum is left for each server, and the servers are spread over so many workers.
fn round_beside<G: Gate + Sync, R: Threads + Sync>(
    rt: &R,
    alloc: Global,
    drive: Drive,
    workers: usize,
    gate: &G,
) -> Result<Drive, NoMemory>
    requires each { EachKeepsCoherence }
    requires way { IsUnderWay (run_of drive) }
    requires counted { events_in drive.cluster.state.servers ≡ length drive.journal.items }
    requires workers { 0 < workers }
    requires enough { drive.cluster.state.options.servers * drive.cluster.state.options.quantum ≤ events_left (run_of drive) }
    ensures round { IfOk result (λ d. round (run_of drive) ≡ Some (run_of d)) }
    ensures counted { IfOk result (λ d. events_in d.cluster.state.servers ≡ length d.journal.items) }
    ensures program { IfOk result (λ d. d.cluster.program ≡ drive.cluster.program) }
{
    rounds_go_on();
    let quantum = drive.cluster.options().quantum;
    let Drive {
        cluster,
        choices,
        mut journal,
        ..
    } = drive;
    let (checked, servers) = cluster.into_servers();
    let mut desks = seat(alloc, servers, choices)?;
    at_work(rt, alloc, &mut desks, workers, quantum, gate);
    if !none_lacks(&desks) {
        return Err(NoMemory);
    }
    let beside = done_beside(&desks);
    let (servers, choices) = rise(alloc, desks, &mut journal)?;
    handed(checked, servers, choices, journal, beside)
}

// A round: each server does its quantum, and then their messages are handed over. Where the round before had little to do beside its busiest
// server, or less than a quantum is left for each, they work one after another. What they do is the same either way.
pub(crate) fn round<G: Gate + Sync, R: Threads + Sync>(
    rt: &R,
    alloc: Global,
    drive: Drive,
    gate: &G,
) -> Result<Drive, NoMemory>
    requires each { EachKeepsCoherence }
    requires way { IsUnderWay (run_of drive) }
    requires counted { events_in drive.cluster.state.servers ≡ length drive.journal.items }
    ensures round { IfOk result (λ d. round (run_of drive) ≡ Some (run_of d)) }
    ensures counted { IfOk result (λ d. events_in d.cluster.state.servers ≡ length d.journal.items) }
    ensures program { IfOk result (λ d. d.cluster.program ≡ drive.cluster.program) }
{
    let options = *drive.cluster.options();
    let workers = workers_for(options.workers, drive.beside);
    let left = options.turns.saturating_sub(drive.journal.len());
    if workers > 1 && is_enough(&options, left) {
        round_beside(rt, alloc, drive, workers, gate)
    } else {
        round_in_turn(alloc, drive, gate)
    }
}
