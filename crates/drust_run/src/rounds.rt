//! Whole runs in rounds.

ghost use Rattle.std.specs.Prelude.{◌≡◌, ◌≤◌, [], length, Some, IfOk};
ghost use Rattle.std.specs.Arc.{arc_value};
ghost use Rattle.fr_syntax.specs.Meanings.{term_of};
ghost use Rattle.fr_plain.specs.Resolve.{program};
ghost use Rattle.law_plain_table.specs.Bare.{bare};
ghost use Rattle.law_plain_table.specs.CodeOf.{code_of};
ghost use Rattle.coherent_memory.specs.Naming.{options_out};
ghost use Rattle.server_model.specs.Clusters.{outboxes};
ghost use Rattle.cluster_core.specs.Views.{events_in};
ghost use Rattle.drive_model.specs.Ending.{ending};
ghost use Rattle.drive_model.specs.Rounds.{generators_from, run_start, is_done, rounds_from};
ghost use Rattle.law_runs_whole.specs.runs.Runs.{EachKeepsCoherence};
ghost use Rattle.coherent_types.specs.ClusterTypes.{IsCoherent};
ghost use Rattle.law_runs_rounds.specs.rounds.UnderWay.{IsUnderWay};
ghost use Rattle.drust_run.specs.Drives.{run_of};
ghost use Rattle.drust_run.specs.Runs.{IsRunOf, ended};

use crate::balance::even_out;
use crate::drive::Drive;
use crate::ran::Ran;
use crate::round::round;
use borrow_check::Checked;
use cluster_core::{Cluster, events_keep_coherence};
use controller::Choice;
use drust_io::Gate;
use fr_base::{Ending, Ending3, NoMemory, Options};
use journal::Journal;
use law_runs_order::coherent_in_any_order;
use law_runs_rounds::{rounds_go_on, starts_are_under_way};
use std::alloc::Global;
use std::sync::Arc;
use std::thread::Threads;

// The generators of so many servers.
fn choices_of(alloc: Global, options: &Options) -> Result<Vec<Choice>, NoMemory>
    ensures { IfOk result (λ gs. gs.items ≡ generators_from options.now.choice 0 options.now.servers) }
{
    let mut choices = Vec::new(alloc);
    'servers: for server in 0..options.servers {
        choices.push(Choice::new(options.choice, server))?;
    }
    Ok(choices)
}

// No entry, and room for twice as many as the program has nodes, or fewer where the run may do no more events; most runs do no more than two for
// each. It is there so that entries needn't be moved: where there is no memory for it, or not enough, the journal grows with the run.
fn journal_for(alloc: Global, checked: &Checked, turns: u64) -> Journal
    ensures { result.items ≡ [] }
{
    let mut journal = Journal::new(alloc);
    match journal.reserve(checked.tree().len().saturating_mul(2).min(turns) as usize) {
        Ok(()) => {}
        Err(_) => {}
    }
    journal
}

// The start of a run. What there is to do isn't known yet, so its first round has all workers.
fn start(alloc: Global, checked: &Arc<Checked>, options: &Options) -> Result<Drive, NoMemory>
    requires options { options_out options.now ≡ 0 }
    ensures code { IfOk result (λ d. bare d.cluster.state.code ≡ code_of (program (term_of (arc_value checked.now).arena))) }
    ensures start { IfOk result (λ d. run_of d ≡ run_start d.cluster.state.code options.now) }
    ensures way { IfOk result (λ d. IsUnderWay (run_of d)) }
    ensures counted { IfOk result (λ d. events_in d.cluster.state.servers ≡ length d.journal.items) }
    ensures program { IfOk result (λ d. d.cluster.program ≡ arc_value checked.now) }
{
    starts_are_under_way();
    Ok(Drive {
        cluster: Cluster::new(alloc, checked, options)?,
        choices: choices_of(alloc, options)?,
        journal: journal_for(alloc, checked, options.turns),
        beside: u64::MAX,
    })
}

// Whether the run has come to an end, or has done as many events as it may.
fn is_done(drive: &Drive) -> bool
    ensures { result ≡ is_done (run_of drive.now) }
{
    drive.cluster.ending() != Ending3::Going || drive.journal.len() >= drive.cluster.options().turns
}

// How a run ended whose cluster stands so.
fn ended(ending: Ending3) -> Ending
    ensures { result ≡ ended ending }
{
    match ending {
        Ending3::Finished => Ending::Finished,
        Ending3::Deadlocked => Ending::Deadlocked,
        Ending3::Going => Ending::Unfinished,
    }
}

// Round after round, from the first one on, until the run is done.
fn drive_on<G: Gate + Sync, R: Threads + Sync>(
    rt: &R,
    alloc: Global,
    start: Drive,
    turns: u64,
    gate: &G,
) -> Result<Drive, NoMemory>
    requires each { EachKeepsCoherence }
    requires way { IsUnderWay (run_of start) }
    requires counted { events_in start.cluster.state.servers ≡ length start.journal.items }
    requires turns { turns ≤ 1000000000 }
    ensures run { IfOk result (λ d. rounds_from turns 1 (run_of start) ≡ Some (run_of d)) }
    ensures way { IfOk result (λ d. IsUnderWay (run_of d)) }
    ensures program { IfOk result (λ d. d.cluster.program ≡ start.cluster.program) }
{
    rounds_go_on();
    let mut drive = start;
    'rounds: for before in 0..turns {
        if is_done(&drive) {
            return Ok(drive);
        }
        drive = round(rt, alloc, drive, gate)?;
        drive = even_out(alloc, drive, before + 1)?;
    }
    Ok(drive)
}

/// Runs a checked program in rounds, under options in their ranges. What it leaves is the definition's run of the program's code, whatever the number of
/// workers is. Want of memory is the only refusal. It takes time in the number of events, beside that of the servers in each round.
pub fn run_rounds<G: Gate + Sync, R: Threads + Sync>(
    rt: &R,
    alloc: Global,
    checked: &Arc<Checked>,
    options: &Options,
    gate: &G,
) -> Result<Ran, NoMemory>
    requires options { options_out options.now ≡ 0 }
    ensures run { IfOk result (λ ran. IsRunOf (arc_value checked.now) options.now ran.cluster.state ran.journal.items) }
    ensures ending { IfOk result (λ ran. ran.ending ≡ ended (ending ran.cluster.state)) }
    ensures coherent { IfOk result (λ ran. IsCoherent ran.cluster.state) }
    ensures sent { IfOk result (λ ran. outboxes ran.cluster.state.servers ≡ []) }
    ensures program { IfOk result (λ ran. ran.cluster.program ≡ arc_value checked.now) }
{
    events_keep_coherence();
    coherent_in_any_order();
    let start = start(alloc, checked, options)?;
    let last = drive_on(rt, alloc, start, options.turns, gate)?;
    let ending = ended(last.cluster.ending());
    let Drive {
        cluster,
        journal,
        ..
    } = last;
    Ok(Ran {
        journal,
        cluster,
        ending,
    })
}
