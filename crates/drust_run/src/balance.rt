//! Loads are evened out after a round.

ghost use Rattle.std.specs.Prelude.{◌≡◌, ◌≤◌, ◌<◌, true, length, slice_get, option_map, Some, IfSome, IfOk};
ghost use Rattle.server_model.specs.declared.event.What.TheVariants.{Migrate};
ghost use Rattle.drive_model.specs.Balance.{balance, loads};
ghost use Rattle.drive_model.specs.Rounds.{balanced, is_balanced, shifted};
ghost use Rattle.cluster_core.specs.Views.{events_in, states};
ghost use Rattle.law_runs_whole.specs.runs.Runs.{EachKeepsCoherence};
ghost use Rattle.law_runs_rounds.specs.rounds.UnderWay.{IsUnderWay};
ghost use Rattle.drust_run.specs.Drives.{run_of};
ghost use Rattle.drust_run.specs.Moves.{CanAct, IsDone};

use crate::drive::Drive;
use crate::work::act;
use cluster_core::Cluster;
use controller::{Load, balance, busiest};
use fr_base::NoMemory;
use journal::Entry;
use law_runs_rounds::rounds_go_on;
use server_core::Server;
use server_model::What;
use std::alloc::Global;

// The loads of some servers, in their order.
fn loads_of(alloc: Global, servers: &[Server]) -> Result<Vec<Load>, NoMemory>
    ensures { IfOk result (λ ls. ls.items ≡ loads (states servers.now)) }
{
    let mut loads = Vec::new(alloc);
    'servers: for server in servers {
        loads.push(Load {
            threads: server.active(),
            candidate: server.movable(),
        })?;
    }
    Ok(loads)
}

// Which thread goes from which server to which, by the servers' loads; `None` where none does.
fn move_of(loads: &[Load]) -> Option<(u8, What)>
    requires few { length loads.now ≤ 256 }
    ensures { result ≡ option_map (λ x. (x.source, Migrate x.thread x.target)) (balance loads.now) }
{
    let source = busiest(loads)?;
    match balance(loads) {
        Some((thread, target)) => Some((source, What::Migrate(thread, target))),
        None => None,
    }
}

// An event of the server at that place; its message stands in the outbox there.
fn act_at(servers: &mut Vec<Server>, at: u8, what: &What) -> Result<Entry, NoMemory>
    requires within { at < length servers.old.items }
    requires able { IfSome (slice_get servers.old.items at) (CanAct what.now) }
    ensures { IfOk result (λ e. IsDone at what.now e servers.old.items servers.new.items) }
{
    act(&mut servers[usize::from(at)], what)
}

// Whether it is the turn of a balance after the round of that number.
fn is_due(drive: &Drive, number: u64) -> bool
    ensures { result ≡ is_balanced number (run_of drive.now) }
{
    let options = drive.cluster.options();
    let every = u64::from(options.balance);
    every > 0 && number % every == 0 && drive.journal.len() < options.turns
}

// A thread leaves the busiest server for the idlest, where their loads are uneven, and its parcel is handed over.
fn shift(alloc: Global, drive: Drive, number: u64) -> Result<Drive, NoMemory>
    requires each { EachKeepsCoherence }
    requires way { IsUnderWay (run_of drive) }
    requires due { is_balanced number (run_of drive) ≡ true }
    requires counted { events_in drive.cluster.state.servers ≡ length drive.journal.items }
    ensures shifted { IfOk result (λ d. shifted (run_of drive) (balance (loads drive.cluster.state.servers)) ≡ Some (run_of d)) }
    ensures counted { IfOk result (λ d. events_in d.cluster.state.servers ≡ length d.journal.items) }
    ensures program { IfOk result (λ d. d.cluster.program ≡ drive.cluster.program) }
{
    rounds_go_on();
    let Drive {
        cluster,
        choices,
        mut journal,
        beside,
    } = drive;
    let (checked, mut servers) = cluster.into_servers();
    let loads = loads_of(alloc, &servers)?;
    let Some((source, what)) = move_of(&loads) else {
        return Ok(Drive {
            cluster: Cluster::from_servers(checked, servers),
            choices,
            journal,
            beside,
        });
    };
    journal.push(act_at(&mut servers, source, &what)?)?;
    let mut cluster = Cluster::from_servers(checked, servers);
    cluster.hand_over()?;
    Ok(Drive {
        cluster,
        choices,
        journal,
        beside,
    })
}

// After the round of that number, where it is the turn of a balance, the loads are evened out.
pub(crate) fn even_out(alloc: Global, drive: Drive, number: u64) -> Result<Drive, NoMemory>
    requires each { EachKeepsCoherence }
    requires way { IsUnderWay (run_of drive) }
    requires counted { events_in drive.cluster.state.servers ≡ length drive.journal.items }
    ensures balanced { IfOk result (λ d. balanced number (run_of drive) ≡ Some (run_of d)) }
    ensures counted { IfOk result (λ d. events_in d.cluster.state.servers ≡ length d.journal.items) }
    ensures program { IfOk result (λ d. d.cluster.program ≡ drive.cluster.program) }
{
    if !is_due(&drive, number) {
        return Ok(drive);
    }
    shift(alloc, drive, number)
}
