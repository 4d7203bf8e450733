//! Who waits in a cluster: the servers' lists, each by rising thread, are merged from the last one on.

ghost use Rattle.std.specs.Prelude.{◌≡◌, ◌+◌, if◌then◌else◌, IfOk};
ghost use Rattle.server_model.specs.Questions.{waits_among};
ghost use Rattle.drive_model.specs.Ending.{waits_in};
ghost use Rattle.cluster_core.specs.Views.{states};
ghost use Rattle.cluster_core.specs.Merging.{earlier};

use fr_base::{NoMemory, ThreadNo, Wait, Waits};
use server_core::Server;
use std::alloc::Global;

// The one of the lesser thread, or the other's where both are the same; with whether it is the first one.
fn earlier(
    own: Option<(ThreadNo, Wait)>,
    other: Option<(ThreadNo, Wait)>,
) -> Option<(bool, ThreadNo, Wait)>
    ensures { result ≡ earlier own other }
{
    match (own, other) {
        (None, None) => None,
        (Some((thread, wait)), None) => Some((true, thread, wait)),
        (None, Some((thread, wait))) => Some((false, thread, wait)),
        (Some((thread, wait)), Some((with, waits))) => {
            if thread.number() < with.number() {
                Some((true, thread, wait))
            } else {
                Some((false, with, waits))
            }
        }
    }
}

// The place after that one, or that one.
fn after(at: u64, goes_on: bool) -> Result<u64, NoMemory>
    ensures { IfOk result (λ n. n ≡ at + (if goes_on then 1 else 0)) }
{
    if goes_on {
        at.checked_add(1).ok_or(NoMemory)
    } else {
        Ok(at)
    }
}

// Those who wait at a server among others.
fn merged(alloc: Global, server: &Server, others: &Waits) -> Result<Waits, NoMemory>
    ensures { IfOk result (λ ws. ws.items ≡ waits_among server.now.state.threads others.now.items) }
{
    let mut all = Waits::new(alloc);
    let mut here = 0;
    let mut there = 0;
    'waits: while let Some((is_own, thread, wait)) = earlier(
        server.waits_at(here as usize),
        others.at(there).copied(),
    ) {
        all.push((thread, wait))?;
        here = after(here, is_own)?;
        there = after(there, !is_own)?;
    }
    Ok(all)
}

// Those who wait at some servers.
pub(crate) fn waits_of(alloc: Global, servers: &[Server]) -> Result<Waits, NoMemory>
    ensures { IfOk result (λ ws. ws.items ≡ waits_in (states servers.now)) }
{
    match servers {
        [] => Ok(Waits::new(alloc)),
        [server, rest @ ..] => {
            let others = waits_of(alloc, rest)?;
            merged(alloc, server, &others)
        }
    }
}
