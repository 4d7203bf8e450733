//! The servers of a round at their desks, beside each other.

ghost use Rattle.std.specs.Prelude.{◌<◌};
ghost use Rattle.drust_run.specs.Desks.{EachIsReady, IsReady, WorkEach, Works};

use crate::desk::Desk;
use crate::work::work_at;
use drust_io::Gate;
use std::alloc::Global;
use std::thread::{Threads, for_each_mut};

// The servers are spread over so many workers, and each does at most a quantum.
pub(crate) fn at_work<G: Gate + Sync, R: Threads + Sync>(
    rt: &R,
    alloc: Global,
    desks: &mut [Desk],
    workers: usize,
    quantum: u32,
    gate: &G,
)
    requires workers { 0 < workers }
    requires ready { EachIsReady quantum desks.old }
    ensures { WorkEach quantum desks.old desks.new }
{
    let quantum_at = |_: usize, desk: &mut Desk|
        requires { IsReady quantum desk.now }
        ensures { Works quantum desk.entry.now desk.exit.now }
    { work_at(alloc, desk, quantum, gate) };
    for_each_mut(rt, desks, workers, &quantum_at);
}

// How many events were done beside those of the busiest server.
pub(crate) fn done_beside(desks: &[Desk]) -> u64 {
    let mut all = 0u64;
    let mut most = 0;
    'desks: for desk in desks {
        let done = desk.entries.len();
        all = all.saturating_add(done);
        most = done.max(most);
    }
    all.saturating_sub(most)
}
