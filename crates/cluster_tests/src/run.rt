//! A run that is driven event by event.

ghost use Rattle.std.specs.Prelude.{◌≡◌, ◌≤◌};
ghost use Rattle.coherent_types.specs.Below.coherent_memory.Naming.{options_out};

use crate::events::event_of;
use borrow_check::{CheckError, Checked, check};
use cluster_core::{Cluster, Refused};
use fr_base::{Ending, Ending3, NoMemory, Options};
use fr_grammar::parse;
use fr_syntax::tokens;
use journal::{Entry, Journal};
use server_model::Event;
use std::alloc::Global;
use std::marker::Model;
use std::process::Abort;
use std::sync::Arc;
use std::test::Fail;
use tracer::report_text;

/// A coherent cluster with no message in an outbox, and the entries of the events that it did. Contracts see the cluster.
#[derive(Drop)]
pub struct Run {
    cluster: Cluster,
    journal: Journal,
}

impl Model for Run {
    ghost use Rattle.cluster_core.specs.Views.{ClusterView};
    ghost use Rattle.cluster_core.specs.Handing.{NoneSent};
    ghost use Rattle.coherent_types.specs.ClusterTypes.{IsCoherent};

    ghost Value = { ClusterView };

    ghost view = { λ r. r.cluster };

    ghost invariant = { λ r. IsCoherent r.cluster.state × NoneSent r.cluster.state.servers };
}

// The checked program of a source. One that is too long has a fault that no test expects.
fn checked(alloc: Global, input: &[u8]) -> Result<Result<Checked, CheckError>, Fail> {
    if input.len() > 1_048_576 {
        return Ok(Err(CheckError::NoMemory));
    }
    let tokens = tokens(alloc, input)?;
    let tree = parse(alloc, &tokens)?;
    Ok(check(alloc, tree))
}

impl Run {
    /// The start of a run of a source's program. The options are in their ranges.
    pub fn new(alloc: Global, source: &str, options: &Options) -> Result<Run, Fail>
        requires servers { (1 ≤ options.now.servers) × (options.now.servers ≤ 64) }
        requires colours { (1 ≤ options.now.colours) × (options.now.colours ≤ 65536) }
        requires options { options_out options.now ≡ 0 }
    {
        let checked = Arc::new(alloc, checked(alloc, source.as_bytes())??)?;
        Ok(Run {
            cluster: Cluster::new(alloc, &checked, options)?,
            journal: Journal::new(alloc),
        })
    }

    // Does an event; `None` where it isn't enabled, or the run has done too many.
    fn apply(&mut self, event: &Event) -> Result<Option<Entry>, NoMemory> {
        if self.cluster.events() == 1_000_000_000 {
            return Ok(None);
        }
        match self.cluster.apply(*event) {
            Ok(entry) => Ok(Some(entry)),
            Err(Refused::NotEnabled) => Ok(None),
            Err(Refused::NoMemory) => Err(NoMemory),
        }
    }

    // Does an event, whose entry goes into the journal; whether it was enabled.
    fn act<R: Abort>(&mut self, rt: &R, event: &Event) -> Result<bool, NoMemory> {
        let Some(entry) = self.apply(event)? else {
            return Ok(false);
        };
        assert!(rt; entry.done.is_none() || entry.thread.is_some());
        self.journal.push(entry)?;
        Ok(true)
    }

    // Does an event so many times.
    fn repeat<R: Abort>(
        &mut self,
        rt: &R,
        event: &Event,
        times: u32,
        row: &str,
    ) -> Result<(), Fail> {
        for _ in 0..times {
            let done = self.act(rt, event)?;
            assert!(rt; done, "{row}");
        }
        Ok(())
    }

    // The event isn't enabled.
    fn refuse<R: Abort>(&mut self, rt: &R, event: &Event, row: &str) -> Result<(), Fail> {
        let done = self.act(rt, event)?;
        assert!(rt; !done, "{row}");
        Ok(())
    }

    // So many messages wait, or so many addresses were retired.
    fn counts<R: Abort>(&self, rt: &R, name: &str, count: &str) {
        let count = count.parse::<u64>().expect(rt, "a number");
        if name == "waiting" {
            assert_eq!(rt; self.waiting() as u64, count);
        } else {
            assert_eq!(rt; self.retired(), count);
        }
    }

    // Does what a row tells.
    fn row<R: Abort>(&mut self, rt: &R, row: &str) -> Result<(), Fail> {
        match row.split_once('|') {
            None => self.repeat(rt, &event_of(rt, row), 1, row),
            Some((event, "refused")) => self.refuse(rt, &event_of(rt, event), row),
            Some((name, count)) if name == "waiting" || name == "retired" => {
                self.counts(rt, name, count);
                Ok(())
            }
            Some((event, times)) => {
                let times = times.parse::<u32>().expect(rt, "a number");
                self.repeat(rt, &event_of(rt, event), times, row)
            }
        }
    }

    /// Does what the rows tell: an event once, or as often as stands behind a bar, or not at all where it is said to be refused; or so many messages wait,
    /// or so many addresses of server 0 were retired.
    pub fn rows<R: Abort>(&mut self, rt: &R, rows: &str) -> Result<(), Fail> {
        for row in rows.lines() {
            self.row(rt, row)?;
        }
        Ok(())
    }

    // How many messages wait at servers 0, 1 and 2, where they are of the run.
    fn waiting(&self) -> usize {
        let mut all = 0usize;
        for server in 0..3u8 {
            if server < self.cluster.options().servers {
                all = all.saturating_add(self.cluster.waiting(server));
            }
        }
        all
    }

    // How many addresses of server 0 were retired for good.
    fn retired(&self) -> u64 {
        if 0 < self.cluster.options().servers {
            self.cluster.retired(0)
        } else {
            0
        }
    }

    /// The report of the run so far.
    pub fn report(&self, alloc: Global) -> Result<String, NoMemory> {
        let ending = match self.cluster.ending() {
            Ending3::Finished => Ending::Finished,
            Ending3::Deadlocked => Ending::Deadlocked,
            Ending3::Going => Ending::Unfinished,
        };
        report_text(alloc, &self.journal, ending, &self.cluster.waits(alloc)?)
    }
}
