//! A run that is driven row by row.

ghost use Rattle.std.specs.Prelude.{◌≡◌, ◌≤◌};
ghost use Rattle.coherent_types.specs.Below.coherent_memory.Naming.{options_out};

use crate::hand::do_event;
use crate::rows::{Row, event_of, row_of};
use crate::told::{add_server, tells};
use cluster_core::{Cluster, Refused};
use fr_base::{NoMemory, Options};
use journal::{Entry, Journal};
use server_model::Event;
use source_front::checked_source;
use std::alloc::Global;
use std::marker::Model;
use std::process::Abort;
use std::sync::Arc;
use std::test::Fail;

// One server, one with two colours, two that are to keep no copy, or two.
fn options_of(choice: u32) -> Options
    ensures servers { (1 ≤ result.servers) × (result.servers ≤ 64) }
    ensures colours { (1 ≤ result.colours) × (result.colours ≤ 65536) }
    ensures within { options_out result ≡ 0 }
{
    match choice {
        0 => Options::DEFAULT,
        1 => Options {
            colours: 2,
            ..Options::DEFAULT
        },
        2 => Options {
            servers: 2,
            cache: 0,
            ..Options::DEFAULT
        },
        _ => Options {
            servers: 2,
            ..Options::DEFAULT
        },
    }
}

/// A coherent cluster with no message in an outbox, and the entries of the events that it did. Contracts see the cluster.
#[derive(Drop)]
pub struct Run {
    cluster: Cluster,
    journal: Journal,
}

impl Model for Run {
    ghost use Rattle.cluster_core.specs.Views.{ClusterView};
    ghost use Rattle.cluster_core.specs.Handing.{NoneSent};
    ghost use Rattle.coherent_types.specs.ClusterTypes.{IsCoherent};

    ghost Value = { ClusterView };

    ghost view = { λ r. r.cluster };

    ghost invariant = { λ r. IsCoherent r.cluster.state × NoneSent r.cluster.state.servers };
}

impl Run {
    // The start of a run of a source's program. The options are in their ranges.
    fn new<R: Abort>(rt: &R, alloc: Global, source: &str, options: &Options) -> Result<Run, Fail>
        requires servers { (1 ≤ options.now.servers) × (options.now.servers ≤ 64) }
        requires colours { (1 ≤ options.now.colours) × (options.now.colours ≤ 65536) }
        requires options { options_out options.now ≡ 0 }
    {
        let bytes = source.as_bytes();
        assert!(rt; bytes.len() <= 1_048_576);
        let checked = checked_source(alloc, bytes).ok().expect(rt, "a program");
        let checked = Arc::new(alloc, checked)?;
        Ok(Run {
            cluster: Cluster::new(alloc, &checked, options)?,
            journal: Journal::new(alloc),
        })
    }

    /// The run of a case: a source, the choice of its options, and rows. It stands behind the first so many of them, and behind so many of the events of the next.
    pub fn of<R: Abort>(
        rt: &R,
        alloc: Global,
        case: (&str, u32, &str),
        count: usize,
        more: u32,
    ) -> Result<Run, Fail> {
        let (source, choice, rows) = case;
        let mut run = Run::new(rt, alloc, source, &options_of(choice))?;
        run.rows(rt, alloc, rows, count, more)?;
        Ok(run)
    }

    // Does an event; `None` where it isn't enabled, or the run has done too many.
    fn apply(&mut self, event: &Event) -> Result<Option<Entry>, NoMemory> {
        if self.cluster.events() == 1_000_000_000 {
            return Ok(None);
        }
        match self.cluster.apply(*event) {
            Ok(entry) => Ok(Some(entry)),
            Err(Refused::NotEnabled) => Ok(None),
            Err(Refused::NoMemory) => Err(NoMemory),
        }
    }

    // Does the event of a row, whose entry goes into the journal.
    fn act<R: Abort>(&mut self, rt: &R, row: Row<'_>) -> Result<(), NoMemory> {
        let event = event_of(rt, &self.cluster, row);
        let entry = self.apply(&event)?.expect(rt, "an enabled event");
        assert!(rt; entry.done.is_none() || entry.thread.is_some());
        self.journal.push(entry)?;
        Ok(())
    }

    // Does a row's event so many times.
    fn repeat<R: Abort>(&mut self, rt: &R, row: Row<'_>, times: u32) -> Result<(), NoMemory> {
        for _ in 0..times {
            self.act(rt, row)?;
        }
        Ok(())
    }

    // What the server of a row tells is what stands there.
    fn ask<R: Abort>(&self, rt: &R, alloc: Global, row: Row<'_>) -> Result<(), NoMemory> {
        let server = self.cluster.server(row.server).expect(rt, "a server");
        tells(rt, alloc, server, row.text)
    }

    // Does what the first so many rows say: events, and answers that servers are to give. Then it does so many of the events of the next row.
    fn rows<R: Abort>(
        &mut self,
        rt: &R,
        alloc: Global,
        rows: &str,
        count: usize,
        more: u32,
    ) -> Result<(), NoMemory> {
        for (at, row) in rows.lines().enumerate() {
            let row = row_of(rt, row);
            if at < count && row.times == 0 {
                self.ask(rt, alloc, row)?;
            }
            let times = if at < count {
                row.times
            } else if at == count {
                more
            } else {
                0
            };
            self.repeat(rt, row, times)?;
        }
        Ok(())
    }

    /// The entries so far.
    pub fn journal(&self) -> &Journal {
        &self.journal
    }

    /// Adds those messages, and then what each of at most two servers tells.
    pub fn add_left<R: Abort>(
        &self,
        rt: &R,
        text: &mut String,
        sent: &str,
    ) -> Result<(), NoMemory> {
        text.push_str(sent)?;
        for number in 0..2u8 {
            if let Some(server) = self.cluster.server(number) {
                add_server(rt, text, server, self.cluster.options())?;
            }
        }
        Ok(())
    }

    /// Does a row's event by the calls of the servers, one after another, whose entry has what the last one of that run has; the run ends with it. The text gets the
    /// messages that went to other servers, and what each server tells.
    pub fn by_hand<R: Abort>(
        self,
        rt: &R,
        row: Row<'_>,
        whole: &Run,
        text: &mut String,
    ) -> Result<(), NoMemory> {
        let event = event_of(rt, &self.cluster, row);
        let last = whole.journal.as_slice().last().expect(rt, "an entry");
        assert!(rt; self.cluster.events() < 1_000_000_000);
        let (_, mut servers) = self.cluster.into_servers();
        do_event(
            rt,
            &mut servers,
            &event,
            last,
            whole.cluster.options(),
            text,
        )
    }
}
