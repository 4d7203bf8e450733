//! A run that is driven event by event.

ghost use Rattle.std.specs.Prelude.{◌≡◌, ◌≤◌};
ghost use Rattle.coherent_types.specs.Below.coherent_memory.Naming.{options_out};

use crate::asked::{Asked, Order};
use crate::noted::Noted;
use borrow_check::Checked;
use cluster_core::{Cluster, Refused};
use controller::{Choice, next};
use fr_base::{NoMemory, Options, ThreadNo};
use journal::Entry;
use server_model::{Event, What};
use std::alloc::Global;
use std::marker::Model;
use std::sync::Arc;

/// A coherent cluster with no message in an outbox, and what its events have left. Contracts see the cluster.
#[derive(Drop)]
pub struct Run {
    cluster: Cluster,
    choice: Choice,
    order: Order,
    // how often an event is tried again
    again: u64,
    noted: Noted,
}

impl Model for Run {
    ghost use Rattle.cluster_core.specs.Views.{ClusterView};
    ghost use Rattle.cluster_core.specs.Handing.{NoneSent};
    ghost use Rattle.coherent_types.specs.ClusterTypes.{IsCoherent};

    ghost Value = { ClusterView };

    ghost view = { λ r. r.cluster };

    ghost invariant = { λ r. IsCoherent r.cluster.state × NoneSent r.cluster.state.servers };
}

// What a run on so many servers is asked to be like, where there may be so many; else one on one server.
fn options_of(servers: u8) -> Options
    ensures servers { (1 ≤ result.servers) × (result.servers ≤ 64) }
    ensures colours { (1 ≤ result.colours) × (result.colours ≤ 65536) }
    ensures within { options_out result ≡ 0 }
{
    match servers {
        1..=64 => Options {
            servers,
            ..Options::DEFAULT
        },
        _ => Options::DEFAULT,
    }
}

// A step of main.
fn main_steps() -> What {
    What::Step(ThreadNo::new(0, 0))
}

impl Run {
    /// The start of a run of a program, on as many servers as are asked for.
    pub fn new(alloc: Global, checked: Checked, asked: &Asked) -> Result<Run, NoMemory> {
        let options = options_of(asked.servers);
        let checked = Arc::new(alloc, checked)?;
        Ok(Run {
            cluster: Cluster::new(alloc, &checked, &options)?,
            choice: Choice::new(options.choice, 0),
            order: asked.order,
            again: asked.again,
            noted: Noted::new(alloc, asked.trace),
        })
    }

    // The server's next event; `None` where it has none.
    fn choose(&mut self, server: u8) -> Option<What> {
        let at = self.cluster.server(server)?;
        if self.order != Order::Drawn && at.enabled(main_steps()) {
            return Some(main_steps());
        }
        if self.order == Order::Messages && at.waiting() > 0 {
            return Some(What::Deliver(0));
        }
        next(at, &mut self.choice)
    }

    // Room for the entry where it is kept, and then the event is done.
    fn attempt(&mut self, event: &Event) -> Result<Entry, Refused> {
        if self.noted.room().is_err() {
            return Err(Refused::NoMemory);
        }
        if self.cluster.events() == 1_000_000_000 {
            return Err(Refused::NotEnabled);
        }
        self.cluster.apply(*event)
    }

    // The same, again and again where memory is wanting; `None` where the event isn't enabled.
    fn apply(&mut self, event: &Event) -> Result<Option<Entry>, NoMemory> {
        for _ in 0..=self.again {
            match self.attempt(event) {
                Ok(entry) => return Ok(Some(entry)),
                Err(Refused::NotEnabled) => return Ok(None),
                Err(Refused::NoMemory) => self.noted.refuse(),
            }
        }
        Err(NoMemory)
    }

    // Does the server's next event; whether it had one.
    fn act(&mut self, server: u8) -> Result<bool, NoMemory> {
        let Some(what) = self.choose(server) else {
            return Ok(false);
        };
        let event = Event { server, what };
        let Some(entry) = self.apply(&event)? else {
            return Ok(false);
        };
        self.noted.add(&event.what, entry)?;
        Ok(true)
    }

    // Does an event of each server that has one, as long as fewer than so many were done; whether any was done.
    fn round(&mut self, most: u64) -> Result<bool, NoMemory> {
        let mut done = false;
        for server in 0..self.cluster.options().servers {
            if self.events() < most && self.act(server)? {
                done = true;
            }
        }
        Ok(done)
    }

    /// Does events, one of each server after another, until no server has one or so many were done.
    pub fn go(&mut self, most: u64) -> Result<(), NoMemory> {
        for _ in 0..most {
            if !self.round(most)? {
                return Ok(());
            }
        }
        Ok(())
    }

    /// How many events were done.
    pub fn events(&self) -> u64 {
        self.cluster.events()
    }

    /// What the events have left.
    pub fn noted(&self) -> &Noted {
        &self.noted
    }

    /// How many messages wait and how many threads can step, at all servers.
    pub fn left(&self) -> (u64, u64) {
        let (mut waiting, mut stepping) = (0u64, 0u64);
        for number in 0..self.cluster.options().servers {
            if let Some(server) = self.cluster.server(number) {
                waiting = waiting.saturating_add(server.waiting() as u64);
                stepping = stepping.saturating_add(server.stepping() as u64);
            }
        }
        (waiting, stepping)
    }
}
