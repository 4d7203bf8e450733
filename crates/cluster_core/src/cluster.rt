//! All servers of a run.

ghost use Rattle.std.specs.Prelude.{◌≡◌, ◌↔◌, ◌<◌, ◌≤◌, true, false, length, map, option_map, slice_get, Some, IsSome, Err, IfOk, IfErr, IfSome, OnOk, OnErr};
ghost use Rattle.std.specs.Arc.{arc_value};
ghost use Rattle.fr_syntax.specs.Meanings.{term_of};
ghost use Rattle.fr_plain.specs.Resolve.{program};
ghost use Rattle.law_plain_table.specs.Bare.{bare};
ghost use Rattle.law_plain_table.specs.CodeOf.{code_of};
ghost use Rattle.law_plain_table.specs.Tables.{HasTable};
ghost use Rattle.fr_typing.specs.Kinds.{Kind};
ghost use Rattle.server_model.specs.Servers.{start_of, server_at};
ghost use Rattle.server_model.specs.Clusters.{apply, hand_over};
ghost use Rattle.drive_model.specs.Ending.{ending, waits};
ghost use Rattle.cluster_core.specs.Views.{ClusterView, AreServersOf, cluster_of, states, events_in};
ghost use Rattle.cluster_core.specs.Handing.{NoneSent};
ghost use Rattle.cluster_core.specs.Enabled.{is_enabled};
ghost use Rattle.cluster_core.specs.declared.refused.Refused.TheVariants as refused_by;
ghost use Rattle.coherent_memory.specs.Naming.{options_out};
ghost use Rattle.coherent_types.specs.ClusterTypes.{IsCoherent};

use crate::apply::{apply_at, can_do};
use crate::refused::Refused;
use crate::row::{events_of, make_room, start_row};
use crate::sending::{count_sent, send_all};
use crate::standing::ending_of;
use crate::waiting::waits_of;
use borrow_check::Checked;
use fr_base::{Ending3, NoMemory, Options, Waits};
use fr_compile::compile;
use journal::Entry;
use law_runs_coherent::{events_keep_coherence, starts_are_coherent};
use server_core::Server;
use server_model::Event;
use server_msgs::Message;
use std::alloc::Global;
use std::marker::Model;
use std::sync::Arc;

/// All servers of a run of a checked program. Contracts see its state, as the definitions have it, and the program.
#[derive(Drop)]
pub struct Cluster {
    checked: Arc<Checked>,
    // each at the place of its number
    servers: Vec<Server>,
    // true only where each has room for two messages
    ready: bool,
}

impl Model for Cluster {
    ghost use Rattle.std.specs.Prelude.{◌≡◌, ◌≤◌, true};
    ghost use Rattle.std.specs.Arc.{arc_value};
    ghost use Rattle.cluster_core.specs.Rooms.{HaveRoom};
    ghost use Rattle.cluster_core.specs.Views.{ClusterView, AreServersOf, cluster_of, states, events_in};

    ghost Value = { ClusterView };

    ghost view = { λ c. record { state = cluster_of c.servers.items; program = arc_value c.checked } };

    ghost invariant = { λ c. AreServersOf (arc_value c.checked) c.servers.items × (events_in (states c.servers.items) ≤ 1000000000) × (c.ready ≡ true → HaveRoom 2 c.servers.items) };
}

impl Cluster {
    /// The start of a run: main stands at its first instruction on server 0, and nothing else is anywhere. The cluster's code is that of the program,
    /// but for the room of its lists, and has a table, so that the start is coherent where all options are in their ranges. There are 1 to 64 servers, and
    /// the limit of colours is from 1 to 65,536.
    pub fn new(
        alloc: Global,
        checked: &Arc<Checked>,
        options: &Options,
    ) -> Result<Cluster, NoMemory>
        requires servers { (1 ≤ options.now.servers) × (options.now.servers ≤ 64) }
        requires colours { (1 ≤ options.now.colours) × (options.now.colours ≤ 65536) }
        ensures code { IfOk result (λ k. bare k.state.code ≡ code_of (program (term_of (arc_value checked.now).arena))) }
        ensures start { IfOk result (λ k. k.state ≡ start_of k.state.code options.now) }
        ensures table { IfOk result (λ k. (t : Kind) × HasTable k.state.code t) }
        ensures coherent { options_out options.now ≡ 0 → IfOk result (λ k. IsCoherent k.state) }
        ensures sent { IfOk result (λ k. NoneSent k.state.servers) }
        ensures program { IfOk result (λ k. k.program ≡ arc_value checked.now) }
    {
        starts_are_coherent();
        let code = Arc::new(alloc, compile(alloc, checked)?)?;
        let servers = start_row(alloc, &code, options)?;
        Ok(Cluster {
            checked: checked.clone()?,
            servers,
            ready: false,
        })
    }

    /// The checked program. No memory.
    pub fn checked(&self) -> &Checked
        ensures { result.now ≡ self.now.program }
    {
        &self.checked
    }

    /// What the run is asked to be like. No memory.
    pub fn options(&self) -> &Options
        ensures { result.now ≡ self.now.state.options }
    {
        self.servers[0].options()
    }

    /// How many events the servers have done, which is at most 1,000,000,000. No memory.
    pub fn events(&self) -> u64
        ensures sum { result ≡ events_in self.now.state.servers }
        ensures few { result ≤ 1000000000 }
    {
        events_of(&self.servers)
    }

    /// Takes all messages out of the outboxes, in the order of the servers, and each waits last at the server that it goes to. Where memory is wanting, all
    /// stays as it is.
    pub fn hand_over(&mut self) -> Result<(), NoMemory>
        ensures handed { OnOk result (self.new.state ≡ hand_over self.old.state) }
        ensures sent { OnOk result (NoneSent self.new.state.servers) }
        ensures refused { OnErr result (self.new.state ≡ self.old.state) }
        ensures program { self.new.program ≡ self.old.program }
    {
        let all = count_sent(&self.servers)?;
        make_room(&mut self.servers, all)?;
        self.ready = false;
        send_all(&mut self.servers);
        Ok(())
    }

    /// Does an event at its server, and its messages wait last at the servers that they go to. The cluster is coherent, fewer than 1,000,000,000 events
    /// were done, and no message stands in an outbox, as `new`, `apply` and `hand_over` leave it. `NotEnabled` comes exactly where the server isn't of the
    /// run or the event isn't enabled there, else `NoMemory` where memory is wanting; both leave all unchanged. The cluster stays coherent. Servers to which the event sends nothing
    /// cost no time, but once after `new`, after `from_servers` and `hand_over`, and after memory was wanting for the room that each keeps.
    pub fn apply(&mut self, event: Event) -> Result<Entry, Refused>
        requires coherent { IsCoherent self.old.state }
        requires few { events_in self.old.state.servers < 1000000000 }
        requires sent { NoneSent self.old.state.servers }
        ensures applied { IfOk result (λ e. apply self.old.state event ≡ Some (self.new.state, e)) }
        ensures not_enabled { is_enabled self.old.state event ≡ false → result ≡ Err refused_by.NotEnabled }
        ensures memory { is_enabled self.old.state event ≡ true → IfErr result (λ e. e ≡ refused_by.NoMemory) }
        ensures refused { OnErr result (self.new.state ≡ self.old.state) }
        ensures coherent { IsCoherent self.new.state }
        ensures sent { NoneSent self.new.state.servers }
        ensures program { self.new.program ≡ self.old.program }
    {
        events_keep_coherence();
        if !can_do(&self.servers, event.server, &event.what) {
            return Err(Refused::NotEnabled);
        }
        match apply_at(&mut self.servers, self.ready, &event) {
            Ok((entry, ready)) => {
                self.ready = ready;
                Ok(entry)
            }
            Err(_) => Err(Refused::NoMemory),
        }
    }

    /// The checked program, and the servers by rising number, from 0. No memory.
    pub fn into_servers(self) -> (Arc<Checked>, Vec<Server>)
        ensures program { arc_value result.0 ≡ self.program }
        ensures servers { cluster_of result.1.items ≡ self.state }
        ensures run { AreServersOf (arc_value result.0) result.1.items }
        ensures few { events_in (states result.1.items) ≤ 1000000000 }
    {
        (self.checked, self.servers)
    }

    /// The cluster that these servers are. They are those of a run of that program, by rising number from 0, and have done at most 1,000,000,000 events.
    /// No memory.
    pub fn from_servers(checked: Arc<Checked>, servers: Vec<Server>) -> Cluster
        requires run { AreServersOf (arc_value checked) servers.items }
        requires few { events_in (states servers.items) ≤ 1000000000 }
        ensures state { result.state ≡ cluster_of servers.items }
        ensures program { result.program ≡ arc_value checked }
    {
        Cluster {
            checked,
            servers,
            ready: false,
        }
    }

    /// The server of that number; `None` exactly where it isn't of the run. No memory.
    pub fn server(&self, no: u8) -> Option<&Server>
        ensures state { option_map (λ s. s.now.state) result ≡ server_at self.now.state.servers no }
        ensures kept { IfSome result (λ s. (s.now.code ≡ self.now.state.code) × (s.now.options ≡ self.now.state.options)) }
        ensures there { IsSome result ↔ no < self.now.state.options.servers }
    {
        match self.servers.get(usize::from(no)) {
            Some(server) => Some(server),
            None => None,
        }
    }

    /// How many addresses of that server were retired for good. The server is of the run. No memory.
    pub fn retired(&self, server: u8) -> u64
        requires there { server < self.now.state.options.servers }
        ensures { option_map (λ s. s.rest.partition.retired) (server_at self.now.state.servers server) ≡ Some result }
    {
        self.servers[usize::from(server)].retired()
    }

    /// Whether the cluster has come to an end: `Finished` exactly where all threads are over and no message waits, in an inbox or an outbox; `Deadlocked`
    /// exactly where no message waits, some thread isn't over, and each such thread waits at a lock, a join or a pair; else `Going`. No memory.
    pub fn ending(&self) -> Ending3
        ensures { result ≡ ending self.now.state }
    {
        ending_of(&self.servers)
    }

    /// The threads that wait at a lock, a join or a pair, by rising number, each with what it waits for. It takes time in the number of servers times that of
    /// the threads that wait.
    pub fn waits(&self, alloc: Global) -> Result<Waits, NoMemory>
        ensures { IfOk result (λ ws. ws.items ≡ waits self.now.state) }
    {
        waits_of(alloc, &self.servers)
    }

    /// How many messages wait at that server. The server is of the run. No memory.
    pub fn waiting(&self, server: u8) -> usize
        requires there { server < self.now.state.options.servers }
        ensures { option_map (λ s. length s.rest.inbox) (server_at self.now.state.servers server) ≡ Some result }
    {
        self.servers[usize::from(server)].waiting()
    }

    /// The message that waits at that place of that server, from 0, the oldest first; `None` exactly past the end. The server is of the run. No memory.
    pub fn message(&self, server: u8, at: usize) -> Option<&Message>
        requires there { server < self.now.state.options.servers }
        ensures { option_map (λ s. slice_get s.rest.inbox at) (server_at self.now.state.servers server) ≡ Some (option_map (λ m. m.now) result) }
    {
        self.servers[usize::from(server)].message(at)
    }
}
