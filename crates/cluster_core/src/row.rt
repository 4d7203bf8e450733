//! Servers in a row, each at the place of its number.

ghost use Rattle.std.specs.Prelude.{◌≡◌, ◌<◌, ◌≤◌, slice_get, IfSome, IfOk, OnOk};
ghost use Rattle.std.specs.Arc.{arc_value};
ghost use Rattle.server_model.specs.Servers.{start_of};
ghost use Rattle.cluster_core.specs.Views.{states, AllKeep, events_in};
ghost use Rattle.cluster_core.specs.Rooms.{HaveRoom};
ghost use Rattle.cluster_core.specs.Rows.{Changes, Accepts, HaveGrown};

use fr_base::{Code, NoMemory, Options};
use server_core::Server;
use server_msgs::Message;
use std::alloc::Global;
use std::sync::Arc;

// Puts a message last at the server at that place, which has room for it; where there is no such server it goes nowhere.
pub(crate) fn accept_at(servers: &mut Vec<Server>, at: u8, message: Message)
    requires room { IfSome (slice_get servers.old.items at) (λ v. 0 < v.inbox_room) }
    ensures { Changes (Accepts message) at servers.old.items servers.new.items }
{
    let Some(server) = servers.get_mut(usize::from(at)) else {
        return;
    };
    match server.accept(message) {
        Ok(()) => {}
        Err(_) => unreachable!(),
    }
}

// Makes room for so many messages at each server; a refusal leaves what room was made.
pub(crate) fn make_room(servers: &mut Vec<Server>, room: usize) -> Result<(), NoMemory>
    ensures grown { HaveGrown servers.old.items servers.new.items }
    ensures room { OnOk result (HaveRoom room servers.new.items) }
{
    'servers: for at in 0..servers.len() {
        servers[at].accept_room(room)?;
    }
    Ok(())
}

// How many events some servers have done, together at most 1,000,000,000.
pub(crate) fn events_of(servers: &[Server]) -> u64
    requires few { events_in (states servers.now) ≤ 1000000000 }
    ensures { result ≡ events_in (states servers.now) }
{
    match servers {
        [] => 0,
        [server, rest @ ..] => server.events() + events_of(rest),
    }
}

// The servers of a run at its start, which have no more room than what is there.
pub(crate) fn start_row(
    alloc: Global,
    code: &Arc<Code>,
    options: &Options,
) -> Result<Vec<Server>, NoMemory>
    requires colours { (1 ≤ options.now.colours) × (options.now.colours ≤ 65536) }
    ensures states { IfOk result (λ ss. states ss.items ≡ (start_of (arc_value code.now).items options.now).servers) }
    ensures kept { IfOk result (λ ss. AllKeep (arc_value code.now).items options.now ss.items) }
{
    let mut servers = Vec::new(alloc);
    'servers: for server in 0..options.servers {
        servers.push(Server::new(alloc, server, code, options)?)?;
    }
    Ok(servers)
}
