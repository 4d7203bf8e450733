//! One event: it is done at its server, and its messages wait at theirs. Each server keeps room for two messages.

ghost use Rattle.std.specs.Prelude.{◌≡◌, ◌<◌, ◌&&◌, true, length, slice_get, IfSome, IfOk, OnOk, OnErr};
ghost use Rattle.server_model.specs.Clusters.{outboxes};
ghost use Rattle.cluster_core.specs.Views.{AreNumbered, states, events_in};
ghost use Rattle.cluster_core.specs.Rooms.{HaveRoom, HaveRoomBut, HaveRoomFor};
ghost use Rattle.cluster_core.specs.Rows.{Changes, Grows, HaveGrown, IsSameRun};
ghost use Rattle.cluster_core.specs.Handing.{handed, AreEmptyBut, NoneSent};
ghost use Rattle.cluster_core.specs.Applying.{can_do, CanAct, Acts, Acted, Applied};

use crate::row::{accept_at, make_room};
use fr_base::NoMemory;
use journal::Entry;
use server_core::Server;
use server_model::{Event, What};

// Whether the server at that place can do that; where there is none, nothing can be done.
pub(crate) fn can_do(servers: &[Server], at: u8, what: &What) -> bool
    ensures { result ≡ can_do what.now (slice_get servers.now at) }
{
    let asked = *what;
    match servers.get(usize::from(at)) {
        Some(server) => server.enabled(asked),
        None => false,
    }
}

// Both of them.
fn both(one: bool, other: bool) -> bool
    ensures { result ≡ one && other }
{
    one && other
}

// Room for two messages at each server, where some may lack it; a refusal leaves what room was made.
fn make_ready(servers: &mut Vec<Server>, ready: bool) -> Result<(), NoMemory>
    requires ready { ready ≡ true → HaveRoom 2 servers.old.items }
    ensures grown { HaveGrown servers.old.items servers.new.items }
    ensures room { OnOk result (HaveRoom 2 servers.new.items) }
{
    if ready {
        return Ok(());
    }
    make_room(servers, 2)
}

// Room for two messages at that server, where there is memory for it; whether there is.
fn refill(servers: &mut Vec<Server>, at: u8) -> bool
    ensures { Changes (Grows 2 result) at servers.old.items servers.new.items }
{
    let Some(server) = servers.get_mut(usize::from(at)) else {
        return true;
    };
    match server.accept_room(2) {
        Ok(()) => true,
        Err(_) => false,
    }
}

// Room for what is done, and then it is done.
fn act_here(server: &mut Server, what: &What) -> Result<Entry, NoMemory>
    requires able { CanAct what.now server.old }
    ensures done { IfOk result (λ e. Acts what.now e server.old server.new) }
    ensures refused { OnErr result (Grows 0 true server.old server.new) }
{
    let asked = *what;
    server.room(asked)?;
    let done = *what;
    Ok(server.act(done))
}

// It is done at that server, and its messages stand in the outbox there; a refusal leaves what room was made.
fn act_at(servers: &mut Vec<Server>, ready: bool, at: usize, what: &What) -> Result<Entry, NoMemory>
    requires within { at < length servers.old.items }
    requires able { IfSome (slice_get servers.old.items at) (CanAct what.now) }
    requires numbered { AreNumbered 0 (states servers.old.items) }
    requires sent { NoneSent (states servers.old.items) }
    requires ready { ready ≡ true → HaveRoom 2 servers.old.items }
    ensures done { IfOk result (λ e. Acted at what.now e servers.old.items servers.new.items) }
    ensures refused { OnErr result (HaveGrown servers.old.items servers.new.items) }
{
    make_ready(servers, ready)?;
    act_here(&mut servers[at], what)
}

// Hands over the messages of that server, the others having none. Whether each other server has room for two again.
fn send_event(servers: &mut Vec<Server>, at: usize) -> bool
    requires within { at < length servers.old.items }
    requires numbered { AreNumbered 0 (states servers.old.items) }
    requires others { AreEmptyBut at (states servers.old.items) }
    requires room { HaveRoomFor (outboxes (states servers.old.items)) servers.old.items }
    requires ready { HaveRoomBut at 2 servers.old.items }
    ensures handed { states servers.new.items ≡ handed (states servers.old.items) }
    ensures sent { NoneSent (states servers.new.items) }
    ensures ready { result ≡ true → HaveRoomBut at 2 servers.new.items }
    ensures run { IsSameRun servers.old.items servers.new.items }
    ensures events { events_in (states servers.new.items) ≡ events_in (states servers.old.items) }
{
    let mut ready = true;
    'messages: while let Some((target, message)) = servers[at].outbox() {
        accept_at(servers, target, message);
        ready = both(refill(servers, target), ready);
    }
    ready
}

// The event is done at its server, no message being under way, and its messages wait at theirs; with whether each server has room for two messages then.
// A refusal leaves what room was made.
pub(crate) fn apply_at(
    servers: &mut Vec<Server>,
    ready: bool,
    event: &Event,
) -> Result<(Entry, bool), NoMemory>
    requires within { event.now.server < length servers.old.items }
    requires able { IfSome (slice_get servers.old.items event.now.server) (CanAct event.now.what) }
    requires numbered { AreNumbered 0 (states servers.old.items) }
    requires sent { NoneSent (states servers.old.items) }
    requires ready { ready ≡ true → HaveRoom 2 servers.old.items }
    ensures done { IfOk result (λ r. Applied event.now.server event.now.what r.0 servers.old.items servers.new.items) }
    ensures ready { IfOk result (λ r. r.1 ≡ true → HaveRoom 2 servers.new.items) }
    ensures refused { OnErr result (HaveGrown servers.old.items servers.new.items) }
{
    let at = usize::from(event.server);
    let entry = act_at(servers, ready, at, &event.what)?;
    let others = send_event(servers, at);
    let own = refill(servers, event.server);
    Ok((entry, both(own, others)))
}
