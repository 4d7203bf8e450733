//! One event by the calls of the servers.

ghost use Rattle.std.specs.Prelude.{slice_get, IfSome};
ghost use Rattle.call_tests.specs.Ready.{IsReady};

use crate::told::{add_sent, add_server};
use fr_base::{NoMemory, Options};
use journal::Entry;
use server_core::Server;
use server_model::{Event, What};
use server_msgs::Message;
use std::process::Abort;

// Two entries have the same in them.
fn same_entry(one: &Entry, other: &Entry) -> bool {
    one.server == other.server
        && one.thread == other.thread
        && one.done == other.done
        && one.acts.as_slice() == other.acts.as_slice()
        && one.labels.as_slice() == other.labels.as_slice()
}

// Room for an event, and then it is done: whether it is enabled, and its entry has what that one has. Its lists go back to the server.
fn act(server: &mut Server, what: &What, last: &Entry) -> Result<bool, NoMemory>
    requires { IsReady what.now server.old }
{
    if !server.enabled(*what) {
        return Ok(false);
    }
    server.room(*what)?;
    let entry = server.act(*what);
    let is_same = same_entry(&entry, last);
    server.reuse(entry);
    Ok(is_same)
}

// The same at the server at that place.
fn act_at(servers: &mut Vec<Server>, at: u8, what: &What, last: &Entry) -> Result<bool, NoMemory>
    requires { IfSome (slice_get servers.old.items at) (IsReady what.now) }
{
    match servers.get_mut(usize::from(at)) {
        Some(server) => act(server, what, last),
        None => Ok(false),
    }
}

// How many messages stand in a server's outbox.
fn sending(servers: &[Server], at: u8) -> usize {
    match servers.get(usize::from(at)) {
        Some(server) => server.sending(),
        None => 0,
    }
}

// Room for so many messages at each server.
fn make_room(servers: &mut [Server], count: usize) -> Result<(), NoMemory> {
    for server in servers.iter_mut() {
        server.accept_room(count)?;
    }
    Ok(())
}

// Takes the first message out of a server's outbox.
fn take(servers: &mut Vec<Server>, at: u8) -> Option<(u8, Message)> {
    servers.get_mut(usize::from(at))?.outbox()
}

/// A server takes a message, for which there is room.
pub fn accept<R: Abort>(rt: &R, server: &mut Server, message: Message) {
    assert!(rt; server.accept(message).is_ok());
}

// A message waits last at its server. Both go into the text.
fn put<R: Abort>(
    rt: &R,
    servers: &mut Vec<Server>,
    at: u8,
    message: Message,
    text: &mut String,
) -> Result<(), NoMemory> {
    let server = servers
        .get_mut(usize::from(at))
        .expect(rt, "the message's server");
    let waiting = server.waiting();
    accept(rt, server, message);
    add_sent(text, at, server.message(waiting).expect(rt, "the message"))
}

// Hands over all messages of a server, whose servers and kinds go into the text.
fn hand_over<R: Abort>(
    rt: &R,
    servers: &mut Vec<Server>,
    at: u8,
    text: &mut String,
) -> Result<(), NoMemory> {
    let count = sending(servers, at);
    make_room(servers, count)?;
    for _ in 0..count {
        let (target, message) = take(servers, at).expect(rt, "a message");
        put(rt, servers, target, message, text)?;
    }
    assert!(rt; take(servers, at).is_none());
    Ok(())
}

/// Does an event, whose entry has what that one has, and hands over its messages. They go into the text, and then what each server tells, whose options are these.
pub fn do_event<R: Abort>(
    rt: &R,
    servers: &mut Vec<Server>,
    event: &Event,
    last: &Entry,
    options: &Options,
    text: &mut String,
) -> Result<(), NoMemory>
    requires { IfSome (slice_get servers.old.items event.now.server) (IsReady event.now.what) }
{
    let is_same = act_at(servers, event.server, &event.what, last)?;
    assert!(rt; is_same);
    hand_over(rt, servers, event.server, text)?;
    for server in servers.iter() {
        add_server(rt, text, server, options)?;
    }
    Ok(())
}
