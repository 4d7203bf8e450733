//! The rows of a run.

use cluster_core::Cluster;
use server_core::Server;
use server_model::{Event, What};
use std::process::Abort;

/// What a row says. An event is written as a server, what it does and a number, behind a bar how often it is done one after another, and behind a `>` the messages
/// that the last of them sends to other servers. An answer is written as a server, a colon and what it tells.
#[derive(Clone, Copy)]
pub struct Row<'a> {
    pub server: u8,
    /// What is done, or what is told where nothing is.
    pub text: &'a str,
    pub times: u32,
    pub sent: &'a str,
}

// The two parts of a text around its first byte that is this one, or the text and another one.
fn cut<'a>(text: &'a str, between: char, other: &'a str) -> (&'a str, &'a str) {
    match text.split_once(between) {
        Some(parts) => parts,
        None => (text, other),
    }
}

fn number_of<R: Abort>(rt: &R, text: &str) -> u32 {
    text.parse::<u32>().expect(rt, "a number")
}

fn server_of<R: Abort>(rt: &R, text: &str) -> u8 {
    text.parse::<u8>().expect(rt, "a server")
}

/// What that row says.
pub fn row_of<'a, R: Abort>(rt: &R, row: &'a str) -> Row<'a> {
    if let Some((server, text)) = row.split_once(": ") {
        return Row {
            server: server_of(rt, server),
            text,
            times: 0,
            sent: "",
        };
    }
    let (event, sent) = cut(row, '>', "");
    let (event, times) = cut(event, '|', "1");
    let (server, text) = cut(event, ' ', "");
    Row {
        server: server_of(rt, server),
        text,
        times: number_of(rt, times),
        sent,
    }
}

// What a server is to do: a step of the thread of that rank among those that can, the delivery of the message at that place, the eviction that is due, or the move
// of the thread that may be moved to that server. `None` where it tells of none.
fn what_of(server: &Server, name: &str, number: u32) -> Option<What> {
    match name {
        "step" => Some(What::Step(server.runnable(number as usize)?)),
        "deliver" => Some(What::Deliver(number as usize)),
        "migrate" => Some(What::Migrate(server.movable()?, u8::try_from(number).ok()?)),
        _ => Some(What::Evict(server.due()?)),
    }
}

/// The event of a row, as its server tells it.
pub fn event_of<R: Abort>(rt: &R, cluster: &Cluster, row: Row<'_>) -> Event {
    let server = cluster.server(row.server).expect(rt, "a server");
    let (name, number) = cut(row.text, ' ', "0");
    let what = what_of(server, name, number_of(rt, number));
    Event {
        server: row.server,
        what: what.expect(rt, "an event"),
    }
}
