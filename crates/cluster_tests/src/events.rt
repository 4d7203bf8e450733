//! Events as texts.

use fr_base::ThreadNo;
use global_addr::Word;
use server_model::{Event, What};
use std::process::Abort;

// The two parts of a text around its first byte that is this one.
fn cut<'a, R: Abort>(rt: &R, text: &'a str, between: char) -> (&'a str, &'a str) {
    text.split_once(between).expect(rt, "two parts")
}

fn server_of<R: Abort>(rt: &R, text: &str) -> u8 {
    text.parse::<u8>().expect(rt, "a server")
}

fn number_of<R: Abort>(rt: &R, text: &str) -> u32 {
    text.parse::<u32>().expect(rt, "a number")
}

// The thread of a server and a count with a dot between.
fn thread_of<R: Abort>(rt: &R, text: &str) -> ThreadNo {
    let (server, count) = cut(rt, text, '.');
    ThreadNo::new(server_of(rt, server), number_of(rt, count))
}

// The word of a colour, a server and an address.
fn word_of<R: Abort>(rt: &R, text: &str) -> Word {
    let (colour, spot) = cut(rt, text, ' ');
    let (server, address) = cut(rt, spot, ' ');
    let colour = colour.parse::<u16>().expect(rt, "a colour");
    Word::pack(
        colour,
        server_of(rt, server),
        u64::from(number_of(rt, address)),
    )
}

// A migration of a thread to a server.
fn migration_of<R: Abort>(rt: &R, text: &str) -> What {
    let (thread, to) = cut(rt, text, ' ');
    What::Migrate(thread_of(rt, thread), server_of(rt, to))
}

fn what_of<R: Abort>(rt: &R, text: &str) -> What {
    let (name, rest) = cut(rt, text, ' ');
    match name {
        "step" => What::Step(thread_of(rt, rest)),
        "deliver" => What::Deliver(number_of(rt, rest) as usize),
        "migrate" => migration_of(rt, rest),
        _ => What::Evict(word_of(rt, rest)),
    }
}

/// The event that a row tells: the server, and behind it a step of a thread, the delivery of the message at a place, the migration of a thread to a server,
/// or the eviction of the word of a colour, a server and an address.
pub fn event_of<R: Abort>(rt: &R, row: &str) -> Event {
    let (server, what) = cut(rt, row, ' ');
    Event {
        server: server_of(rt, server),
        what: what_of(rt, what),
    }
}
