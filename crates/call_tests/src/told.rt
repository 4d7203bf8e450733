//! What a server tells of itself, as a line.

use fr_base::{NoMemory, Options, ThreadNo, Wait};
use global_addr::Word;
use journal::{add_mutex, add_number, add_thread};
use server_core::Server;
use server_model::What;
use server_msgs::Message;
use std::alloc::Global;
use std::process::Abort;

// The kinds of messages, by their numbers.
const KINDS: [&str; 16] = [
    " fetch",
    " fetched",
    " move",
    " moved",
    " drop",
    " lock",
    " granted",
    " unlock",
    " dup",
    " dupped",
    " release",
    " start",
    " join",
    " joined",
    " finished",
    " migrate",
];

// Adds a name and a number.
fn add_count(text: &mut String, name: &str, count: u64) -> Result<(), NoMemory> {
    text.push_str(name)?;
    add_number(text, count)
}

// Adds a name and a thread.
fn add_named(text: &mut String, name: &str, thread: ThreadNo) -> Result<(), NoMemory> {
    text.push_str(name)?;
    add_thread(text, thread)
}

// Adds the kind of a message.
fn add_kind(text: &mut String, message: &Message) -> Result<(), NoMemory> {
    text.push_str(KINDS[message.kind()])?;
    Ok(())
}

/// Adds a message to another server, by that server and its kind.
pub fn add_sent(text: &mut String, target: u8, message: &Message) -> Result<(), NoMemory> {
    add_count(text, " ", u64::from(target))?;
    add_kind(text, message)
}

// Adds the threads that can step, by their ranks.
fn add_runnable(text: &mut String, server: &Server) -> Result<(), NoMemory> {
    add_count(text, "runs ", server.stepping() as u64)?;
    for rank in 0..=server.stepping() {
        if let Some(thread) = server.runnable(rank) {
            add_named(text, " ", thread)?;
        }
    }
    Ok(())
}

// Adds the thread that may be moved.
fn add_movable(text: &mut String, server: &Server) -> Result<(), NoMemory> {
    text.push_str(", moves")?;
    match server.movable() {
        Some(thread) => add_named(text, " ", thread),
        None => Ok(()),
    }
}

fn add_wait(text: &mut String, wait: Wait) -> Result<(), NoMemory> {
    match wait {
        Wait::Lock(mutex) => {
            text.push_str(":lock:")?;
            add_mutex(text, mutex)
        }
        Wait::Join(thread) => add_named(text, ":join:", thread),
        Wait::Par(thread, other) => {
            add_named(text, ":par:", thread)?;
            add_named(text, ":", other)
        }
    }
}

// Adds the threads that wait at a lock, a join or a pair; no more than four of them.
fn add_waits(text: &mut String, server: &Server) -> Result<(), NoMemory> {
    text.push_str(", waits")?;
    for at in 0..4usize {
        if let Some((thread, wait)) = server.waits_at(at) {
            add_named(text, " ", thread)?;
            add_wait(text, wait)?;
        }
    }
    Ok(())
}

// Adds the messages that wait.
fn add_inbox(text: &mut String, server: &Server) -> Result<(), NoMemory> {
    add_count(text, ", inbox ", server.waiting() as u64)?;
    for at in 0..=server.waiting() {
        if let Some(message) = server.message(at) {
            add_kind(text, message)?;
        }
    }
    Ok(())
}

// Adds the copy that is due, by its colour, server and address.
fn add_due(text: &mut String, server: &Server) -> Result<(), NoMemory> {
    text.push_str(", due")?;
    let Some(word) = server.due() else {
        return Ok(());
    };
    add_count(text, " ", u64::from(word.colour()))?;
    add_count(text, ":", u64::from(word.server()))?;
    add_count(text, ":", word.address())
}

// Adds what a thread can do: a step, or a move to one of three servers.
fn add_can_thread(text: &mut String, server: &Server, count: u32) -> Result<(), NoMemory> {
    let thread = ThreadNo::new(0, count);
    if server.enabled(What::Step(thread)) {
        add_named(text, " step:", thread)?;
    }
    for target in 0..3u8 {
        if server.enabled(What::Migrate(thread, target)) {
            add_named(text, " move:", thread)?;
            add_count(text, ":", u64::from(target))?;
        }
    }
    Ok(())
}

// Adds which of the first three messages can be delivered, and which copies of the first three objects of server 0 may go.
fn add_can_other(text: &mut String, server: &Server) -> Result<(), NoMemory> {
    for at in 0..3usize {
        if server.enabled(What::Deliver(at)) {
            add_count(text, " deliver:", at as u64)?;
        }
    }
    for address in 0..3u64 {
        if server.enabled(What::Evict(Word::pack(0, 0, address))) {
            add_count(text, " evict:", address)?;
        }
    }
    Ok(())
}

// Adds which events are enabled, of those of threads 0.0 to 0.3 and the others.
fn add_can(text: &mut String, server: &Server) -> Result<(), NoMemory> {
    text.push_str(", can")?;
    for count in 0..4u32 {
        add_can_thread(text, server, count)?;
    }
    add_can_other(text, server)
}

// Adds all of it.
fn add_told(text: &mut String, server: &Server) -> Result<(), NoMemory> {
    add_runnable(text, server)?;
    add_movable(text, server)?;
    add_count(text, ", active ", server.active())?;
    add_waits(text, server)?;
    add_inbox(text, server)?;
    add_count(text, ", sends ", server.sending() as u64)?;
    add_due(text, server)?;
    add_count(text, ", retired ", server.retired())?;
    add_count(text, ", events ", server.events())?;
    add_can(text, server)
}

/// Adds a line with what a server tells, whose options are these.
pub fn add_server<R: Abort>(
    rt: &R,
    text: &mut String,
    server: &Server,
    options: &Options,
) -> Result<(), NoMemory> {
    assert!(rt; *server.options() == *options);
    text.push_str("\n")?;
    add_told(text, server)
}

/// Two texts are the same.
pub fn same_text<R: Abort>(rt: &R, one: &str, other: &str) {
    assert_eq!(rt; one, other);
}

/// All that a server tells of itself is what stands there: who can step, who may be moved, how many threads aren't over, who waits for what, which messages wait,
/// how many stand in its outbox, which copy is due, how many addresses were retired, how many events were done, and which of 22 events are enabled.
pub fn tells<R: Abort>(
    rt: &R,
    alloc: Global,
    server: &Server,
    there: &str,
) -> Result<(), NoMemory> {
    let mut text = String::new(alloc);
    add_told(&mut text, server)?;
    same_text(rt, text.as_str(), there);
    Ok(())
}
