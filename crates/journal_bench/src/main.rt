//! Makes a legal journal of as many entries as its first argument says (3,000 without one), and does with it what its second
//! argument says, as often as the third says (once without one): `legal`, `order` or `trace`, and all three without one. It writes
//! how many entries there are, how many messages between different servers, and how many bytes the texts have. `bench/journal.sh`
//! takes its time.
#![tactic(auto)]

mod entries;
mod rounds;

use crate::rounds::journal_of;
use coloured_heap::{LegalError, legal};
use drust_io::{StdSink, write_all};
use fr_base::{NoMemory, Options};
use itoa::Buffer;
use journal::{Journal, order_text};
use std::alloc::Global;
use std::process::ExitCode;
use tracer::trace_text;

// The words behind the program's name.
fn words_of(rt: &HostRuntime) -> Vec<String> {
    match std::env::args(rt) {
        Ok(args) => match args.skip(1).collect(rt.alloc()) {
            Ok(words) => words,
            Err(_) => Vec::new(rt.alloc()),
        },
        Err(_) => Vec::new(rt.alloc()),
    }
}

// The word at that place as a number, or the other number.
fn number_at(words: &[String], at: usize, otherwise: u64) -> u64 {
    match words.get(at) {
        Some(word) => word.parse::<u64>().unwrap_or(otherwise),
        None => otherwise,
    }
}

// Whether that is to be done.
fn is_asked(words: &[String], task: &str) -> bool {
    match words.get(1) {
        Some(word) => word.as_str() == task,
        None => true,
    }
}

// How many messages there are, asked so many times.
fn messages(alloc: Global, journal: &Journal, times: u64) -> Result<u64, LegalError> {
    let options = Options {
        servers: 2,
        ..Options::DEFAULT
    };
    let mut count = 0;
    for _ in 0..times {
        count = legal(alloc, journal, &options)?.total();
    }
    Ok(count)
}

// How many bytes the order has, written so many times.
fn order_bytes(alloc: Global, journal: &Journal, times: u64) -> Result<u64, NoMemory> {
    let mut bytes = 0;
    for _ in 0..times {
        bytes = order_text(alloc, journal)?.len() as u64;
    }
    Ok(bytes)
}

// How many bytes the trace has, written so many times.
fn trace_bytes(alloc: Global, journal: &Journal, times: u64) -> Result<u64, NoMemory> {
    let mut bytes = 0;
    for _ in 0..times {
        bytes = trace_text(alloc, journal)?.len() as u64;
    }
    Ok(bytes)
}

// Adds a line with a name and a number.
fn add_line(text: &mut String, name: &str, number: u64) -> Result<(), NoMemory> {
    let mut buffer = Buffer::new();
    text.push_str(name)?;
    text.push_str(" ")?;
    text.push_str(buffer.format(number))?;
    text.push_str("\n")?;
    Ok(())
}

fn run(alloc: Global, words: &[String]) -> Result<String, LegalError> {
    let journal = journal_of(alloc, number_at(words, 0, 3_000))?;
    let times = number_at(words, 2, 1);
    let mut text = String::new(alloc);
    add_line(&mut text, "entries", journal.len())?;
    if is_asked(words, "legal") {
        add_line(&mut text, "messages", messages(alloc, &journal, times)?)?;
    }
    if is_asked(words, "order") {
        add_line(&mut text, "order", order_bytes(alloc, &journal, times)?)?;
    }
    if is_asked(words, "trace") {
        add_line(&mut text, "trace", trace_bytes(alloc, &journal, times)?)?;
    }
    Ok(text)
}

fn main(rt: HostRuntime) -> ExitCode {
    let words = words_of(&rt);
    let Ok(text) = run(rt.alloc(), &words) else {
        return ExitCode::from(8);
    };
    match write_all(&mut StdSink::new(rt.stdout()), text.as_bytes()) {
        Ok(()) => ExitCode::from(0),
        Err(_) => ExitCode::from(7),
    }
}
