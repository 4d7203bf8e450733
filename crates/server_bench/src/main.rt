//! Runs the program of the source on standard input on servers, event by event, and writes how many events were done, of which
//! kinds, what the servers have left to do, and how many events were refused for want of memory. `bench/server.sh` takes its time,
//! and `examples/refused` runs it with requests for memory that are refused. Its words are `order=drawn`, `order=main` or
//! `order=messages`, which event a server does next; `servers=N`; `events=N`, how many are done at most; `again=N`, how often a
//! refused event is tried again; and `trace=1`, with which the trace of the events follows.
#![tactic(auto)]

mod asked;
mod noted;
mod run;

ghost use Rattle.std.specs.Prelude.{◌≤◌, length};
ghost use Rattle.source_front.specs.Typed.{limit};

use crate::asked::{Asked, asked_by};
use crate::run::Run;
use drust_io::{ReadError, StdSink, StdSource, read_all, write_all};
use fr_base::NoMemory;
use source_front::{Refused, add_count, checked_source};
use std::alloc::Global;
use std::io::ErrorKind;
use std::process::ExitCode;

const LIMIT: usize = 1_048_576;

// The words behind the program's name, none where one of them isn't text; `None` where there is no memory for them.
fn words_of(rt: &HostRuntime) -> Option<Vec<String>> {
    match std::env::args(rt) {
        Ok(args) => args.skip(1).collect(rt.alloc()).ok(),
        Err(error) if error.kind() == ErrorKind::OutOfMemory => None,
        Err(_) => Some(Vec::new(rt.alloc())),
    }
}

// A line with a name and a number.
fn add_line(text: &mut String, name: &str, number: u64) -> Result<(), NoMemory> {
    text.push_str(name)?;
    text.push_str(" ")?;
    add_count(text, number)?;
    text.push_str("\n")?;
    Ok(())
}

// What is written of a run that goes on until so many events were done.
fn report(alloc: Global, run: &mut Run, events: u64) -> Result<String, NoMemory> {
    run.go(events)?;
    let noted = run.noted();
    let (waiting, stepping) = run.left();
    let mut text = String::new(alloc);
    add_line(&mut text, "events", run.events())?;
    add_line(&mut text, "steps", noted.steps)?;
    add_line(&mut text, "deliveries", noted.deliveries)?;
    add_line(&mut text, "prints", noted.prints)?;
    add_line(&mut text, "waiting", waiting)?;
    add_line(&mut text, "stepping", stepping)?;
    add_line(&mut text, "refused", noted.refused)?;
    noted.add_trace(alloc, &mut text)?;
    Ok(text)
}

// The report of the run that is asked for.
fn answer(alloc: Global, bytes: &[u8], asked: &Asked) -> Result<String, Refused>
    requires size { length bytes.now ≤ limit }
{
    let mut run = Run::new(alloc, checked_source(alloc, bytes)?, asked)?;
    report(alloc, &mut run, asked.events).map_err(Refused::from)
}

fn main(rt: HostRuntime) -> ExitCode {
    let Some(words) = words_of(&rt) else {
        return ExitCode::from(8);
    };
    let bytes = match read_all(rt.alloc(), &mut StdSource::new(rt.stdin()), LIMIT) {
        Ok(bytes) => bytes,
        Err(ReadError::NoMemory) => return ExitCode::from(8),
        Err(_) => return ExitCode::from(6),
    };
    match answer(rt.alloc(), &bytes, &asked_by(&words)) {
        Ok(text) => match write_all(&mut StdSink::new(rt.stdout()), text.as_bytes()) {
            Ok(()) => ExitCode::from(0),
            Err(_) => ExitCode::from(7),
        },
        Err(refused) => ExitCode::from(refused.status()),
    }
}
