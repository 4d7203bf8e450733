//! The program `drust`: the words of its command line, one source, and the text that it writes.
#![tactic(auto)]

use drust_io::{NoGate, StdSink, StdSource};
use drust_top::drust;
use std::io::ErrorKind;
use std::mem;
use std::process::ExitCode;

// The words after the program's name, none where one of them isn't text; `None` where there is no memory for them.
fn words_of(rt: &HostRuntime) -> Option<Vec<String>> {
    match std::env::args(rt) {
        Ok(args) => args.skip(1).collect(rt.alloc()).ok(),
        Err(error) if error.kind() == ErrorKind::OutOfMemory => None,
        Err(_) => Some(Vec::new(rt.alloc())),
    }
}

fn main(rt: HostRuntime) -> ExitCode {
    let Some(words) = words_of(&rt) else {
        return ExitCode::from(8);
    };
    let mut source = StdSource::new(rt.stdin());
    let mut sink = StdSink::new(rt.stdout());
    let outcome = drust(&rt, rt.alloc(), &words, &mut source, &mut sink, &NoGate);
    let status = outcome.status;
    // The run's memory goes with the process.
    mem::forget(outcome);
    ExitCode::from(status)
}
