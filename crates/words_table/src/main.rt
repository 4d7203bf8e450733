//! Reads word lists, one a line with a tab before each word, and writes what each asks for: the command and the values of all
//! options, or `refused`. Its stored run is the table of `bench/words.py`.
#![tactic(auto)]

use drust_cli::{Asked, Command, WordsError, read_words};
use drust_io::{StdSink, StdSource, read_all, write_all};
use fr_base::NoMemory;
use itoa::Buffer;
use std::alloc::Global;
use std::process::ExitCode;

// The longest table.
const LIMIT: usize = 1_048_576;

fn words_of(alloc: Global, line: &str) -> Result<Vec<String>, NoMemory> {
    let mut words = Vec::new(alloc);
    for word in line.split('\t').skip(1) {
        let word = String::from_str(alloc, word)?;
        if words.push(word).is_err() {
            return Err(NoMemory);
        }
    }
    Ok(words)
}

fn command_name(command: Command) -> &'static str {
    match command {
        Command::Run => "run",
        Command::Replay => "replay",
        Command::Gen => "gen",
        Command::Load => "load",
    }
}

// A value, behind a space.
fn add_value(text: &mut String, value: u64) -> Result<(), NoMemory> {
    let mut buffer = Buffer::new();
    text.push_str(" ")?;
    text.push_str(buffer.format(value))?;
    Ok(())
}

fn add_asked(text: &mut String, asked: &Asked) -> Result<(), NoMemory> {
    let options = &asked.options;
    text.push_str(command_name(asked.command))?;
    add_value(text, u64::from(options.servers))?;
    add_value(text, u64::from(options.workers))?;
    add_value(text, u64::from(options.colours))?;
    add_value(text, u64::from(options.cache))?;
    add_value(text, u64::from(options.quantum))?;
    add_value(text, options.turns)?;
    add_value(text, u64::from(options.balance))?;
    add_value(text, options.choice)?;
    add_value(text, u64::from(options.trace))?;
    add_value(text, asked.number)?;
    add_value(text, u64::from(asked.size))?;
    Ok(())
}

fn answers(alloc: Global, table: &str) -> Result<String, NoMemory> {
    let mut text = String::new(alloc);
    for line in table.lines() {
        let words = words_of(alloc, line)?;
        match read_words(alloc, &words) {
            Ok(asked) => add_asked(&mut text, &asked)?,
            Err(WordsError::BadWords) => text.push_str("refused")?,
            Err(WordsError::NoMemory) => return Err(NoMemory),
        }
        text.push_str("\n")?;
    }
    Ok(text)
}

fn main(rt: HostRuntime) -> ExitCode {
    let mut source = StdSource::new(rt.stdin());
    let Ok(bytes) = read_all(rt.alloc(), &mut source, LIMIT) else {
        return ExitCode::from(6);
    };
    let Ok(table) = String::from_utf8(bytes) else {
        return ExitCode::from(9);
    };
    let Ok(text) = answers(rt.alloc(), table.as_str()) else {
        return ExitCode::from(8);
    };
    match write_all(&mut StdSink::new(rt.stdout()), text.as_bytes()) {
        Ok(()) => ExitCode::from(0),
        Err(_) => ExitCode::from(7),
    }
}
