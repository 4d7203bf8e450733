//! Word lists by hand.

use crate::answers::first_wrong;
use drust_cli::{Asked, Command, WordsError, read_words};
use std::alloc::Global;
use std::test::Fail;

// The words of a line, with a space between two.
fn words(alloc: Global, line: &str) -> Result<Vec<String>, Fail> {
    let mut words = Vec::new(alloc);
    for word in line.split(' ') {
        words.push(String::from_str(alloc, word)?)?;
    }
    Ok(words)
}

// What the words of a line ask for.
fn read(alloc: Global, line: &str) -> Result<Result<Asked, WordsError>, Fail> {
    Ok(read_words(alloc, &words(alloc, line)?))
}

// Whether a run is asked for, with options of both ways to write them.
fn asks_for_a_run(asked: &Result<Asked, WordsError>) -> bool {
    match asked {
        Ok(asked) => {
            let options = &asked.options;
            (asked.command, options.turns, options.servers, options.cache)
                == (Command::Run, 8, 3, 64)
        }
        Err(_) => false,
    }
}

// Whether a load is asked for, and no trace.
fn asks_for_a_load(asked: &Result<Asked, WordsError>) -> bool {
    match asked {
        Ok(asked) => {
            (asked.command, asked.size, asked.number, asked.options.trace)
                == (Command::Load, 4_000, 7, false)
        }
        Err(_) => false,
    }
}

// Lines that are refused; the last one is empty.
const REFUSED: &str = "\
run --turns=5 --turns 6
run --servers 0
run --
gen --turns 5
live
run --help
run --serv 5
replay --servers 5

";

// The first line that isn't refused.
fn read_nevertheless<'a>(alloc: Global, lines: &'a str) -> Result<Option<&'a str>, Fail> {
    for line in lines.lines() {
        if read(alloc, line)? != Err(WordsError::BadWords) {
            return Ok(Some(line));
        }
    }
    Ok(None)
}

// The number of the first wrong answer.
fn wrong_answer(alloc: Global) -> Result<Option<usize>, Fail> {
    let run = read(alloc, "run --turns=0000000000000000008 --servers 3")?;
    let load = read(alloc, "load --size=4000 --number 7")?;
    let right = [
        asks_for_a_run(&run),
        asks_for_a_load(&load),
        read_words(alloc, &Vec::new(alloc)) == Err(WordsError::BadWords),
    ];
    Ok(first_wrong(&right))
}

#[test]
fn what_is_asked_and_what_is_refused(rt: HostRuntime) -> Result<(), Fail> {
    assert_eq!(rt; wrong_answer(rt.alloc())?, None);
    assert_eq!(rt; read_nevertheless(rt.alloc(), REFUSED)?, None);
    Ok(())
}
