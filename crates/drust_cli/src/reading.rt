//! From words to what they ask for.

ghost use Rattle.std.specs.Prelude.{◌≡◌, ◌≤◌, IfErr, IfOk, IfSome, None, Some, map, string_bytes};
ghost use Rattle.clap.specs.Words.{first_value, found_of};
ghost use Rattle.drust_cli.specs.Asked.{asked, asked_behind, asked_with, command_of, machine_of, number_or, options_of, pace_of};

use crate::asked::{Asked, Command, WordsError};
use crate::parser::found;
use crate::words::{all_clean, number};
use clap::ArgMatches;
use clap::error::ErrorKind;
use fr_base::Options;
use std::alloc::Global;

// The number of an option from `low` to `high`, or its default where it isn't given.
fn setting(matches: &ArgMatches<'_>, name: &str, low: u64, high: u64, default: u64) -> Option<u64>
    requires low { low ≤ default }
    requires high { default ≤ high }
    ensures value { result ≡ number_or (first_value (found_of matches.now) name.now) low high default }
    ensures within { IfSome result (λ n. n ≤ high) }
{
    match matches.get_str(name) {
        None => Some(default),
        Some(text) => number(text, low, high),
    }
}

// Servers, workers, colours, and the copies that a server keeps.
#[tactic(auto, unfolding(crate::specs::Asked::machine_of))]
fn machine(matches: &ArgMatches<'_>) -> Option<(u8, u8, u32, u32)>
    ensures { result ≡ machine_of (first_value (found_of matches.now)) }
{
    let servers = setting(
        matches,
        "servers",
        1,
        Options::MAX_SERVERS as u64,
        Options::DEFAULT.servers as u64,
    )?;
    let workers = setting(
        matches,
        "workers",
        1,
        Options::MAX_WORKERS as u64,
        Options::DEFAULT.workers as u64,
    )?;
    let colours = setting(
        matches,
        "colours",
        1,
        Options::MAX_COLOURS as u64,
        Options::DEFAULT.colours as u64,
    )?;
    let cache = setting(
        matches,
        "cache",
        0,
        Options::MAX_CACHE as u64,
        Options::DEFAULT.cache as u64,
    )?;
    Some((servers as u8, workers as u8, colours as u32, cache as u32))
}

// The events of a turn and of a run, and the rounds between two balances.
#[tactic(auto, unfolding(crate::specs::Asked::pace_of))]
fn pace(matches: &ArgMatches<'_>) -> Option<(u32, u64, u32)>
    ensures { result ≡ pace_of (first_value (found_of matches.now)) }
{
    let quantum = setting(
        matches,
        "quantum",
        1,
        Options::MAX_QUANTUM as u64,
        Options::DEFAULT.quantum as u64,
    )?;
    let turns = setting(
        matches,
        "turns",
        1,
        Options::MAX_TURNS,
        Options::DEFAULT.turns,
    )?;
    let balance = setting(
        matches,
        "balance",
        0,
        Options::MAX_BALANCE as u64,
        Options::DEFAULT.balance as u64,
    )?;
    Some((quantum as u32, turns, balance as u32))
}

#[tactic(auto, unfolding(crate::specs::Asked::options_of))]
fn options(matches: &ArgMatches<'_>) -> Option<Options>
    ensures { result ≡ options_of (first_value (found_of matches.now)) }
{
    let (servers, workers, colours, cache) = machine(matches)?;
    let (quantum, turns, balance) = pace(matches)?;
    let choice = setting(matches, "choice", 0, u64::MAX, Options::DEFAULT.choice)?;
    let trace = setting(matches, "trace", 0, 1, 0)?;
    Some(Options {
        servers,
        workers,
        colours,
        cache,
        quantum,
        turns,
        balance,
        choice,
        trace: trace == 1,
    })
}

#[tactic(auto, unfolding(crate::specs::Asked::asked_with))]
fn gathered(command: Command, matches: &ArgMatches<'_>) -> Option<Asked>
    ensures { result ≡ asked_with command (first_value (found_of matches.now)) }
{
    let options = options(matches)?;
    let number = setting(matches, "number", 0, u64::MAX, 0)?;
    let size = setting(matches, "size", 1, 4000, 1)?;
    Some(Asked {
        command,
        options,
        number,
        size: size as u32,
    })
}

// What a command and the words behind it ask for.
fn read_options(alloc: Global, command: Command, words: &[String]) -> Result<Asked, WordsError>
    ensures asked { IfOk result (λ a. asked_behind command (map string_bytes words.now) ≡ Some a) }
    ensures bad { IfErr result (λ e. e ≡ WordsError.BadWords → asked_behind command (map string_bytes words.now) ≡ None) }
{
    if !all_clean(words) {
        return Err(WordsError::BadWords);
    }
    match found(alloc, command, words) {
        Ok(matches) => gathered(command, &matches).ok_or(WordsError::BadWords),
        Err(error) => {
            if error.kind() == ErrorKind::OutOfMemory {
                Err(WordsError::NoMemory)
            } else {
                Err(WordsError::BadWords)
            }
        }
    }
}

fn command_of(word: &str) -> Option<Command>
    ensures { result ≡ command_of word.now }
{
    match word {
        "run" => Some(Command::Run),
        "replay" => Some(Command::Replay),
        "gen" => Some(Command::Gen),
        "load" => Some(Command::Load),
        _ => None,
    }
}

/// What the words behind the program's name ask for. The first word is the command; behind it stand its options, as
/// `--name value` or `--name=value`, in any order and each at most once. A value is 1 to 20 decimal digits, in the option's
/// range. Nothing is printed.
///
/// # Errors
///
/// `BadWords` exactly where the words have no such reading, and `NoMemory` where there was no memory. It takes time in the length of
/// the words, times that of the command's options.
pub fn read_words(alloc: Global, words: &Vec<String>) -> Result<Asked, WordsError>
    ensures asked { IfOk result (λ a. asked (map string_bytes words.now.items) ≡ Some a) }
    ensures bad { IfErr result (λ e. e ≡ WordsError.BadWords → asked (map string_bytes words.now.items) ≡ None) }
{
    match words.as_slice() {
        [] => Err(WordsError::BadWords),
        [word, rest @ ..] => match command_of(word.as_str()) {
            None => Err(WordsError::BadWords),
            Some(command) => read_options(alloc, command, rest),
        },
    }
}
