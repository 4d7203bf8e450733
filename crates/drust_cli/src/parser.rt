//! `clap`, as this program asks it.

ghost use Rattle.std.specs.Prelude.{◌≡◌, [], IfErr, IfOk, map, string_bytes};
ghost use Rattle.clap.specs.Words.{app_of, fault_of, found_of, kind_of, matches_of, rows_of, with_rule};
ghost use Rattle.drust_cli.specs.Asked.{names_of};
ghost use Rattle.drust_cli.specs.Parser.{option_rule, parser_of};

use crate::asked::Command as Asks;
use clap::error::ErrorKind;
use clap::{Arg, ArgMatches, Command, Error};
use std::alloc::Global;

// The parser with one option more, which has a value.
fn with_option<'a>(alloc: Global, parser: Command<'a>, name: &'a str) -> Result<Command<'a>, Error>
    ensures app { IfOk result (λ c. app_of c ≡ with_rule (app_of parser.entry) (option_rule name.now)) }
    ensures err { IfErr result (λ e. kind_of e ≡ ErrorKind.OutOfMemory) }
{
    let option = Arg::new(alloc, name).long(name);
    Ok(parser.arg(option)?)
}

// A parser of options with a value, under these names.
fn parser<'a>(alloc: Global, names: &[&'a str]) -> Result<Command<'a>, Error>
    ensures app { IfOk result (λ c. app_of c ≡ parser_of (map (λ n. n.now) names.now)) }
    ensures err { IfErr result (λ e. kind_of e ≡ ErrorKind.OutOfMemory) }
{
    let mut parser = Command::new(alloc, "drust")
        .no_binary_name(true)
        .disable_help_flag(true)
        .disable_version_flag(true)
        .disable_help_subcommand(true);
    for name in names {
        parser = with_option(alloc, parser, name)?;
    }
    Ok(parser)
}

// What `clap` finds of these options in the words.
fn matches<'a>(
    alloc: Global,
    names: &[&'a str],
    words: &'a [String],
) -> Result<ArgMatches<'a>, Error>
    ensures rows { IfOk result (λ m. rows_of (found_of m) ≡ matches_of (parser_of (map (λ n. n.now) names.now)) (map string_bytes words.now)) }
    ensures taken { IfOk result (λ _. fault_of (parser_of (map (λ n. n.now) names.now)) (map string_bytes words.now) ≡ []) }
    ensures refused { IfErr result (λ e. fault_of (parser_of (map (λ n. n.now) names.now)) (map string_bytes words.now) ≡ [] → kind_of e ≡ ErrorKind.OutOfMemory) }
{
    let options = parser(alloc, names)?;
    options.try_get_matches_from(words)
}

/// What `clap` finds of the command's options in the words behind it.
pub(crate) fn found<'a>(
    alloc: Global,
    command: Asks,
    words: &'a [String],
) -> Result<ArgMatches<'a>, Error>
    ensures rows { IfOk result (λ m. rows_of (found_of m) ≡ matches_of (parser_of (names_of command)) (map string_bytes words.now)) }
    ensures taken { IfOk result (λ _. fault_of (parser_of (names_of command)) (map string_bytes words.now) ≡ []) }
    ensures refused { IfErr result (λ e. fault_of (parser_of (names_of command)) (map string_bytes words.now) ≡ [] → kind_of e ≡ ErrorKind.OutOfMemory) }
{
    match command {
        Asks::Run => matches(
            alloc,
            &[
                "servers", "workers", "colours", "cache", "quantum", "turns", "balance", "choice",
                "trace",
            ],
            words,
        ),
        Asks::Replay => matches(alloc, &[], words),
        Asks::Gen => matches(alloc, &["number", "size"], words),
        Asks::Load => matches(
            alloc,
            &[
                "servers", "workers", "colours", "cache", "quantum", "turns", "balance", "choice",
                "number", "size",
            ],
            words,
        ),
    }
}
