//! What the words of a command line ask for.

use fr_base::Options;
use thiserror::Error;

/// What the program is asked to do.
#[derive(Clone, Copy, Debug, PartialEq, Eq)]
pub enum Command {
    /// A program is read, run in rounds, and the report is written.
    Run,
    /// A program and an order are read, and what the plain run under that order gives is written.
    Replay,
    /// A generated program is written.
    Gen,
    /// A generated program is run in rounds, and the summary is written.
    Load,
}

/// A command with its options. An option that isn't given, or that the command hasn't, has its default.
#[derive(Clone, Copy, Debug, PartialEq, Eq)]
pub struct Asked {
    pub command: Command,
    pub options: Options,
    /// Which program is generated: any number, 0 by default.
    pub number: u64,
    /// How large the generated program is: 1 to 4,000, 1 by default.
    pub size: u32,
}

/// Why words are refused.
#[derive(Clone, Copy, Debug, PartialEq, Eq, Error)]
pub enum WordsError {
    /// The words ask for nothing.
    #[error("bad words")]
    BadWords,
    #[error("no memory")]
    NoMemory,
}
