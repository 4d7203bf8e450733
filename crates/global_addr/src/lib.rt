//! Pointer words: a colour, a server and an address in one number of 64 bits.
//! Contracts see a word as that number; `specs/Words.antt` has its parts.
#![tactic(auto)]

mod word;

pub use word::{Word, words_law};
