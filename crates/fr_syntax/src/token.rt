//! Tokens, and why a text has none.

ghost use Rattle.std.specs.Prelude.{◌≡◌};
ghost use Rattle.fr_syntax.specs.declared.token.TokenError.TheVariants.{NoMemory};

use crate::kind::TokenKind;
use std::alloc::AllocError;
use thiserror::Error;

/// A token: what it is, and where its text lies in the source, from byte `start` to before byte `end`.
/// The end has no text: both are the length of the source.
#[derive(Clone, Copy, Debug, PartialEq, Eq)]
pub struct Token {
    pub kind: TokenKind,
    pub start: u32,
    pub end: u32,
}

/// Why a source has no tokens: its first text that spells none, by the place where it starts, a byte from 0.
#[derive(Clone, Copy, Debug, PartialEq, Eq, Error)]
pub enum TokenError {
    /// The byte there begins no token.
    #[error("byte {place} begins no token")]
    BadByte { place: u32 },
    /// The name there has more than 32 bytes.
    #[error("the name at byte {place} has more than 32 bytes")]
    NameTooLong { place: u32 },
    /// The number there is above 9223372036854775807.
    #[error("the number at byte {place} is above 9223372036854775807")]
    NumberTooLarge { place: u32 },
    /// There was no memory.
    #[error("no memory")]
    NoMemory,
}

impl From<fr_base::NoMemory> for TokenError {
    ghost from_gives = { λ _ e. e ≡ NoMemory };

    fn from(_error: fr_base::NoMemory) -> TokenError {
        TokenError::NoMemory
    }
}

impl From<AllocError> for TokenError {
    ghost from_gives = { λ _ e. e ≡ NoMemory };

    fn from(_error: AllocError) -> TokenError {
        TokenError::NoMemory
    }
}
