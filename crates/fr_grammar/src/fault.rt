//! Why tokens are no program.

ghost use Rattle.std.specs.Prelude.{◌≡◌};
ghost use Rattle.fr_grammar.specs.declared.fault.ParseError.TheVariants.{NoMemory};

use thiserror::Error;

/// Why tokens are no program; a place is the start of a token, a byte of the source from 0.
#[derive(Clone, Copy, Debug, PartialEq, Eq, Error)]
pub enum ParseError {
    /// The first token that the grammar has no use for stands there.
    #[error("refused syntax at {place}")]
    Syntax { place: u32 },
    /// A term at depth 65, or the ninth star of a place, begins there.
    #[error("refused depth at {place}")]
    TooDeep { place: u32 },
    #[error("no memory")]
    NoMemory,
}

impl From<fr_base::NoMemory> for ParseError {
    ghost from_gives = { λ _ made. made ≡ NoMemory };

    fn from(_error: fr_base::NoMemory) -> ParseError {
        ParseError::NoMemory
    }
}
