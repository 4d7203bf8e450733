//! Why a journal has no counts.

ghost use Rattle.std.specs.Prelude.{◌≡◌};
ghost use Rattle.coloured_heap.specs.declared.fault.LegalError.TheVariants.{NoMemory};

use thiserror::Error;

/// Why a journal has no counts.
#[derive(Clone, Copy, Debug, PartialEq, Eq, Error)]
pub enum LegalError {
    /// The entry at that place, from 0, is the first that breaks a rule.
    #[error("the entry at {place} breaks a rule")]
    IllegalAt { place: u64 },
    /// There was no memory.
    #[error("no memory")]
    NoMemory,
}

impl From<fr_base::NoMemory> for LegalError {
    ghost from_gives = { λ _ e. e ≡ NoMemory };

    fn from(_error: fr_base::NoMemory) -> LegalError {
        LegalError::NoMemory
    }
}
