//! Why a text is no order.

ghost use Rattle.std.specs.Prelude.{◌≡◌};
ghost use Rattle.journal.specs.declared.fault.OrderError.TheVariants.{NoMemory};

use thiserror::Error;

/// Why a text is no order.
#[derive(Clone, Copy, Debug, PartialEq, Eq, Error)]
pub enum OrderError {
    /// The first line that isn't in the format starts at that byte, counted from the first byte of all.
    #[error("the line at byte {place} is no line of an order")]
    BadOrder { place: usize },
    /// There was no memory.
    #[error("no memory")]
    NoMemory,
}

impl From<fr_base::NoMemory> for OrderError {
    ghost from_gives = { λ _ e. e ≡ NoMemory };

    fn from(_error: fr_base::NoMemory) -> OrderError {
        OrderError::NoMemory
    }
}
