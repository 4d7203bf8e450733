//! Why a tree isn't checked.

ghost use Rattle.std.specs.Prelude.{◌≡◌};

use fr_base::NoMemory;
use fr_typing::Reason;
use thiserror::Error;

/// A check's refusal.
#[derive(Clone, Copy, Debug, PartialEq, Eq, Error)]
pub enum CheckError {
    /// The first check that fails: the byte of the source where, from 0, and why.
    #[error("byte {place}: {reason:?}")]
    Fault { place: u32, reason: Reason },
    /// The allocator had no memory.
    #[error("no memory")]
    NoMemory,
}

impl From<NoMemory> for CheckError {
    ghost use Rattle.std.specs.Prelude.{◌≡◌};
    ghost use Rattle.borrow_check.specs.declared.check_error.CheckError.TheVariants.{NoMemory as WantsMemory};

    ghost from_gives = { λ _ made. made ≡ WantsMemory };

    fn from(_error: NoMemory) -> CheckError {
        CheckError::NoMemory
    }
}
