//! Why a place has no type.

ghost use Rattle.std.specs.Prelude.{◌≡◌};

use fr_base::NoMemory;
use thiserror::Error;

/// A refusal of a look-up.
#[derive(Clone, Copy, Debug, PartialEq, Eq, Error)]
pub enum TypeError {
    /// A star on something that has moved away.
    #[error("not defined")]
    NotDefined,
    /// A star on something that leads nowhere, or a set of places whose types have no join.
    #[error("no target")]
    NoTarget,
    /// The allocator had no memory.
    #[error("no memory")]
    NoMemory,
}

impl From<NoMemory> for TypeError {
    ghost use Rattle.std.specs.Prelude.{◌≡◌};
    ghost use Rattle.fr_types.specs.declared.error.TypeError.TheVariants.{NoMemory as WantsMemory};

    ghost from_gives = { λ _ made. made ≡ WantsMemory };

    fn from(_error: NoMemory) -> TypeError {
        TypeError::NoMemory
    }
}
