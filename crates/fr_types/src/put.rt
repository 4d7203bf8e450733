//! Parts with something else in them.

ghost use Rattle.std.specs.Prelude.{◌≡◌, IfOk};
ghost use Rattle.fr_typing.specs.Kinds.{own, whole};
ghost use Rattle.fr_types.specs.Parts.{put_owned, put_part};
ghost use Rattle.fr_types.specs.OwnedTypes.{owned_of};
ghost use Rattle.fr_types.specs.Types.{piece_of};

use crate::kinds::boxed;
use crate::types::{O, Part, Ty};
use fr_base::NoMemory;
use std::alloc::Global;

// A whole part of an owned type, with another one under so many stars.
fn put_owned(alloc: Global, o: &O, stars: u8, new: Part) -> Result<Part, NoMemory>
    ensures { IfOk result (λ p. piece_of p ≡ put_owned stars (piece_of new) (owned_of o.now)) }
{
    if stars == 0 {
        return Ok(new);
    }
    match o {
        O::Box(o) => {
            let inner = put_owned(alloc, o, stars - 1, new)?;
            boxed(alloc, inner)
        }
        o => {
            drop(new);
            whole_of(alloc, o)
        }
    }
}

// A whole part of an owned type.
fn whole_of(alloc: Global, o: &O) -> Result<Part, NoMemory>
    ensures { IfOk result (λ p. piece_of p ≡ whole (own (owned_of o.now))) }
{
    Ok(Part::Whole(o.copy(alloc)?.into_type()))
}

/// The part with another one under so many stars; it costs the stars, and the levels of a part without so many boxes.
pub fn put_under(alloc: Global, part: &Part, stars: u8, new: Part) -> Result<Part, NoMemory>
    ensures { IfOk result (λ p. piece_of p ≡ put_part stars (piece_of new) (piece_of part.now)) }
{
    if stars == 0 {
        return Ok(new);
    }
    match part {
        Part::Box(p) => {
            let inner = put_under(alloc, p, stars - 1, new)?;
            boxed(alloc, inner)
        }
        Part::Whole(Ty::Box(o)) => {
            let inner = put_owned(alloc, o, stars - 1, new)?;
            boxed(alloc, inner)
        }
        part => {
            drop(new);
            part.copy(alloc)
        }
    }
}
