//! The shapes of slots.

ghost use Rattle.std.specs.Prelude.{◌≡◌, [], Some, IfOk, OnOk, OnErr};
ghost use Rattle.fr_types.specs.Types.{kind_of, piece_of};
ghost use Rattle.fr_types.specs.SlotShapes.{with_part, without_last, with_change, known_same, known_fits, known_places};

use crate::numbered::{add_part, fits, same_parts, same_places, same_types};
use crate::shape_table::ShapeTable;
use crate::types::{Part, Ty};
use fr_base::{Lval, NoMemory};
use std::alloc::Global;
use std::marker::Model;

/// The shape of each slot, as a number of a table, so that shapes are compared without a walk. The shape of a slot never
/// changes in a program that is checked: what is written to a place has the shape of the place. Should a part of another
/// shape be put there, the shapes aren't known any longer. Contracts see the shapes, the last slot first, where they are
/// known.
#[derive(Debug, Drop)]
pub struct SlotShapes {
    table: ShapeTable,
    // by slot
    numbers: Vec<Option<u32>>,
    is_known: bool,
}

impl Model for SlotShapes {
    ghost use Rattle.fr_types.specs.ShapeCodes.{known_code};
    ghost use Rattle.fr_types.specs.SlotShapes.{Known, when_known, shapes_by, AreNumbers};

    ghost Value = { Known };

    ghost coded = { known_code };

    ghost view = { λ s. when_known s.is_known (shapes_by s.table s.numbers.items) };

    ghost invariant = { λ s. AreNumbers s.table s.numbers.items };
}

impl SlotShapes {
    /// No slot.
    pub fn new(alloc: Global) -> SlotShapes
        ensures { result ≡ Some [] }
    {
        SlotShapes {
            table: ShapeTable::new(alloc),
            numbers: Vec::new(alloc),
            is_known: true,
        }
    }

    /// One more slot with this part; it costs the levels of an owned type, or the stars of a reference's first place. A
    /// refusal changes nothing.
    pub fn push(&mut self, part: &Part) -> Result<(), NoMemory>
        ensures pushed { OnOk result (self.new ≡ with_part self.old (piece_of part.now)) }
        ensures refused { OnErr result (self.new ≡ self.old) }
    {
        if self.is_known {
            let number = add_part(&mut self.table, self.numbers.as_slice(), part)?;
            self.numbers.push(number)?;
        }
        Ok(())
    }

    /// The last slot goes, if there is one.
    pub fn pop(&mut self)
        ensures { self.new ≡ without_last self.old }
    {
        let _ = self.numbers.pop();
    }

    /// A slot's part is replaced by another one; what is known is lost unless both have one shape.
    pub fn change(&mut self, old: &Part, new: &Part)
        ensures { self.new ≡ with_change self.old (piece_of old.now) (piece_of new.now) }
    {
        if !same_parts(&self.table, self.numbers.as_slice(), old, new) {
            self.is_known = false;
        }
    }

    /// Whether both types have a shape, and the same one. `None`: the shapes of slots aren't known.
    pub fn same(&self, a: &Ty, b: &Ty) -> Option<bool>
        ensures { result ≡ known_same self.now (kind_of a.now) (kind_of b.now) }
    {
        if self.is_known {
            Some(same_types(&self.table, self.numbers.as_slice(), a, b))
        } else {
            None
        }
    }

    /// Whether a part and a type have a shape, and the same one. `None`: the shapes of slots aren't known.
    pub fn fits(&self, part: &Part, t: &Ty) -> Option<bool>
        ensures { result ≡ known_fits self.now (piece_of part.now) (kind_of t.now) }
    {
        if self.is_known {
            Some(fits(&self.table, self.numbers.as_slice(), part, t))
        } else {
            None
        }
    }

    /// Whether two places have a shape, and the same one. `None`: the shapes of slots aren't known.
    pub fn same_places(&self, u: Lval, v: Lval) -> Option<bool>
        ensures { result ≡ known_places self.now u v }
    {
        if self.is_known {
            Some(same_places(&self.table, self.numbers.as_slice(), u, v))
        } else {
            None
        }
    }

    /// Equal shapes.
    pub fn copy(&self) -> Result<SlotShapes, NoMemory>
        ensures { IfOk result (λ s. s ≡ self.now) }
    {
        Ok(SlotShapes {
            table: self.table.copy()?,
            numbers: self.numbers.clone()?,
            is_known: self.is_known,
        })
    }
}
