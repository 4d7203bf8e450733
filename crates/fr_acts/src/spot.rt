//! Where a value stands.

use fr_base::ObjNo;

/// A slot, from 0, or the cell of an object.
#[derive(Clone, Copy)]
pub enum Where {
    Slot(u32),
    Cell(ObjNo),
}
