//! Where a value stands that a thread follows.

use global_addr::Word;

/// Where a value stands that a thread follows: in a slot; on top of its temporary values; in a cell that lies here, under the word that led
/// to it, with the slot of the mutable reference where one led straight to it; in a cached copy; or nowhere, where no place is followed.
#[derive(Clone, Copy)]
pub enum Spot {
    Slot(u32),
    Top,
    Cell(Word, Option<u32>),
    Copy(Word),
    Nowhere,
}
