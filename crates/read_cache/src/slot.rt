//! What stands under a word.

use heap_partition::Cell;

/// What stands under a word: room for a copy, with a number that is higher than those of all older rooms, or a copy of that cell with
/// so many users, before which so many copies were filled.
#[derive(Clone, Copy, Debug, PartialEq, Eq)]
pub enum Slot {
    Room(u64),
    Held(Cell, u64, u64),
}
