//! Cells by address.

ghost use Rattle.std.specs.Prelude.{◌≡◌, ◌<◌, [], None, Some};

use heap_partition::{Cell, Cells};

/// What is taken out of an address stands there no longer. It refuses a take that leaves the cell, and one that leaves the mark of its slot.
pub fn a_taken_cell_is_gone(cells: &mut Cells, cell: Cell) -> Option<Cell>
    requires none { cells.old.state ≡ [] }
    requires room { 0 < cells.old.room }
    ensures { result ≡ None }
{
    let address = cells.put(cell);
    cells.take(address);
    cells.get(address)
}

/// A cell that takes the place of another one stands there. It refuses a change that turns the mark of its slot.
pub fn a_changed_cell_is_there(cells: &mut Cells, first: Cell, second: Cell) -> Option<Cell>
    requires none { cells.old.state ≡ [] }
    requires room { 0 < cells.old.room }
    ensures { result ≡ Some second }
{
    let address = cells.put(first);
    cells.set(address, second);
    cells.get(address)
}
