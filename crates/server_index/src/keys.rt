//! A key as a row and a column.

ghost use Rattle.std.specs.Prelude.{◌≡◌, ◌+◌, ◌*◌, ◌^◌, ◌<◌};

// How many keys have the same higher bits.
const COLUMNS: u64 = 1 << 32;

// The row and the column of a key: its higher bits, and its lower 32 bits.
pub(crate) fn split(key: u64) -> (usize, usize)
    ensures column { result.1 < 2 ^ 32 }
    ensures key { result.0 * 2 ^ 32 + result.1 ≡ key }
{
    ((key / COLUMNS) as usize, (key % COLUMNS) as usize)
}

// The key at a row and a column.
pub(crate) fn key_at(row: usize, column: usize) -> u64
    requires row { row < 2 ^ 8 }
    requires column { column < 2 ^ 32 }
    ensures { result ≡ row * 2 ^ 32 + column }
{
    row as u64 * COLUMNS + column as u64
}
