//! Rows by the higher bits of keys.

ghost use Rattle.std.specs.Prelude.{◌≡◌, ℕ, ◌+◌, ◌-◌, ◌≤◌, List, [], length, map, OnOk, OnErr};
ghost use Rattle.server_index.specs.Rows.{Longer};

use crate::row::Row;
use fr_base::NoMemory;
use std::alloc::Global;

/// A row of entries, by column.
pub(crate) trait Columns: Drop {
    // the entries that it stands for
    ghost columns: { Self → List ℕ };

    // No entry, and no memory taken yet.
    fn bare(alloc: Global) -> Self
        ensures { columns result ≡ [] };
}

impl Columns for Vec<u32> {
    ghost columns = { λ row. row.items };

    fn bare(alloc: Global) -> Vec<u32> {
        Vec::new(alloc)
    }
}

impl Columns for Row {
    ghost columns = { λ row. row };

    fn bare(alloc: Global) -> Row {
        Row::new(alloc)
    }
}

// Makes that many rows at least; those that are new have no column.
pub(crate) fn make_rows<R: Columns>(
    alloc: Global,
    rows: &mut Vec<R>,
    count: usize,
) -> Result<(), NoMemory>
    ensures enough { OnOk result (count ≤ length rows.new.items) }
    ensures most { OnOk result (length rows.new.items ≤ length rows.old.items + (count - length rows.old.items)) }
    ensures longer { OnOk result (Longer (map R.columns rows.old.items) (map R.columns rows.new.items)) }
    ensures refused { OnErr result (rows.new.items ≡ rows.old.items) }
{
    let missing = count.saturating_sub(rows.len());
    rows.reserve(missing)?;
    'rows: for _ in 0..missing {
        rows.push_reserved(R::bare(alloc));
    }
    Ok(())
}
