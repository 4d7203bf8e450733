//! More entries in a row.

ghost use Rattle.std.specs.Prelude.{◌≡◌, ◌-◌, ◌++◌, length, replicate, OnOk, OnErr};

use fr_base::NoMemory;

// Makes that many entries at least; those that are new are that one.
pub(crate) fn widen<T: Copy>(entries: &mut Vec<T>, count: usize, entry: T) -> Result<(), NoMemory>
    ensures more { OnOk result (entries.new.items ≡ entries.old.items ++ replicate (count - length entries.old.items) entry) }
    ensures refused { OnErr result (entries.new.items ≡ entries.old.items) }
{
    if entries.len() < count {
        entries.resize(count, entry)?;
    }
    Ok(())
}
