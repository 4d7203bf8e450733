//! Numbers in a text.

ghost use Rattle.std.specs.Prelude.{◌≡◌, ◌++◌, decimal, OnOk, string_bytes};

use fr_base::NoMemory;
use itoa::Buffer;

/// Adds a count in decimal digits.
pub fn add_count(text: &mut String, count: u64) -> Result<(), NoMemory>
    ensures { OnOk result (string_bytes text.new ≡ string_bytes text.old ++ decimal count) }
{
    let mut buffer = Buffer::new();
    text.push_str(buffer.format(count))?;
    Ok(())
}
