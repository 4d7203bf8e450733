//! Printed numbers in a text.

ghost use Rattle.std.specs.Prelude.{◌≡◌, ◌++◌, codes, OnOk, string_bytes};
ghost use Rattle.std.specs.Fmt.{signed_decimal};
ghost use Rattle.replay_answers.specs.Report.{number_lines};

use fr_base::NoMemory;
use itoa::Buffer;

/// Adds a printed number and the end of its line.
fn add_number(text: &mut String, number: i64) -> Result<(), NoMemory>
    ensures { OnOk result (string_bytes text.new ≡ string_bytes text.old ++ signed_decimal number ++ codes "\n") }
{
    let mut buffer = Buffer::new();
    text.push_str(buffer.format(number))?;
    text.push_str("\n")?;
    Ok(())
}

/// Adds the printed numbers, a line each.
pub(crate) fn add_numbers(text: &mut String, printed: &[i64]) -> Result<(), NoMemory>
    ensures { OnOk result (string_bytes text.new ≡ string_bytes text.old ++ number_lines printed.now) }
{
    'numbers: for number in printed {
        add_number(text, *number)?;
    }
    Ok(())
}
