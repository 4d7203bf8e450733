//! Programs in which one thread after another owns a box in a box and gives it back.

ghost use Rattle.std.specs.Prelude.{◌≡◌, ◌++◌, OnOk, string_bytes};
ghost use Rattle.gen_load.specs.Pieces.{items_text, more_text};
ghost use Rattle.gen_load.specs.Programs.{handed, handing};

use crate::writing::add_number;
use fr_base::NoMemory;

// The thread of that number, and the join behind it.
fn add_handed(text: &mut String, i: u64, step: u64) -> Result<(), NoMemory>
    ensures { OnOk result (string_bytes text.new ≡ string_bytes text.old ++ more_text (handed i step)) }
{
    text.push_str("; let mut h")?;
    add_number(text, i)?;
    text.push_str(" = spawn ( x ) { * * x = ( * * x + ")?;
    add_number(text, step)?;
    text.push_str(" ) ; x } ; x = join h")?;
    add_number(text, i)?;
    text.push_str(" ")?;
    Ok(())
}

/// The items of such a program, each token with a space behind it.
pub(crate) fn add_handing(text: &mut String, size: u32, step: u64) -> Result<(), NoMemory>
    ensures { OnOk result (string_bytes text.new ≡ string_bytes text.old ++ items_text (handing size step)) }
{
    text.push_str("let mut x = box box ")?;
    add_number(text, step)?;
    text.push_str(" ")?;
    for i in 0..size {
        add_handed(text, u64::from(i), step)?;
    }
    text.push_str("; print * * x ")?;
    Ok(())
}
