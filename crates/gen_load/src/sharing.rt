//! Programs in which pairs of threads read a box that is written between them.

ghost use Rattle.std.specs.Prelude.{◌≡◌, ◌++◌, OnOk, string_bytes};
ghost use Rattle.gen_load.specs.Pieces.{items_text, more_text};
ghost use Rattle.gen_load.specs.Programs.{shared_round, sharing};

use crate::writing::add_number;
use fr_base::NoMemory;

// A pair that reads, and the write behind it.
fn add_round(text: &mut String, step: u64) -> Result<(), NoMemory>
    ensures { OnOk result (string_bytes text.new ≡ string_bytes text.old ++ more_text (shared_round step)) }
{
    text.push_str(
        "; { let mut r = & * x ; par ( r ) { print * r } ( r ) { print * r } } ; * x = ( * x + ",
    )?;
    add_number(text, step)?;
    text.push_str(" ) ")?;
    Ok(())
}

/// The items of such a program, each token with a space behind it.
pub(crate) fn add_sharing(text: &mut String, size: u32, step: u64) -> Result<(), NoMemory>
    ensures { OnOk result (string_bytes text.new ≡ string_bytes text.old ++ items_text (sharing size step)) }
{
    text.push_str("let mut x = box ")?;
    add_number(text, step)?;
    text.push_str(" ")?;
    for i in 0..size {
        add_round(text, step)?;
    }
    text.push_str("; print * x ")?;
    Ok(())
}
