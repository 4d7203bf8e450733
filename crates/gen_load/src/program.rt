//! The generator.

ghost use Rattle.std.specs.Prelude.{◌≡◌, ◌≤◌, ◌++◌, IfOk, OnOk, string_bytes};
ghost use Rattle.gen_load.specs.Pieces.{items_text};
ghost use Rattle.gen_load.specs.Programs.{by_kind, program_text};

use crate::counting::add_counting;
use crate::handing::add_handing;
use crate::sharing::add_sharing;
use fr_base::NoMemory;
use std::alloc::Global;

fn add_items(text: &mut String, kind: u64, size: u32, step: u64) -> Result<(), NoMemory>
    requires { 1 ≤ size }
    ensures { OnOk result (string_bytes text.new ≡ string_bytes text.old ++ items_text (by_kind kind size step)) }
{
    if kind == 0 {
        add_counting(text, size, step)
    } else if kind == 1 {
        add_sharing(text, size, step)
    } else {
        add_handing(text, size, step)
    }
}

/// The text of the program of that number and size, from 1 to 4,000: the number modulo 3 is the kind (two threads that count under a
/// mutex; pairs of threads that read a box between two writes; threads that own a box one after another), and
/// 1 + number / 3 modulo 97 is what is added each time. Linear in the size: about 60 bytes for each round.
///
/// # Errors
///
/// `NoMemory` alone.
#[tactic(auto, using(crate::proofs::Texts::text_written))]
pub fn generate(alloc: Global, number: u64, size: u32) -> Result<String, NoMemory>
    requires least { 1 ≤ size }
    requires most { size ≤ 4000 }
    ensures { IfOk result (λ text. string_bytes text ≡ program_text number size) }
{
    let mut text = String::from_str(alloc, "{ ")?;
    add_items(&mut text, number % 3, size, 1 + number / 3 % 97)?;
    text.push_str("}\n")?;
    Ok(text)
}
