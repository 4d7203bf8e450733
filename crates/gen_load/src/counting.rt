//! Programs in which two threads add to what a mutex holds.

ghost use Rattle.std.specs.Prelude.{◌≡◌, ◌≤◌, ◌++◌, [], ◌∷◌, OnOk, string_bytes};
ghost use Rattle.gen_load.specs.Pieces.{items_text, term_text};
ghost use Rattle.gen_load.specs.Programs.{add_locked, counting, times};

use crate::writing::add_number;
use fr_base::NoMemory;

// The lock of a share, under which the step is added.
fn add_locked(text: &mut String, share: &str, step: u64) -> Result<(), NoMemory>
    ensures { OnOk result (string_bytes text.new ≡ string_bytes text.old ++ term_text (add_locked share.now step)) }
{
    text.push_str("lock ")?;
    text.push_str(share)?;
    text.push_str(" as c { c = ( c + ")?;
    add_number(text, step)?;
    text.push_str(" ) } ")?;
    Ok(())
}

// So many of them.
fn add_all_locked(text: &mut String, share: &str, size: u32, step: u64) -> Result<(), NoMemory>
    requires { 1 ≤ size }
    ensures { OnOk result (string_bytes text.new ≡ string_bytes text.old ++ items_text (times size (add_locked share.now step ∷ []))) }
{
    add_locked(text, share, step)?;
    for i in 1..size {
        text.push_str("; ")?;
        add_locked(text, share, step)?;
    }
    Ok(())
}

/// The items of such a program, each token with a space behind it.
pub(crate) fn add_counting(text: &mut String, size: u32, step: u64) -> Result<(), NoMemory>
    requires { 1 ≤ size }
    ensures { OnOk result (string_bytes text.new ≡ string_bytes text.old ++ items_text (counting size step)) }
{
    text.push_str(
        "let mut m = mutex 0 ; let mut a = dup m ; let mut b = dup m ; let mut h = spawn ( a ) { ",
    )?;
    add_all_locked(text, "a", size, step)?;
    text.push_str("} ; let mut g = spawn ( b ) { ")?;
    add_all_locked(text, "b", size, step)?;
    text.push_str("} ; join h ; join g ; lock m as c { print c } ")?;
    Ok(())
}
