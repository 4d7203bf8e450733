//! Addresses freed and picked again.

ghost use Rattle.std.specs.Prelude.{◌≡◌, []};

use crate::answers::first_wrong;
use colour_retire::Colours;
use fr_base::NoMemory;
use global_addr::Word;
use std::test::Fail;

// The number of the first wrong answer, where two addresses are freed and picked, the last freed first.
fn wrong_pick(colours: &mut Colours) -> Result<Option<usize>, NoMemory>
    requires free { colours.old.state.free ≡ [] }
    requires retired { colours.old.state.retired ≡ 0 }
{
    let none = colours.pick(0);
    colours.reserve(2)?;
    let (low, high) = (Word::pack(0, 1, 4), Word::pack(3, 1, 5));
    colours.free(low, 5);
    colours.free(high, 5);
    let right = [
        none == (0, 0),
        (low.colour(), low.address()) == (0, 4),
        (high.colour(), high.address()) == (3, 5),
        colours.pick(9) == (5, 4),
        colours.pick(9) == (4, 1),
        colours.pick(9) == (9, 0),
        colours.retired() == 0,
    ];
    Ok(first_wrong(&right))
}

#[test]
fn picks_the_last_freed_first(rt: HostRuntime) -> Result<(), Fail> {
    let mut colours = Colours::new(rt.alloc());
    assert_eq!(rt; wrong_pick(&mut colours)?, None);
    Ok(())
}

// The same where an address is freed at the last colour.
fn wrong_retirement(colours: &mut Colours) -> Result<Option<usize>, NoMemory>
    requires free { colours.old.state.free ≡ [] }
    requires retired { colours.old.state.retired ≡ 0 }
{
    colours.reserve(1)?;
    let last = Word::pack(3, 1, 5);
    let before = colours.retired();
    colours.free(last, 4);
    let right = [
        last.colour() == 3,
        before == 0,
        colours.retired() == 1,
        colours.pick(9) == (9, 0),
    ];
    Ok(first_wrong(&right))
}

#[test]
fn retires_at_the_last_colour(rt: HostRuntime) -> Result<(), Fail> {
    let mut colours = Colours::new(rt.alloc());
    assert_eq!(rt; wrong_retirement(&mut colours)?, None);
    Ok(())
}
