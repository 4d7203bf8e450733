//! Freed addresses.

ghost use Rattle.std.specs.Prelude.{◌≡◌, ◌<◌, []};

use colour_retire::Colours;
use global_addr::Word;

/// A freed address is given once: the pick after it gets the next address never used. It refuses a pick that leaves the address among
/// the free ones.
pub fn a_freed_address_is_given_once(colours: &mut Colours) -> (u64, u64)
    requires none { colours.old.state.free ≡ [] }
    requires fresh { colours.old.state.retired ≡ 0 }
    requires room { 0 < colours.old.room }
    ensures { result ≡ (7, 9) }
{
    colours.free(Word::pack(3, 0, 7), 65536);
    let (first, _) = colours.pick(9);
    let (second, _) = colours.pick(9);
    (first, second)
}

/// An address that was freed at the last colour is given no more. It refuses a retirement that leaves the address free.
pub fn a_retired_address_is_not_given(colours: &mut Colours) -> (u64, u64)
    requires none { colours.old.state.free ≡ [] }
    requires fresh { colours.old.state.retired ≡ 0 }
    requires room { 0 < colours.old.room }
    ensures { result ≡ (9, 1) }
{
    colours.free(Word::pack(3, 0, 7), 4);
    let (address, _) = colours.pick(9);
    (address, colours.retired())
}
