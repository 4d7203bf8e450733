//! Loans: what references the slots of an environment have, counted by the slot at which their places start.

ghost use Rattle.std.specs.Prelude.{◌≡◌, ◌+◌, ◌<◌, ◌≤◌, ℕ, List, length, true, false};
ghost use Rattle.fr_types.specs.Rising.{IsRising};
ghost use Rattle.fr_typing.specs.Places.{AreBelow, piece_places};
ghost use Rattle.fr_types.specs.Types.{piece_of};
ghost use Rattle.fr_types.specs.Lent.{reference, is_first, IsLent, HasLoans, HasSpace};

use crate::types::{Part, Ty};
use fr_base::Lval;

/// How many slots have a whole mutable reference, and how many a whole reference of either sort, with a place that starts
/// at one slot.
#[derive(Clone, Copy, Debug)]
pub struct Loans {
    pub mutable: u32,
    pub any: u32,
}

/// Counts one slot more at each slot where a place of the part starts; it costs the places.
pub fn lend(loans: &mut Vec<Loans>, part: &Part)
    requires below { AreBelow (length loans.old.items) (piece_places (piece_of part.now)) }
    requires space { HasSpace loans.old.items }
    ensures { IsLent loans.old.items loans.new.items (piece_of part.now) }
{
    match part {
        Part::Whole(Ty::Shared(us)) => lend_all(loans, us.as_slice(), false),
        Part::Whole(Ty::Mut(us)) => lend_all(loans, us.as_slice(), true),
        _ => {}
    }
}

/// Counts one slot less at each slot where a place of the part starts; it costs the places.
pub fn give_back(loans: &mut Vec<Loans>, part: &Part)
    requires below { AreBelow (length loans.old.items) (piece_places (piece_of part.now)) }
    requires lent { HasLoans loans.old.items (piece_of part.now) }
    ensures { IsLent loans.new.items loans.old.items (piece_of part.now) }
{
    match part {
        Part::Whole(Ty::Shared(us)) => give_back_all(loans, us.as_slice(), false),
        Part::Whole(Ty::Mut(us)) => give_back_all(loans, us.as_slice(), true),
        _ => {}
    }
}

// Whether no place before it starts at its slot; the places of one slot stand side by side.
fn is_first(us: &[Lval], at: usize) -> bool
    requires here { at < length us.now }
    requires rising { IsRising us.now }
    ensures { result ≡ is_first us.now at }
{
    at == 0 || us[at - 1].slot != us[at].slot
}

fn lend_all(loans: &mut Vec<Loans>, us: &[Lval], mutable: bool)
    requires below { AreBelow (length loans.old.items) us.now }
    requires rising { IsRising us.now }
    requires space { HasSpace loans.old.items }
    ensures { IsLent loans.old.items loans.new.items (reference mutable us.now) }
{
    'places: for at in 0..us.len() {
        if is_first(us, at) {
            let slot = us[at].slot as usize;
            let before = loans[slot];
            loans[slot] = Loans {
                mutable: before.mutable + u32::from(mutable),
                any: before.any + 1,
            };
        }
    }
}

fn give_back_all(loans: &mut Vec<Loans>, us: &[Lval], mutable: bool)
    requires below { AreBelow (length loans.old.items) us.now }
    requires rising { IsRising us.now }
    requires lent { HasLoans loans.old.items (reference mutable us.now) }
    ensures { IsLent loans.new.items loans.old.items (reference mutable us.now) }
{
    'places: for at in 0..us.len() {
        if is_first(us, at) {
            let slot = us[at].slot as usize;
            let before = loans[slot];
            loans[slot] = Loans {
                mutable: before.mutable - u32::from(mutable),
                any: before.any - 1,
            };
        }
    }
}
