//! Where places really are: the way through references to one place, kept for each slot.

ghost use Rattle.std.specs.Prelude.{◌≡◌, ◌+◌, ◌*◌, ◌-◌, ◌^◌, ◌<◌, ◌≤◌, ℕ, List, length, true, false};
ghost use Rattle.fr_base.specs.declared.place.Lval.{Lval};
ghost use Rattle.fr_typing.specs.Kinds.{Piece, whole};
ghost use Rattle.fr_typing.specs.Places.{AreBelow, kind_places, piece_places};
ghost use Rattle.fr_types.specs.Types.{kind_of, piece_of};
ghost use Rattle.fr_types.specs.States.{Held, put_in, AreNested};
ghost use Rattle.fr_types.specs.Inside.{newest};
ghost use Rattle.fr_types.specs.Bases.{starred, single, target, base, aimed, one_star, target_at, IsLow, AreLow, AreAimedBelow, AreAimed, IsFree};

use crate::types::{Part, Ty};
use crate::variable::Variable;
use fr_base::Lval;

/// A place as a slot under any number of stars; they stay below 2^37, since each slot on the way
/// adds at most those of one place.
#[derive(Clone, Copy, Debug)]
pub struct Starred {
    pub slot: u32,
    pub stars: u64,
}

/// Where the place really is; it costs the place's stars, however long the way is.
pub fn resolve(targets: &[Option<Starred>], w: Lval) -> Starred
    requires here { w.slot < length targets.now }
    requires few { length targets.now < 2 ^ 32 }
    requires low { AreLow targets.now }
    ensures slot { result.slot ≤ w.slot }
    ensures stars { result.stars + 255 * result.slot ≤ 255 * w.slot + 255 }
    ensures base { (n : ℕ) (vs : List Held) → w.slot < n → AreAimedBelow n vs targets.now → result ≡ base vs (starred w) }
{
    let mut at = Starred {
        slot: w.slot,
        stars: 0,
    };
    'stars: for _ in 0..w.depth {
        at = one_star(targets, at);
    }
    at
}

// One star more: to where the slot leads, if the place is the slot itself.
fn one_star(targets: &[Option<Starred>], at: Starred) -> Starred
    requires here { at.slot < length targets.now }
    requires few { at.stars < 2 ^ 63 }
    ensures { result ≡ one_star (target_at targets.now at.slot) at }
{
    let target = targets[at.slot as usize];
    match target {
        Some(target) if at.stars == 0 => target,
        _ => Starred {
            slot: at.slot,
            stars: at.stars + 1,
        },
    }
}

/// Where the part really leads. `None`: it is no whole reference to one place.
pub fn aim(targets: &[Option<Starred>], part: &Part) -> Option<Starred>
    requires below { AreBelow (length targets.now) (piece_places (piece_of part.now)) }
    requires few { length targets.now < 2 ^ 32 }
    requires low { AreLow targets.now }
    ensures low { (x : ℕ) → AreBelow x (piece_places (piece_of part.now)) → IsLow x result }
    ensures aimed { (n : ℕ) (vs : List Held) → AreBelow n (piece_places (piece_of part.now)) → AreAimedBelow n vs targets.now → result ≡ aimed (base vs) (target (piece_of part.now)) }
{
    match part {
        Part::Whole(t) => aim_type(targets, t),
        _ => None,
    }
}

fn aim_type(targets: &[Option<Starred>], t: &Ty) -> Option<Starred>
    requires below { AreBelow (length targets.now) (kind_places (kind_of t.now)) }
    requires few { length targets.now < 2 ^ 32 }
    requires low { AreLow targets.now }
    ensures low { (x : ℕ) → AreBelow x (kind_places (kind_of t.now)) → IsLow x result }
    ensures aimed { (n : ℕ) (vs : List Held) → AreBelow n (kind_places (kind_of t.now)) → AreAimedBelow n vs targets.now → result ≡ aimed (base vs) (target (whole (kind_of t.now))) }
{
    match t {
        Ty::Shared(us) => aim_at(targets, us.as_slice()),
        Ty::Mut(us) => aim_at(targets, us.as_slice()),
        _ => None,
    }
}

fn aim_at(targets: &[Option<Starred>], us: &[Lval]) -> Option<Starred>
    requires below { AreBelow (length targets.now) us.now }
    requires few { length targets.now < 2 ^ 32 }
    requires low { AreLow targets.now }
    ensures low { (x : ℕ) → AreBelow x us.now → IsLow x result }
    ensures aimed { (n : ℕ) (vs : List Held) → AreBelow n us.now → AreAimedBelow n vs targets.now → result ≡ aimed (base vs) (single us.now) }
{
    if us.len() == 1 {
        let u = us[0];
        Some(resolve(targets, u))
    } else {
        None
    }
}

/// Where the slots lead after one of them has another part. Where the slot leads elsewhere and a reference leads to it, each
/// slot above it is looked at again; a checked program without branches writes no such slot.
pub fn renew(targets: &mut Vec<Option<Starred>>, slots: &[Variable], at: usize, is_lent: bool)
    requires here { at < length slots.now }
    requires room { length slots.now ≤ length targets.old.items }
    requires few { length targets.old.items < 2 ^ 32 }
    requires low { AreLow targets.old.items }
    requires below { AreAimedBelow at (newest slots.now) targets.old.items }
    ensures length { length targets.new.items ≡ length targets.old.items }
    ensures aimed { (vs : List Held) (p : Piece) → AreNested vs → newest slots.now ≡ put_in vs at p → AreAimed vs targets.old.items → (is_lent ≡ false → IsFree at vs) → AreAimed (newest slots.now) targets.new.items }
{
    let target = aim(targets.as_slice(), &slots[at].part);
    if is_same(target, targets[at]) {
        return;
    }
    targets[at] = target;
    if is_lent {
        aim_from(targets, slots, at + 1);
    }
}

// Whether both lead to one place, or nowhere.
fn is_same(a: Option<Starred>, b: Option<Starred>) -> bool
    ensures { result ≡ true → a ≡ b }
{
    match (a, b) {
        (Some(a), Some(b)) => a.slot == b.slot && a.stars == b.stars,
        (None, None) => true,
        _ => false,
    }
}

// Where the slots from this one on lead.
fn aim_from(targets: &mut Vec<Option<Starred>>, slots: &[Variable], from: usize)
    requires from { from ≤ length slots.now }
    requires room { length slots.now ≤ length targets.old.items }
    requires few { length targets.old.items < 2 ^ 32 }
    requires low { AreLow targets.old.items }
    requires below { AreAimedBelow from (newest slots.now) targets.old.items }
    ensures low { AreLow targets.new.items }
    ensures length { length targets.new.items ≡ length targets.old.items }
    ensures aimed { AreAimedBelow (length slots.now) (newest slots.now) targets.new.items }
    ensures above { (x : ℕ) → length slots.now ≤ x → target_at targets.new.items x ≡ target_at targets.old.items x }
{
    'slots: for at in from..slots.len() {
        let target = aim(targets.as_slice(), &slots[at].part);
        targets[at] = target;
    }
}
