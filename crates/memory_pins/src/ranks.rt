//! Items by their key and by their rank.

ghost use Rattle.std.specs.Prelude.{◌≡◌, [], ◌∷◌, Some, false};

use rank_map::RankMap;

/// Of three items, the one with the highest key has the last rank, also where the keys lie far apart. It refuses a search that counts the
/// lower ones again.
pub fn a_later_item_has_its_rank(map: &RankMap<u64>) -> Option<u64>
    requires places { map.now ≡ record { key = 3; item = Some 1 } ∷ record { key = 70; item = Some 2 } ∷ record { key = 9000; item = Some 3 } ∷ [] }
    ensures { result ≡ Some 9000 }
{
    map.nth(2)
}

/// A place that was taken out is gone. It refuses a removal that leaves the place free.
pub fn a_removed_place_is_gone(map: &mut RankMap<u64>) -> bool
    requires place { map.old ≡ record { key = 3; item = Some 1 } ∷ [] }
    ensures { result ≡ false }
{
    map.remove(3);
    map.has_place(3)
}
