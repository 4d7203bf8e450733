//! Lists for the acts and labels of events to come.

ghost use Rattle.std.specs.Prelude.{◌≡◌, ◌≤◌, []};

use fr_base::Labels;
use journal::Acts;
use std::alloc::Global;
use std::marker::Model;

/// A list for acts and one for labels, in which nothing stands. Contracts see how many items fit in each of them without memory.
#[derive(Drop)]
pub(crate) struct Idle {
    acts: Acts,
    labels: Labels,
}

impl Model for Idle {
    ghost use Rattle.std.specs.Prelude.{ℕ, ◌≡◌, [], min};

    ghost Value = { ℕ };

    ghost view = { λ i. min i.acts.spare i.labels.spare };

    ghost invariant = { λ i. (i.acts.items ≡ []) × (i.labels.items ≡ []) };
}

impl Idle {
    /// Lists without room.
    pub fn new(alloc: Global) -> Idle {
        Idle {
            acts: Acts::new(alloc),
            labels: Labels::new(alloc),
        }
    }

    /// These lists, with the room that they have: what stands in them isn't needed any more.
    pub fn of(mut acts: Acts, mut labels: Labels) -> Idle {
        acts.clear();
        labels.clear();
        Idle { acts, labels }
    }

    /// How many items fit in each list.
    pub fn room(&self) -> usize
        ensures { result ≡ self.now }
    {
        self.acts.spare().min(self.labels.spare())
    }

    /// The two lists.
    pub fn into_lists(self) -> (Acts, Labels)
        ensures nothing { (result.0.items ≡ []) × (result.1.items ≡ []) }
        ensures acts { self ≤ result.0.spare }
        ensures labels { self ≤ result.1.spare }
    {
        (self.acts, self.labels)
    }
}
