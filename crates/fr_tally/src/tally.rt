//! The counters.

ghost use Rattle.std.specs.Prelude.{◌≡◌, ◌+◌, ◌<◌, ◌≤◌, ◌^◌, replicate, slice_index, sum};
ghost use Rattle.fr_tally.specs.Counts.{one_more};

use std::marker::Model;

/// How often each of `K` kinds was counted. Contracts see the list of the counts by the kinds' numbers, from 0.
#[derive(Clone, Copy, Debug)]
pub struct Tally<const K: usize> {
    counts: [u64; K],
}

impl<const K: usize> Model for Tally<K> {
    ghost use Rattle.std.specs.Prelude.{ℕ, ◌≤◌, ◌^◌, List, sum};

    ghost Value = { List ℕ };

    ghost view = { λ t. t.counts };

    ghost invariant = { λ t. sum t.counts ≤ 2 ^ 63 };

    ghost inverse = { λ ns. record { counts = ns } };
}

impl<const K: usize> Tally<K> {
    /// Nothing is counted yet.
    pub fn new() -> Tally<K>
        ensures { result ≡ replicate K 0 }
    {
        Tally { counts: [0; K] }
    }

    /// Counts the kind once more. Its number is below `K`, and the sum of all counts below 2^63.
    pub fn add(&mut self, kind: usize)
        requires kind { kind < K }
        requires total { sum self.old < 2 ^ 63 }
        ensures { self.new ≡ one_more self.old kind }
    {
        let count = &mut self.counts[kind];
        *count += 1;
    }

    /// How often the kind was counted. Its number is below `K`.
    pub fn count(&self, kind: usize) -> u64
        requires { kind < K }
        ensures { result ≡ slice_index self.now kind }
    {
        self.counts[kind]
    }

    /// How often all kinds together were counted.
    pub fn total(&self) -> u64
        ensures sum { result ≡ sum self.now }
        ensures most { result ≤ 2 ^ 63 }
    {
        self.counts.iter().sum()
    }
}
