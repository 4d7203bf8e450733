//! Which slots of a chunk have a cell.

ghost use Rattle.std.specs.Prelude.{◌≡◌, ◌<◌, true, false, length, replicate, slice_index_or, slice_set};

use std::marker::Model;

// How many bits a mask has.
const BITS: usize = 64;

/// A bit for each slot of a chunk, in sixteen masks of 64. Contracts see the bits as a list.
#[derive(Drop)]
pub struct Live {
    masks: [u64; 16],
}

impl Model for Live {
    ghost use Rattle.std.specs.Prelude.{List, Bool};
    ghost use Rattle.heap_partition.specs.Bits.{bits_of};

    ghost Value = { List Bool };

    ghost view = { λ l. bits_of l.masks };
}

impl Live {
    /// No slot has a cell.
    pub fn none() -> Live
        ensures { result ≡ replicate 1024 false }
    {
        Live { masks: [0; 16] }
    }

    /// Whether the slot has a cell. Constant time.
    pub fn has(&self, at: usize) -> bool
        requires { at < length self.now }
        ensures { result ≡ slice_index_or self.now at false }
    {
        (self.masks[at / BITS] >> (at % BITS)) & 1 == 1
    }

    /// Notes that the slot has a cell. Constant time.
    pub fn put(&mut self, at: usize)
        requires { at < length self.old }
        ensures { self.new ≡ slice_set self.old at true }
    {
        let mask = self.masks[at / BITS];
        self.masks[at / BITS] = mask | (1u64 << (at % BITS));
    }

    /// Notes that the slot has none. Constant time.
    pub fn clear(&mut self, at: usize)
        requires { at < length self.old }
        ensures { self.new ≡ slice_set self.old at false }
    {
        let mask = self.masks[at / BITS];
        self.masks[at / BITS] = mask & !(1u64 << (at % BITS));
    }
}
