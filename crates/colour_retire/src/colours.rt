//! Free addresses with their next colours, and the number of retired ones.

ghost use Rattle.std.specs.Prelude.{◌≡◌, ◌≢◌, ◌+◌, ◌-◌, ◌<◌, ◌≤◌, ◌^◌, [], All, IsOk, OnOk, OnErr};
ghost use Rattle.global_addr.specs.Words.{colour_of, address_of};
ghost use Rattle.colour_retire.specs.Colours.{IsFreeList, picked, rest_of, free_after, retired_after, freed_room, picked_room};

use fr_base::NoMemory;
use global_addr::Word;
use std::alloc::Global;
use std::marker::Model;

/// The addresses that were freed, each with the colour that it has next, and how many were retired for good.
/// Contracts see the free pairs, the last freed first, the number of retired addresses, and how many more pairs fit
/// without memory. No address is free twice, and no free address begins again from colour 0. Each call but `reserve`
/// takes constant time; only `reserve` takes memory.
#[derive(Drop)]
pub struct Colours {
    // each free address as the word that it has next, whatever the server
    free: Vec<Word>,
    retired: u64,
}

impl Model for Colours {
    ghost use Rattle.std.specs.Prelude.{◌-◌, map, reverse, vec_len};
    ghost use Rattle.std.specs.Vec.{vec_capacity};
    ghost use Rattle.colour_retire.specs.View.{ColoursView};
    ghost use Rattle.colour_retire.specs.Colours.{IsFreeList, pair_of};

    ghost Value = { ColoursView };

    ghost view = { λ c. record { state = record { free = reverse (map pair_of c.free.items); retired = c.retired }; room = vec_capacity c.free - vec_len c.free } };

    ghost invariant = { λ c. IsFreeList (reverse (map pair_of c.free.items)) };
}

impl Colours {
    /// No address is free or retired, and no memory taken yet.
    pub fn new(alloc: Global) -> Colours
        ensures free { result.state.free ≡ [] }
        ensures retired { result.state.retired ≡ 0 }
    {
        Colours {
            free: Vec::new(alloc),
            retired: 0,
        }
    }

    /// Makes room for `n` more free addresses; a refusal changes nothing.
    pub fn reserve(&mut self, n: usize) -> Result<(), NoMemory>
        ensures state { self.new.state ≡ self.old.state }
        ensures room { OnOk result (n ≤ self.new.room) }
        ensures had_room { n ≤ self.old.room → IsOk result }
        ensures spare { self.old.room ≤ self.new.room }
        ensures refused { OnErr result (self.new ≡ self.old) }
    {
        match self.free.reserve(n) {
            Ok(()) => Ok(()),
            Err(_) => Err(NoMemory),
        }
    }

    /// Frees the address of the word: from its next colour, or for good where the colour is the last, `limit - 1`. There is
    /// room, the address isn't free, and the colour is below the limit, which is from 1 to 65,536.
    pub fn free(&mut self, word: Word, limit: u32)
        requires room { 0 < self.old.room }
        requires not_free { All (λ pair. pair.0 ≢ address_of word) self.old.state.free }
        requires few { self.old.state.retired < 2 ^ 64 - 1 }
        requires colour { colour_of word < limit }
        requires limit { limit ≤ 65536 }
        ensures free { self.new.state.free ≡ free_after limit word self.old.state.free }
        ensures retired { self.new.state.retired ≡ retired_after limit word self.old.state.retired }
        ensures spare { self.new.room ≡ freed_room limit word self.old.room }
    {
        match word.next_colour(limit) {
            Some(next) => self.free.push_reserved(next),
            None => self.retired += 1,
        }
    }

    /// The address for the next object and its colour there: the address that was freed last, which is no longer free, or
    /// `(next, 0)` where none is free.
    pub fn pick(&mut self, next: u64) -> (u64, u16)
        ensures picked { result ≡ picked self.old.state.free next }
        ensures free { self.new.state.free ≡ rest_of self.old.state.free }
        ensures retired { self.new.state.retired ≡ self.old.state.retired }
        ensures spare { self.new.room ≡ picked_room self.old.state.free self.old.room }
    {
        match self.free.pop() {
            Some(word) => (word.address(), word.colour()),
            None => (next, 0),
        }
    }

    /// A law: no address is free twice, and none from colour 0.
    pub fn once(&self)
        ensures { IsFreeList self.now.state.free }
    {
        let _retired = self.retired;
    }

    /// How many addresses were retired.
    pub fn retired(&self) -> u64
        ensures { result ≡ self.now.state.retired }
    {
        self.retired
    }
}
