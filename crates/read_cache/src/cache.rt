//! Copies by word, which contracts see in the order in which they were filled.

ghost use Rattle.std.specs.Prelude.{◌≡◌, ◌<◌, ◌==◌, ◌||◌, ◌++◌, [], ◌∷◌, true, false, None, Some, length, if◌then◌else◌, IsOk, OnOk, OnErr, IfSome, IfNone};
ghost use Rattle.rank_map.specs.Places.{has_place as has_age, with_place};
ghost use Rattle.indexmap.specs.IndexMap.{index_map_len};
ghost use Rattle.read_cache.specs.Cache.{copy_of, is_cached, hit, can_fill, fill, can_pin, pin, can_unpin, unpin, users, can_evict, evict, oldest_unused};
ghost use Rattle.read_cache.specs.Slots.{copies_in, rooms_in, IsAbsent, StandsAt, StandsAsRoom};
ghost use Rattle.read_cache.specs.declared.slot.Slot.TheVariants.{Room, Held};
ghost use Rattle.read_cache.specs.View.{is_among, has_place, with_room, without_room};

use crate::hash::WordHasher;
use crate::slot::Slot;
use fr_base::NoMemory;
use global_addr::Word;
use heap_partition::{Cell, Owned};
use indexmap::IndexMap;
use rank_map::RankMap;
use std::alloc::Global;
use std::marker::Model;

// What stands under each word.
type Slots = IndexMap<Word, Slot, WordHasher>;

// Ages are below this number.
const AGES: u64 = 1 << 40;

/// The cached copies of one server. Contracts see as `state` the copies in the order in which they were filled, each with its
/// word, its cell and the number of its users, and beside it as `rooms` the words for which there is room.
///
/// `hit`, `users` and `len` take constant time, and so do `pin` and `unpin` of a copy that is in use before and after; the others
/// take besides some forty steps in the set of the copies that nobody uses, by age, however many copies there are. That goes for every
/// order of calls: a copy has its age and room its number, so their entries stand in no order, and one that goes is replaced by the last.
/// Only `reserve` takes memory: where the map is full it makes room for as many words again, in linear time, so that each growth is paid
/// by as many calls. 2^40 copies can be filled over a cache's whole life.
#[derive(Drop)]
pub struct Cache {
    slots: Slots,
    // the words of the copies that nobody uses, by age
    unused: RankMap<Word>,
    // how many copies were filled, which is the age of the next one
    next: u64,
    // how many words have room alone
    rooms: u64,
}

impl Model for Cache {
    ghost use Rattle.std.specs.Prelude.{◌≡◌, ◌+◌, length};
    ghost use Rattle.read_cache.specs.Ages.{IsAged, RisesBy};
    ghost use Rattle.read_cache.specs.Slots.{held_in, numbered_in, copies_in, rooms_in};
    ghost use Rattle.read_cache.specs.View.{CacheView};

    ghost Value = { CacheView };

    ghost view = { λ c. record { state = copies_in c.slots.entries; rooms = rooms_in c.slots.entries } };

    ghost invariant = { λ c. IsAged (held_in c.slots.entries) c.unused c.next c.rooms × (c.rooms ≡ length (rooms_in c.slots.entries)) × RisesBy (λ r. r.number) 0 (c.next + c.rooms) (numbered_in c.slots.entries) };
}

// A copy: its place, its cell, the number of its users and its age.
#[derive(Clone, Copy)]
struct Found {
    at: usize,
    cell: Cell,
    users: u64,
    age: u64,
}

// What stands under the word, and at which place.
fn find(slots: &Slots, word: Word) -> Option<(usize, Slot)>
    ensures there { IfSome result (λ found. StandsAt slots.now.entries word found.0 found.1) }
    ensures within { IfSome result (λ found. found.0 < index_map_len slots.now) }
    ensures absent { IfNone result (IsAbsent slots.now.entries word) }
{
    // The check asks that each type inside a cell is named where a cell is moved.
    let _inside: Option<Owned> = None;
    // The length is what says that no two keys are equal.
    let _len = slots.len();
    match slots.get_full(&word) {
        Some((at, _, slot)) => Some((at, *slot)),
        None => None,
    }
}

// The copy under the word.
fn copy_at(slots: &Slots, word: Word) -> Option<Found>
    ensures copy { IfSome result (λ copy. StandsAt slots.now.entries word copy.at (Held copy.cell copy.users copy.age)) }
    ensures within { IfSome result (λ copy. copy.at < index_map_len slots.now) }
    ensures none { IfNone result (copy_of (copies_in slots.now.entries) word ≡ None) }
{
    let _inside: Option<Owned> = None;
    match find(slots, word) {
        Some((at, Slot::Held(cell, users, age))) => Some(Found {
            at,
            cell,
            users,
            age,
        }),
        Some((_, Slot::Room(_))) => None,
        None => None,
    }
}

// The place of the word's room.
fn room_at(slots: &Slots, word: Word) -> Option<usize>
    ensures room { IfSome result (λ at. StandsAsRoom slots.now.entries word at) }
    ensures within { IfSome result (λ at. at < index_map_len slots.now) }
    ensures none { IfNone result (is_among (rooms_in slots.now.entries) word ≡ false) }
{
    match find(slots, word) {
        Some((at, Slot::Room(_))) => Some(at),
        Some((_, Slot::Held(_, _, _))) => None,
        None => None,
    }
}

// Whether there is a copy under the word, or room for one.
fn is_there(slots: &Slots, word: Word) -> bool
    ensures there { result ≡ (is_cached (copies_in slots.now.entries) word || is_among (rooms_in slots.now.entries) word) }
    ensures absent { result ≡ false → IsAbsent slots.now.entries word }
{
    find(slots, word).is_some()
}

// Makes a free entry. Where none is left, there is room for as many again afterwards.
fn make_entry(slots: &mut Slots) -> Result<(), NoMemory>
    ensures { slots.new.entries ≡ slots.old.entries }
{
    let _inside: Option<(Slot, Cell, Owned)> = None;
    if slots.len() < slots.capacity() {
        return Ok(());
    }
    match slots.reserve(slots.len().max(1)) {
        Ok(()) => Ok(()),
        Err(_) => Err(NoMemory),
    }
}

// Adds room of that number for a word that is not there.
fn add_room(slots: &mut Slots, word: Word, number: u64) -> Result<(), NoMemory>
    requires absent { IsAbsent slots.old.entries word }
    ensures added { OnOk result (slots.new.entries ≡ slots.old.entries ++ (word, Room number) ∷ []) }
    ensures refused { OnErr result (slots.new.entries ≡ slots.old.entries) }
{
    let _inside: Option<(Slot, Cell, Owned)> = None;
    make_entry(slots)?;
    match slots.insert(word, Slot::Room(number)) {
        Ok(_) => Ok(()),
        Err(_) => Err(NoMemory),
    }
}

// A copy of that age, which had so many users, gets one more.
fn take_into_use(unused: &mut RankMap<Word>, age: u64, users: u64)
    requires place { has_age unused.old age ≡ true }
    ensures { unused.new ≡ (if users == 0 then with_place unused.old age (Some None) else unused.old) }
{
    if users == 0 {
        unused.take(age);
    }
}

// A copy of that age, which had so many users, loses one.
fn give_up(unused: &mut RankMap<Word>, word: Word, age: u64, users: u64)
    requires place { has_age unused.old age ≡ true }
    ensures { unused.new ≡ (if users == 1 then with_place unused.old age (Some (Some word)) else unused.old) }
{
    if users == 1 {
        unused.insert(age, word);
    }
}

impl Cache {
    /// No copy and no room, and no memory taken yet.
    pub fn new(alloc: Global) -> Cache
        ensures state { result.state ≡ [] }
        ensures rooms { result.rooms ≡ [] }
    {
        Cache {
            slots: IndexMap::with_hasher(alloc, WordHasher::new()),
            unused: RankMap::new(alloc),
            next: 0,
            rooms: 0,
        }
    }

    /// Makes room for a copy under the word, which stays until `fill` uses it. A word that is there needs none. The copies stay
    /// as they are, and a refusal changes nothing. Once 2^40 copies were filled or have room, it answers `NoMemory` for each word that
    /// isn't there, whatever memory there is.
    pub fn reserve(&mut self, word: Word) -> Result<(), NoMemory>
        ensures state { self.new.state ≡ self.old.state }
        ensures rooms { OnOk result (self.new.rooms ≡ with_room self.old word) }
        ensures place { OnOk result (has_place self.new word ≡ true) }
        ensures had_place { has_place self.old word ≡ true → IsOk result }
        ensures refused { OnErr result (self.new ≡ self.old) }
    {
        if is_there(&self.slots, word) {
            return Ok(());
        }
        let age = self.next + self.rooms;
        if age == AGES {
            return Err(NoMemory);
        }
        self.unused.reserve(age)?;
        add_room(&mut self.slots, word, age)?;
        self.rooms += 1;
        Ok(())
    }

    /// Puts a copy of the cell under the word: a new one goes last and nobody uses it, one that is there stays as it is. The word
    /// is there or has room, and a copy that is there has this cell.
    pub fn fill(&mut self, word: Word, cell: Cell)
        requires place { has_place self.old word ≡ true }
        requires same { can_fill self.old.state word cell ≡ true }
        ensures state { self.new.state ≡ fill self.old.state word cell }
        ensures rooms { self.new.rooms ≡ without_room self.old.rooms word }
    {
        // The check asks that each type inside a cell is named where a cell is moved.
        let _inside: Option<Owned> = None;
        let Some(at) = room_at(&self.slots, word) else {
            return;
        };
        self.slots[at] = Slot::Held(cell, 0, self.next);
        self.unused.insert(self.next, word);
        self.next += 1;
        self.rooms -= 1;
    }

    /// The cell that is copied under the word; `None` exactly where no copy is there.
    pub fn hit(&self, word: Word) -> Option<Cell>
        ensures { result ≡ hit self.now.state word }
    {
        let _inside: Option<Owned> = None;
        match copy_at(&self.slots, word) {
            Some(found) => Some(found.cell),
            None => None,
        }
    }

    /// Counts one user more of the copy, which is there with fewer than 2^64 - 1 users.
    pub fn pin(&mut self, word: Word)
        requires can_pin { can_pin self.old.state word ≡ true }
        ensures { self.new ≡ record self.old { state = pin self.old.state word } }
    {
        let _inside: Option<Owned> = None;
        let Some(copy) = copy_at(&self.slots, word) else {
            unreachable!();
        };
        self.slots[copy.at] = Slot::Held(copy.cell, copy.users + 1, copy.age);
        take_into_use(&mut self.unused, copy.age, copy.users);
    }

    /// Counts one user less of the copy, which has one.
    pub fn unpin(&mut self, word: Word)
        requires can_unpin { can_unpin self.old.state word ≡ true }
        ensures { self.new ≡ record self.old { state = unpin self.old.state word } }
    {
        let _inside: Option<Owned> = None;
        let Some(copy) = copy_at(&self.slots, word) else {
            unreachable!();
        };
        self.slots[copy.at] = Slot::Held(copy.cell, copy.users - 1, copy.age);
        give_up(&mut self.unused, word, copy.age, copy.users);
    }

    /// How many use the copy; 0 where none is there.
    pub fn users(&self, word: Word) -> u64
        ensures { result ≡ users self.now.state word }
    {
        match copy_at(&self.slots, word) {
            Some(found) => found.users,
            None => 0,
        }
    }

    /// Takes the copy out, and the others keep their order. `false` exactly where it isn't there or somebody uses it; nothing
    /// changes then.
    pub fn evict(&mut self, word: Word) -> bool
        ensures gone { result ≡ can_evict self.old.state word }
        ensures cache { self.new ≡ record self.old { state = evict self.old.state word } }
    {
        let _inside: Option<Owned> = None;
        let Some(Found { at, users, age, .. }) = copy_at(&self.slots, word) else {
            return false;
        };
        if users > 0 {
            return false;
        }
        self.slots.swap_remove_index(at);
        self.unused.remove(age);
        true
    }

    /// The word of the copy that was filled first of those that nobody uses, which `evict` takes out; `None` exactly where all are in use.
    pub fn oldest_unused(&self) -> Option<Word>
        ensures word { result ≡ oldest_unused self.now.state }
        ensures unused { IfSome result (λ word. can_evict self.now.state word ≡ true) }
    {
        // The length is what says that no two keys are equal.
        let _len = self.slots.len();
        let Some(age) = self.unused.nth(0) else {
            return None;
        };
        match self.unused.get(age) {
            Some(word) => Some(*word),
            None => None,
        }
    }

    /// How many copies there are.
    pub fn len(&self) -> usize
        ensures { result ≡ length self.now.state }
    {
        self.slots.len() - self.rooms as usize
    }
}
