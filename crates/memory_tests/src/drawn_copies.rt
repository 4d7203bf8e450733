//! Calls on cached copies in an order that is drawn, beside plain lists of the copies and of the words that have room.

ghost use Rattle.std.specs.Prelude.{◌<◌, vec_len, IfSome};

use fr_base::{NoMemory, ObjNo, ThreadNo};
use global_addr::Word;
use heap_partition::{Cell, Owned};
use rand_core::utils::NextWord;
use rand_pcg::Lcg64Xsh32;
use read_cache::Cache;
use std::alloc::Global;
use std::test::Fail;

// A copy as a plain list has it.
#[derive(Clone, Copy)]
struct Plain {
    word: Word,
    users: u64,
}

// A cache, what should be in it, the oldest first, and how often calls found what they are about.
#[derive(Drop)]
struct Trial {
    cache: Cache,
    copies: Vec<Plain>,
    rooms: Vec<Word>,
    evicted: Vec<Word>,
    again: u32,
    late: u32,
}

// The cell that stands under that word.
fn cell(word: Word) -> Cell {
    Cell {
        object: ObjNo {
            thread: ThreadNo::new(0, 0),
            count: word.address(),
        },
        value: Owned::Int(i64::from(word.colour())),
    }
}

// One of sixty-four words, of four colours and two servers.
fn word_of(drawn: u32) -> Word {
    Word::pack(
        (drawn / 16 % 4) as u16,
        (drawn / 8 % 2) as u8,
        u64::from(drawn % 8),
    )
}

// The cache counts one user more, where it can; whether it did.
fn pin(cache: &mut Cache, word: Word) -> bool {
    if cache.hit(word).is_some() && cache.users(word) < 4 {
        cache.pin(word);
        true
    } else {
        false
    }
}

fn unpin(cache: &mut Cache, word: Word) -> bool {
    if cache.users(word) > 0 {
        cache.unpin(word);
        true
    } else {
        false
    }
}

// The word's room is filled, where it has no copy.
fn fill(cache: &mut Cache, word: Word) -> Result<(), NoMemory> {
    cache.reserve(word)?;
    if cache.hit(word).is_none() {
        cache.fill(word, cell(word));
    }
    Ok(())
}

impl Trial {
    fn new(alloc: Global) -> Trial {
        Trial {
            cache: Cache::new(alloc),
            copies: Vec::new(alloc),
            rooms: Vec::new(alloc),
            evicted: Vec::new(alloc),
            again: 0,
            late: 0,
        }
    }

    // The place of the word's copy in the plain list.
    fn place(&self, word: Word) -> Option<usize>
        ensures { IfSome result (λ at. at < vec_len self.now.copies) }
    {
        self.copies.iter().position(|copy| copy.word == word)
    }

    fn reserve(&mut self, word: Word) -> Result<bool, NoMemory> {
        self.cache.reserve(word)?;
        if self.place(word).is_none() && !self.rooms.contains(&word) {
            if self.evicted.contains(&word) {
                self.again = self.again.saturating_add(1);
            }
            self.rooms.push(word)?;
        }
        Ok(true)
    }

    fn fill(&mut self, word: Word) -> Result<bool, NoMemory> {
        let Some(at) = self.rooms.iter().position(|room| *room == word) else {
            return Ok(true);
        };
        fill(&mut self.cache, word)?;
        if at + 1 < self.rooms.len() {
            self.late = self.late.saturating_add(1);
        }
        self.rooms.remove(at);
        self.copies.push(Plain { word, users: 0 })?;
        Ok(true)
    }

    fn pin(&mut self, word: Word) -> bool {
        let pinned = pin(&mut self.cache, word);
        match self.place(word) {
            Some(at) if self.copies[at].users < 4 => {
                self.copies[at].users += 1;
                pinned
            }
            _ => !pinned,
        }
    }

    fn unpin(&mut self, word: Word) -> bool {
        let unpinned = unpin(&mut self.cache, word);
        match self.place(word) {
            Some(at) if self.copies[at].users > 0 => {
                self.copies[at].users -= 1;
                unpinned
            }
            _ => !unpinned,
        }
    }

    fn evict(&mut self, word: Word) -> Result<bool, NoMemory> {
        let gone = self.cache.evict(word);
        match self.place(word) {
            Some(at) if self.copies[at].users == 0 => {
                self.copies.remove(at);
                self.evicted.push(word)?;
                Ok(gone)
            }
            _ => Ok(!gone),
        }
    }

    // Whether the cache tells of the word, and of the oldest copy that nobody uses, what the plain list does.
    fn agrees(&self, word: Word) -> bool {
        let plain = self.copies.iter().find(|copy| copy.word == word);
        let users = plain.map_or(0, |copy| copy.users);
        let oldest = self.copies.iter().find(|copy| copy.users == 0);
        self.cache.len() == self.copies.len()
            && self.cache.hit(word) == plain.map(|copy| cell(copy.word))
            && self.cache.users(word) == users
            && self.cache.oldest_unused() == oldest.map(|copy| copy.word)
    }

    // One call, by what is drawn; whether it did what it should.
    fn step(&mut self, kind: u32, word: Word) -> Result<bool, NoMemory> {
        let did = match kind {
            0 | 1 => self.reserve(word)?,
            2 | 3 => self.fill(word)?,
            4 => self.pin(word),
            5 => self.unpin(word),
            6 => self.evict(word)?,
            _ => match self.cache.oldest_unused() {
                Some(oldest) => self.evict(oldest)?,
                None => true,
            },
        };
        Ok(did && self.agrees(word))
    }
}

// How many of six thousand calls did what they shouldn't.
fn wrong(trial: &mut Trial) -> Result<u32, NoMemory> {
    let mut generator = Lcg64Xsh32::new(7, 54);
    let mut wrong = 0u32;
    for _ in 0..6_000 {
        let kind = generator.next_word() % 8;
        let word = word_of(generator.next_word());
        if !trial.step(kind, word)? {
            wrong = wrong.saturating_add(1);
        }
    }
    Ok(wrong)
}

#[test]
fn does_as_plain_lists(rt: HostRuntime) -> Result<(), Fail> {
    let mut trial = Trial::new(rt.alloc());
    let wrong = wrong(&mut trial)?;
    let many = trial.again > 500 && trial.late > 500;
    assert_eq!(rt; (wrong, many), (0, true));
    Ok(())
}
