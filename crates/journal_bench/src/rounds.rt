//! A legal journal of rounds: in each the main thread makes an object, a thread at server 1 reads a copy of it, and the main thread
//! writes it, prints and gives it up.

use crate::entries::{event, start, step, turn};
use fr_base::{Label, NoMemory, ObjNo, Plain, ThreadNo};
use global_addr::Word;
use journal::{Act, Journal};
use std::alloc::Global;

// One address more than there are.
const ADDRESSES: u64 = 1_099_511_627_776;

// The object that the main thread makes as that number.
fn object(count: u64) -> ObjNo {
    ObjNo {
        thread: ThreadNo::new(0, 0),
        count,
    }
}

// The object comes to be at server 0, and thread 0.1 at server 1 reads a copy.
fn read_far(alloc: Global, journal: &mut Journal, count: u64, word: Word) -> Result<(), NoMemory> {
    let (main, other) = (ThreadNo::new(0, 0), ThreadNo::new(0, 1));
    journal.push(step(
        alloc,
        0,
        main,
        Act::Make(object(count), word),
        Label::Make(object(count), Plain::Int(1)),
    )?)?;
    journal.push(turn(alloc, 1, other, Act::Ask(object(count), word))?)?;
    journal.push(event(alloc, 0, Act::Serve(object(count), word, 1))?)?;
    journal.push(event(alloc, 1, Act::Fill(object(count), word))?)?;
    journal.push(step(
        alloc,
        1,
        other,
        Act::Hit(object(count), word),
        Label::Load(object(count), Plain::Int(1)),
    )?)?;
    Ok(())
}

// It is written under the next colour, read, given up and freed, and the old copy is evicted.
fn write_here(
    alloc: Global,
    journal: &mut Journal,
    count: u64,
    old: Word,
    new: Word,
) -> Result<(), NoMemory> {
    let main = ThreadNo::new(0, 0);
    journal.push(step(
        alloc,
        0,
        main,
        Act::Tint(object(count), old, new),
        Label::Store(object(count), Plain::Int(2)),
    )?)?;
    journal.push(step(
        alloc,
        0,
        main,
        Act::Local(object(count), new),
        Label::Load(object(count), Plain::Int(2)),
    )?)?;
    journal.push(step(
        alloc,
        0,
        main,
        Act::Condemn(object(count), new),
        Label::Drop(object(count)),
    )?)?;
    journal.push(event(alloc, 0, Act::Free(object(count), new))?)?;
    journal.push(event(alloc, 1, Act::Evict(old))?)?;
    Ok(())
}

/// The journal: its first entry starts the thread at server 1, and ten entries more stand there for each round, until there are as
/// many entries as are asked for, or up to nine more.
pub fn journal_of(alloc: Global, entries: u64) -> Result<Journal, NoMemory> {
    let mut journal = Journal::new(alloc);
    journal.push(start(alloc, ThreadNo::new(0, 1))?)?;
    'rounds: for count in 0..entries / 10 {
        if count < ADDRESSES {
            let (old, new) = (Word::pack(0, 0, count), Word::pack(1, 0, count));
            read_far(alloc, &mut journal, count, old)?;
            write_here(alloc, &mut journal, count, old, new)?;
        }
    }
    Ok(journal)
}
