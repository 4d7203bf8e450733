//! Which message an act sends, and how many messages go between different servers.

ghost use Rattle.std.specs.Prelude.{◌≡◌, ◌+◌, ◌<◌, ◌^◌, ◌∷◌, [], ℕ, OnOk, OnErr, IfOk, map, option_map};
ghost use Rattle.fr_base.specs.Lists.{tot};
ghost use Rattle.fr_base.specs.declared.message.Kind.{Kind};
ghost use Rattle.fr_base.specs.Names.{released_home};
ghost use Rattle.coloured_heap.specs.Figures.{by_kind, kinds};
ghost use Rattle.coloured_heap.specs.Sends.{messages, sends};
ghost use Rattle.coloured_heap.specs.Messages.{as_sending, one_of, sent};

use fr_base::{Kind, NoMemory, Released};
use fr_tally::Tally;
use journal::{Act, Entry, Journal};

/// The most messages that are counted.
const MOST: u64 = 1 << 63;

// The server of what is let go: its home.
fn home(released: &Released) -> u8
    ensures { result ≡ released_home released.now }
{
    match released {
        Released::Mutex(mutex) => mutex.home,
        Released::Task(thread) => thread.server(),
    }
}

/// The message that an act sends, and the server that it goes to, be it the act's own. No memory.
pub fn sending(act: &Act) -> Option<(Kind, u8)>
    ensures { option_map as_sending result ≡ sends act.now }
{
    match act {
        Act::Ask(_, word) => Some((Kind::Fetch, word.server())),
        Act::Serve(_, _, there) => Some((Kind::Fetched, *there)),
        Act::Pull(_, word) => Some((Kind::Move, word.server())),
        Act::Give(_, _, there) => Some((Kind::Moved, *there)),
        Act::Condemn(_, word) => Some((Kind::Drop, word.server())),
        Act::AskLock(mutex) => Some((Kind::Lock, mutex.home)),
        Act::Grant(_, _, there) => Some((Kind::Granted, *there)),
        Act::GiveBack(mutex) => Some((Kind::Unlock, mutex.home)),
        Act::AskDup(mutex) => Some((Kind::Dup, mutex.home)),
        Act::Dupped(_, _, there) => Some((Kind::Dupped, *there)),
        Act::LetGo(released) => Some((Kind::Release, home(released))),
        Act::Start(_, there) => Some((Kind::Start, *there)),
        Act::AskJoin(thread) => Some((Kind::Join, thread.server())),
        Act::Answer(_, _, there) => Some((Kind::Joined, *there)),
        Act::Finish(thread) => Some((Kind::Finished, thread.server())),
        Act::Depart(_, there) => Some((Kind::Migrate, *there)),
        _ => None,
    }
}

// Counts a message of that kind once more.
fn count_kind(tally: &mut Tally<16>, kind: Kind) -> Result<(), NoMemory>
    ensures counted { OnOk result ((f : Kind → ℕ) → tally.old ≡ map f kinds → tally.new ≡ map (λ k. f k + one_of kind k) kinds) }
    ensures full { OnErr result ((f : Kind → ℕ) → tally.old ≡ map f kinds → 2 ^ 63 < tot (λ k. f k + one_of kind k) kinds) }
{
    if tally.total() == MOST {
        return Err(NoMemory);
    }
    tally.add(kind.number());
    Ok(())
}

// Counts the message that an act sends to another server than its own.
fn count_act(tally: &mut Tally<16>, here: u8, act: &Act) -> Result<(), NoMemory>
    ensures counted { OnOk result ((f : Kind → ℕ) → tally.old ≡ map f kinds → tally.new ≡ map (λ k. f k + sent here (act.now ∷ []) k) kinds) }
    ensures full { OnErr result ((f : Kind → ℕ) → tally.old ≡ map f kinds → 2 ^ 63 < tot (λ k. f k + sent here (act.now ∷ []) k) kinds) }
{
    match sending(act) {
        Some((kind, target)) => {
            if target == here {
                return Ok(());
            }
            count_kind(tally, kind)?;
            Ok(())
        }
        None => Ok(()),
    }
}

// Counts the messages of an entry.
fn count_entry(tally: &mut Tally<16>, entry: &Entry) -> Result<(), NoMemory>
    ensures counted { OnOk result ((f : Kind → ℕ) → tally.old ≡ map f kinds → tally.new ≡ map (λ k. f k + sent entry.now.server entry.now.acts k) kinds) }
    ensures full { OnErr result ((f : Kind → ℕ) → tally.old ≡ map f kinds → 2 ^ 63 < tot (λ k. f k + sent entry.now.server entry.now.acts k) kinds) }
{
    'acts: for act in entry.acts.as_slice() {
        count_act(tally, entry.server, act)?;
    }
    Ok(())
}

/// How many messages of each kind the acts of a journal send to other servers, by the kinds' numbers. It takes time in the number of
/// acts. `NoMemory` comes only where there are more than 2^63 messages, which no memory holds.
pub fn message_counts(journal: &Journal) -> Result<Tally<16>, NoMemory>
    ensures counts { IfOk result (λ tally. tally ≡ by_kind journal.now.items) }
    ensures refused { OnErr result (2 ^ 63 < messages journal.now.items) }
{
    let mut tally = Tally::new();
    'entries: for entry in journal.as_slice() {
        count_entry(&mut tally, entry)?;
    }
    Ok(tally)
}
