//! Messages about objects: copies served and filled, objects that leave, blocks that are freed.

ghost use Rattle.std.specs.Prelude.{◌≡◌, ◌+◌, ◌<◌, ◌≤◌, true, Some, IsSome};
ghost use Rattle.server_model.specs.Objects.{deliver_fetch, filled, deliver_fetched, deliver_move, deliver_drop};
ghost use Rattle.server_parts.specs.Hands.{hand};
ghost use Rattle.server_parts.specs.Sites.{has_copy_room};

use fr_base::{ObjNo, ThreadNo};
use global_addr::Word;
use heap_partition::{Cell, Owned};
use journal::Act;
use server_msgs::Message;
use server_parts::{Work, use_word};
use thread_state::{Phase, Thread};

/// A copy of the cell goes to the server that asked.
#[tactic(auto, using(crate::proofs::DeliverLemmas::made_of, crate::proofs::DeliverLemmas::found_leads, crate::proofs::DeliverLemmas::found_cell))]
pub(crate) fn deliver_fetch(
    work: &mut Work,
    word: Word,
    object: ObjNo,
    server: u8,
    thread: ThreadNo,
)
    requires result { IsSome (deliver_fetch word object server thread work.old.state) }
    requires room { 2 ≤ work.old.room }
    ensures state { deliver_fetch word object server thread work.old.state ≡ Some work.new.state }
    ensures spare { work.old.room ≤ work.new.room + 2 }
    ensures copies { work.new.copies ≡ work.old.copies }
{
    let _inside: Option<Owned> = None;
    let cell = work.partition.look(word);
    work.note(Act::Serve(object, word, server));
    work.send(server, Message::Fetched(word, cell, thread));
}

/// The object leaves, and its address is freed.
#[tactic(auto, using(crate::proofs::DeliverLemmas::made_of, crate::proofs::DeliverLemmas::found_leads, crate::proofs::DeliverLemmas::found_cell))]
pub(crate) fn deliver_move(work: &mut Work, word: Word, object: ObjNo, server: u8, thread: ThreadNo)
    requires result { IsSome (deliver_move word object server thread work.old.state) }
    requires room { 2 ≤ work.old.room }
    ensures state { deliver_move word object server thread work.old.state ≡ Some work.new.state }
    ensures spare { work.old.room ≤ work.new.room + 2 }
    ensures copies { work.new.copies ≡ work.old.copies }
{
    let _inside: Option<Owned> = None;
    let cell = work.partition.give(word);
    work.note(Act::Give(object, word, server));
    work.send(server, Message::Moved(word, cell, thread));
}

/// The block is freed, and what it held is dropped in the same way.
#[tactic(auto, using(crate::proofs::DeliverLemmas::made_of, crate::proofs::DeliverLemmas::found_leads, crate::proofs::DeliverLemmas::found_cell))]
pub(crate) fn deliver_drop(work: &mut Work, word: Word, object: ObjNo)
    requires result { IsSome (deliver_drop word object work.old.state) }
    requires room { 3 ≤ work.old.room }
    ensures state { deliver_drop word object work.old.state ≡ Some work.new.state }
    ensures spare { work.old.room ≤ work.new.room + 3 }
    ensures copies { work.new.copies ≡ work.old.copies }
{
    let _inside: Option<Owned> = None;
    let cell = work.partition.free(word);
    work.note(Act::Free(object, word));
    work.give_up(cell.value);
}

// The copy is there, and the thread uses it.
fn filled(work: &mut Work, thread: &mut Thread, word: Word, cell: Cell)
    requires result { IsSome (filled word cell (hand work.old thread.old)) }
    requires place { has_copy_room work.old word ≡ true }
    requires thread_room { 0 < thread.old.room }
    ensures state { filled word cell (hand work.old thread.old) ≡ Some (hand work.new thread.new) }
    ensures number { thread.new.state.number ≡ thread.old.state.number }
    ensures room { work.new.room ≡ work.old.room }
{
    let _inside: Option<Owned> = None;
    work.cache.fill(word, cell);
    use_word(work, thread, word);
}

/// The copy comes to the cache, and the thread that waits for it uses it until its step is done.
#[tactic(auto, using(crate::proofs::DeliverLemmas::made_of))]
pub(crate) fn deliver_fetched(work: &mut Work, thread: &mut Thread, word: Word, cell: Cell)
    requires result { IsSome (deliver_fetched word cell (hand work.old thread.old)) }
    requires place { has_copy_room work.old word ≡ true }
    requires room { 1 ≤ work.old.room }
    requires thread_room { 0 < thread.old.room }
    ensures state { deliver_fetched word cell (hand work.old thread.old) ≡ Some (hand work.new thread.new) }
    ensures number { thread.new.state.number ≡ thread.old.state.number }
    ensures spare { work.old.room ≤ work.new.room + 1 }
{
    let _inside: Option<Owned> = None;
    let object = cell.object;
    filled(work, thread, word, cell);
    work.note(Act::Fill(object, word));
    thread.phase = Phase::Got;
}
