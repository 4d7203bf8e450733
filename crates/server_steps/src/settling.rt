//! The end of a plain step.

ghost use Rattle.std.specs.Prelude.{◌≡◌, ◌==◌, ◌+◌, ◌-◌, ◌^◌, ◌<◌, ◌≤◌, Some, IsSome};
ghost use Rattle.server_model.specs.Commit.{end_with, go_on, settle};
ghost use Rattle.migration.specs.Packing.{unpin_all};
ghost use Rattle.server_parts.specs.Hands.{hand};

use crate::dropping::{drop_value, label_dropped};
use fr_base::Label;
use global_addr::Word;
use heap_partition::Owned;
use journal::Act;
use read_cache::Cache;
use server_msgs::Message;
use server_parts::{Spot, Work};
use thread_state::{Phase, Thread, Value};

/// The thread is at its next instruction.
pub(crate) fn go_on(work: &Work, thread: &mut Thread)
    requires few { thread.old.state.pc < 2 ^ 32 - 1 }
    ensures state { go_on (hand work.now thread.old) ≡ hand work.now thread.new }
    ensures room { thread.new.room ≡ thread.old.room }
{
    let _work = work; // named in the contract alone
    thread.pc += 1;
    thread.phase = Phase::Ready;
}

// One use less of each of the words.
fn unpin_all(words: &[Word], cache: &mut Cache)
    requires users { IsSome (unpin_all words.now cache.old.state) }
    ensures state { unpin_all words.now cache.old.state ≡ Some cache.new.state }
    ensures rooms { cache.new.rooms ≡ cache.old.rooms }
{
    'words: for word in words {
        cache.unpin(*word);
    }
}

/// The plain step is done: nothing of its walk is kept, and it has moved no more.
pub fn settle(work: &mut Work, thread: &mut Thread)
    requires result { IsSome (settle (hand work.old thread.old)) }
    ensures state { settle (hand work.old thread.old) ≡ Some (hand work.new thread.new) }
    ensures room { work.new.room ≡ work.old.room }
    ensures copies { work.new.copies ≡ work.old.copies }
    ensures thread_room { thread.old.room ≤ thread.new.room }
{
    unpin_all(&thread.walk, &mut work.cache);
    thread.passed = 0;
    thread.walk.clear();
    thread.moved_since_step = false;
}

/// The result of main is dropped; another thread's goes to its home.
pub(crate) fn end_with(work: &mut Work, thread: &mut Thread, value: Owned)
    requires room { 3 < work.old.room }
    ensures state { end_with (thread.old.state.number == 0) value (hand work.old thread.old) ≡ Some (hand work.new thread.new) }
    ensures spare { work.old.room ≤ work.new.room + 4 }
    ensures copies { work.new.copies ≡ work.old.copies }
    ensures thread_room { thread.new.room ≡ thread.old.room }
{
    if thread.number.number() == 0 {
        let dropped = Value::Own(value);
        label_dropped(work, thread, &dropped);
        drop_value(work, thread, &Spot::Nowhere, &dropped);
        work.label(Label::End(thread.number));
    } else {
        work.note(Act::Finish(thread.number));
        work.label(Label::End(thread.number));
        work.send(thread.home, Message::Finished(thread.number, value));
    }
}
