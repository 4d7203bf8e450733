//! Uses of cached words by a thread's walk.

ghost use Rattle.std.specs.Prelude.{◌≡◌, ◌+◌, ◌<◌, ◌≤◌, Some, IsSome};
ghost use Rattle.fr_base.specs.Lists.{is_in};
ghost use Rattle.server_model.specs.Work.{use_word};
ghost use Rattle.server_parts.specs.Hands.{hand};

use crate::work::Work;
use global_addr::Word;
use thread_state::Thread;

// Whether the word is one of these.
fn is_in(word: Word, words: &[Word]) -> bool
    ensures { result ≡ is_in word words.now }
{
    'words: for used in words {
        if *used == word {
            return true;
        }
    }
    false
}

/// The thread uses the copy until its step is done; a word of its walk isn't used twice.
pub fn use_word(work: &mut Work, thread: &mut Thread, word: Word)
    requires result { IsSome (use_word word (hand work.old thread.old)) }
    requires room { 0 < thread.old.room }
    ensures state { use_word word (hand work.old thread.old) ≡ Some (hand work.new thread.new) }
    ensures number { thread.new.state.number ≡ thread.old.state.number }
    ensures room { work.new.room ≡ work.old.room }
    ensures copies { work.new.copies ≡ work.old.copies }
    ensures spare { thread.old.room ≤ thread.new.room + 1 }
{
    if is_in(word, &thread.walk) {
        return;
    }
    work.cache.pin(word);
    thread.walk.push_reserved(word);
}
