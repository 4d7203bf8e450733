//! Packing a thread, and unpacking it.

ghost use Rattle.std.specs.Prelude.{◌≡◌, [], ◌∷◌, Some, IsSome, map};
ghost use Rattle.migration.specs.Packing.{unpin_all, unpinned, pack_thread, pinned_words};
ghost use Rattle.thread_state.specs.View.{IsPacked};

use global_addr::Word;
use mut_borrow::SharedRef;
use read_cache::Cache;
use thread_state::{BoxedThread, Parcel, Thread, Value};

// Ends one use of each of the words, which have that many users.
fn unpin_words(words: &[Word], cache: &mut Cache)
    requires users { IsSome (unpin_all words.now cache.old.state) }
    ensures state { unpin_all words.now cache.old.state ≡ Some cache.new.state }
    ensures rooms { cache.new.rooms ≡ cache.old.rooms }
{
    'words: for word in words {
        cache.unpin(*word);
    }
}

// Ends the use of the copy that a value keeps in use, and answers the value without it.
fn unpin_value(value: Value, cache: &mut Cache) -> Value
    requires users { IsSome (unpin_all (pinned_words (value ∷ [])) cache.old.state) }
    ensures value { result ≡ unpinned value }
    ensures state { unpin_all (pinned_words (value ∷ [])) cache.old.state ≡ Some cache.new.state }
    ensures rooms { cache.new.rooms ≡ cache.old.rooms }
{
    let Value::Shared(reference) = value else {
        return value;
    };
    if reference.pinned {
        cache.unpin(reference.word);
    }
    Value::Shared(SharedRef {
        pinned: false,
        ..reference
    })
}

// Ends the uses of the copies that the values keep in use.
fn unpin_values(values: &mut Vec<Value>, cache: &mut Cache)
    requires users { IsSome (unpin_all (pinned_words values.old.items) cache.old.state) }
    ensures values { values.new.items ≡ map unpinned values.old.items }
    ensures state { unpin_all (pinned_words values.old.items) cache.old.state ≡ Some cache.new.state }
    ensures rooms { cache.new.rooms ≡ cache.old.rooms }
{
    'values: for at in 0..values.len() {
        values[at] = unpin_value(values[at], cache);
    }
}

// The uses of copies by a thread's walk and by its pinned references end.
fn unpin_thread(thread: &mut Thread, cache: &mut Cache)
    requires users { IsSome (pack_thread thread.old.state cache.old.state) }
    ensures packed { pack_thread thread.old.state cache.old.state ≡ Some (thread.new.state, cache.new.state) }
    ensures free { IsPacked thread.new.state }
    ensures rooms { cache.new.rooms ≡ cache.old.rooms }
{
    unpin_words(&thread.walk, cache);
    unpin_values(&mut thread.slots, cache);
    unpin_values(&mut thread.temps, cache);
    thread.walk.clear();
}

/// Packs a thread to go to another server: the uses of copies by its walk and by its pinned references end, and no such use
/// goes along. Each word has at least as many users in the cache as the thread uses it. It takes time in the number of the
/// thread's values and words, and no memory.
pub fn pack_thread(thread: BoxedThread, cache: &mut Cache) -> Parcel
    requires users { IsSome (pack_thread thread.state cache.old.state) }
    ensures packed { pack_thread thread.state cache.old.state ≡ Some (result, cache.new.state) }
    ensures rooms { cache.new.rooms ≡ cache.old.rooms }
{
    let mut packed = thread;
    unpin_thread(&mut packed.thread, cache);
    Parcel::new(packed)
}

/// The thread of a parcel, as it was packed: it uses no copy. Constant time and no memory.
pub fn unpack(parcel: Parcel) -> BoxedThread
    ensures thread { result.state ≡ parcel }
    ensures packed { IsPacked result.state }
{
    parcel.into_thread()
}
