//! What is read and changed of one mutex in a store.

ghost use Rattle.std.specs.Prelude.{◌≡◌, ◌+◌, ◌-◌, ◌<◌, ◌≤◌, ◌++◌, [], ◌∷◌, length, Some, IsSome, IfNone, vec_len};
ghost use Rattle.std.specs.Vec.{vec_capacity};
ghost use Rattle.std.specs.List.{slice_get};
ghost use Rattle.slab.specs.Slab.{slab_len, HasRoomFor};
ghost use Rattle.mutex_home.specs.Mutexes.{mutex_in, with_mutex, without_mutex};
ghost use Rattle.mutex_home.specs.Stores.{mutex_of, mutexes_in, queued, first_out};

use crate::parts::{Entry, Store};
use fr_base::{MutexNo, ThreadNo};
use heap_partition::Owned;

// The place of a mutex that is there, by its count from 1 on.
fn place_of(store: &Store, number: MutexNo) -> usize
    requires there { IsSome (mutex_in (mutexes_in store.now) number) }
    ensures place { result ≡ number.count - 1 }
    ensures made { result < vec_len store.now.keys }
{
    number.count as usize - 1
}

// The key of a mutex that is there.
fn key_of(store: &Store, number: MutexNo) -> usize
    requires there { IsSome (mutex_in (mutexes_in store.now) number) }
    ensures { slice_get store.now.keys.items (number.count - 1) ≡ Some result }
{
    store.keys[place_of(store, number)]
}

// What is kept of a mutex that is there.
pub(crate) fn entry_of(store: &Store, number: MutexNo) -> Entry
    requires there { IsSome (mutex_in (mutexes_in store.now) number) }
    ensures { mutex_in (mutexes_in store.now) number ≡ Some (mutex_of number store.now.waits.lists result) }
{
    // The check asks that each type inside an entry is named where an entry is moved.
    let _inside: Option<Owned> = None;
    match store.entries.get(key_of(store, number)) {
        Some(entry) => *entry,
        None => unreachable!(),
    }
}

// Keeps another content and other shares of a mutex that is there.
pub(crate) fn set_entry(store: &mut Store, number: MutexNo, content: Option<Owned>, shares: u64)
    requires there { IsSome (mutex_in (mutexes_in store.old) number) }
    ensures mutexes { mutexes_in store.new ≡ with_mutex (mutexes_in store.old) (mutex_of number store.old.waits.lists (record { count = number.count; content = content; shares = shares })) }
    ensures home { store.new.home ≡ store.old.home }
    ensures keys { store.new.keys ≡ store.old.keys }
    ensures waits { store.new.waits ≡ store.old.waits }
    ensures len { slab_len store.new.entries ≡ slab_len store.old.entries }
    ensures capacity { store.new.entries.capacity ≡ store.old.entries.capacity }
{
    let _inside: Option<Owned> = None;
    let key = key_of(store, number);
    let entry = Entry {
        count: number.count,
        content,
        shares,
    };
    if let Some(old) = store.entries.get_mut(key) {
        *old = entry;
    }
}

// Takes out a mutex that is there.
pub(crate) fn remove_entry(store: &mut Store, number: MutexNo)
    requires there { IsSome (mutex_in (mutexes_in store.old) number) }
    ensures mutexes { mutexes_in store.new ≡ without_mutex (mutexes_in store.old) number }
    ensures home { store.new.home ≡ store.old.home }
    ensures keys { store.new.keys ≡ store.old.keys }
    ensures waits { store.new.waits ≡ store.old.waits }
    ensures len { slab_len store.new.entries ≤ slab_len store.old.entries }
    ensures capacity { store.new.entries.capacity ≡ store.old.entries.capacity }
{
    let _inside: Option<Owned> = None;
    let key = key_of(store, number);
    store.entries.remove(key);
}

// Adds the mutex of the next count. There is room.
pub(crate) fn add_entry(store: &mut Store, count: u32, content: Owned)
    requires keys { vec_len store.old.keys < vec_capacity store.old.keys }
    requires entries { HasRoomFor store.old.entries 1 }
    requires queues { length store.old.waits.lists < store.old.waits.mutexes }
    requires made { length store.old.waits.lists ≡ vec_len store.old.keys }
    requires next { count ≡ vec_len store.old.keys + 1 }
    ensures mutexes { mutexes_in store.new ≡ mutexes_in store.old ++ record { number = record { home = store.old.home; count = count }; content = Some content; shares = 1; queue = [] } ∷ [] }
    ensures made { length store.new.waits.lists ≡ count }
    ensures home { store.new.home ≡ store.old.home }
    ensures keys { vec_len store.new.keys ≡ count }
    ensures keys_capacity { vec_capacity store.new.keys ≡ vec_capacity store.old.keys }
    ensures waiting { store.new.waits.waiting ≡ store.old.waits.waiting }
    ensures queues { store.new.waits.mutexes ≡ store.old.waits.mutexes }
    ensures threads { store.new.waits.threads ≡ store.old.waits.threads }
    ensures len { slab_len store.new.entries ≡ slab_len store.old.entries + 1 }
    ensures capacity { store.new.entries.capacity ≡ store.old.entries.capacity }
{
    let _inside: Option<Owned> = None;
    let entry = Entry {
        count,
        content: Some(content),
        shares: 1,
    };
    let key = store.entries.insert_reserved(entry);
    store.keys.push_reserved(key);
    store.waits.add();
}

// One more waits for a mutex that is there. There is room.
pub(crate) fn queue_up(store: &mut Store, number: MutexNo, server: u8, thread: ThreadNo)
    requires there { IsSome (mutex_in (mutexes_in store.old) number) }
    requires room { store.old.waits.waiting < store.old.waits.threads }
    requires made { length store.old.waits.lists ≡ vec_len store.old.keys }
    ensures mutexes { mutexes_in store.new ≡ queued (mutexes_in store.old) number (server, thread) }
    ensures made { length store.new.waits.lists ≡ length store.old.waits.lists }
    ensures home { store.new.home ≡ store.old.home }
    ensures keys { store.new.keys ≡ store.old.keys }
    ensures entries { store.new.entries ≡ store.old.entries }
    ensures waiting { store.new.waits.waiting ≡ store.old.waits.waiting + 1 }
    ensures queues { store.new.waits.mutexes ≡ store.old.waits.mutexes }
    ensures threads { store.new.waits.threads ≡ store.old.waits.threads }
{
    let place = place_of(store, number);
    store.waits.push(place, server, thread);
}

// The first that waits for a mutex that is there, who waits no longer.
pub(crate) fn first_waiting(store: &mut Store, number: MutexNo) -> Option<(u8, ThreadNo)>
    requires there { IsSome (mutex_in (mutexes_in store.old) number) }
    requires made { length store.old.waits.lists ≡ vec_len store.old.keys }
    ensures first { first_out (mutexes_in store.old) number ≡ (mutexes_in store.new, result) }
    ensures none { IfNone result (store.new ≡ store.old) }
    ensures made { length store.new.waits.lists ≡ length store.old.waits.lists }
    ensures home { store.new.home ≡ store.old.home }
    ensures keys { store.new.keys ≡ store.old.keys }
    ensures entries { store.new.entries ≡ store.old.entries }
    ensures waiting { store.new.waits.waiting ≤ store.old.waits.waiting }
    ensures queues { store.new.waits.mutexes ≡ store.old.waits.mutexes }
    ensures threads { store.new.waits.threads ≡ store.old.waits.threads }
{
    let place = place_of(store, number);
    store.waits.take(place)
}
