//! The hops of reads and of writes.

ghost use Rattle.std.specs.Prelude.{◌≡◌, Some, IsSome};
ghost use Rattle.place_walk.specs.Hops.{clean_hop, dirty_hop, read_hop, write_hop};

use crate::hop::Hop;
use global_addr::Word;
use heap_partition::Owned;
use read_cache::Cache;
use thread_state::Value;

// A pointer whose object has no change that its word doesn't show.
fn clean_hop(word: Word, server: u8, cache: &Cache) -> Hop
    ensures { result ≡ clean_hop server cache.now.state word }
{
    if word.server() == server {
        Hop::Direct(word)
    } else if cache.hit(word).is_some() {
        Hop::Hit(word)
    } else {
        Hop::NeedCopy(word)
    }
}

// A reference through which its object was changed.
fn dirty_hop(word: Word, server: u8) -> Hop
    ensures { result ≡ dirty_hop server word }
{
    if word.server() == server {
        Hop::Direct(word)
    } else {
        Hop::NeedTint(word)
    }
}

/// How the value is followed by a read at that server, whose copies are in the cache. The value is a pointer: a box or a
/// reference. Constant time and no memory.
pub fn read_hop(value: &Value, server: u8, cache: &Cache) -> Hop
    requires pointer { IsSome (read_hop server cache.now.state value.now) }
    ensures { read_hop server cache.now.state value.now ≡ Some result }
{
    match *value {
        Value::SharedSlot(slot) | Value::MutSlot(slot) => Hop::Slot(slot),
        Value::Own(Owned::Box(pointer)) => clean_hop(pointer.word, server, cache),
        Value::Shared(reference) => clean_hop(reference.word, server, cache),
        Value::Mut(reference) if reference.dirty => dirty_hop(reference.word, server),
        Value::Mut(reference) => clean_hop(reference.word, server, cache),
        _ => unreachable!(),
    }
}

/// How the value is followed by a write at that server. The value is a box or a mutable reference. Constant time and no memory.
pub fn write_hop(value: &Value, server: u8) -> Hop
    requires pointer { IsSome (write_hop server value.now) }
    ensures { write_hop server value.now ≡ Some result }
{
    match *value {
        Value::MutSlot(slot) => Hop::Slot(slot),
        Value::Own(Owned::Box(pointer)) if pointer.word.server() == server => {
            Hop::NeedTint(pointer.word)
        }
        Value::Own(Owned::Box(pointer)) => Hop::NeedMove(pointer.word),
        Value::Mut(reference) if reference.word.server() == server => Hop::AtCell(reference.word),
        Value::Mut(reference) => Hop::NeedMove(reference.word),
        _ => unreachable!(),
    }
}
