//! Hops by hand, at server 1.

ghost use Rattle.std.specs.Prelude.{◌≡◌, []};

use crate::answers::first_wrong;
use fr_base::{Lval, NoMemory, ObjNo, ThreadNo};
use global_addr::Word;
use heap_partition::{BoxPtr, Cell, Owned};
use mut_borrow::{MutRef, SharedRef};
use place_walk::{Hop, read_hop, write_hop};
use read_cache::Cache;
use std::test::Fail;
use thread_state::Value;

fn object() -> ObjNo {
    ObjNo {
        thread: ThreadNo::new(0, 0),
        count: 3,
    }
}

fn holder() -> Lval {
    Lval { slot: 0, depth: 1 }
}

// The hop of a read by an owner of the object under that word.
fn owner_read(word: Word, cache: &Cache) -> Hop {
    let owner = Value::Own(Owned::Box(BoxPtr {
        word,
        object: object(),
    }));
    read_hop(&owner, 1, cache)
}

// The same by a shared reference.
fn shared_read(word: Word, cache: &Cache) -> Hop {
    let shared = Value::Shared(SharedRef {
        word,
        object: object(),
        pinned: false,
    });
    read_hop(&shared, 1, cache)
}

// The same by a mutable reference that was written through.
fn mutable_read(word: Word, cache: &Cache) -> Hop {
    let reference = Value::Mut(MutRef {
        word,
        first: word,
        object: object(),
        dirty: true,
        holder: holder(),
    });
    read_hop(&reference, 1, cache)
}

// The number of the first wrong hop of reads: an object here, one elsewhere, and one elsewhere that is cached here.
fn wrong_read(cache: &mut Cache) -> Result<Option<usize>, NoMemory>
    requires state { cache.old.state ≡ [] }
    requires rooms { cache.old.rooms ≡ [] }
{
    let (here, there) = (Word::pack(0, 1, 7), Word::pack(0, 2, 7));
    let cached = Word::pack(3, 2, 8);
    cache.reserve(cached)?;
    cache.fill(
        cached,
        Cell {
            object: object(),
            value: Owned::Int(5),
        },
    );
    let right = [
        owner_read(here, cache) == Hop::Direct(here),
        shared_read(here, cache) == Hop::Direct(here),
        owner_read(there, cache) == Hop::NeedCopy(there),
        shared_read(there, cache) == Hop::NeedCopy(there),
        owner_read(cached, cache) == Hop::Hit(cached),
        shared_read(cached, cache) == Hop::Hit(cached),
        mutable_read(here, cache) == Hop::Direct(here),
        mutable_read(there, cache) == Hop::NeedTint(there),
        mutable_read(cached, cache) == Hop::NeedTint(cached),
        read_hop(&Value::SharedSlot(4), 1, cache) == Hop::Slot(4),
    ];
    Ok(first_wrong(&right))
}

#[test]
fn reads_lead_on(rt: HostRuntime) -> Result<(), Fail> {
    let mut cache = Cache::new(rt.alloc());
    assert_eq!(rt; wrong_read(&mut cache)?, None);
    Ok(())
}

// The hop of a write by an owner of the object under that word.
fn owner_write(word: Word) -> Hop {
    let owner = Value::Own(Owned::Box(BoxPtr {
        word,
        object: object(),
    }));
    write_hop(&owner, 1)
}

// The same by a mutable reference that wasn't written through.
fn mutable_write(word: Word) -> Hop {
    let reference = Value::Mut(MutRef {
        word,
        first: word,
        object: object(),
        dirty: false,
        holder: holder(),
    });
    write_hop(&reference, 1)
}

#[test]
fn writes_lead_on(rt: HostRuntime) {
    let (here, there) = (Word::pack(0, 1, 7), Word::pack(0, 2, 7));
    let right = [
        owner_write(here) == Hop::NeedTint(here),
        mutable_write(here) == Hop::AtCell(here),
        owner_write(there) == Hop::NeedMove(there),
        mutable_write(there) == Hop::NeedMove(there),
        write_hop(&Value::MutSlot(4), 1) == Hop::Slot(4),
    ];
    assert_eq!(rt; first_wrong(&right), None);
}
