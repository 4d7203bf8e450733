//! A thread packed and unpacked, whose walk, slot and temporary value use copies.

ghost use Rattle.std.specs.Prelude.{◌≡◌, []};

use crate::answers::first_wrong;
use fr_base::{ObjNo, ThreadNo};
use global_addr::Word;
use heap_partition::{Cell, Owned};
use migration::{pack_thread, unpack};
use mut_borrow::SharedRef;
use read_cache::Cache;
use std::alloc::Global;
use std::test::Fail;
use thread_state::{BoxedThread, Thread, Value};

fn object() -> ObjNo {
    ObjNo {
        thread: ThreadNo::new(0, 0),
        count: 3,
    }
}

fn cell() -> Cell {
    Cell {
        object: object(),
        value: Owned::Int(5),
    }
}

fn reference(word: Word, pinned: bool) -> SharedRef
    ensures word { result.word ≡ word }
    ensures pinned { result.pinned ≡ pinned }
{
    SharedRef {
        word,
        object: object(),
        pinned,
    }
}

// The number of the first wrong answer, where a thread is packed and unpacked.
fn wrong_answer(alloc: Global, cache: &mut Cache) -> Result<Option<usize>, Fail>
    requires state { cache.old.state ≡ [] }
    requires rooms { cache.old.rooms ≡ [] }
{
    let (walked, held, passing) = (
        Word::pack(0, 1, 7),
        Word::pack(0, 1, 8),
        Word::pack(3, 1, 9),
    );
    cache.reserve(walked)?;
    cache.reserve(held)?;
    cache.reserve(passing)?;
    cache.fill(walked, cell());
    cache.fill(held, cell());
    cache.fill(passing, cell());
    cache.pin(walked);
    cache.pin(held);
    cache.pin(held);
    cache.pin(passing);
    let slots = vec![in alloc; Value::Shared(reference(held, true)), Value::MutSlot(0)]?;
    let mut thread = Thread::new(alloc, ThreadNo::new(2, 5), 9, slots);
    thread.temps = vec![in alloc; Value::Shared(reference(passing, true))]?;
    thread.walk = vec![in alloc; walked, held]?;
    let boxed = BoxedThread::new(alloc, thread)?;
    let unpacked = unpack(pack_thread(boxed, cache));
    let back = unpacked.get();
    let temporary = Value::Shared(reference(passing, false));
    let right = [
        (cache.users(walked), cache.hit(walked)) == (0, Some(cell())),
        (cache.users(held), cache.hit(held)) == (0, Some(cell())),
        (cache.users(passing), cache.hit(passing)) == (0, Some(cell())),
        (back.number, back.pc) == (ThreadNo::new(2, 5), 9),
        back.slots.as_slice()
            == [Value::Shared(reference(held, false)), Value::MutSlot(0)].as_slice(),
        back.temps.as_slice() == [temporary].as_slice(),
        back.walk.is_empty(),
    ];
    Ok(first_wrong(&right))
}

#[test]
fn leaves_no_user_behind(rt: HostRuntime) -> Result<(), Fail> {
    let mut cache = Cache::new(rt.alloc());
    assert_eq!(rt; wrong_answer(rt.alloc(), &mut cache)?, None);
    Ok(())
}
