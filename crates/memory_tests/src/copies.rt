//! Copies filled, used and evicted.

ghost use Rattle.std.specs.Prelude.{◌≡◌, []};

use crate::answers::first_wrong;
use fr_base::{NoMemory, ObjNo, ThreadNo};
use global_addr::Word;
use heap_partition::{Cell, Owned};
use read_cache::Cache;
use std::test::Fail;

fn cell(number: u64) -> Cell {
    Cell {
        object: ObjNo {
            thread: ThreadNo::new(0, 0),
            count: number,
        },
        value: Owned::Int(5),
    }
}

// The number of the first wrong answer, where two copies are filled, used and evicted.
fn wrong_answer(cache: &mut Cache) -> Result<Option<usize>, NoMemory>
    requires state { cache.old.state ≡ [] }
    requires rooms { cache.old.rooms ≡ [] }
{
    let first = Word::pack(0, 1, 7);
    let second = Word::pack(0, 1, 5);
    cache.reserve(second)?;
    cache.reserve(first)?;
    cache.fill(first, cell(1));
    cache.fill(second, cell(2));
    let filled = (cache.len(), cache.oldest_unused());
    cache.pin(first);
    let pinned = (cache.users(first), cache.oldest_unused());
    let gone_in_use = cache.evict(first);
    cache.unpin(first);
    let right = [
        filled == (2, Some(first)),
        pinned == (1, Some(second)),
        !gone_in_use,
        (cache.users(first), cache.oldest_unused()) == (0, Some(first)),
        cache.evict(first),
        !cache.evict(first),
        (cache.len(), cache.hit(first)) == (1, None),
        cache.hit(second) == Some(cell(2)),
    ];
    Ok(first_wrong(&right))
}

#[test]
fn keeps_copies_in_order(rt: HostRuntime) -> Result<(), Fail> {
    let mut cache = Cache::new(rt.alloc());
    assert_eq!(rt; wrong_answer(&mut cache)?, None);
    Ok(())
}
