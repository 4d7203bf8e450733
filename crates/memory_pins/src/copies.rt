//! Cached copies.

ghost use Rattle.std.specs.Prelude.{◌≡◌, [], ◌∷◌, None, true, false, OnOk};
ghost use Rattle.read_cache.specs.View.{has_place};

use fr_base::NoMemory;
use global_addr::Word;
use heap_partition::Cell;
use read_cache::Cache;

/// Two uses of a copy count as two. It refuses a second pin that counts nothing.
pub fn each_use_of_a_copy_counts(cache: &mut Cache, word: Word, cell: Cell) -> u64
    requires none { cache.old.state ≡ [] }
    requires room { has_place cache.old word ≡ true }
    ensures { result ≡ 2 }
{
    cache.fill(word, cell);
    cache.pin(word);
    cache.pin(word);
    cache.users(word)
}

/// Where a copy in use is the only one, none is to be evicted next. It refuses a pin that leaves the copy among those that nobody uses.
pub fn a_copy_in_use_is_no_candidate(cache: &mut Cache, word: Word, cell: Cell) -> Option<Word>
    requires none { cache.old.state ≡ [] }
    requires room { has_place cache.old word ≡ true }
    ensures { result ≡ None }
{
    cache.fill(word, cell);
    cache.pin(word);
    cache.oldest_unused()
}

/// The copy that is evicted is the one whose word was named: of two, the later goes and the first stays. It refuses an eviction that takes
/// out another copy.
pub fn an_evicted_copy_is_the_named_one(cache: &mut Cache, one: Cell, other: Cell) -> (bool, bool)
    requires none { cache.old.state ≡ [] }
    requires room { cache.old.rooms ≡ 1099511627783 ∷ 1099511627784 ∷ [] }
    ensures { result ≡ (true, false) }
{
    let (first, second) = (Word::pack(0, 1, 7), Word::pack(0, 1, 8));
    cache.fill(first, one);
    cache.fill(second, other);
    cache.evict(second);
    (cache.hit(first).is_some(), cache.hit(second).is_some())
}

/// The words that have room stand in the order in which it was asked for. It refuses room that comes before older room.
pub fn room_stands_in_the_order_of_asking(cache: &mut Cache) -> Result<(), NoMemory>
    requires none { cache.old.state ≡ [] }
    requires no_room { cache.old.rooms ≡ [] }
    ensures { OnOk result (cache.new.rooms ≡ 1099511627783 ∷ 1099511627784 ∷ []) }
{
    cache.reserve(Word::pack(0, 1, 7))?;
    cache.reserve(Word::pack(0, 1, 8))
}
