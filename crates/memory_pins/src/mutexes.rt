//! Threads that wait for a mutex.

ghost use Rattle.std.specs.Prelude.{◌≡◌, ◌<◌, pos, []};
ghost use Rattle.mutex_home.specs.declared.answers.Back.TheVariants.{Next};
ghost use Rattle.heap_partition.specs.declared.value.Owned.TheVariants.{Int};

use fr_base::ThreadNo;
use heap_partition::Owned;
use mutex_home::{Back, Mutexes};

/// Of two threads that wait for a mutex, the one that asked first gets the content. It refuses a queue that is served last first.
pub fn the_first_to_ask_is_first(mutexes: &mut Mutexes) -> Back
    requires none { mutexes.old.state.there ≡ [] }
    requires made { mutexes.old.state.made ≡ 0 }
    requires mutexes { 0 < mutexes.old.room.mutexes }
    requires threads { 2 < mutexes.old.room.threads }
    ensures { result ≡ Next 3 5 (Int (pos 8)) }
{
    let mutex = mutexes.make(Owned::Unit);
    mutexes.ask(mutex, 0, ThreadNo::from_number(4));
    mutexes.ask(mutex, 3, ThreadNo::from_number(5));
    mutexes.ask(mutex, 1, ThreadNo::from_number(6));
    mutexes.give_back(mutex, Owned::Int(8))
}
