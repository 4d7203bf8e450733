//! Events that are no steps, from their beginning at a server that has noted nothing yet.

ghost use Rattle.std.specs.Prelude.{◌≡◌, ◌+◌, ◌<◌, ◌≤◌, [], length, slice_get, Some, IsSome, IfSome};
ghost use Rattle.server_model.specs.Events.{begin_at, deliver, evict_copy};
ghost use Rattle.server_model.specs.Moving.{migrate};
ghost use Rattle.server_model.specs.Work.{beside_threads};
ghost use Rattle.server_parts.specs.Sites.{site};
ghost use Rattle.server_deliveries.specs.Taking.{CanTake};
ghost use Rattle.server_deliveries.specs.Standing.{standing};

use crate::delivering::deliver_message;
use crate::moving::{evict_copy, migrate};
use fr_base::{Code, ThreadNo};
use global_addr::Word;
use server_parts::{Threads, Work};

/// A message is taken out, and does what it says.
#[tactic(auto, using(crate::proofs::EventLemmas::begins_delivery, crate::proofs::EventLemmas::ready_delivery))]
pub fn deliver(work: &mut Work, threads: &mut Threads, code: &Code, at: usize, events: u64)
    requires nothing { (work.old.state.acts ≡ []) × (work.old.state.labels ≡ []) }
    requires within { at < length work.old.state.rest.inbox }
    requires result { IsSome (deliver code.now.items at (standing work.old threads.old events)) }
    requires ready { IfSome (slice_get work.old.state.rest.inbox at) (λ m. CanTake m work.old threads.old) }
    requires room { 3 ≤ work.old.room }
    ensures state { deliver code.now.items at (standing work.old threads.old events) ≡ Some (site work.new threads.new) }
{
    let message = work.receive(at);
    deliver_message(work, threads, code, message);
}

/// A copy that nobody uses goes.
#[tactic(auto, using(crate::proofs::EventLemmas::begins_eviction, crate::proofs::DeliverLemmas::made_of))]
pub fn evict_at(work: &mut Work, threads: &Threads, word: Word, events: u64)
    requires nothing { (work.old.state.acts ≡ []) × (work.old.state.labels ≡ []) }
    requires result { IsSome (beside_threads (evict_copy word) (begin_at (standing work.old threads.now events))) }
    requires room { 1 ≤ work.old.room }
    ensures state { beside_threads (evict_copy word) (begin_at (standing work.old threads.now events)) ≡ Some (site work.new threads.now) }
{
    let _threads = threads; // named in the contract alone
    evict_copy(work, word);
}

/// A thread leaves for that server.
#[tactic(auto, using(crate::proofs::EventLemmas::begins_at))]
pub fn migrate_at(work: &mut Work, threads: &mut Threads, thread: ThreadNo, target: u8, events: u64)
    requires nothing { (work.old.state.acts ≡ []) × (work.old.state.labels ≡ []) }
    requires result { IsSome (migrate thread target (begin_at (standing work.old threads.old events))) }
    requires room { 2 ≤ work.old.room }
    ensures state { migrate thread target (begin_at (standing work.old threads.old events)) ≡ Some (site work.new threads.new) }
{
    migrate(work, threads, thread, target);
}
