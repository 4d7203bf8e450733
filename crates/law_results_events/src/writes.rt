//! That an enabled step has a result that writes through a place or ends a mutable reference.

ghost use Rattle.law_results_reads.specs.Below.law_counts_sums.Kinds.{step_assign, step_discard, step_drop_slot, step_read};
ghost use Rattle.law_results_reads.specs.Results.{Anyhow, StepsHaveResults};
ghost use Rattle.law_results_events.specs.writes.Deliveries.{MovedHaveResults};

/// In a coherent cluster, where fewer than 2^31 - 1 events were done, each enabled read of a place has a result, copied or moved out, and so has each enabled
/// assignment, with however many stars. What lies ahead on a place that is written is as it was, whatever words the pointers get that are passed: no two counts of
/// stars lead to one location, other objects have other addresses, and a new address was vacant.
pub fn steps_that_write()
    ensures reads { StepsHaveResults step_read Anyhow }
    ensures assignments { StepsHaveResults step_assign Anyhow }
{}

/// So has each discard and each drop of a slot. A mutable reference that ends is cleaned where it is dirty; then its holder's place is followed, on which neither the
/// reference stands nor its object lies, and the pointer at the end takes its word.
pub fn steps_that_end()
    ensures discards { StepsHaveResults step_discard Anyhow }
    ensures drops { StepsHaveResults step_drop_slot Anyhow }
{}

/// So has each delivery of an object that comes, whatever hops of a write its thread has passed: each of these leads to its object here, as its word does, so the
/// pointer that the thread waits at is found behind them.
pub fn moved_arrive()
    ensures { MovedHaveResults }
{}
