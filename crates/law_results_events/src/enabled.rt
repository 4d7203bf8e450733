//! That each enabled event of a coherent cluster has a result.

ghost use Rattle.law_results_events.specs.enabled.Events.{EventsHaveResults};
ghost use Rattle.law_results_events.specs.Below.law_counts_sums.Kinds.{step_par, step_spawn};
ghost use Rattle.law_results_events.specs.Below.law_results_reads.Results.{Anyhow, StepsHaveResults};

/// In a coherent cluster, where fewer than 2^31 - 1 events were done, each enabled spawn has a result: each variable that it captures has an owned value, moved
/// or copied, also behind those that were moved before it, and its home has noted no thread of the new name.
pub fn spawns_have_results()
    ensures { StepsHaveResults step_spawn Anyhow }
{}

/// So has each enabled par. A reference that it captures as a view leads to an object: by its type its places are in the heap, also behind what was moved before
/// it, as nothing names what moves. Both new names are new at the home, and it notes no pair of a thread that steps.
pub fn pars_have_results()
    ensures { StepsHaveResults step_par Anyhow }
{}

/// In a coherent cluster, where fewer than 2^31 - 1 events were done, each enabled event has a result: each step of a thread, each delivery, each eviction and each
/// migration. Nothing that a server needs on its way is missing, and no count or address is at its end.
pub fn enabled_events_have_results()
    ensures { EventsHaveResults }
{}
