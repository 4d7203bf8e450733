//! Coherence depends on no order in which messages wait.

ghost use Rattle.law_runs_order.specs.messages.Laws.{CoherentInAnyOrder, ThingsInAnyOrder};

/// Clusters that are the same but for the order in which messages wait have the same things, and one is coherent where the other is.
pub fn coherent_in_any_order()
    ensures things { ThingsInAnyOrder }
    ensures coherent { CoherentInAnyOrder }
{}
