//! Runs in rounds leave driven journals.

ghost use Rattle.law_length_runs.specs.driven.Driving.{ChosenRunsAreDriven, RunsInRoundsAreDriven};

use law_runs_coherent::starts_are_coherent;

/// If each event is right, so keeps coherent clusters coherent, with an entry that is legal from each coloured heap that the cluster before it stands for and leads to one that the cluster
/// afterwards stands for, then fewer than 2^31 events from the start of a code with a table leave a driven journal, where each is one that a driver chooses: a copy is evicted where the cache holds more
/// words than it is to keep, and a thread is moved that hasn't moved since its last plain step.
pub fn chosen_runs_are_driven()
    ensures { ChosenRunsAreDriven }
{
    starts_are_coherent();
}

/// If each event is right, then the journal of each run in rounds under way is driven: legal, with each eviction due, and no thread moves twice without a plain step.
pub fn runs_in_rounds_are_driven()
    ensures { RunsInRoundsAreDriven }
{
    chosen_runs_are_driven();
}
