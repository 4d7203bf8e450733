//! Runs of events: where each event keeps a cluster coherent, so does each run from a start, and its plain steps are those of the code over one heap.

ghost use Rattle.law_runs_whole.specs.runs.Runs.{RunsAreLeft, RunsLead, UndoneUnlabelled};

use law_runs_coherent::starts_are_coherent;

/// An event that does no plain step has no labels in its entry. And if each event keeps coherent clusters coherent, then each cluster to which fewer than 2^31 events lead
/// from the start of a code with a table is coherent, and it is left by its journal as far as plain steps go: the order of the journal is one of plain steps of the code over
/// one heap, entry by entry with the journal's labels and prints, and they lead to the cluster's one heap; and as many events were done as the journal has entries.
pub fn runs_from_starts()
    ensures undone { UndoneUnlabelled }
    ensures runs { RunsLead }
{
    starts_are_coherent();
}

/// If moreover each event's entry is legal from each coloured heap that the cluster before it stands for, reaches what it loads and stores and leads to one that the cluster
/// afterwards stands for, and counts its messages, then each such cluster is left by its journal under the plain run of its own code, in all that this says.
pub fn runs_are_left()
    ensures { RunsAreLeft }
{
    starts_are_coherent();
}
