//! Runs go on until they have ended: a step or a delivery has a result wherever a run comes to a cluster that is going.

ghost use Rattle.law_runs_whole.specs.going.Going.{GoingHasResult, OutboxesStayEmpty, RunsGoOn};

use law_runs_coherent::starts_are_coherent;

/// In a coherent cluster in which few events were done, without a message in an outbox, that is going, a step of a thread or the delivery of a message has a result; and an
/// event leaves outboxes empty, since its messages are handed over.
pub fn going_clusters_go_on()
    ensures results { GoingHasResult }
    ensures emptied { OutboxesStayEmpty }
{}

/// If each event keeps coherent clusters coherent, then from a cluster to which few events lead from the start of a code with a table a step or a delivery has a result, unless
/// it is finished or deadlocked; and where it is finished nothing is left of it.
pub fn runs_go_on()
    ensures { RunsGoOn }
{
    starts_are_coherent();
}
