//! Whole runs of programs on servers.

ghost use Rattle.law_runs_whole.specs.programs.Programs.{ProgramsAreLeft, ProgramsRunRight};

use law_plain_table::typed_code_has_table;
use law_runs_coherent::{events_keep_coherence, starts_are_coherent};

/// **A run on servers is a run on one heap**: from the start of whatever code of a typed program, laid out thread by thread, under options in their ranges and on however many servers,
/// each list of fewer than 2^31 - 1 events that has a result leads to a coherent cluster, whatever the order of steps, deliveries, evictions and migrations. The
/// program's own plain run, of its terms, is there under the journal's order, with the journal's labels and prints, and so under each beginning of the journal; it leads to the cluster's one
/// heap. As many events were done as the journal has entries, and the messages that wait and the deliveries are as many as the journal's acts send. Where the cluster is going, a step or a
/// delivery has a result, and where it is finished nothing is left.
pub fn programs_run_right()
    ensures { ProgramsRunRight }
{
    events_keep_coherence();
    starts_are_coherent();
    typed_code_has_table();
}

/// If moreover each event's entry is legal from each coloured heap that the cluster before it stands for, reaches what it loads and stores, and leads to one that the cluster afterwards
/// stands for, then each such cluster is left by its journal under the plain run of its own code, in all that this says.
pub fn programs_are_left()
    ensures { ProgramsAreLeft }
{
    events_keep_coherence();
    starts_are_coherent();
    typed_code_has_table();
}
