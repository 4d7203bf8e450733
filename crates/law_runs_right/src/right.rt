//! Laws of runs in rounds of typed programs.

ghost use Rattle.law_runs_right.specs.right.Right.{RunsInRoundsAreRight};

use crate::{left_in_any_order, right_in_any_order};
use drive_model::laws::journals_are_bounded;
use law_entries_events::{
    events_are_right, events_keep_coherence, programs_are_left_by_journals, programs_run_right,
};
use law_length_runs::{runs_in_rounds_are_driven, runs_in_rounds_end};
use law_plain_table::typed_code_has_table;
use law_runs_whole::programs_stand_there;

/// A run in rounds of the code of a typed program, under options in their ranges, is right: its cluster is coherent, in whatever order its messages wait, and the program's own
/// plain run is there under the journal's order, with the journal's labels and prints, and comes to that cluster's one heap. **The cluster is what the journal leaves**: the
/// journal is legal, each entry reaches what it loads and stores, and the coloured heap that it leaves is the cluster's; and it is driven. A run that would go on has as many
/// events as it may; where it has come to an end, so have the program's own terms, and what the threads of a deadlocked one wait for is what those of the terms wait for.
pub fn runs_in_rounds_are_right()
    ensures { RunsInRoundsAreRight }
{
    events_keep_coherence();
    journals_are_bounded();
    typed_code_has_table();
    runs_in_rounds_end();
    programs_run_right();
    events_are_right();
    programs_are_left_by_journals();
    right_in_any_order();
    left_in_any_order();
    runs_in_rounds_are_driven();
    programs_stand_there();
}
