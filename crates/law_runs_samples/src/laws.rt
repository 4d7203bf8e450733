//! What follows of each run of a program on servers from its plain runs.

ghost use Rattle.law_runs_samples.specs.Examples.{RowsAreTyped, RowsFollow};
ghost use Rattle.law_runs_samples.specs.Follow.{ExploredFollows};

use fr_code::same_plain;
use fr_typing::exactly_one;
use law_plain_names::all_runs_end_so;
use law_plain_table::programs_have_codes;
use law_runs_whole::{locks_wait, programs_run_right};

/// **What a computation finds of all plain runs of a program holds of each of its runs on servers**: where each order of plain steps of the program's code, its new names numbered as they
/// come, has so many steps and comes to that end, then whatever fewer than 2^31 - 1 events from the start of whatever code of whatever source of the program, on however many servers and under
/// whatever options in their ranges, lead to a cluster that isn't going: it has finished or is deadlocked as found, the journal prints these numbers and has so many plain steps, and where it
/// has finished nothing is left on the servers and the one heap is empty, and where it is deadlocked main waits at the lock of the mutex that was found.
pub fn explored_follows()
    ensures { ExploredFollows }
{
    all_runs_end_so();
    programs_have_codes();
    same_plain();
    locks_wait();
    programs_run_right();
}

/// The rows are typed programs with codes, under whatever options in their ranges.
pub fn rows_are_typed()
    ensures { RowsAreTyped }
{
    exactly_one();
    programs_have_codes();
}

/// **Each row follows**: of the programs with one thread, with several and of the one that waits for itself, all plain runs were explored, and each run on servers ends as they do.
pub fn rows_follow()
    ensures { RowsFollow }
{
    explored_follows();
}
