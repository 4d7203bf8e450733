//! Runs in rounds come to an end.

ghost use Rattle.law_length_programs.specs.turns.Turns.{JournalsAreShort, RunsInRoundsComeToAnEnd, StepsAndThreadsAreFew};

use crate::orders_are_short;
use drive_model::laws::journals_are_bounded;
use law_plain_table::typed_code_has_table;
use law_runs_coherent::starts_are_coherent;
use law_runs_right::{
    events_are_right, events_keep_coherence, programs_run_right, runs_in_rounds_are_driven,
    runs_in_rounds_end, runs_of_programs_are_short,
};

/// A driven journal that fewer than 2^31 - 1 events leave from the start of whatever code of a typed program, whose threads do blocks, has at most so many plain steps and threads, main among
/// them, as twice the nodes of the program's tree.
pub fn steps_and_threads_are_few()
    ensures { StepsAndThreadsAreFew }
{
    events_keep_coherence();
    starts_are_coherent();
    typed_code_has_table();
    programs_run_right();
    orders_are_short();
}

/// So such a journal has at most a hundred entries for each of twice the nodes of the program's tree.
pub fn journals_are_short()
    ensures { JournalsAreShort }
{
    steps_and_threads_are_few();
    runs_of_programs_are_short();
}

/// **A run in rounds comes to an end**: of whatever code of a typed program of n nodes, with at least 100 * (2 * n + 1) turns, doesn't end by want of turns: it has finished, or is deadlocked.
pub fn runs_in_rounds_come_to_an_end()
    ensures { RunsInRoundsComeToAnEnd }
{
    events_keep_coherence();
    journals_are_bounded();
    typed_code_has_table();
    runs_in_rounds_end();
    runs_in_rounds_are_driven();
    journals_are_short();
    events_are_right();
}
