//! How long a driven run of a program gets.

ghost use Rattle.law_length_runs.specs.asked.Asking.{AsksLeft};
ghost use Rattle.law_length_runs.specs.short.Short.{RunsOfCodeAreShort, RunsOfProgramsAreShort};

use crate::{
    driven_runs_of_code_are_short, driven_runs_of_programs_are_short, events_keep_coherence,
};
use law_length_asks::{asks_are_few, asks_take_one, events_leave_asks};

/// Each thread asks at most twenty times before a step of it is done: a number of asks is left to it, twenty at most, that falls with each of its asks and that no event but a plain step of its
/// own raises, from coherent clusters to coherent ones.
pub fn asks_left()
    ensures { AsksLeft 20 }
{
    asks_are_few();
    asks_take_one();
    events_leave_asks();
}

/// A driven journal that fewer than 2^31 events leave from the start of a code with a table, on however many servers, has at most a hundred entries for each plain step and each thread, main
/// among them.
pub fn runs_of_code_are_short()
    ensures { RunsOfCodeAreShort }
{
    asks_left();
    events_keep_coherence();
    driven_runs_of_code_are_short();
}

/// So has one that they leave from the start of whatever code of a typed program.
pub fn runs_of_programs_are_short()
    ensures { RunsOfProgramsAreShort }
{
    asks_left();
    driven_runs_of_programs_are_short();
}
