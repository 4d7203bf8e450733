//! Laws of how long a driven run gets.

ghost use Rattle.law_length_runs.specs.asked.Asking.{RunsEnd, StepsAreFew};
ghost use Rattle.law_length_runs.specs.asked.Resting.{FewRest};
ghost use Rattle.law_length_runs.specs.asked.Starting.{PlainStepsStartTwo, RunsStartFew};
ghost use Rattle.law_length_runs.specs.asked.Code.{DrivenRunsOfCodeAreShort};
ghost use Rattle.law_length_runs.specs.asked.Short.{DrivenRunsOfProgramsAreShort};

use law_plain_table::typed_code_has_table;
use law_runs_coherent::starts_are_coherent;
use law_runs_whole::events_keep_coherence;

/// At the end of a driven journal no more threads rest than there are: those that its acts start, and main.
pub fn few_rest()
    ensures { FewRest }
{}

/// A plain step starts at most two threads, and no other event starts one, whatever the cluster. So a run has started at most twice as many threads as it has plain
/// steps.
pub fn few_start()
    ensures events { PlainStepsStartTwo }
    ensures runs { RunsStartFew }
{}

/// Where a number of asks is left to each thread that falls with each of its asks, that no event but a plain step of its own raises, and that is at most so many, a driven run of
/// coherent clusters has at most one step more than those for each plain step, and those for each thread. With twenty asks it has at most a hundred entries for each plain step
/// and each thread, main among them.
pub fn runs_end()
    ensures steps { StepsAreFew }
    ensures runs { RunsEnd }
{}

/// If each event keeps coherent clusters coherent, and a number of asks is left to each thread, at most twenty, that falls with each of its asks and that no event but a plain step of its own
/// raises, a driven journal that fewer than 2^31 events leave from the start of a code with a table has at most a hundred entries for each plain step and each thread, main among them.
pub fn driven_runs_of_code_are_short()
    ensures { DrivenRunsOfCodeAreShort }
{
    starts_are_coherent();
}

/// If a number of asks is left to each thread, at most twenty, that falls with each of its asks and that no event but a plain step of its own raises, a driven journal that fewer than 2^31
/// events leave from the start of whatever code of a typed program, on however many servers, has at most a hundred entries for each plain step and each thread, main among them.
pub fn driven_runs_of_programs_are_short()
    ensures { DrivenRunsOfProgramsAreShort }
{
    events_keep_coherence();
    typed_code_has_table();
    driven_runs_of_code_are_short();
}
