//! What follows from the causes of the answers.

ghost use Rattle.drust_top.specs.OneAnswer.{LoadsRun, OneAnswer, TypedFollows, TypedRuns};

use law_plain_generated::programs_are_sources;

/// Words and an input have one answer at most: its status and its text are determined, but for a run on servers, of which each answer is one. Where the words ask for
/// a run and the input is the source of a typed program, or where they ask for that of a generated program, it is a run: status 0, 1 or 2. Where they ask for a
/// replay and an order stands behind the source whose steps are plain steps, it is the run under that order.
pub fn one_answer()
    ensures once { OneAnswer }
    ensures typed { TypedRuns }
    ensures followed { TypedFollows }
    ensures loaded { LoadsRun }
{
    programs_are_sources();
}
