//! Laws of compiled code over one heap.

ghost use Rattle.code_meaning.specs.Laws.{PrintsAlike, PrintsAreLabelled, RunsAsProgram, StartsLeft};
ghost use Rattle.code_meaning.specs.Refusals.{LastShares, StepsRefused};
ghost use Rattle.code_meaning.specs.Rows.{RowsAgree, RunsAgree};

/// Steps that aren't enabled.
pub fn steps_refused()
    ensures { StepsRefused }
{}

/// What is left where the last share of a mutex goes.
pub fn last_shares_go()
    ensures { LastShares }
{}

/// After each event of the rows the one heap of the cluster is the plain state that its code comes to under the order of the journal, with the
/// labels and prints of the journal; and so it ends.
pub fn rows_agree()
    ensures { RowsAgree }
{}

/// So it is at the end of more runs, and after many events that were chosen among all enabled ones.
pub fn runs_agree()
    ensures { RunsAgree }
{}

/// The start of any code on at least one server is left by the empty journal, under the plain run of that code.
pub fn starts_left()
    ensures { StartsLeft }
{}

/// A run of code printed the prints in its labels; so the plain run that a cluster is left by printed what the journal prints.
pub fn prints_alike()
    ensures labelled { PrintsAreLabelled }
    ensures alike { PrintsAlike }
{}

/// A cluster that is left by the code of a program ran that program: its journal's order is one of the plain run of
/// the program's term, with the labels and the prints of the journal, entry by entry.
pub fn runs_as_program()
    ensures { RunsAsProgram }
{}
