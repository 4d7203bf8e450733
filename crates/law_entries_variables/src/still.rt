//! Entries of steps in the coloured heap: of those that note no act, and of joins that ask.

ghost use Rattle.law_entries_variables.specs.Below.law_counts_sums.Kinds.{step_arith, step_join, step_par_end, step_print};
ghost use Rattle.law_entries_variables.specs.deliveries.Entries.{EntriesLegal};
ghost use Rattle.law_entries_variables.specs.still.Borrows.{VariableBorrowsLegal};
ghost use Rattle.law_entries_variables.specs.still.Undone.{UndoneLegal};

/// From a sound cluster with few events the entry of a step of these kinds is legal in each coloured heap that the cluster stands for, and leads to one that it stands for
/// afterwards, the messages handed over: a number is printed, two are computed with, or both threads of a pair have ended. It notes no act, and its state stays.
pub fn plain_steps_are_legal()
    ensures prints { EntriesLegal step_print }
    ensures computations { EntriesLegal step_arith }
    ensures pair_ends { EntriesLegal step_par_end }
{}

/// So is the entry of a join that asks for a result: the task that it names was started, a wish comes, and all else stays.
pub fn joins_that_ask_are_legal()
    ensures { UndoneLegal step_join }
{}

/// So is the entry of a borrow of a variable, by a thread that hasn't taken an object.
pub fn variable_borrows_are_legal()
    ensures { VariableBorrowsLegal }
{}
