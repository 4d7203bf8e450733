//! Laws of driven runs.

ghost use Rattle.drive_model.specs.Laws.{BalanceMoves, JournalsBounded};
ghost use Rattle.drive_model.specs.Rows.{BalanceComputes, LongRunComputes, RoundsCompute};

/// Whole runs in rounds, each under two choices, with what a report shows of it; a run of a thousand steps among them.
pub fn rounds_compute()
    ensures short { RoundsCompute }
    ensures long { LongRunComputes }
{}

/// Which thread goes where, for some loads.
pub fn balance_computes()
    ensures { BalanceComputes }
{}

/// The journal of a run in rounds has no more entries than the run has turns.
pub fn journals_are_bounded()
    ensures { JournalsBounded }
{}

/// A balance moves the candidate of one server to another one.
pub fn balances_move()
    ensures { BalanceMoves }
{}
