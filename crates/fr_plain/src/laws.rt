//! Laws of the plain machine's definitions.

ghost use Rattle.fr_plain.specs.Examples.{RunsCompute};
ghost use Rattle.fr_plain.specs.LockRuns.{LocksRun};
ghost use Rattle.fr_plain.specs.PairRuns.{PairsRun};
ghost use Rattle.fr_plain.specs.Refusing.{RefusedIsNoStep};
ghost use Rattle.fr_plain.specs.Run.{terms};
ghost use Rattle.fr_plain.specs.SamePlain.{OnceStays, SamePlain};
ghost use Rattle.fr_plain.specs.SharedRuns.{SharedRuns};
ghost use Rattle.fr_plain.specs.ThreadRuns.{ThreadsRun};

/// Some whole runs, with their steps, prints and labels.
pub fn runs_compute()
    ensures { RunsCompute }
{}

/// Some whole runs with threads, and steps that are refused there.
pub fn threads_run()
    ensures { ThreadsRun }
{}

/// Some runs with mutexes and pairs of threads, with their steps, prints and labels: of programs, and of acts one by one.
pub fn shared_run()
    ensures locks { LocksRun }
    ensures pairs { PairsRun }
    ensures acts { SharedRuns }
{}

/// A step that is refused is no plain step.
pub fn refused_steps()
    ensures { RefusedIsNoStep terms }
{}

/// States of terms whose plain states are the same take the same steps and runs, which lead to the same again; their
/// threads wait for the same, and where no thread is listed twice, as in each run from such a state, they end alike.
pub fn same_plain()
    ensures agree { SamePlain terms }
    ensures once { OnceStays terms }
{}
