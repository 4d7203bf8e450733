//! What threads wait for.

ghost use Rattle.law_runs_whole.specs.waits.Waits.{JoinsWait, PairsWait, RestingWaitNot};
ghost use Rattle.law_runs_whole.specs.waits.Locks.{DeadlocksAgree, LocksWait};
ghost use Rattle.law_runs_whole.specs.waits.Stands.{DeadlocksWaitThere, ProgramsEndThere, ProgramsStandThere};

/// In a coherent cluster in which no message waits, a thread that waits at a join or at the end of a pair waits there on the plain machine too, in each state that the
/// cluster stands for: the thread that it joins goes on, and so does one of the pair. One that is over, or stands nowhere, waits for nothing there.
pub fn waits_agree()
    ensures joins { JoinsWait }
    ensures pairs { PairsWait }
    ensures resting { RestingWaitNot }
{}

/// In a coherent cluster in which no message waits and each thread is over or waits, a thread that waits at a lock waits there on the plain machine too, in each state that
/// the cluster stands for: the content is out. So in a deadlocked cluster each thread waits on the plain machine for what it waits for in the cluster.
pub fn locks_wait()
    ensures locks { LocksWait }
    ensures all { DeadlocksAgree }
{}

/// Where the code's plain run under a journal's order leads to a cluster's one heap, the plain run of the program's own terms is there, with the same labels, and comes to the
/// same: the same threads, each at a term for which its code there stands and with the same slots, over the same objects and mutexes. Where the cluster is coherent and
/// deadlocked, the list of its threads that wait, with what each waits for, is that of those terms; and where it has come to an end, so have they: finished, or deadlocked.
pub fn programs_stand_there()
    ensures stands { ProgramsStandThere }
    ensures waits { DeadlocksWaitThere }
    ensures ends { ProgramsEndThere }
{}
