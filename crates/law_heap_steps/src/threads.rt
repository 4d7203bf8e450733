//! Events of threads that start others, that end, or that take what others have ended with, and that do a plain step, do exactly that step on the one heap.

ghost use Rattle.law_heap_steps.specs.Below.coherent_memory.Coherent.{IsSound};
ghost use Rattle.law_heap_steps.specs.threads.Tasks.{EndsArePlain, ends_pair, joins_thread, starts_pair, starts_thread};
ghost use Rattle.law_heap_steps.specs.turns.Turns.{ArePlainSteps};

/// From a sound cluster, each step at the end of a pair is the plain step of its thread on the one heap, its messages handed over: the parent goes on, and the results of
/// both threads are taken. A parent that waits for them doesn't step.
pub fn pair_end_steps()
    ensures { ArePlainSteps IsSound ends_pair }
{}

/// The same of a join: once its answer came, the thread goes on with the result, and the thread that it joined is over. (Before, it asks for it, which is no plain step)
pub fn join_steps()
    ensures { ArePlainSteps IsSound joins_thread }
{}

/// The same of the end of a thread, where what it ends with lets nothing go, or the thread isn't main and a task value of it is in the state afterwards: then it is kept. (Else
/// it is dropped)
pub fn end_steps()
    ensures { EndsArePlain }
{}

/// The same of a start of a thread, from a sound cluster, under the name that the server takes: the new thread's name wasn't given; it has what it captured, and its parent
/// has its task.
pub fn spawn_steps()
    ensures { ArePlainSteps IsSound starts_thread }
{}

/// The same of a start of a pair, under the two next names: both have what they captured, the second one from what the first one leaves, and their parent waits for them.
pub fn par_steps()
    ensures { ArePlainSteps IsSound starts_pair }
{}
