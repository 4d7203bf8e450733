//! An event that does a plain step at a mutex, or that makes an object, does exactly that step on the one heap.

ghost use Rattle.law_heap_steps.specs.Below.coherent_memory.Coherent.{IsSound};
ghost use Rattle.law_heap_steps.specs.mutexes.Locks.{SharesGo, UnlocksArePlain, dups_mutex, locks_mutex, makes_box, makes_mutex};
ghost use Rattle.law_heap_steps.specs.turns.Turns.{ArePlainSteps};
ghost use Rattle.law_heap_still.specs.Below.coherent_types.ClusterTypes.{IsCoherent};

/// From a coherent cluster, each step of a dup and of a lock is the plain step of its thread on the one heap, with the entry's labels, its messages handed over: the
/// place is followed to its mutex; a dup has one value of it more, and a lock takes its content out, which was its content until then. A step that asks for an
/// answer does no plain step.
pub fn answer_steps()
    ensures dups { ArePlainSteps IsCoherent dups_mutex }
    ensures locks { ArePlainSteps IsCoherent locks_mutex }
{}

/// From a sound cluster, so is each step of a new mutex, with the mutex's name: the server's next mutex was named nowhere, and then it has the value as its content and
/// one share.
pub fn new_mutex_steps()
    ensures { ArePlainSteps IsSound makes_mutex }
{}

/// From a sound cluster, so is an unlock of a mutex of which some value is in the state afterwards: the value of the last slot is the content again, and both slots go.
pub fn unlock_steps()
    ensures { UnlocksArePlain }
{}

/// From a coherent cluster, so is each step that makes an object: it is the thread's next one, its value is that of the box's operand, and no place of a lock passes it.
pub fn box_steps()
    ensures { ArePlainSteps IsCoherent makes_box }
{}

/// From a sound cluster, so is a discard, the drop of a slot and an assignment to a variable whose old value is one of a mutex, where another value of it is in the state
/// afterwards: the mutex has one share less.
pub fn share_steps()
    ensures { SharesGo }
{}
