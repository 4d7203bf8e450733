//! What each event keeps of threads that wait, or have taken an object: they stand where they asked, and their places lead where they led.

ghost use Rattle.law_counts_asking.specs.Below.coherent_memory.Coherent.{gifts_fit, phases_stand, taken_is_new, taken_stands};
ghost use Rattle.law_counts_asking.specs.Below.law_counts_things.things.Laws.{EachCoherentEventKeeps};
ghost use Rattle.law_counts_waiting.specs.waits.Places.{OthersLeavePlaces, UndoneLeavePlaces};
ghost use Rattle.law_counts_waiting.specs.waits.Steady.{EachSteadyEventKeeps};
ghost use Rattle.law_counts_waiting.specs.waits.Taken.{EachEventLeavesTakers};

/// A thread that waits for what a home gives, or has it, stands at the instruction that asked for it, after each event from a coherent cluster: at the lock or the dup whose
/// place holds that mutex, or at the join whose operand is that task.
pub fn waits_keep()
    ensures phases_stand { EachCoherentEventKeeps phases_stand }
    ensures gifts_fit { EachCoherentEventKeeps gifts_fit }
{}

/// So the place that a thread reads or writes at its instruction leads where it led, and that of the holder of a reference that it ends, whatever other thread steps and
/// whatever message is delivered; and so does each place of each thread where no plain step is done.
pub fn places_keep()
    ensures others { OthersLeavePlaces }
    ensures undone { UndoneLeavePlaces }
{}

/// A thread that has taken an object is at a mutable borrow, after each event from a sound cluster; and after each in which no object comes or goes and no pointer gets another
/// word, what it has taken is the word of the object to which its place leads, which lies at its server, and the pointer that the place follows last has another word.
pub fn takers_keep()
    ensures lend { EachEventLeavesTakers }
    ensures taken_stands { EachSteadyEventKeeps taken_stands }
    ensures taken_is_new { EachSteadyEventKeeps taken_is_new }
{}
