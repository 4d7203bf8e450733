//! Laws of the plain machine.

ghost use Rattle.fr_sound.specs.Apart.{ThreadsApart};
ghost use Rattle.fr_sound.specs.Example.{ExamplesStart};
ghost use Rattle.fr_sound.specs.NeverStuck.{NeverStuck, StartsTyped};
ghost use Rattle.fr_sound.specs.ThreadExample.{ThreadsStart};
ghost use Rattle.fr_sound.specs.Together.{NeverStuckTogether, OneOfThree, StartsTogether, WaitsForLiving};

/// A thread of a typed state has ended, or it steps, and the state after the step is typed.
pub fn never_stuck()
    ensures { NeverStuck }
{}

/// A program of one thread's forms that typing types starts in a typed state.
pub fn starts_typed()
    ensures { StartsTyped }
{}

/// Some programs with references and arithmetic start typed.
pub fn examples_start()
    ensures { ExamplesStart }
{}

/// Of several threads that share no memory none is ever stuck: each one has ended, waits at a join for a thread that has
/// not ended, or steps under some new name (`stands`). Each step that is not refused can be done and leaves a typed state
/// (`steps`), and a thread that waits waits for one that goes on (`waits`).
pub fn never_stuck_together()
    ensures stands { OneOfThree }
    ensures steps { NeverStuckTogether }
    ensures waits { WaitsForLiving }
{}

/// A program with threads, but without mutexes and views, that typing types starts in a typed state.
pub fn starts_together()
    ensures { StartsTogether }
{}

/// Some programs with threads start typed.
pub fn threads_start()
    ensures { ThreadsStart }
{}

/// Two threads of a typed state share no object: no place of one leads to an object to which a place of the other leads. So
/// none writes what another one reads.
pub fn threads_apart()
    ensures { ThreadsApart }
{}
