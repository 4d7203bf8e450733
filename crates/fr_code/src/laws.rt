//! Laws of compiled code.

ghost use Rattle.fr_code.specs.Examples.{CodesCompute};
ghost use Rattle.fr_code.specs.Laws.{EndingsAlike, MovesAlike, OnceStaysInCode, RefusalsAlike, RunsAlike, SamePlainCode, SettlingStands, StartsAlike, StepsAlike};
ghost use Rattle.fr_code.specs.TypedCode.{ActsAreTyped, CodeNeverStuck, CodeStartsTyped, EndsAreTyped};

/// A state of the code and the state of the plain machine that it stands for take the same steps, with the same labels, and
/// neither one without the other; where one is refused, the other is for the same cause. What they become stand for each other
/// again, and end alike.
pub fn steps_alike()
    ensures settling { SettlingStands }
    ensures moves { MovesAlike }
    ensures steps { StepsAlike }
    ensures refusals { RefusalsAlike }
    ensures endings { EndingsAlike }
{}

/// The code of a program starts where the program does, and runs as it does.
pub fn runs_alike()
    ensures starts { StartsAlike }
    ensures runs { RunsAlike }
{}

/// States of a code whose plain states are the same take the same steps and runs, which lead to the same again; their
/// threads wait for the same, and where no thread is listed twice, as in each run from such a state, they end alike.
pub fn same_plain()
    ensures agree { SamePlainCode }
    ensures once { OnceStaysInCode }
{}

/// The codes of some small programs.
pub fn codes_compute()
    ensures { CodesCompute }
{}

/// A state of the code is typed where it stands for a typed state of the plain machine. The next act of each of its threads is
/// then what a row of the typing grants (`acts`), or the thread is at its end with a value of its type (`ends`), and a step that is
/// not refused can be done and leaves a typed state (`steps`). The code of a typed program starts typed (`starts`).
pub fn code_is_typed()
    ensures acts { ActsAreTyped }
    ensures ends { EndsAreTyped }
    ensures steps { CodeNeverStuck }
    ensures starts { CodeStartsTyped }
{}
