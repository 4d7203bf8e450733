//! A plain step keeps a state typed, act by act, for running terms and code alike.

ghost use Rattle.law_plain_values.specs.acts.CodeRows.{EndsHaveRows, InstructionsHaveRows};
ghost use Rattle.law_plain_values.specs.acts.Example.{LetIsReady, PrintIsReady};
ghost use Rattle.law_plain_values.specs.acts.Keeps.{IsArith, IsBorrow, IsBorrowMut, IsCopy, IsLet, IsPrint, Keeps};

/// What the typing of instructions lets an instruction do, a row of the typing of acts lets its act do, to the same entry
/// (`steps`). At the end of a thread the value of the operand is at hand, with the type of the thread's result (`ends`).
pub fn instructions_have_rows()
    ensures steps { InstructionsHaveRows }
    ensures ends { EndsHaveRows }
{}

/// In a typed state, with whatever threads, mutexes and pairs, an act of this form that a row grants can be done without a new
/// name, and leaves a typed state. A clause an act; the other acts stand in crates above.
pub fn acts_keep_types()
    ensures print { Keeps IsPrint }
    ensures arith { Keeps IsArith }
    ensures borrow { Keeps IsBorrow }
    ensures borrow_mut { Keeps IsBorrowMut }
    ensures copy { Keeps IsCopy }
    ensures bind { Keeps IsLet }
{}

/// At main's start in a typed state a number may be printed, or bound: what the law on acts asks for can be met.
pub fn acts_are_ready()
    ensures print { PrintIsReady }
    ensures bind { LetIsReady }
{}
