//! A drop keeps a state typed, for running terms and code alike.

ghost use Rattle.law_plain_values.specs.drops.DropActs.{EndKeeps, IsAssign, IsDiscard, IsDrop};
ghost use Rattle.law_plain_values.specs.drops.Drops.{DropKeeps};
ghost use Rattle.law_plain_values.specs.drops.Example.{AssignIsReady, DiscardIsReady, DropIsReady, EndIsReady, SlotIsReady};
ghost use Rattle.law_plain_values.specs.acts.Keeps.{Keeps};

/// A drop leaves a typed state (`keeps`): where a state is typed in which the value that is dropped stands in the one slot of a thread of
/// its own, it is typed once that thread and the value are gone, with the objects of its boxes, and with the results and contents of the
/// threads and mutexes whose last task or value goes with it.
pub fn drops_keep_types()
    ensures keeps { DropKeeps }
{}

/// In a typed state, with whatever threads, mutexes and pairs, an act of this form that a row grants can be done without a new name, and
/// leaves a typed state: a value at hand goes, whatever it owns (`discard`); so does the newest slot with its value, whatever moved out of
/// it (`slot`), and the result of main, or of a thread whose task was dropped, and the thread is over (`end`); and so does what stood where a
/// value is assigned, whatever moved out of it: an owned one over boxes alone or through mutable references, a reference or a view in a variable (`assign`).
pub fn dropping_acts_keep_types()
    ensures discard { Keeps IsDiscard }
    ensures slot { Keeps IsDrop }
    ensures end { EndKeeps }
    ensures assign { Keeps IsAssign }
{}

/// At main's start a number may be discarded, and main may end; where it has bound a number, the slot may go, and another number may be assigned to it; and there is a typed state with a number that is carried beside main. So what the laws
/// above ask for can be met.
pub fn drops_are_ready()
    ensures keeps { DropIsReady }
    ensures discard { DiscardIsReady }
    ensures end { EndIsReady }
    ensures slot { SlotIsReady }
    ensures assign { AssignIsReady }
{}
