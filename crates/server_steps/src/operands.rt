//! A thread's slots, its temporary values, and operands.

ghost use Rattle.std.specs.Prelude.{◌≡◌, ◌+◌, ◌<◌, ◌≤◌, ◌++◌, [], ◌∷◌, Some, IsSome};
ghost use Rattle.server_model.specs.Work.{front_of, last_of, pop, pop_owned, pop_int};
ghost use Rattle.server_parts.specs.Hands.{hand};

use fr_base::Operand;
use heap_partition::Owned;
use server_parts::Work;
use thread_state::{Thread, Value};

/// A new slot.
pub(crate) fn push_slot(thread: &mut Thread, value: Value)
    requires room { 0 < thread.old.room }
    ensures state { thread.new.state ≡ record thread.old.state { slots = thread.old.state.slots ++ value ∷ [] } }
    ensures room { thread.old.room ≤ thread.new.room + 1 }
{
    thread.slots.push_reserved(value);
}

/// A new temporary value, on top.
pub(crate) fn push_temp(thread: &mut Thread, value: Value)
    requires room { 0 < thread.old.room }
    ensures state { thread.new.state ≡ record thread.old.state { temps = thread.old.state.temps ++ value ∷ [] } }
    ensures room { thread.old.room ≤ thread.new.room + 1 }
{
    thread.temps.push_reserved(value);
}

/// The temporary value on top, which is there.
pub(crate) fn pop_temp(thread: &mut Thread) -> Value
    requires there { IsSome (last_of thread.old.state.temps) }
    ensures value { last_of thread.old.state.temps ≡ Some result }
    ensures state { thread.new.state ≡ record thread.old.state { temps = front_of thread.old.state.temps } }
    ensures room { thread.old.room ≤ thread.new.room }
{
    let Some(value) = thread.temps.last().copied() else {
        unreachable!();
    };
    thread.temps.pop();
    value
}

/// The last slot, which is there.
pub(crate) fn pop_slot(thread: &mut Thread) -> Value
    requires there { IsSome (last_of thread.old.state.slots) }
    ensures value { last_of thread.old.state.slots ≡ Some result }
    ensures state { thread.new.state ≡ record thread.old.state { slots = front_of thread.old.state.slots } }
    ensures room { thread.old.room ≤ thread.new.room }
{
    let Some(value) = thread.slots.last().copied() else {
        unreachable!();
    };
    thread.slots.pop();
    value
}

/// An operand's value; it goes where it is the temporary value on top.
pub(crate) fn pop(work: &Work, thread: &mut Thread, operand: Operand) -> Value
    requires there { IsSome (pop operand (hand work.now thread.old)) }
    ensures state { pop operand (hand work.now thread.old) ≡ Some (record { item = result; hand = hand work.now thread.new }) }
    ensures pc { thread.new.state.pc ≡ thread.old.state.pc }
    ensures room { thread.old.room ≤ thread.new.room }
{
    let _work = work; // named in the contract alone
    match operand {
        Operand::Const(number) => Value::Own(Owned::Int(number)),
        Operand::Unit => Value::Own(Owned::Unit),
        Operand::Pop => pop_temp(thread),
    }
}

/// An operand's owned value.
pub(crate) fn pop_owned(work: &Work, thread: &mut Thread, operand: Operand) -> Owned
    requires there { IsSome (pop_owned operand (hand work.now thread.old)) }
    ensures state { pop_owned operand (hand work.now thread.old) ≡ Some (record { item = result; hand = hand work.now thread.new }) }
    ensures pc { thread.new.state.pc ≡ thread.old.state.pc }
    ensures room { thread.old.room ≤ thread.new.room }
{
    match pop(work, thread, operand) {
        Value::Own(value) => value,
        _ => unreachable!(),
    }
}

/// An operand's integer.
pub(crate) fn pop_int(work: &Work, thread: &mut Thread, operand: Operand) -> i64
    requires there { IsSome (pop_int operand (hand work.now thread.old)) }
    ensures state { pop_int operand (hand work.now thread.old) ≡ Some (record { item = result; hand = hand work.now thread.new }) }
    ensures pc { thread.new.state.pc ≡ thread.old.state.pc }
    ensures room { thread.old.room ≤ thread.new.room }
{
    match pop(work, thread, operand) {
        Value::Own(value) => match value {
            Owned::Int(number) => number,
            _ => unreachable!(),
        },
        _ => unreachable!(),
    }
}
