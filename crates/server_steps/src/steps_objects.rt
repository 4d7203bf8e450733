//! The plain steps on objects and numbers.

ghost use Rattle.std.specs.Prelude.{◌≡◌, ◌+◌, ◌-◌, ◌^◌, ◌<◌, ◌≤◌, Some, IsSome};
ghost use Rattle.fr_plain.specs.Acts.{result_of};
ghost use Rattle.server_model.specs.Commit.{arith, box_up, make_box, print};
ghost use Rattle.server_parts.specs.Hands.{hand};

use crate::operands::{pop_int, pop_owned, push_temp};
use fr_base::{Label, ObjNo, Op, Operand, Plain};
use heap_partition::{BoxPtr, Cell, Owned};
use journal::Act;
use server_parts::{Work, place, plain_of};
use thread_state::{Thread, Value};

// The name of the thread's next object.
fn next_object(thread: &Thread) -> ObjNo
    ensures { result ≡ record { thread = thread.now.state.number; count = thread.now.state.made } }
{
    ObjNo {
        thread: thread.number,
        count: thread.made,
    }
}

// A new object here, a box of which is on top.
fn make_box(work: &mut Work, thread: &mut Thread, value: Owned)
    requires result { IsSome (make_box value (hand work.old thread.old)) }
    requires few { thread.old.state.made < 2 ^ 64 - 1 }
    requires room { 2 < work.old.room }
    requires thread_room { 0 < thread.old.room }
    ensures state { make_box value (hand work.old thread.old) ≡ Some (hand work.new thread.new) }
    ensures pc { thread.new.state.pc ≡ thread.old.state.pc }
    ensures spare { work.old.room ≤ work.new.room + 3 }
    ensures copies { work.new.copies ≡ work.old.copies }
    ensures thread_spare { thread.old.room ≤ thread.new.room + 1 }
{
    // The check asks that each type inside a value is named where a value is moved.
    let _inside: Option<Plain> = None;
    let plain = plain_of(&value);
    let cell = Cell {
        object: next_object(thread),
        value,
    };
    let word = place(work, cell);
    work.note(Act::Make(next_object(thread), word));
    work.label(Label::Make(next_object(thread), plain));
    let pointer = BoxPtr {
        word,
        object: next_object(thread),
    };
    thread.made += 1;
    push_temp(thread, Value::Own(Owned::Box(pointer)));
}

/// A box of an owned value.
pub(crate) fn box_up(work: &mut Work, thread: &mut Thread, operand: Operand)
    requires result { IsSome (box_up operand (hand work.old thread.old)) }
    requires few { thread.old.state.made < 2 ^ 64 - 1 }
    requires room { 2 < work.old.room }
    requires thread_room { 0 < thread.old.room }
    ensures state { box_up operand (hand work.old thread.old) ≡ Some (hand work.new thread.new) }
    ensures pc { thread.new.state.pc ≡ thread.old.state.pc }
    ensures spare { work.old.room ≤ work.new.room + 3 }
    ensures copies { work.new.copies ≡ work.old.copies }
    ensures thread_spare { thread.old.room ≤ thread.new.room + 1 }
{
    let value = pop_owned(work, thread, operand);
    make_box(work, thread, value);
}

// What the operator makes of two numbers.
fn result_of(op: Op, left: i64, right: i64) -> i64
    ensures { result ≡ result_of op left right }
{
    match op {
        Op::Add => left.wrapping_add(right),
        Op::Sub => left.wrapping_sub(right),
        Op::Mul => left.wrapping_mul(right),
    }
}

/// An operator between two integers; the right operand is on top.
pub(crate) fn arith(work: &Work, thread: &mut Thread, op: Op, left: Operand, right: Operand)
    requires result { IsSome (arith op left right (hand work.now thread.old)) }
    requires room { 0 < thread.old.room }
    ensures state { arith op left right (hand work.now thread.old) ≡ Some (hand work.now thread.new) }
    ensures pc { thread.new.state.pc ≡ thread.old.state.pc }
    ensures room { thread.old.room ≤ thread.new.room + 1 }
{
    let second = pop_int(work, thread, right);
    let first = pop_int(work, thread, left);
    push_temp(thread, Value::Own(Owned::Int(result_of(op, first, second))));
}

/// A number is printed.
pub(crate) fn print(work: &mut Work, thread: &mut Thread, operand: Operand)
    requires result { IsSome (print operand (hand work.old thread.old)) }
    requires room { 0 < work.old.room }
    ensures state { print operand (hand work.old thread.old) ≡ Some (hand work.new thread.new) }
    ensures pc { thread.new.state.pc ≡ thread.old.state.pc }
    ensures spare { work.old.room ≤ work.new.room + 1 }
    ensures copies { work.new.copies ≡ work.old.copies }
    ensures thread_room { thread.old.room ≤ thread.new.room }
{
    let number = pop_int(work, thread, operand);
    work.label(Label::Print(number));
}
