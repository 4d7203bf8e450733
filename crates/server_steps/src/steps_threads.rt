//! The plain steps on threads that have started.

ghost use Rattle.std.specs.Prelude.{◌≡◌, ◌+◌, ◌-◌, ◌^◌, ◌<◌, ◌≤◌, true, Some, IsSome};
ghost use Rattle.fr_base.specs.declared.step.Fresh.TheVariants as fresh;
ghost use Rattle.server_model.specs.Commit.{ask_join, done, end_thread, join};
ghost use Rattle.server_model.specs.Work.{pop, task_of, then_some};
ghost use Rattle.thread_state.specs.declared.value.Value.TheVariants as value;
ghost use Rattle.server_steps.specs.Committeds.{committed, is_committed};
ghost use Rattle.server_parts.specs.Hands.{hand};

use crate::committed::Committed;
use crate::operands::{pop, pop_owned, push_temp};
use crate::settling::{end_with, go_on};
use fr_base::{Fresh, Operand, ThreadNo};
use heap_partition::Owned;
use journal::Act;
use server_msgs::Message;
use server_parts::Work;
use thread_state::{Phase, Thread, Value};

// The request of a join.
fn ask_join(work: &mut Work, thread: &mut Thread, task: ThreadNo)
    requires room { 1 < work.old.room }
    ensures state { ask_join (hand work.old thread.old) task ≡ hand work.new thread.new }
    ensures spare { work.old.room ≤ work.new.room + 2 }
    ensures copies { work.new.copies ≡ work.old.copies }
    ensures thread_room { thread.new.room ≡ thread.old.room }
{
    work.note(Act::AskJoin(task));
    let message = Message::Join(task, work.number, thread.number);
    work.send(task.server(), message);
    thread.phase = Phase::WaitJoin(task);
}

// The task that an owned value is.
fn task_in(owned: Owned) -> Option<ThreadNo>
    ensures { result ≡ task_of (value.Own owned) }
{
    match owned {
        Owned::Task(task) => Some(task),
        _ => None,
    }
}

// The task that an operand gives, which stays where it is.
fn task_of(work: &Work, thread: &Thread, operand: Operand) -> Option<ThreadNo>
    ensures { result ≡ then_some (pop operand (hand work.now thread.now)) (λ t. task_of t.item) }
{
    let _work = work; // named in the contract alone
    // The check asks that each type inside a value is named where a value is moved.
    let _inside: Option<Owned> = None;
    if operand != Operand::Pop {
        return None;
    }
    match thread.temps.last().copied() {
        Some(Value::Own(owned)) => task_in(owned),
        _ => None,
    }
}

/// A join asks for the result of a task, which stays where it is, and takes both once the result is there.
pub(crate) fn join(work: &mut Work, thread: &mut Thread, operand: Operand) -> Committed
    requires ready { is_committed (join operand thread.old.state.gift (hand work.old thread.old)) ≡ true }
    requires few { thread.old.state.pc < 2 ^ 32 - 1 }
    requires room { 1 < work.old.room }
    requires thread_room { 0 < thread.old.room }
    ensures state { join operand thread.old.state.gift (hand work.old thread.old) ≡ committed result (hand work.new thread.new) }
    ensures spare { work.old.room ≤ work.new.room + 2 }
    ensures copies { work.new.copies ≡ work.old.copies }
    ensures thread_spare { thread.old.room ≤ thread.new.room + 1 }
{
    let _inside: Option<Owned> = None;
    match thread.gift {
        None => {
            let Some(task) = task_of(work, thread, operand) else {
                unreachable!();
            };
            ask_join(work, thread, task);
            Committed::Waits
        }
        Some(result) => {
            thread.gift = None;
            pop(work, thread, operand);
            push_temp(thread, Value::Own(result));
            go_on(work, thread);
            Committed::Done(Fresh::None)
        }
    }
}

/// The thread is over.
pub(crate) fn end_thread(work: &mut Work, thread: &mut Thread, operand: Operand)
    requires ready { is_committed (end_thread operand (hand work.old thread.old)) ≡ true }
    requires room { 3 < work.old.room }
    ensures state { end_thread operand (hand work.old thread.old) ≡ done fresh.None (hand work.new thread.new) }
    ensures spare { work.old.room ≤ work.new.room + 4 }
    ensures copies { work.new.copies ≡ work.old.copies }
    ensures thread_room { thread.old.room ≤ thread.new.room }
{
    let value = pop_owned(work, thread, operand);
    end_with(work, thread, value);
    thread.phase = Phase::Over;
}
