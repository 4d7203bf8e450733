//! What a thread does next.

ghost use Rattle.std.specs.Prelude.{◌≡◌};
ghost use Rattle.fr_meaning.specs.declared.frame.Focus.TheVariants as focus_;
ghost use Rattle.fr_meaning.specs.Next.{IsNext, next_takes, task_named};
ghost use Rattle.fr_meaning.specs.PoolView.{kind_of};

use crate::frame::{Done, Focus, Frame};
use crate::machine::value_in;
use crate::need::Need;
use fr_base::{Lval, Plain, ThreadNo};
use fr_plain::Value;

/// What a thread in progress does next.
#[derive(Clone, Copy)]
pub enum Next {
    /// Its term is done, and it ends.
    End(Done),
    /// It joins the thread whose task the value is.
    Join(Value),
    /// It starts the thread of a form.
    Start(usize),
    /// It makes a mutex with this content.
    Mutex(Value),
    /// It counts a share more of the mutex at a place.
    Dup(Lval),
    /// It locks the mutex at a place, for a form.
    Lock(Lval, usize),
    /// It unlocks, and goes on with the body's value.
    Unlock(Done),
    /// It starts the two threads of a form.
    Par(usize),
    /// It goes on where both threads that it started have ended.
    ParEnd,
    /// It does an act of its own.
    Own,
}

/// What comes next of a focus in its frames.
pub fn next_of(focus: &Focus, frames: &[Frame]) -> Next
    ensures { IsNext focus.now frames.now result }
{
    match focus {
        Focus::Over(done) => next_over(*done, frames),
        Focus::Spawn(node) => Next::Start(*node),
        Focus::Dup(place) => Next::Dup(*place),
        Focus::Lock(place, node) => Next::Lock(*place, *node),
        Focus::Par(node) => Next::Par(*node),
        Focus::ParEnd => Next::ParEnd,
        Focus::Read(_, _) => Next::Own,
        Focus::Borrow(_, _) => Next::Own,
    }
}

// What comes next of a term that is done.
fn next_over(done: Done, frames: &[Frame]) -> Next
    ensures { IsNext (focus_.Over done) frames.now result }
{
    match frames {
        [] => Next::End(done),
        [.., Frame::Join] => Next::Join(value_in(done)),
        [.., Frame::Mutex] => Next::Mutex(value_in(done)),
        [.., Frame::Locked] => Next::Unlock(done),
        [.., _] => Next::Own,
    }
}

/// The kind of names that the step takes.
pub fn need_of_next(next: &Next) -> Need
    ensures { result ≡ kind_of (next_takes next.now) }
{
    match next {
        Next::Start(_) => Need::Thread,
        Next::Par(_) => Need::Threads,
        Next::Mutex(_) => Need::Mutex,
        Next::End(_) => Need::Nothing,
        Next::Join(_) => Need::Nothing,
        Next::Dup(_) => Need::Nothing,
        Next::Lock(_, _) => Need::Nothing,
        Next::Unlock(_) => Need::Nothing,
        Next::ParEnd => Need::Nothing,
        Next::Own => Need::Nothing,
    }
}

/// The thread whose task the value is.
pub fn task_named_by(value: &Value) -> Option<ThreadNo>
    ensures { result ≡ task_named value.now }
{
    match value {
        Value::Own(Plain::Task(thread)) => Some(*thread),
        Value::Own(Plain::Nothing) => None,
        Value::Own(Plain::Unit) => None,
        Value::Own(Plain::Int(_)) => None,
        Value::Own(Plain::Box(_)) => None,
        Value::Own(Plain::Mutex(_)) => None,
        Value::ToSlot(_) => None,
        Value::ToObject(_) => None,
        Value::Held(_) => None,
    }
}
