//! Steps at mutexes, with the room for each made first.

ghost use Rattle.std.specs.Prelude.{◌≡◌, ◌<◌, ◌≤◌, ◌+◌, length, slice_index_or, vec_len, vec_capacity, Some, IsSome, List, IfOk, OnOk, OnErr};
ghost use Rattle.fr_base.specs.declared.step.Fresh.TheVariants as fresh_;
ghost use Rattle.fr_plain.specs.Whole.{step};
ghost use Rattle.fr_forms.specs.declared.forms.Form.{Form};
ghost use Rattle.fr_forms.specs.FormTerms.{AreInOrder};
ghost use Rattle.fr_shared.specs.Places.{place_of};
ghost use Rattle.fr_meaning.specs.declared.thread.Thread.{Thread};
ghost use Rattle.fr_meaning.specs.declared.next.Next.TheVariants as next_;
ghost use Rattle.fr_meaning.specs.Next.{IsNext};
ghost use Rattle.fr_meaning.specs.Entries.{entry_of};
ghost use Rattle.fr_meaning.specs.Threads.{IsWell};
ghost use Rattle.fr_meaning.specs.Running.{plain_of, view_of, Stands};

use crate::bodies::enter_locked;
use crate::control::leave_top;
use crate::frame::Done;
use crate::running::Running;
use crate::thread::{Thread, resume};
use crate::threads::{Runner, let_go};
use fr_acts::{can_dup, dup, lock, new_mutex, unlock};
use fr_base::{Fresh, Labels, Lval, NoMemory};
use fr_forms::Form;
use fr_plain::Value;
use std::alloc::Global;

/// A new mutex under a new name, with the value as its content.
pub fn go_making(
    alloc: Global,
    forms: &[Form],
    running: &mut Running,
    turn: &Runner,
    value: Value,
    fresh: Fresh,
) -> Result<Labels, NoMemory>
    requires order { AreInOrder forms.now }
    requires stands { Stands forms.now running.old }
    requires place { place_of running.old.places.numbers turn.now.thread ≡ Some turn.now.at }
    requires inside { turn.now.at < length running.old.threads.items }
    requires next { (x : Thread) → x ≡ slice_index_or running.old.threads.items turn.now.at x → IsNext x.focus x.frames.items (next_.Mutex value) }
    requires goes { IsSome (step (plain_of forms.now running.old) turn.now.thread fresh) }
    ensures step { IfOk result (λ l. step (plain_of forms.now running.old) turn.now.thread fresh ≡ Some (record { state = plain_of forms.now running.new; labels = l.items })) }
    ensures stands { Stands forms.now running.new }
    ensures err { OnErr result (view_of forms.now running.new ≡ view_of forms.now running.old) }
{
    let Fresh::Mutex(mutex) = fresh else {
        unreachable!()
    };
    running.common.mutexes.reserve()?;
    let made = new_mutex(&mut running.common.mutexes, mutex, value);
    let making = &mut running.threads[turn.at];
    leave_top(&mut making.frames);
    resume(forms, making, Done::Temp(made));
    Ok(Labels::new(alloc))
}

/// A share more of the mutex behind the place. Where there are 2^64 - 1 shares no more can be counted, and memory is wanting.
pub fn go_dup(
    alloc: Global,
    forms: &[Form],
    running: &mut Running,
    turn: &Runner,
    place: Lval,
) -> Result<Labels, NoMemory>
    requires order { AreInOrder forms.now }
    requires stands { Stands forms.now running.old }
    requires place { place_of running.old.places.numbers turn.now.thread ≡ Some turn.now.at }
    requires inside { turn.now.at < length running.old.threads.items }
    requires next { (x : Thread) → x ≡ slice_index_or running.old.threads.items turn.now.at x → IsNext x.focus x.frames.items (next_.Dup place) }
    requires goes { IsSome (step (plain_of forms.now running.old) turn.now.thread fresh_.None) }
    ensures step { IfOk result (λ l. step (plain_of forms.now running.old) turn.now.thread fresh_.None ≡ Some (record { state = plain_of forms.now running.new; labels = l.items })) }
    ensures stands { Stands forms.now running.new }
    ensures err { OnErr result (view_of forms.now running.new ≡ view_of forms.now running.old) }
{
    let mut labels = Labels::new(alloc);
    labels.reserve(place.depth as usize + 2)?;
    let thread = &mut running.threads[turn.at];
    let common = &mut running.common;
    let slots = thread.slots.as_slice();
    if !can_dup(turn.thread, slots, &common.heap, &common.mutexes, place) {
        return Err(NoMemory);
    }
    let copied = dup(
        turn.thread,
        slots,
        &common.heap,
        &mut common.mutexes,
        &mut labels,
        place,
    );
    resume(forms, thread, Done::Temp(copied));
    Ok(labels)
}

// Makes room for the two slots of a lock.
fn reserve_lock(thread: &mut Thread) -> Result<(), NoMemory>
    ensures entry { entry_of thread.new ≡ entry_of thread.old }
    ensures well { (fs : List Form) → IsWell fs thread.old → IsWell fs thread.new }
    ensures room { OnOk result (vec_len thread.new.slots + 2 ≤ vec_capacity thread.new.slots) }
{
    thread.slots.reserve(2)?;
    Ok(())
}

/// A lock of the mutex behind the place: its content becomes the newest slot, and the body comes next.
pub fn go_lock(
    alloc: Global,
    forms: &[Form],
    running: &mut Running,
    turn: &Runner,
    place: Lval,
    node: usize,
) -> Result<Labels, NoMemory>
    requires order { AreInOrder forms.now }
    requires stands { Stands forms.now running.old }
    requires place { place_of running.old.places.numbers turn.now.thread ≡ Some turn.now.at }
    requires inside { turn.now.at < length running.old.threads.items }
    requires next { (x : Thread) → x ≡ slice_index_or running.old.threads.items turn.now.at x → IsNext x.focus x.frames.items (next_.Lock place node) }
    requires goes { IsSome (step (plain_of forms.now running.old) turn.now.thread fresh_.None) }
    ensures step { IfOk result (λ l. step (plain_of forms.now running.old) turn.now.thread fresh_.None ≡ Some (record { state = plain_of forms.now running.new; labels = l.items })) }
    ensures stands { Stands forms.now running.new }
    ensures err { OnErr result (view_of forms.now running.new ≡ view_of forms.now running.old) }
{
    let mut labels = Labels::new(alloc);
    labels.reserve(place.depth as usize + 2)?;
    let locking = &mut running.threads[turn.at];
    reserve_lock(locking)?;
    let common = &mut running.common;
    lock(
        turn.thread,
        &mut locking.slots,
        &common.heap,
        &mut common.mutexes,
        &mut labels,
        place,
    );
    enter_locked(forms, locking, node);
    Ok(labels)
}

/// The end of a lock, whose body is done: its content goes back, and both of its slots go.
pub fn go_unlock(
    alloc: Global,
    forms: &[Form],
    running: &mut Running,
    turn: &Runner,
    done: Done,
) -> Result<Labels, NoMemory>
    requires order { AreInOrder forms.now }
    requires stands { Stands forms.now running.old }
    requires place { place_of running.old.places.numbers turn.now.thread ≡ Some turn.now.at }
    requires inside { turn.now.at < length running.old.threads.items }
    requires next { (x : Thread) → x ≡ slice_index_or running.old.threads.items turn.now.at x → IsNext x.focus x.frames.items (next_.Unlock done) }
    requires goes { IsSome (step (plain_of forms.now running.old) turn.now.thread fresh_.None) }
    ensures step { IfOk result (λ l. step (plain_of forms.now running.old) turn.now.thread fresh_.None ≡ Some (record { state = plain_of forms.now running.new; labels = l.items })) }
    ensures stands { Stands forms.now running.new }
    ensures err { OnErr result (view_of forms.now running.new ≡ view_of forms.now running.old) }
{
    let mut labels = Labels::new(alloc);
    labels.reserve(1)?;
    let unlocking = &mut running.threads[turn.at];
    let common = &mut running.common;
    let released = unlock(
        &mut unlocking.slots,
        &mut common.heap,
        &mut common.mutexes,
        &mut labels,
    );
    leave_top(&mut unlocking.frames);
    resume(forms, unlocking, done);
    let_go(
        &mut running.threads,
        &running.places,
        &mut running.common,
        released,
    );
    Ok(labels)
}
