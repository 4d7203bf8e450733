//! A thread, and what it does alone.

ghost use Rattle.std.specs.Prelude.{◌≡◌, ◌<◌, ◌≤◌, ◌+◌, [], length, vec_len, vec_capacity, Some, None, IsSome};
ghost use Rattle.fr_plain.specs.Acts.{act};
ghost use Rattle.fr_plain.specs.Run.{settle, block, last};
ghost use Rattle.fr_plain.specs.State.{slot_at};
ghost use Rattle.fr_plain.specs.Threads.{pass, left_after};
ghost use Rattle.fr_meaning.specs.declared.thread.Stage.TheVariants as stage_;
ghost use Rattle.fr_forms.specs.Depths.{depth};
ghost use Rattle.fr_forms.specs.FormTerms.{AreInOrder, captures_of, term_of, items_at, parts_of, root_of};
ghost use Rattle.fr_meaning.specs.DoneTerms.{over, value_of};
ghost use Rattle.fr_meaning.specs.FrameTerms.{AreInside, wrapped};
ghost use Rattle.fr_acts.specs.SlotOrder.{newest_first};
ghost use Rattle.fr_meaning.specs.Threads.{IsWell, IsGoingOn, IsEnded, run_in, end_act, end_value, after_end, result_in};
ghost use Rattle.fr_acts.specs.Acting.{state, did, releases};

use crate::control::{enter, enter_items, focus_in, leave};
use crate::frame::{Done, FRAMES, Focus, Frame};
use crate::machine::value_in;
use fr_acts::{drop_result, finish, keep_result};
use fr_base::{Labels, Plain, ThreadNo};
use fr_forms::{Captured, Form};
use fr_plain::Value;
use fr_shared::{Heap, Released};

/// How a thread's life stands.
#[derive(Clone, Copy)]
pub enum Stage {
    /// The main thread, in progress.
    Alive,
    /// Another thread in progress, whose task somebody has.
    Owing,
    /// Another thread in progress, whose task was dropped.
    Loose,
    /// It has ended, and nobody will have its result.
    Over,
    /// It has ended with a result, which is kept for whoever joins it.
    Ended(Value),
}

/// A thread: its term in frames around the innermost one, and its slots, the newest last.
#[derive(Drop)]
pub struct Thread {
    pub number: ThreadNo,
    pub stage: Stage,
    pub frames: Vec<Frame>,
    pub focus: Focus,
    pub slots: Vec<Value>,
}

// The last act of a thread whose term is done. Gives what goes last with a value that is dropped.
fn last_act(thread: &mut Thread, heap: &mut Heap, labels: &mut Labels, done: Done) -> Released
    requires goes { IsGoingOn thread.old.stage }
    requires labels { labels.old.items ≡ [] }
    requires room { 2 ≤ labels.old.spare }
    ensures act { act (end_act thread.old.stage (value_of done)) (state thread.old.number thread.old.slots.items heap.old.heap) ≡ did (end_value thread.old.stage (value_of done)) thread.old.number thread.new.slots.items heap.new.heap labels.new.items }
    ensures released { result ≡ releases (end_act thread.old.stage (value_of done)) (state thread.old.number thread.old.slots.items heap.old.heap) }
    ensures stage { thread.new.stage ≡ after_end thread.old.stage (value_of done) }
    ensures number { thread.new.number ≡ thread.old.number }
    ensures frames { thread.new.frames ≡ thread.old.frames }
    ensures focus { thread.new.focus ≡ thread.old.focus }
    ensures slots { thread.new.slots ≡ thread.old.slots }
{
    let value = value_in(done);
    match thread.stage {
        Stage::Alive => {
            thread.stage = Stage::Over;
            finish(thread.number, &thread.slots, heap, labels, value)
        }
        Stage::Owing => {
            let result = keep_result(thread.number, &thread.slots, heap, labels, value);
            thread.stage = Stage::Ended(result);
            Released::Nothing
        }
        Stage::Loose => {
            thread.stage = Stage::Over;
            drop_result(thread.number, &thread.slots, heap, labels, value)
        }
        Stage::Over => unreachable!(),
        Stage::Ended(_) => unreachable!(),
    }
}

/// The end of a thread whose term is done: its last act, after which it keeps no room. Gives what goes last with a value that is
/// dropped.
pub fn end(thread: &mut Thread, heap: &mut Heap, labels: &mut Labels, done: Done) -> Released
    requires goes { IsGoingOn thread.old.stage }
    requires none { thread.old.frames.items ≡ [] }
    requires labels { labels.old.items ≡ [] }
    requires room { 2 ≤ labels.old.spare }
    ensures act { act (end_act thread.old.stage (value_of done)) (state thread.old.number thread.old.slots.items heap.old.heap) ≡ did (end_value thread.old.stage (value_of done)) thread.old.number thread.new.slots.items heap.new.heap labels.new.items }
    ensures released { result ≡ releases (end_act thread.old.stage (value_of done)) (state thread.old.number thread.old.slots.items heap.old.heap) }
    ensures stage { thread.new.stage ≡ after_end thread.old.stage (value_of done) }
    ensures number { thread.new.number ≡ thread.old.number }
    ensures frames { thread.new.frames.items ≡ thread.old.frames.items }
    ensures frame_room { vec_capacity thread.new.frames ≡ 0 }
    ensures focus { thread.new.focus ≡ thread.old.focus }
    ensures slots { thread.new.slots.items ≡ thread.old.slots.items }
    ensures slot_room { thread.old.slots.items ≡ [] → vec_capacity thread.new.slots ≡ 0 }
{
    let released = last_act(thread, heap, labels, done);
    thread.frames.shrink_to_fit();
    thread.slots.shrink_to_fit();
    released
}

/// The result of a thread that has ended, which nobody will have again.
pub fn take_result(thread: &mut Thread) -> Value
    requires ended { IsEnded thread.old.stage }
    ensures result { Some result ≡ result_in thread.old.stage }
    ensures stage { thread.new.stage ≡ stage_.Over }
    ensures number { thread.new.number ≡ thread.old.number }
    ensures frames { thread.new.frames ≡ thread.old.frames }
    ensures focus { thread.new.focus ≡ thread.old.focus }
    ensures slots { thread.new.slots ≡ thread.old.slots }
{
    match thread.stage {
        Stage::Ended(value) => {
            thread.stage = Stage::Over;
            value
        }
        Stage::Alive => unreachable!(),
        Stage::Owing => unreachable!(),
        Stage::Loose => unreachable!(),
        Stage::Over => unreachable!(),
    }
}

/// Passes the captured values to a new thread, the last one newest.
pub fn pass_captures(captures: &[Captured], slots: &mut Vec<Value>, new: &mut Vec<Value>)
    requires goes { IsSome (pass (captures_of captures.now) (newest_first slots.old.items) (newest_first new.old.items)) }
    requires room { vec_len new.old + length captures.now ≤ vec_capacity new.old }
    ensures { pass (captures_of captures.now) (newest_first slots.old.items) (newest_first new.old.items) ≡ Some (record { left = newest_first slots.new.items; new = newest_first new.new.items }) }
{
    // The check asks that each type inside a value is named where a value is moved.
    let _inside: Option<Plain> = None;
    'captures: for next in 0..captures.len() {
        let capture = captures[next];
        let value = capture_value(capture, slots);
        new.push_reserved(value);
    }
}

// The value of a captured slot, copied or taken out.
fn capture_value(capture: Captured, slots: &mut Vec<Value>) -> Value
    requires goes { IsSome (slot_at (newest_first slots.old.items) capture.slot) }
    ensures value { slot_at (newest_first slots.old.items) capture.slot ≡ Some result }
    ensures left { newest_first slots.new.items ≡ left_after capture.take (newest_first slots.old.items) capture.slot }
{
    let at = capture.slot as usize;
    let value = slots[at];
    if capture.take {
        slots[at] = Value::Own(Plain::Nothing);
    }
    value
}

/// A new thread at the start of a form's body, with its captured values as slots.
pub fn start(
    forms: &[Form],
    node: usize,
    drops: u32,
    number: ThreadNo,
    frames: Vec<Frame>,
    slots: Vec<Value>,
) -> Thread
    requires order { AreInOrder forms.now }
    requires inside { node < length forms.now }
    requires none { frames.items ≡ [] }
    requires room { FRAMES ≤ vec_capacity frames }
    requires depth { depth (block drops (parts_of (term_of forms.now) (items_at forms.now node))) ≤ FRAMES }
    ensures run { run_in forms.now result ≡ settle (block drops (parts_of (term_of forms.now) (items_at forms.now node))) }
    ensures well { IsWell forms.now result }
    ensures number { result.number ≡ number }
    ensures stage { result.stage ≡ stage_.Owing }
    ensures slots { result.slots.items ≡ slots.items }
{
    let mut frames = frames;
    let focus = focus_in(enter_items(forms, node, 0, drops, &mut frames));
    Thread {
        number,
        stage: Stage::Owing,
        frames,
        focus,
        slots,
    }
}

/// The main thread at the start of the last form's term.
pub fn main_thread(forms: &[Form], frames: Vec<Frame>, slots: Vec<Value>) -> Thread
    requires order { AreInOrder forms.now }
    requires root { 0 < length forms.now }
    requires none { frames.items ≡ [] }
    requires room { FRAMES ≤ vec_capacity frames }
    requires depth { depth (root_of forms.now) ≤ FRAMES }
    ensures run { run_in forms.now result ≡ settle (root_of forms.now) }
    ensures well { IsWell forms.now result }
    ensures number { result.number ≡ 0 }
    ensures stage { result.stage ≡ stage_.Alive }
    ensures slots { result.slots.items ≡ slots.items }
{
    let mut frames = frames;
    let root = forms.len() - 1;
    let focus = focus_in(enter(forms, root, &mut frames));
    Thread {
        number: ThreadNo::new(0, 0),
        stage: Stage::Alive,
        frames,
        focus,
        slots,
    }
}

/// A thread goes on where its innermost term is done.
pub fn resume(forms: &[Form], thread: &mut Thread, done: Done)
    requires order { AreInOrder forms.now }
    requires inside { AreInside (length forms.now) thread.old.frames.items }
    requires room { depth (wrapped forms.now thread.old.frames.items (over done)) ≤ FRAMES }
    requires on { IsGoingOn thread.old.stage }
    requires capacity { FRAMES ≤ vec_capacity thread.old.frames }
    ensures run { run_in forms.now thread.new ≡ settle (wrapped forms.now thread.old.frames.items (over done)) }
    ensures well { IsWell forms.now thread.new }
    ensures number { thread.new.number ≡ thread.old.number }
    ensures stage { thread.new.stage ≡ thread.old.stage }
    ensures slots { thread.new.slots ≡ thread.old.slots }
{
    thread.focus = leave(forms, &mut thread.frames, done);
}
