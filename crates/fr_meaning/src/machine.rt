//! One step of a thread, over its parts.

ghost use Rattle.std.specs.Prelude.{◌≡◌, ◌<◌, ◌≤◌, ◌+◌, ◌++◌, ◌∷◌, [], List, length, drop, vec_len, vec_capacity, Some, None, IsSome};
ghost use Rattle.fr_meaning.specs.declared.frame.Frame.{Frame};
ghost use Rattle.fr_plain.specs.Run.{settle, block, move};
ghost use Rattle.fr_plain.specs.Whole.{prints};
ghost use Rattle.fr_meaning.specs.Contexts.{fill, IsSettled};
ghost use Rattle.fr_forms.specs.Depths.{depth};
ghost use Rattle.fr_forms.specs.FormTerms.{AreInOrder, term_of, parts_of, items_at};
ghost use Rattle.fr_meaning.specs.DoneTerms.{over, value_of};
ghost use Rattle.fr_meaning.specs.FrameTerms.{wrapped, around, around_items, focus_run, AreInside, IsInside, HasLastPart, IsPastLeft, HasMadeWay, end_of};
ghost use Rattle.fr_acts.specs.Acting.{state};
ghost use Rattle.fr_meaning.specs.Threads.{IsGoingOn, IsWell, run_in};
ghost use Rattle.fr_meaning.specs.Turning.{turned, turns_to, term_step, frame_labels, focus_labels};

use crate::control::{enter_items, has_item, leave};
use crate::frame::{Done, Entered, Focus, Frame};
use crate::thread::Thread;
use fr_acts::{arith, assign, borrow, discard, drop_slot, make_box, print, read};
use fr_base::{Labels, Plain};
use fr_forms::Form;
use fr_plain::Value;
use fr_shared::{Heap, Released};

// The value of a term that is done.
pub fn value_in(done: Done) -> Value
    ensures { result ≡ value_of done }
{
    match done {
        Done::Unit => Value::Own(Plain::Unit),
        Done::Number(number) => Value::Own(Plain::Int(number)),
        Done::Temp(value) => value,
    }
}

/// How many labels the next step gives at most.
pub fn labels_ahead(focus: &Focus, frames: &[Frame]) -> usize
    ensures focus { focus_labels focus.now ≤ result }
    ensures frame { (gs : List Frame) (g : Frame) → frames.now ≡ gs ++ g ∷ [] → frame_labels g ≤ result }
{
    let place = match focus {
        Focus::Read(place, _) => place.depth as usize,
        Focus::Borrow(place, _) => place.depth as usize,
        Focus::Dup(place) => place.depth as usize,
        Focus::Lock(place, _) => place.depth as usize,
        Focus::Over(_) => 0,
        Focus::Spawn(_) => 0,
        Focus::Par(_) => 0,
        Focus::ParEnd => 0,
    };
    match frames {
        [.., Frame::Assign(to)] => place + to.depth as usize + 2,
        _ => place + 2,
    }
}

// A frame whose part is done.
#[derive(Clone, Copy)]
struct Filled {
    frame: Frame,
    done: Done,
}

// What the term of a frame does with its part: what it comes to, and what goes last with a value that is dropped.
fn operate(
    forms: &[Form],
    thread: &mut Thread,
    filled: Filled,
    heap: &mut Heap,
    output: &mut Vec<i64>,
    labels: &mut Labels,
) -> (Done, Released)
    requires part { HasLastPart filled.frame }
    requires goes { IsSome (turned (move (fill (around forms.now filled.frame) (over filled.done))) (state thread.old.number thread.old.slots.items heap.old.heap)) }
    requires slots { vec_len thread.old.slots < vec_capacity thread.old.slots }
    requires heap { heap.old.ready ≡ Some thread.old.number }
    requires output { vec_len output.old < vec_capacity output.old }
    requires labels { labels.old.items ≡ [] }
    requires room { frame_labels filled.frame ≤ labels.old.spare }
    ensures turns { turned (move (fill (around forms.now filled.frame) (over filled.done))) (state thread.old.number thread.old.slots.items heap.old.heap) ≡ turns_to (over result.0) thread.old.number thread.new.slots.items heap.new.heap labels.new.items result.1 }
    ensures output { output.new.items ≡ output.old.items ++ prints labels.new.items }
    ensures number { thread.new.number ≡ thread.old.number }
    ensures stage { thread.new.stage ≡ thread.old.stage }
    ensures frames { thread.new.frames ≡ thread.old.frames }
{
    let Filled { frame, done } = filled;
    let value = value_in(done);
    let number = thread.number;
    match frame {
        Frame::Box => {
            let made = make_box(number, &thread.slots, heap, labels, value);
            (Done::Temp(made), Released::Nothing)
        }
        Frame::Let => {
            thread.slots.push_reserved(value);
            (Done::Unit, Released::Nothing)
        }
        Frame::Print => {
            print(number, &thread.slots, heap, output, labels, value);
            (Done::Unit, Released::Nothing)
        }
        Frame::Assign(place) => {
            let released = assign(number, &mut thread.slots, heap, labels, place, value);
            (Done::Unit, released)
        }
        Frame::Right { op, left } => {
            let result = arith(number, &thread.slots, heap, op, value_in(left), value);
            (Done::Temp(result), Released::Nothing)
        }
        Frame::Join => unreachable!(),
        Frame::Mutex => unreachable!(),
        Frame::Locked => unreachable!(),
        Frame::Left { .. } => unreachable!(),
        Frame::Block { .. } => unreachable!(),
    }
}

// Goes on with the next item of a block.
fn next_item(forms: &[Form], frames: &mut Vec<Frame>, left: u32, node: usize, next: usize) -> Focus
    requires order { AreInOrder forms.now }
    requires inside { node < length forms.now }
    requires frames { AreInside (length forms.now) frames.old.items }
    requires room { depth (wrapped forms.now frames.old.items (block left (parts_of (term_of forms.now) (drop next (items_at forms.now node))))) ≤ vec_capacity frames.old }
    ensures settles { wrapped forms.now frames.new.items (focus_run forms.now result) ≡ settle (wrapped forms.now frames.old.items (block left (parts_of (term_of forms.now) (drop next (items_at forms.now node))))) }
    ensures way { HasMadeWay forms.now frames.new.items result }
    ensures capacity { vec_capacity frames.new ≡ vec_capacity frames.old }
    ensures frames { AreInside (length forms.now) frames.new.items }
{
    match enter_items(forms, node, next, left, frames) {
        Entered::Ended(done) => leave(forms, frames, done),
        Entered::Waits(focus) => focus,
    }
}

// A block in progress: how many slots it has still to drop, its form, and the item after the one in progress.
#[derive(Clone, Copy)]
struct Block {
    left: u32,
    node: usize,
    next: usize,
}

// A step of a block whose item is done: its value before a `;` is dropped, or after the last item a slot. Gives what goes last
// with what is dropped.
fn step_block(
    forms: &[Form],
    thread: &mut Thread,
    block: Block,
    done: Done,
    heap: &mut Heap,
    labels: &mut Labels,
) -> Released
    requires order { AreInOrder forms.now }
    requires inside { block.node < length forms.now }
    requires frames { AreInside (length forms.now) thread.old.frames.items }
    requires settled { IsSettled (fill (around_items block.left (term_of forms.now) (drop block.next (items_at forms.now block.node))) (over done)) }
    requires room { depth (wrapped forms.now thread.old.frames.items (fill (around_items block.left (term_of forms.now) (drop block.next (items_at forms.now block.node))) (over done))) ≤ vec_capacity thread.old.frames }
    requires goes { IsSome (turned (move (fill (around_items block.left (term_of forms.now) (drop block.next (items_at forms.now block.node))) (over done))) (state thread.old.number thread.old.slots.items heap.old.heap)) }
    requires labels { labels.old.items ≡ [] }
    requires spare { 2 ≤ labels.old.spare }
    ensures step { term_step (wrapped forms.now thread.old.frames.items (fill (around_items block.left (term_of forms.now) (drop block.next (items_at forms.now block.node))) (over done))) (state thread.old.number thread.old.slots.items heap.old.heap) ≡ turns_to (run_in forms.now thread.new) thread.old.number thread.new.slots.items heap.new.heap labels.new.items result }
    ensures silent { prints labels.new.items ≡ [] }
    ensures way { HasMadeWay forms.now thread.new.frames.items thread.new.focus }
    ensures capacity { vec_capacity thread.new.frames ≡ vec_capacity thread.old.frames }
    ensures frames { AreInside (length forms.now) thread.new.frames.items }
    ensures number { thread.new.number ≡ thread.old.number }
    ensures stage { thread.new.stage ≡ thread.old.stage }
{
    let Block { left, node, next } = block;
    if has_item(forms, node, next) {
        let released = discard(thread.number, &thread.slots, heap, labels, value_in(done));
        thread.focus = next_item(forms, &mut thread.frames, left, node, next);
        return released;
    }
    let released = drop_slot(thread.number, &mut thread.slots, heap, labels);
    thread.frames.push_reserved(Frame::Block {
        left: left - 1,
        node,
        next,
    });
    thread.focus = leave(forms, &mut thread.frames, done);
    released
}

// A step of the term of a frame, whose part is done. Gives what goes last with a value that is dropped.
fn step_frame(
    forms: &[Form],
    thread: &mut Thread,
    filled: Filled,
    heap: &mut Heap,
    output: &mut Vec<i64>,
    labels: &mut Labels,
) -> Released
    requires order { AreInOrder forms.now }
    requires frame { IsInside (length forms.now) filled.frame }
    requires past { IsPastLeft filled.frame }
    requires frames { AreInside (length forms.now) thread.old.frames.items }
    requires settled { IsSettled (fill (around forms.now filled.frame) (over filled.done)) }
    requires room { depth (wrapped forms.now thread.old.frames.items (fill (around forms.now filled.frame) (over filled.done))) ≤ vec_capacity thread.old.frames }
    requires goes { IsSome (turned (move (fill (around forms.now filled.frame) (over filled.done))) (state thread.old.number thread.old.slots.items heap.old.heap)) }
    requires slots { vec_len thread.old.slots < vec_capacity thread.old.slots }
    requires heap { heap.old.ready ≡ Some thread.old.number }
    requires output { vec_len output.old < vec_capacity output.old }
    requires labels { labels.old.items ≡ [] }
    requires spare { frame_labels filled.frame ≤ labels.old.spare }
    ensures step { term_step (wrapped forms.now thread.old.frames.items (fill (around forms.now filled.frame) (over filled.done))) (state thread.old.number thread.old.slots.items heap.old.heap) ≡ turns_to (run_in forms.now thread.new) thread.old.number thread.new.slots.items heap.new.heap labels.new.items result }
    ensures output { output.new.items ≡ output.old.items ++ prints labels.new.items }
    ensures way { HasMadeWay forms.now thread.new.frames.items thread.new.focus }
    ensures capacity { vec_capacity thread.new.frames ≡ vec_capacity thread.old.frames }
    ensures frames { AreInside (length forms.now) thread.new.frames.items }
    ensures number { thread.new.number ≡ thread.old.number }
    ensures stage { thread.new.stage ≡ thread.old.stage }
{
    if let Frame::Block { left, node, next } = filled.frame {
        let block = Block { left, node, next };
        return step_block(forms, thread, block, filled.done, heap, labels);
    }
    let (over, released) = operate(forms, thread, filled, heap, output, labels);
    thread.focus = leave(forms, &mut thread.frames, over);
    released
}

/// A step of a thread's term that the thread does alone, and not its end. Gives what goes last with a value that is dropped.
pub fn step_alone(
    forms: &[Form],
    thread: &mut Thread,
    heap: &mut Heap,
    output: &mut Vec<i64>,
    labels: &mut Labels,
) -> Released
    requires order { AreInOrder forms.now }
    requires well { IsWell forms.now thread.old }
    requires goes_on { IsGoingOn thread.old.stage }
    requires on { end_of thread.old.focus thread.old.frames.items ≡ None }
    requires goes { IsSome (term_step (run_in forms.now thread.old) (state thread.old.number thread.old.slots.items heap.old.heap)) }
    requires slots { vec_len thread.old.slots < vec_capacity thread.old.slots }
    requires heap { heap.old.ready ≡ Some thread.old.number }
    requires output { vec_len output.old < vec_capacity output.old }
    requires labels { labels.old.items ≡ [] }
    requires spare { focus_labels thread.old.focus ≤ labels.old.spare }
    requires frame_spare { (gs : List Frame) (g : Frame) → thread.old.frames.items ≡ gs ++ g ∷ [] → frame_labels g ≤ labels.old.spare }
    ensures step { term_step (run_in forms.now thread.old) (state thread.old.number thread.old.slots.items heap.old.heap) ≡ turns_to (run_in forms.now thread.new) thread.old.number thread.new.slots.items heap.new.heap labels.new.items result }
    ensures output { output.new.items ≡ output.old.items ++ prints labels.new.items }
    ensures well { IsWell forms.now thread.new }
    ensures number { thread.new.number ≡ thread.old.number }
    ensures stage { thread.new.stage ≡ thread.old.stage }
{
    match thread.focus {
        Focus::Read(place, take) => {
            let value = read(thread.number, &mut thread.slots, heap, labels, place, take);
            thread.focus = leave(forms, &mut thread.frames, Done::Temp(value));
            Released::Nothing
        }
        Focus::Spawn(_) => unreachable!(),
        Focus::Dup(_) => unreachable!(),
        Focus::Lock(_, _) => unreachable!(),
        Focus::Par(_) => unreachable!(),
        Focus::ParEnd => unreachable!(),
        Focus::Borrow(place, _) => {
            let value = borrow(thread.number, &thread.slots, heap, labels, place);
            thread.focus = leave(forms, &mut thread.frames, Done::Temp(value));
            Released::Nothing
        }
        Focus::Over(done) => {
            let Some(frame) = thread.frames.pop() else {
                unreachable!()
            };
            step_frame(forms, thread, Filled { frame, done }, heap, output, labels)
        }
    }
}
