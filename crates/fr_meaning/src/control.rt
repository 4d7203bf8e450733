//! How a thread goes on in its forms between two steps, as far as no step is needed.

ghost use Rattle.std.specs.Prelude.{◌≡◌, ◌<◌, ◌≤◌, ◌+◌, ◌++◌, ◌∷◌, [], List, length, drop, vec_len, vec_capacity, ◌↔◌, IsTrue};
ghost use Rattle.fr_meaning.specs.declared.frame.Frame.{Frame};
ghost use Rattle.fr_meaning.specs.declared.frame.Done.TheVariants as done;
ghost use Rattle.fr_meaning.specs.declared.frame.Entered.TheVariants as entered;
ghost use Rattle.fr_meaning.specs.declared.frame.Focus.TheVariants as focus;
ghost use Rattle.fr_plain.specs.Run.{settle, arith, block, last, leaves};
ghost use Rattle.fr_meaning.specs.Contexts.{fill};
ghost use Rattle.fr_forms.specs.Depths.{depth};
ghost use Rattle.fr_forms.specs.FormTerms.{AreInOrder, term_of, parts_of, items_at};
ghost use Rattle.fr_meaning.specs.DoneTerms.{over};
ghost use Rattle.fr_meaning.specs.FrameTerms.{Enters, EntersItem, waits_of, focus_of, wrapped, around, focus_run, AreInside, IsInside, HasLastPart, HasMadeWay};

use crate::frame::{Done, Entered, Focus, Frame};
use fr_base::{Op, Plain};
use fr_forms::Form;
use fr_plain::Value;
use std::slice;

// The term around it waits.
fn waits(entered: Entered) -> Entered
    ensures { result ≡ waits_of entered }
{
    match entered {
        Entered::Ended(done) => Entered::Waits(Focus::Over(done)),
        Entered::Waits(focus) => Entered::Waits(focus),
    }
}

/// The innermost term, done or not.
pub fn focus_in(entered: Entered) -> Focus
    ensures { result ≡ focus_of entered }
{
    match entered {
        Entered::Ended(done) => Focus::Over(done),
        Entered::Waits(focus) => focus,
    }
}

/// The frame on top goes.
pub fn leave_top(frames: &mut Vec<Frame>)
    ensures frames { (gs : List Frame) (g : Frame) → frames.old.items ≡ gs ++ g ∷ [] → frames.new.items ≡ gs }
    ensures capacity { vec_capacity frames.new ≡ vec_capacity frames.old }
{
    let _top = frames.pop();
}

// The frame stays, and its part is done.
fn stay(frames: &mut Vec<Frame>, frame: Frame, done: Done) -> Entered
    requires { vec_len frames.old < vec_capacity frames.old }
    ensures result { result ≡ entered.Waits (focus.Over done) }
    ensures frames { frames.new.items ≡ frames.old.items ++ frame ∷ [] }
    ensures capacity { vec_capacity frames.new ≡ vec_capacity frames.old }
{
    frames.push_reserved(frame);
    Entered::Waits(Focus::Over(done))
}

// The items of a block, and the body of a new thread; of another form, none.
fn items_of(forms: &[Form], node: usize) -> &[u32]
    requires { node < length forms.now }
    ensures { result.now ≡ items_at forms.now node }
{
    match &forms[node] {
        Form::Block(items, _) => items.as_slice(),
        Form::Spawn(_, body, _) => slice::from_ref(body),
        _ => &[],
    }
}

/// Whether the block has that item.
pub fn has_item(forms: &[Form], node: usize, next: usize) -> bool
    requires { node < length forms.now }
    ensures { IsTrue result ↔ (next < length (items_at forms.now node)) }
{
    next < items_of(forms, node).len()
}

// Whether the value was left by a step.
fn is_temporary(done: &Done) -> bool
    ensures { result ≡ leaves (over done.now) }
{
    match done {
        Done::Unit => false,
        Done::Number(_) => false,
        Done::Temp(_) => true,
    }
}

/// The last item is done, and so is the block, unless it has still slots to drop.
pub fn end_items(
    forms: &[Form],
    frames: &mut Vec<Frame>,
    left: u32,
    node: usize,
    next: usize,
    done: Done,
) -> Entered
    requires room { vec_len frames.old < vec_capacity frames.old }
    requires inside { node < length forms.now }
    requires last { drop next (items_at forms.now node) ≡ [] }
    requires frames { AreInside (length forms.now) frames.old.items }
    ensures enters { Enters forms.now frames.old.items frames.new.items (settle (block left (last (over done)))) result }
    ensures capacity { vec_capacity frames.new ≡ vec_capacity frames.old }
    ensures frames { AreInside (length forms.now) frames.new.items }
{
    if left == 0 {
        return Entered::Ended(done);
    }
    stay(frames, Frame::Block { left, node, next }, done)
}

// The constant of a number.
fn number_done(number: &i64) -> Done
    ensures { result ≡ done.Number number.now }
{
    Done::Number(*number)
}

/// Goes into the term of a form.
#[cycle(enter)]
pub fn enter(forms: &[Form], at: usize, frames: &mut Vec<Frame>) -> Entered
    requires order { AreInOrder forms.now }
    requires inside { at < length forms.now }
    requires frames { AreInside (length forms.now) frames.old.items }
    requires room { depth (wrapped forms.now frames.old.items (term_of forms.now at)) ≤ vec_capacity frames.old }
    ensures enters { Enters forms.now frames.old.items frames.new.items (settle (term_of forms.now at)) result }
    ensures capacity { vec_capacity frames.new ≡ vec_capacity frames.old }
    ensures frames { AreInside (length forms.now) frames.new.items }
{
    match &forms[at] {
        Form::Number(number) => Entered::Ended(number_done(number)),
        Form::Unit => Entered::Ended(Done::Unit),
        Form::Place => Entered::Ended(Done::Unit),
        Form::Read(place, take) => Entered::Waits(Focus::Read(*place, *take)),
        Form::Borrow(place, is_mut) => Entered::Waits(Focus::Borrow(*place, *is_mut)),
        Form::Spawn(_, _, _) => Entered::Waits(Focus::Spawn(at)),
        Form::Dup(place) => Entered::Waits(Focus::Dup(*place)),
        Form::Lock(place, _, _) => Entered::Waits(Focus::Lock(*place, at)),
        Form::Par(_, _) => Entered::Waits(Focus::Par(at)),
        Form::Box(part) => enter_part(forms, Frame::Box, *part as usize, frames),
        Form::Let(part) => enter_part(forms, Frame::Let, *part as usize, frames),
        Form::Print(part) => enter_part(forms, Frame::Print, *part as usize, frames),
        Form::Join(part) => enter_part(forms, Frame::Join, *part as usize, frames),
        Form::Mutex(part) => enter_part(forms, Frame::Mutex, *part as usize, frames),
        Form::Assign(to, part) => enter_part(forms, Frame::Assign(*to), *part as usize, frames),
        Form::Arith(op, left, right) => enter_operands(
            forms,
            *op,
            *left as usize,
            *right as usize,
            frames,
        ),
        Form::Block(_, lets) => enter_items(forms, at, 0, *lets, frames),
    }
}

// Goes into the last part of a term, or its only one, under its frame.
#[cycle(enter)]
fn enter_part(forms: &[Form], frame: Frame, part: usize, frames: &mut Vec<Frame>) -> Entered
    requires order { AreInOrder forms.now }
    requires last { HasLastPart frame }
    requires inside { part < length forms.now }
    requires frames { AreInside (length forms.now) frames.old.items }
    requires room { depth (wrapped forms.now frames.old.items (fill (around forms.now frame) (term_of forms.now part))) ≤ vec_capacity frames.old }
    ensures enters { Enters forms.now frames.old.items frames.new.items (settle (fill (around forms.now frame) (term_of forms.now part))) result }
    ensures capacity { vec_capacity frames.new ≡ vec_capacity frames.old }
    ensures frames { AreInside (length forms.now) frames.new.items }
{
    // The check asks that each type inside a frame is named where a frame is moved.
    let _inside: Option<(Plain, Value, Done)> = None;
    frames.push_reserved(frame);
    waits(enter(forms, part, frames))
}

// Goes into the left operand, and where that is done into the right one.
#[cycle(enter)]
fn enter_operands(
    forms: &[Form],
    op: Op,
    left: usize,
    right: usize,
    frames: &mut Vec<Frame>,
) -> Entered
    requires order { AreInOrder forms.now }
    requires left { left < length forms.now }
    requires right { right < length forms.now }
    requires frames { AreInside (length forms.now) frames.old.items }
    requires room { depth (wrapped forms.now frames.old.items (arith op (term_of forms.now left) (term_of forms.now right))) ≤ vec_capacity frames.old }
    ensures enters { Enters forms.now frames.old.items frames.new.items (settle (arith op (term_of forms.now left) (term_of forms.now right))) result }
    ensures capacity { vec_capacity frames.new ≡ vec_capacity frames.old }
    ensures frames { AreInside (length forms.now) frames.new.items }
{
    frames.push_reserved(Frame::Left { op, right });
    match enter(forms, left, frames) {
        Entered::Waits(focus) => Entered::Waits(focus),
        Entered::Ended(done) => {
            leave_top(frames);
            frames.push_reserved(Frame::Right { op, left: done });
            waits(enter(forms, right, frames))
        }
    }
}

/// Goes into the items of a block, from one of them on; the block has still to drop `left` slots.
#[cycle(enter)]
pub fn enter_items(
    forms: &[Form],
    node: usize,
    from: usize,
    left: u32,
    frames: &mut Vec<Frame>,
) -> Entered
    requires order { AreInOrder forms.now }
    requires inside { node < length forms.now }
    requires frames { AreInside (length forms.now) frames.old.items }
    requires room { depth (wrapped forms.now frames.old.items (block left (parts_of (term_of forms.now) (drop from (items_at forms.now node))))) ≤ vec_capacity frames.old }
    ensures enters { Enters forms.now frames.old.items frames.new.items (settle (block left (parts_of (term_of forms.now) (drop from (items_at forms.now node))))) result }
    ensures capacity { vec_capacity frames.new ≡ vec_capacity frames.old }
    ensures frames { AreInside (length forms.now) frames.new.items }
{
    let items = items_of(forms, node);
    'each: for next in from..items.len() {
        match enter_item(forms, node, items, next, left, frames) {
            Some(entered) => return entered,
            None => {}
        }
    }
    end_items(forms, frames, left, node, items.len(), Done::Unit)
}

// Goes into one item; nothing where it was a constant before a `;`.
#[cycle(enter)]
fn enter_item(
    forms: &[Form],
    node: usize,
    items: &[u32],
    next: usize,
    left: u32,
    frames: &mut Vec<Frame>,
) -> Option<Entered>
    requires order { AreInOrder forms.now }
    requires inside { node < length forms.now }
    requires items { items.now ≡ items_at forms.now node }
    requires next { next < length items.now }
    requires frames { AreInside (length forms.now) frames.old.items }
    requires room { depth (wrapped forms.now frames.old.items (block left (parts_of (term_of forms.now) (drop next items.now)))) ≤ vec_capacity frames.old }
    ensures enters { EntersItem forms.now frames.old.items frames.new.items (settle (block left (parts_of (term_of forms.now) (drop next items.now)))) (settle (block left (parts_of (term_of forms.now) (drop (next + 1) items.now)))) result }
    ensures capacity { vec_capacity frames.new ≡ vec_capacity frames.old }
    ensures frames { AreInside (length forms.now) frames.new.items }
{
    frames.push_reserved(Frame::Block {
        left,
        node,
        next: next + 1,
    });
    match enter(forms, items[next] as usize, frames) {
        Entered::Waits(focus) => Some(Entered::Waits(focus)),
        Entered::Ended(done) => {
            if next + 1 == items.len() {
                if left == 0 {
                    leave_top(frames);
                    return Some(Entered::Ended(done));
                }
                return Some(Entered::Waits(Focus::Over(done)));
            }
            if is_temporary(&done) {
                return Some(Entered::Waits(Focus::Over(done)));
            }
            leave_top(frames);
            None
        }
    }
}

// The part of the frame that was on top is done.
fn leave_frame(forms: &[Form], frames: &mut Vec<Frame>, frame: Frame, done: Done) -> Entered
    requires order { AreInOrder forms.now }
    requires frame { IsInside (length forms.now) frame }
    requires frames { AreInside (length forms.now) frames.old.items }
    requires room { depth (wrapped forms.now frames.old.items (fill (around forms.now frame) (over done))) ≤ vec_capacity frames.old }
    ensures enters { Enters forms.now frames.old.items frames.new.items (settle (fill (around forms.now frame) (over done))) result }
    ensures capacity { vec_capacity frames.new ≡ vec_capacity frames.old }
    ensures frames { AreInside (length forms.now) frames.new.items }
{
    if let Frame::Left { op, right } = frame {
        frames.push_reserved(Frame::Right { op, left: done });
        return waits(enter(forms, right, frames));
    }
    let Frame::Block { left, node, next } = frame else {
        return stay(frames, frame, done);
    };
    if !has_item(forms, node, next) {
        return end_items(forms, frames, left, node, next, done);
    }
    if is_temporary(&done) {
        return stay(frames, frame, done);
    }
    enter_items(forms, node, next, left, frames)
}

/// The innermost term is done: goes on as far as no step is needed.
pub fn leave(forms: &[Form], frames: &mut Vec<Frame>, done: Done) -> Focus
    requires order { AreInOrder forms.now }
    requires frames { AreInside (length forms.now) frames.old.items }
    requires room { depth (wrapped forms.now frames.old.items (over done)) ≤ vec_capacity frames.old }
    ensures settles { wrapped forms.now frames.new.items (focus_run forms.now result) ≡ settle (wrapped forms.now frames.old.items (over done)) }
    ensures way { HasMadeWay forms.now frames.new.items result }
    ensures capacity { vec_capacity frames.new ≡ vec_capacity frames.old }
    ensures frames { AreInside (length forms.now) frames.new.items }
{
    let mut done = done;
    'outer: while let Some(frame) = frames.pop() {
        match leave_frame(forms, frames, frame, done) {
            Entered::Ended(next) => done = next,
            Entered::Waits(focus) => return focus,
        }
    }
    Focus::Over(done)
}
