//! Going into the bodies of locks and of pairs of threads.

ghost use Rattle.std.specs.Prelude.{◌≡◌, ℕ, ◌<◌, ◌≤◌, [], length, slice_index_or, vec_len, vec_capacity};
ghost use Rattle.fr_base.specs.declared.place.Lval.{Lval};
ghost use Rattle.fr_plain.specs.Run.{Run, settle, block, last, lock, locked};
ghost use Rattle.fr_plain.specs.Resolve.{dropping};
ghost use Rattle.fr_forms.specs.declared.forms.Form.TheVariants as form_;
ghost use Rattle.fr_forms.specs.Depths.{depth};
ghost use Rattle.fr_forms.specs.FormTerms.{AreInOrder, IsLock, body_run, term_of, items_at};
ghost use Rattle.fr_meaning.specs.declared.thread.Stage.TheVariants as stage_;
ghost use Rattle.fr_meaning.specs.FrameTerms.{Enters, wrapped, AreInside};
ghost use Rattle.fr_meaning.specs.Threads.{IsGoingOn, IsWell, run_in};

use crate::control::{end_items, enter, focus_in, leave_top};
use crate::frame::{Done, Entered, FRAMES, Frame};
use crate::thread::{Stage, Thread};
use fr_base::{Plain, ThreadNo};
use fr_forms::{Body, Form};
use fr_plain::Value;

/// Goes into a term as the last item of a block with slots to drop, whose form has no items.
pub fn enter_last(
    forms: &[Form],
    node: usize,
    part: usize,
    left: u32,
    frames: &mut Vec<Frame>,
) -> Entered
    requires order { AreInOrder forms.now }
    requires inside { node < length forms.now }
    requires none { items_at forms.now node ≡ [] }
    requires part { part < length forms.now }
    requires frames { AreInside (length forms.now) frames.old.items }
    requires room { depth (wrapped forms.now frames.old.items (block left (last (term_of forms.now part)))) ≤ vec_capacity frames.old }
    ensures enters { Enters forms.now frames.old.items frames.new.items (settle (block left (last (term_of forms.now part)))) result }
    ensures capacity { vec_capacity frames.new ≡ vec_capacity frames.old }
    ensures frames { AreInside (length forms.now) frames.new.items }
{
    // The check asks that each type inside a frame is named where a frame is moved.
    let _inside: Option<(Plain, Value, Done)> = None;
    frames.push_reserved(Frame::Block {
        left,
        node,
        next: 0,
    });
    match enter(forms, part, frames) {
        Entered::Waits(focus) => Entered::Waits(focus),
        Entered::Ended(done) => {
            leave_top(frames);
            end_items(forms, frames, left, node, 0, done)
        }
    }
}

// Goes into the body of a lock, which drops so many slots at its end.
fn enter_dropping(
    forms: &[Form],
    node: usize,
    part: usize,
    drops: u32,
    frames: &mut Vec<Frame>,
) -> Entered
    requires order { AreInOrder forms.now }
    requires inside { node < length forms.now }
    requires none { items_at forms.now node ≡ [] }
    requires part { part < length forms.now }
    requires frames { AreInside (length forms.now) frames.old.items }
    requires room { depth (wrapped forms.now frames.old.items (dropping drops (term_of forms.now part))) ≤ vec_capacity frames.old }
    ensures enters { Enters forms.now frames.old.items frames.new.items (settle (dropping drops (term_of forms.now part))) result }
    ensures capacity { vec_capacity frames.new ≡ vec_capacity frames.old }
    ensures frames { AreInside (length forms.now) frames.new.items }
{
    if drops == 0 {
        return enter(forms, part, frames);
    }
    enter_last(forms, node, part, drops, frames)
}

/// A thread goes into the body of a lock, under a frame whose end is the unlock.
pub fn enter_locked(forms: &[Form], thread: &mut Thread, node: usize)
    requires order { AreInOrder forms.now }
    requires inside { node < length forms.now }
    requires lock { (w : Lval) × IsLock w (slice_index_or forms.now node form_.Unit) }
    requires frames { AreInside (length forms.now) thread.old.frames.items }
    requires room { depth (wrapped forms.now thread.old.frames.items (term_of forms.now node)) ≤ FRAMES }
    requires on { IsGoingOn thread.old.stage }
    requires capacity { FRAMES ≤ vec_capacity thread.old.frames }
    ensures run { (w : Lval) (r : Run) → term_of forms.now node ≡ lock w r → run_in forms.now thread.new ≡ settle (wrapped forms.now thread.old.frames.items (locked r)) }
    ensures well { IsWell forms.now thread.new }
    ensures number { thread.new.number ≡ thread.old.number }
    ensures stage { thread.new.stage ≡ thread.old.stage }
    ensures slots { thread.new.slots ≡ thread.old.slots }
{
    let _inside: Option<(Plain, Value, Done)> = None;
    let Form::Lock(_, body, drops) = &forms[node] else {
        unreachable!()
    };
    thread.frames.push_reserved(Frame::Locked);
    thread.focus = focus_in(enter_dropping(
        forms,
        node,
        *body as usize,
        *drops,
        &mut thread.frames,
    ));
}

/// A new thread of a pair at the start of its body, with its captured values as slots.
pub fn start_body(
    forms: &[Form],
    node: usize,
    body: &Body,
    number: ThreadNo,
    frames: Vec<Frame>,
    slots: Vec<Value>,
) -> Thread
    requires order { AreInOrder forms.now }
    requires inside { node < length forms.now }
    requires none { items_at forms.now node ≡ [] }
    requires part { body.now.term < length forms.now }
    requires empty { frames.items ≡ [] }
    requires room { FRAMES ≤ vec_capacity frames }
    requires depth { depth (body_run (term_of forms.now) body.now) ≤ FRAMES }
    ensures run { run_in forms.now result ≡ settle (body_run (term_of forms.now) body.now) }
    ensures well { IsWell forms.now result }
    ensures number { result.number ≡ number }
    ensures stage { result.stage ≡ stage_.Owing }
    ensures slots { result.slots.items ≡ slots.items }
{
    let mut frames = frames;
    let focus = focus_in(enter_last(forms, node, body.term as usize, body.drops, &mut frames));
    Thread {
        number,
        stage: Stage::Owing,
        frames,
        focus,
        slots,
    }
}
