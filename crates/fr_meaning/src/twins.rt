//! Pairs of threads: their start, and their end.

ghost use Rattle.std.specs.Prelude.{◌≡◌, ◌≢◌, ◌<◌, ◌≤◌, ◌+◌, [], length, slice_index_or, vec_len, vec_capacity, Some, None, IsSome, IfOk, OnErr};
ghost use Rattle.fr_base.specs.declared.step.Fresh.TheVariants as fresh_;
ghost use Rattle.fr_plain.specs.Whole.{step};
ghost use Rattle.fr_forms.specs.declared.forms.Form.TheVariants as form_;
ghost use Rattle.fr_forms.specs.FormTerms.{AreInOrder, IsPar};
ghost use Rattle.fr_shared.specs.Places.{place_of};
ghost use Rattle.fr_meaning.specs.declared.thread.Thread.{Thread};
ghost use Rattle.fr_meaning.specs.declared.next.Next.TheVariants as next_;
ghost use Rattle.fr_meaning.specs.Next.{IsNext};
ghost use Rattle.fr_meaning.specs.Running.{plain_of, view_of, Stands};
ghost use Rattle.fr_meaning.specs.Twins.{StartsPair, ours_at, theirs_at};

use crate::bodies::start_body;
use crate::frame::{Done, FRAMES, Focus};
use crate::running::Running;
use crate::thread::{Stage, pass_captures, resume};
use crate::threads::{Made, Runner};
use fr_acts::note;
use fr_base::{Fresh, Label, Labels, NoMemory, ThreadNo};
use fr_forms::{Body, Form};
use fr_shared::Two;
use std::alloc::Global;

/// What was made for both threads of a pair.
#[derive(Drop)]
pub struct Twins {
    pub ours: Made,
    pub theirs: Made,
}

// How many slots the two threads of a form capture.
fn captured_by(forms: &[Form], node: usize) -> (usize, usize)
    requires { node < length forms.now }
    ensures ours { result.0 ≡ length (ours_at forms.now node) }
    ensures theirs { result.1 ≡ length (theirs_at forms.now node) }
{
    match &forms[node] {
        Form::Par(ours, theirs) => (ours.captures.len(), theirs.captures.len()),
        _ => (0, 0),
    }
}

// Room for a new thread that captures so many slots.
fn make(alloc: Global, number: ThreadNo, captures: usize) -> Result<Made, NoMemory>
    ensures number { IfOk result (λ m. m.number ≡ number) }
    ensures frames { IfOk result (λ m. m.frames.items ≡ []) }
    ensures frame_room { IfOk result (λ m. FRAMES ≤ vec_capacity m.frames) }
    ensures slots { IfOk result (λ m. m.slots.items ≡ []) }
    ensures slot_room { IfOk result (λ m. captures ≤ vec_capacity m.slots) }
{
    let mut frames = Vec::new(alloc);
    frames.reserve(FRAMES)?;
    let mut slots = Vec::new(alloc);
    slots.reserve(captures)?;
    Ok(Made {
        number,
        frames,
        slots,
    })
}

// The start of a pair under two new numbers, with what was made for both. The parent waits for its end.
fn start_pair(
    forms: &[Form],
    running: &mut Running,
    turn: &Runner,
    node: usize,
    twins: Twins,
    labels: &mut Labels,
)
    requires order { AreInOrder forms.now }
    requires stands { Stands forms.now running.old }
    requires place { place_of running.old.places.numbers turn.now.thread ≡ Some turn.now.at }
    requires inside { turn.now.at < length running.old.threads.items }
    requires node { node < length forms.now }
    requires par { IsPar (slice_index_or forms.now node form_.Unit) }
    requires starts { (x : Thread) → x ≡ slice_index_or running.old.threads.items turn.now.at x → StartsPair forms.now x node }
    requires new_ours { place_of running.old.places.numbers twins.ours.number ≡ None }
    requires new_theirs { place_of running.old.places.numbers twins.theirs.number ≡ None }
    requires apart { twins.ours.number ≢ twins.theirs.number }
    requires our_frames { twins.ours.frames.items ≡ [] }
    requires our_frame_room { FRAMES ≤ vec_capacity twins.ours.frames }
    requires our_slots { twins.ours.slots.items ≡ [] }
    requires our_slot_room { length (ours_at forms.now node) ≤ vec_capacity twins.ours.slots }
    requires their_frames { twins.theirs.frames.items ≡ [] }
    requires their_frame_room { FRAMES ≤ vec_capacity twins.theirs.frames }
    requires their_slots { twins.theirs.slots.items ≡ [] }
    requires their_slot_room { length (theirs_at forms.now node) ≤ vec_capacity twins.theirs.slots }
    requires thread_room { vec_len running.old.threads + 2 ≤ vec_capacity running.old.threads }
    requires place_room { 2 ≤ running.old.places.spare }
    requires pair_room { 0 < running.old.common.pairs.spare }
    requires labels { labels.old.items ≡ [] }
    requires label_room { 2 ≤ labels.old.spare }
    ensures step { step (plain_of forms.now running.old) turn.now.thread (fresh_.Threads twins.ours.number twins.theirs.number) ≡ Some (record { state = plain_of forms.now running.new; labels = labels.new.items }) }
    ensures stands { Stands forms.now running.new }
{
    let Twins { ours, theirs } = twins;
    let first = ours.number;
    let second = theirs.number;
    let mut our_slots = ours.slots;
    let mut their_slots = theirs.slots;
    let starting = &mut running.threads[turn.at];
    let Form::Par(our_box, their_box) = &forms[node] else {
        unreachable!()
    };
    let our_body: &Body = our_box;
    let their_body: &Body = their_box;
    pass_captures(&our_body.captures, &mut starting.slots, &mut our_slots);
    pass_captures(&their_body.captures, &mut starting.slots, &mut their_slots);
    starting.focus = Focus::ParEnd;
    let one = start_body(forms, node, our_body, first, ours.frames, our_slots);
    let other = start_body(forms, node, their_body, second, theirs.frames, their_slots);
    running.threads.push_reserved(one);
    running.threads.push_reserved(other);
    running.places.add(first);
    running.places.add(second);
    running.common.pairs.add(turn.thread, Two { first, second });
    note(labels, Label::Start(first));
    note(labels, Label::Start(second));
}

/// The start of the two threads of a form under two new names.
pub fn go_par(
    alloc: Global,
    forms: &[Form],
    running: &mut Running,
    turn: &Runner,
    node: usize,
    fresh: Fresh,
) -> Result<Labels, NoMemory>
    requires order { AreInOrder forms.now }
    requires stands { Stands forms.now running.old }
    requires place { place_of running.old.places.numbers turn.now.thread ≡ Some turn.now.at }
    requires inside { turn.now.at < length running.old.threads.items }
    requires next { (x : Thread) → x ≡ slice_index_or running.old.threads.items turn.now.at x → IsNext x.focus x.frames.items (next_.Par node) }
    requires goes { IsSome (step (plain_of forms.now running.old) turn.now.thread fresh) }
    ensures step { IfOk result (λ l. step (plain_of forms.now running.old) turn.now.thread fresh ≡ Some (record { state = plain_of forms.now running.new; labels = l.items })) }
    ensures stands { Stands forms.now running.new }
    ensures err { OnErr result (view_of forms.now running.new ≡ view_of forms.now running.old) }
{
    let Fresh::Threads(first, second) = fresh else {
        unreachable!()
    };
    let mut labels = Labels::new(alloc);
    labels.reserve(2)?;
    let captured = captured_by(forms, node);
    let ours = make(alloc, first, captured.0)?;
    let theirs = make(alloc, second, captured.1)?;
    running.threads.reserve(2)?;
    running.places.reserve_for(2)?;
    running.common.pairs.reserve()?;
    start_pair(
        forms,
        running,
        turn,
        node,
        Twins { ours, theirs },
        &mut labels,
    );
    Ok(labels)
}

/// The end of a pair whose two threads have ended: nobody will have their results again, and the parent goes on.
pub fn go_par_end(forms: &[Form], running: &mut Running, turn: &Runner)
    requires order { AreInOrder forms.now }
    requires stands { Stands forms.now running.old }
    requires place { place_of running.old.places.numbers turn.now.thread ≡ Some turn.now.at }
    requires inside { turn.now.at < length running.old.threads.items }
    requires next { (x : Thread) → x ≡ slice_index_or running.old.threads.items turn.now.at x → IsNext x.focus x.frames.items next_.ParEnd }
    requires goes { IsSome (step (plain_of forms.now running.old) turn.now.thread fresh_.None) }
    ensures step { step (plain_of forms.now running.old) turn.now.thread fresh_.None ≡ Some (record { state = plain_of forms.now running.new; labels = [] }) }
    ensures stands { Stands forms.now running.new }
{
    let Some(two) = running.common.pairs.of(turn.thread) else {
        unreachable!()
    };
    let Some(first) = running.places.at(two.first) else {
        unreachable!()
    };
    let Some(second) = running.places.at(two.second) else {
        unreachable!()
    };
    running.threads[first].stage = Stage::Over;
    running.threads[second].stage = Stage::Over;
    running.common.pairs.remove(turn.thread);
    resume(forms, &mut running.threads[turn.at], Done::Unit);
}
