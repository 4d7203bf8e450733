//! What threads do to each other.

ghost use Rattle.std.specs.Prelude.{◌≡◌, ◌<◌, ◌≤◌, suc, [], List, ℕ, ℤ, length, Some, None, slice_index_or, vec_len, vec_capacity};
ghost use Rattle.fr_base.specs.declared.step.Fresh.TheVariants as fresh;
ghost use Rattle.fr_plain.specs.MachineThreads.{Pair};
ghost use Rattle.fr_plain.specs.Threads.{release, release_by};
ghost use Rattle.fr_plain.specs.Whole.{step};
ghost use Rattle.fr_acts.specs.MutexActs.{last_of};
ghost use Rattle.fr_meaning.specs.Beside.{beside_of};
ghost use Rattle.fr_meaning.specs.declared.thread.Thread.{Thread};
ghost use Rattle.fr_forms.specs.FormTerms.{AreInOrder, captures_at};
ghost use Rattle.fr_meaning.specs.FrameTerms.{end_of};
ghost use Rattle.fr_shared.specs.Places.{place_of};
ghost use Rattle.fr_forms.specs.declared.forms.Form.{Form};
ghost use Rattle.fr_meaning.specs.Running.{plain_of, AreParents, Stands};
ghost use Rattle.fr_meaning.specs.Threads.{AreWell, CanGo, IsEnded, IsGoingOn, Joins, Starts, after_release, released_heap, released_last, whole, numbers_of};

use crate::common::Common;
use crate::control::leave_top;
use crate::frame::{Done, FRAMES, Frame};
use crate::machine::step_alone;
use crate::running::Running;
use crate::thread::{Stage, Thread, end, pass_captures, resume, start, take_result};
use fr_acts::{drop_share, drop_value, note};
use fr_base::{Label, Labels, Plain, ThreadNo};
use fr_forms::Form;
use fr_plain::Value;
use fr_shared::{Heap, Places, Released};

// Lets a thread go whose task was dropped. Gives what goes last with its result.
fn release_thread(thread: &mut Thread, heap: &mut Heap) -> Released
    ensures stage { thread.new.stage ≡ after_release thread.old.stage }
    ensures heap { heap.new.heap ≡ released_heap heap.old.heap thread.old.stage }
    ensures last { result ≡ released_last heap.old.heap thread.old.stage }
    ensures number { thread.new.number ≡ thread.old.number }
    ensures frames { thread.new.frames ≡ thread.old.frames }
    ensures focus { thread.new.focus ≡ thread.old.focus }
    ensures slots { thread.new.slots ≡ thread.old.slots }
{
    match thread.stage {
        Stage::Owing => {
            thread.stage = Stage::Loose;
            Released::Nothing
        }
        Stage::Ended(value) => {
            thread.stage = Stage::Over;
            drop_value(heap, value)
        }
        Stage::Alive => Released::Nothing,
        Stage::Loose => Released::Nothing,
        Stage::Over => Released::Nothing,
    }
}

// Lets one thing go: a thread whose task was dropped, or a share of a mutex. Gives what goes last with its result or content.
fn release_one(
    threads: &mut Vec<Thread>,
    places: &Places,
    common: &mut Common,
    released: Released,
) -> Released
    requires { places.now.numbers ≡ numbers_of threads.old.items }
    ensures goes { (fs : List Form) (output : List ℤ) (k : ℕ) → release_by (suc k) (whole fs threads.old.items (beside_of common.old) output) (last_of released) ≡ release_by k (whole fs threads.new.items (beside_of common.new) output) (last_of result) }
    ensures numbers { numbers_of threads.new.items ≡ numbers_of threads.old.items }
    ensures well { (fs : List Form) → AreWell fs threads.old.items → AreWell fs threads.new.items }
    ensures pairs { common.new.pairs ≡ common.old.pairs }
    ensures parents { (ps : List Pair) → AreParents ps threads.old.items → AreParents ps threads.new.items }
{
    match released {
        Released::Nothing => Released::Nothing,
        Released::Share(mutex) => drop_share(&mut common.heap, &mut common.mutexes, mutex),
        Released::Task(number) => match places.at(number) {
            Some(place) => release_thread(&mut threads[place], &mut common.heap),
            None => Released::Nothing,
        },
    }
}

/// Lets go what goes last with a dropped value: the thread of a task, or a share of a mutex; and with a result or a content that
/// is dropped what goes last with that, and so on. Takes time in the threads and mutexes that go.
pub fn let_go(threads: &mut Vec<Thread>, places: &Places, common: &mut Common, released: Released)
    requires { places.now.numbers ≡ numbers_of threads.old.items }
    ensures whole { (fs : List Form) (output : List ℤ) → whole fs threads.new.items (beside_of common.new) output ≡ release (whole fs threads.old.items (beside_of common.old) output) (last_of released) }
    ensures numbers { numbers_of threads.new.items ≡ numbers_of threads.old.items }
    ensures well { (fs : List Form) → AreWell fs threads.old.items → AreWell fs threads.new.items }
    ensures pairs { common.new.pairs ≡ common.old.pairs }
    ensures parents { (ps : List Pair) → AreParents ps threads.old.items → AreParents ps threads.new.items }
{
    let many = threads.len() + common.mutexes.len();
    let mut last = released;
    'each: for gone in 0..many {
        if let Released::Nothing = last {
            return;
        }
        last = release_one(threads, places, common, last);
    }
}

/// One of the threads that run: its number, and its place among them.
#[derive(Clone, Copy)]
pub struct Runner {
    pub thread: ThreadNo,
    pub at: usize,
}

/// What was made for a new thread: its number, and room for its frames and its slots.
#[derive(Drop)]
pub struct Made {
    pub number: ThreadNo,
    pub frames: Vec<Frame>,
    pub slots: Vec<Value>,
}

/// A step of a thread that it does alone, and not its end.
pub fn go_alone(forms: &[Form], running: &mut Running, turn: &Runner, labels: &mut Labels)
    requires order { AreInOrder forms.now }
    requires stands { Stands forms.now running.old }
    requires place { place_of running.old.places.numbers turn.now.thread ≡ Some turn.now.at }
    requires inside { turn.now.at < length running.old.threads.items }
    requires goes { (x : Thread) → x ≡ slice_index_or running.old.threads.items turn.now.at x → CanGo forms.now x running.old.common.heap labels.old }
    requires output { vec_len running.old.output < vec_capacity running.old.output }
    requires labels { labels.old.items ≡ [] }
    ensures step { step (plain_of forms.now running.old) turn.now.thread fresh.None ≡ Some (record { state = plain_of forms.now running.new; labels = labels.new.items }) }
    ensures places { running.new.places ≡ running.old.places }
    ensures stands { Stands forms.now running.new }
{
    let released = step_alone(
        forms,
        &mut running.threads[turn.at],
        &mut running.common.heap,
        &mut running.output,
        labels,
    );
    let_go(
        &mut running.threads,
        &running.places,
        &mut running.common,
        released,
    );
}

/// The end of a thread whose term is done.
pub fn go_end(forms: &[Form], running: &mut Running, turn: &Runner, labels: &mut Labels, done: Done)
    requires stands { Stands forms.now running.old }
    requires place { place_of running.old.places.numbers turn.now.thread ≡ Some turn.now.at }
    requires inside { turn.now.at < length running.old.threads.items }
    requires on { (x : Thread) → x ≡ slice_index_or running.old.threads.items turn.now.at x → IsGoingOn x.stage × (end_of x.focus x.frames.items ≡ Some done) }
    requires labels { labels.old.items ≡ [] }
    requires room { 2 ≤ labels.old.spare }
    ensures step { step (plain_of forms.now running.old) turn.now.thread fresh.None ≡ Some (record { state = plain_of forms.now running.new; labels = labels.new.items }) }
    ensures places { running.new.places ≡ running.old.places }
    ensures stands { Stands forms.now running.new }
{
    let released = end(
        &mut running.threads[turn.at],
        &mut running.common.heap,
        labels,
        done,
    );
    let_go(
        &mut running.threads,
        &running.places,
        &mut running.common,
        released,
    );
}

/// A join of a thread that has ended: the term goes on with its result, which nobody will have again.
pub fn go_join(forms: &[Form], running: &mut Running, turn: &Runner, joined: &Runner)
    requires order { AreInOrder forms.now }
    requires stands { Stands forms.now running.old }
    requires place { place_of running.old.places.numbers turn.now.thread ≡ Some turn.now.at }
    requires inside { turn.now.at < length running.old.threads.items }
    requires other_place { place_of running.old.places.numbers joined.now.thread ≡ Some joined.now.at }
    requires other_inside { joined.now.at < length running.old.threads.items }
    requires joins { (x : Thread) → x ≡ slice_index_or running.old.threads.items turn.now.at x → Joins x joined.now.thread }
    requires ended { (z : Thread) → z ≡ slice_index_or running.old.threads.items joined.now.at z → IsEnded z.stage }
    ensures step { step (plain_of forms.now running.old) turn.now.thread fresh.None ≡ Some (record { state = plain_of forms.now running.new; labels = [] }) }
    ensures places { running.new.places ≡ running.old.places }
    ensures stands { Stands forms.now running.new }
{
    let value = take_result(&mut running.threads[joined.at]);
    let joining = &mut running.threads[turn.at];
    leave_top(&mut joining.frames);
    resume(forms, joining, Done::Temp(value));
}

/// The start of a thread under a new number, with what was made for it.
pub fn go_start(
    forms: &[Form],
    running: &mut Running,
    turn: &Runner,
    node: usize,
    made: Made,
    labels: &mut Labels,
)
    requires order { AreInOrder forms.now }
    requires stands { Stands forms.now running.old }
    requires place { place_of running.old.places.numbers turn.now.thread ≡ Some turn.now.at }
    requires inside { turn.now.at < length running.old.threads.items }
    requires node { node < length forms.now }
    requires starts { (x : Thread) → x ≡ slice_index_or running.old.threads.items turn.now.at x → Starts forms.now x node }
    requires new { place_of running.old.places.numbers made.number ≡ None }
    requires frames { made.frames.items ≡ [] }
    requires frame_room { FRAMES ≤ vec_capacity made.frames }
    requires slots { made.slots.items ≡ [] }
    requires slot_room { length (captures_at forms.now node) ≤ vec_capacity made.slots }
    requires thread_room { vec_len running.old.threads < vec_capacity running.old.threads }
    requires place_room { 0 < running.old.places.spare }
    requires labels { labels.old.items ≡ [] }
    requires label_room { 0 < labels.old.spare }
    ensures step { step (plain_of forms.now running.old) turn.now.thread (fresh.Thread made.number) ≡ Some (record { state = plain_of forms.now running.new; labels = labels.new.items }) }
    ensures stands { Stands forms.now running.new }
{
    let Made {
        number,
        frames,
        mut slots,
    } = made;
    let starting = &mut running.threads[turn.at];
    let Form::Spawn(captures, _, drops) = &forms[node] else {
        unreachable!()
    };
    pass_captures(captures, &mut starting.slots, &mut slots);
    resume(forms, starting, Done::Temp(Value::Own(Plain::Task(number))));
    let started = start(forms, node, *drops, number, frames, slots);
    running.threads.push_reserved(started);
    running.places.add(number);
    note(labels, Label::Start(number));
}
