//! All that runs: its steps, with the room for each made first.

ghost use Rattle.std.specs.Prelude.{◌≡◌, ◌<◌, ◌∷◌, [], List, length, slice_index_or, vec_len, vec_capacity, Some, None, IsSome, IfOk, OnOk, OnErr};
ghost use Rattle.fr_base.specs.declared.step.Fresh.TheVariants as fresh_;
ghost use Rattle.fr_plain.specs.Whole.{step};
ghost use Rattle.fr_forms.specs.declared.forms.Form.{Form};
ghost use Rattle.fr_meaning.specs.declared.thread.Thread.{Thread};
ghost use Rattle.fr_meaning.specs.declared.next.Next.TheVariants as next_;
ghost use Rattle.fr_forms.specs.FormTerms.{AreInOrder, captures_at};
ghost use Rattle.fr_meaning.specs.Next.{IsNext};
ghost use Rattle.fr_shared.specs.Places.{place_of};
ghost use Rattle.fr_meaning.specs.Threads.{IsWell};
ghost use Rattle.fr_meaning.specs.Beside.{beside_of};
ghost use Rattle.fr_meaning.specs.Entries.{entry_of};
ghost use Rattle.fr_meaning.specs.Running.{plain_of, view_of, Stands};

use crate::common::Common;
use crate::frame::{Done, FRAMES};
use crate::locks::{go_dup, go_lock, go_making, go_unlock};
use crate::machine::labels_ahead;
use crate::next::{Next, next_of, task_named_by};
use crate::thread::Thread;
use crate::threads::{Made, Runner, go_alone, go_end, go_join, go_start};
use crate::twins::{go_par, go_par_end};
use fr_base::{Fresh, Labels, NoMemory, ThreadNo};
use fr_forms::Form;
use fr_plain::Value;
use fr_shared::{Heap, Mutexes, Pairs, Places};
use std::alloc::Global;

/// The threads in the order in which they were started, the place of each, what they have in common, and the output.
#[derive(Drop)]
pub struct Running {
    pub threads: Vec<Thread>,
    pub places: Places,
    pub common: Common,
    pub output: Vec<i64>,
}

/// A thread alone over an empty heap, with no mutex and no pair.
pub fn run_alone(alloc: Global, main: Thread) -> Result<Running, NoMemory>
    ensures threads { IfOk result (λ r. r.threads.items ≡ main ∷ []) }
    ensures places { IfOk result (λ r. r.places.numbers ≡ main.number ∷ []) }
    ensures common { IfOk result (λ r. beside_of r.common ≡ record { heap = record { thread = 0; cells = [] } ∷ []; mutexes = []; pairs = [] }) }
    ensures output { IfOk result (λ r. r.output.items ≡ []) }
{
    let mut places = Places::new(alloc);
    places.reserve()?;
    places.add(main.number);
    let common = Common {
        heap: Heap::new(alloc)?,
        mutexes: Mutexes::new(alloc),
        pairs: Pairs::new(alloc),
    };
    let mut threads = Vec::new(alloc);
    threads.reserve(1)?;
    threads.push_reserved(main);
    Ok(Running {
        threads,
        places,
        common,
        output: Vec::new(alloc),
    })
}

// Makes room for a slot more.
fn reserve_slot(thread: &mut Thread) -> Result<(), NoMemory>
    ensures entry { entry_of thread.new ≡ entry_of thread.old }
    ensures well { (fs : List Form) → IsWell fs thread.old → IsWell fs thread.new }
    ensures room { OnOk result (vec_len thread.new.slots < vec_capacity thread.new.slots) }
{
    thread.slots.reserve(1)?;
    Ok(())
}

// Makes room for what an act of the thread alone makes: a slot, an object and a number of the output.
fn reserve_act(running: &mut Running, turn: &Runner) -> Result<(), NoMemory>
    requires inside { turn.now.at < length running.old.threads.items }
    ensures view { (fs : List Form) → view_of fs running.new ≡ view_of fs running.old }
    ensures places { running.new.places ≡ running.old.places }
    ensures stands { (fs : List Form) → Stands fs running.old → Stands fs running.new }
    ensures slots { OnOk result ((x : Thread) → x ≡ slice_index_or running.new.threads.items turn.now.at x → vec_len x.slots < vec_capacity x.slots) }
    ensures ready { OnOk result (running.new.common.heap.ready ≡ Some turn.now.thread) }
    ensures output { OnOk result (vec_len running.new.output < vec_capacity running.new.output) }
{
    reserve_slot(&mut running.threads[turn.at])?;
    running.common.heap.reserve(turn.thread)?;
    running.output.reserve(1)?;
    Ok(())
}

// An act of the thread alone.
fn go_own(
    alloc: Global,
    forms: &[Form],
    running: &mut Running,
    turn: &Runner,
) -> Result<Labels, NoMemory>
    requires order { AreInOrder forms.now }
    requires stands { Stands forms.now running.old }
    requires place { place_of running.old.places.numbers turn.now.thread ≡ Some turn.now.at }
    requires inside { turn.now.at < length running.old.threads.items }
    requires next { (x : Thread) → x ≡ slice_index_or running.old.threads.items turn.now.at x → IsNext x.focus x.frames.items next_.Own }
    requires goes { IsSome (step (plain_of forms.now running.old) turn.now.thread fresh_.None) }
    ensures step { IfOk result (λ l. step (plain_of forms.now running.old) turn.now.thread fresh_.None ≡ Some (record { state = plain_of forms.now running.new; labels = l.items })) }
    ensures stands { Stands forms.now running.new }
    ensures err { OnErr result (view_of forms.now running.new ≡ view_of forms.now running.old) }
{
    reserve_act(running, turn)?;
    let mut labels = Labels::new(alloc);
    let at = turn.at;
    labels.reserve(labels_ahead(&running.threads[at].focus, &running.threads[at].frames))?;
    go_alone(forms, running, turn, &mut labels);
    Ok(labels)
}

// The end of the thread.
fn go_to_end(
    alloc: Global,
    forms: &[Form],
    running: &mut Running,
    turn: &Runner,
    done: Done,
) -> Result<Labels, NoMemory>
    requires order { AreInOrder forms.now }
    requires stands { Stands forms.now running.old }
    requires place { place_of running.old.places.numbers turn.now.thread ≡ Some turn.now.at }
    requires inside { turn.now.at < length running.old.threads.items }
    requires next { (x : Thread) → x ≡ slice_index_or running.old.threads.items turn.now.at x → IsNext x.focus x.frames.items (next_.End done) }
    requires goes { IsSome (step (plain_of forms.now running.old) turn.now.thread fresh_.None) }
    ensures step { IfOk result (λ l. step (plain_of forms.now running.old) turn.now.thread fresh_.None ≡ Some (record { state = plain_of forms.now running.new; labels = l.items })) }
    ensures stands { Stands forms.now running.new }
    ensures err { OnErr result (view_of forms.now running.new ≡ view_of forms.now running.old) }
{
    let mut labels = Labels::new(alloc);
    labels.reserve(2)?;
    go_end(forms, running, turn, &mut labels, done);
    Ok(labels)
}

// A join of the thread whose task the value is.
fn go_joining(forms: &[Form], running: &mut Running, turn: &Runner, value: Value)
    requires order { AreInOrder forms.now }
    requires stands { Stands forms.now running.old }
    requires place { place_of running.old.places.numbers turn.now.thread ≡ Some turn.now.at }
    requires inside { turn.now.at < length running.old.threads.items }
    requires next { (x : Thread) → x ≡ slice_index_or running.old.threads.items turn.now.at x → IsNext x.focus x.frames.items (next_.Join value) }
    requires goes { IsSome (step (plain_of forms.now running.old) turn.now.thread fresh_.None) }
    ensures step { step (plain_of forms.now running.old) turn.now.thread fresh_.None ≡ Some (record { state = plain_of forms.now running.new; labels = [] }) }
    ensures stands { Stands forms.now running.new }
{
    let Some(thread) = task_named_by(&value) else {
        unreachable!()
    };
    let Some(at) = running.places.at(thread) else {
        unreachable!()
    };
    let joined = Runner { thread, at };
    go_join(forms, running, turn, &joined);
}

// How many slots the new thread of a form captures.
fn captured(forms: &[Form], node: usize) -> usize
    requires { node < length forms.now }
    ensures { result ≡ length (captures_at forms.now node) }
{
    match &forms[node] {
        Form::Spawn(captures, _, _) => captures.len(),
        _ => 0,
    }
}

// The start of a thread under a new name.
fn go_starting(
    alloc: Global,
    forms: &[Form],
    running: &mut Running,
    turn: &Runner,
    node: usize,
    fresh: Fresh,
) -> Result<Labels, NoMemory>
    requires order { AreInOrder forms.now }
    requires stands { Stands forms.now running.old }
    requires place { place_of running.old.places.numbers turn.now.thread ≡ Some turn.now.at }
    requires inside { turn.now.at < length running.old.threads.items }
    requires next { (x : Thread) → x ≡ slice_index_or running.old.threads.items turn.now.at x → IsNext x.focus x.frames.items (next_.Start node) }
    requires goes { IsSome (step (plain_of forms.now running.old) turn.now.thread fresh) }
    ensures step { IfOk result (λ l. step (plain_of forms.now running.old) turn.now.thread fresh ≡ Some (record { state = plain_of forms.now running.new; labels = l.items })) }
    ensures stands { Stands forms.now running.new }
    ensures err { OnErr result (view_of forms.now running.new ≡ view_of forms.now running.old) }
{
    let Fresh::Thread(number) = fresh else {
        unreachable!()
    };
    let mut labels = Labels::new(alloc);
    labels.reserve(1)?;
    let mut frames = Vec::new(alloc);
    frames.reserve(FRAMES)?;
    let mut slots = Vec::new(alloc);
    slots.reserve(captured(forms, node))?;
    running.threads.reserve(1)?;
    running.places.reserve()?;
    let made = Made {
        number,
        frames,
        slots,
    };
    go_start(forms, running, turn, node, made, &mut labels);
    Ok(labels)
}

/// One step of a thread under these new names. Where memory is refused nothing is changed but what room there is.
pub fn go(
    alloc: Global,
    forms: &[Form],
    running: &mut Running,
    thread: ThreadNo,
    fresh: Fresh,
) -> Result<Labels, NoMemory>
    requires order { AreInOrder forms.now }
    requires stands { Stands forms.now running.old }
    requires goes { IsSome (step (plain_of forms.now running.old) thread fresh) }
    ensures step { IfOk result (λ l. step (plain_of forms.now running.old) thread fresh ≡ Some (record { state = plain_of forms.now running.new; labels = l.items })) }
    ensures stands { Stands forms.now running.new }
    ensures err { OnErr result (view_of forms.now running.new ≡ view_of forms.now running.old) }
{
    let Some(at) = running.places.at(thread) else {
        unreachable!()
    };
    let turn = Runner { thread, at };
    match next_of(&running.threads[at].focus, &running.threads[at].frames) {
        Next::End(done) => go_to_end(alloc, forms, running, &turn, done),
        Next::Join(value) => {
            go_joining(forms, running, &turn, value);
            Ok(Labels::new(alloc))
        }
        Next::Start(node) => go_starting(alloc, forms, running, &turn, node, fresh),
        Next::Own => go_own(alloc, forms, running, &turn),
        Next::Mutex(value) => go_making(alloc, forms, running, &turn, value, fresh),
        Next::Dup(place) => go_dup(alloc, forms, running, &turn, place),
        Next::Lock(place, node) => go_lock(alloc, forms, running, &turn, place, node),
        Next::Unlock(done) => go_unlock(alloc, forms, running, &turn, done),
        Next::Par(node) => go_par(alloc, forms, running, &turn, node, fresh),
        Next::ParEnd => {
            go_par_end(forms, running, &turn);
            Ok(Labels::new(alloc))
        }
    }
}
