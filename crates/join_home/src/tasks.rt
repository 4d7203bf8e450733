//! The threads that a server started, by their numbers.

ghost use Rattle.std.specs.Prelude.{◌≡◌, ◌+◌, ◌≤◌, ◌<◌, ◌==◌, ℕ, [], true, false, None, Some, is_some, IsSome, IsOk, OnOk, OnErr, if◌then◌else◌};
ghost use Rattle.indexmap.specs.IndexMap.{spare};
ghost use Rattle.join_home.specs.Tasks.{state_of, with_state, without_task, noted, over_of, over_in, pair_ended, can_begin, begin, can_begin_pair, begin_pair, ended, ask, let_go_of};
ghost use Rattle.join_home.specs.Notes.{state_by, tasks_in, state_in_note, half_by, half_at, note_at, KnowsHalves};
ghost use Rattle.join_home.specs.declared.note.Note.TheVariants.{Branch};

use crate::answers::EndedAs;
use crate::note::Note;
use fr_base::{NoMemory, ThreadNo};
use heap_partition::Owned;
use indexmap::IndexMap;
use std::alloc::Global;
use std::marker::Model;

/// The threads that one server started, until they have ended and their results are gone. Contracts see as `state` the threads
/// in the order in which they began, each with what is noted of it, and beside it as `room` how many more threads or pairs
/// can begin without memory.
///
/// Each call takes constant time, with the threads found by their numbers, but for two. `reserve` clears the entries of threads that have
/// gone where it lacks room, in linear time, and makes room for as many as are left; so `n` threads that begin and go take linear time
/// together. A thread that begins under the number of one that has gone moves those between them. Only `reserve` takes memory.
#[derive(Drop)]
pub struct Tasks {
    notes: IndexMap<u64, Option<Note>>,
    // how many beginnings there is still room for, by what was reserved
    room: usize,
}

impl Model for Tasks {
    ghost use Rattle.std.specs.Prelude.{◌≤◌, ◌+◌};
    ghost use Rattle.indexmap.specs.IndexMap.{spare};
    ghost use Rattle.join_home.specs.Notes.{tasks_in, KnowsHalves};
    ghost use Rattle.join_home.specs.View.{TasksView};

    ghost Value = { TasksView };

    ghost view = { λ t. record { state = tasks_in t.notes.entries; room = t.room } };

    ghost invariant = { λ t. (t.room + t.room ≤ spare t.notes) × KnowsHalves t.notes.entries };
}

// What is noted of a thread.
fn note_of(notes: &IndexMap<u64, Option<Note>>, number: u64) -> Option<Note>
    ensures note { result ≡ note_at notes.now.entries number }
    ensures state { state_in_note result ≡ state_of (tasks_in notes.now.entries) number }
{
    // The check asks that each type inside a note is named where a note is moved.
    let _inside: Option<(Note, Owned)> = None;
    // The length is what says that no two keys are equal.
    let _len = notes.len();
    match notes.get(&number) {
        Some(note) => *note,
        None => None,
    }
}

// Notes another thing of a thread that is there; a branch stays in its pair.
fn set_note(notes: &mut IndexMap<u64, Option<Note>>, number: u64, note: Note)
    requires there { IsSome (note_at notes.old.entries number) }
    requires half { IsSome (half_by note) → half_at notes.old.entries number ≡ half_by note }
    ensures tasks { tasks_in notes.new.entries ≡ with_state (tasks_in notes.old.entries) number (state_by note) }
    ensures halves { KnowsHalves notes.old.entries → KnowsHalves notes.new.entries }
    ensures room { spare notes.new ≡ spare notes.old }
{
    let _inside: Option<Owned> = None;
    match notes.get_mut(&number) {
        Some(old) => *old = Some(note),
        None => unreachable!(),
    }
}

// Takes out a thread; its entry stays until it is cleared.
fn remove(notes: &mut IndexMap<u64, Option<Note>>, number: u64)
    ensures tasks { tasks_in notes.new.entries ≡ without_task (tasks_in notes.old.entries) number }
    ensures halves { KnowsHalves notes.old.entries → KnowsHalves notes.new.entries }
    ensures room { spare notes.old ≤ spare notes.new }
{
    let _inside: Option<(Note, Owned)> = None;
    if let Some(old) = notes.get_mut(&number) {
        *old = None;
    }
}

// Clears the entries of threads that have gone.
fn clear(notes: &mut IndexMap<u64, Option<Note>>)
    ensures tasks { tasks_in notes.new.entries ≡ tasks_in notes.old.entries }
    ensures halves { KnowsHalves notes.old.entries → KnowsHalves notes.new.entries }
    ensures room { spare notes.old ≤ spare notes.new }
{
    let _inside: Option<(Note, Owned)> = None;
    // The length is what says that no two keys are equal.
    let _len = notes.len();
    notes.retain(
        |_number: &u64, note: &mut Option<Note>| -> bool
            ensures { (result ≡ is_some note.old) × (note.new ≡ note.old) }
        { note.is_some() },
    );
}

// Makes so many free places. Where they lack, entries of threads that have gone are cleared first, and there is room for as many as
// are left, so that each clearing is paid by as many beginnings.
fn make_places(notes: &mut IndexMap<u64, Option<Note>>, places: usize) -> Result<(), NoMemory>
    ensures tasks { tasks_in notes.new.entries ≡ tasks_in notes.old.entries }
    ensures halves { KnowsHalves notes.old.entries → KnowsHalves notes.new.entries }
    ensures room { spare notes.old ≤ spare notes.new }
    ensures enough { OnOk result (places ≤ spare notes.new) }
{
    let _inside: Option<(Note, Owned)> = None;
    let mut more = places;
    if notes.capacity().saturating_sub(notes.len()) < places {
        clear(notes);
        more = places.max(notes.len());
    }
    match notes.reserve(more) {
        Ok(()) => Ok(()),
        Err(_) => Err(NoMemory),
    }
}

// Notes a thread that isn't there.
fn add(notes: &mut IndexMap<u64, Option<Note>>, number: u64, note: Note)
    requires room { 0 < spare notes.old }
    requires new { can_begin (tasks_in notes.old.entries) number ≡ true }
    ensures tasks { tasks_in notes.new.entries ≡ noted (tasks_in notes.old.entries) number (state_by note) }
    ensures notes { (k : ℕ) → note_at notes.new.entries k ≡ (if number == k then Some note else note_at notes.old.entries k) }
    ensures room { spare notes.old ≤ spare notes.new + 1 }
{
    let _inside: Option<(Note, Owned)> = None;
    // A thread of that number may have gone.
    notes.shift_remove(&number);
    match notes.insert(number, Some(note)) {
        Ok(_) => {}
        Err(_) => unreachable!(),
    }
}

// Notes a pair. The two aren't there and differ, and the parent has no other pair here.
fn add_pair(notes: &mut IndexMap<u64, Option<Note>>, parent: ThreadNo, a: ThreadNo, b: ThreadNo)
    requires room { 1 < spare notes.old }
    requires new { can_begin_pair (tasks_in notes.old.entries) parent a b ≡ true }
    ensures tasks { tasks_in notes.new.entries ≡ begin_pair (tasks_in notes.old.entries) parent a b }
    ensures halves { KnowsHalves notes.old.entries → KnowsHalves notes.new.entries }
    ensures room { spare notes.old ≤ spare notes.new + 2 }
{
    add(notes, a.number(), Note::Branch(parent, b, false));
    add(notes, b.number(), Note::Branch(parent, a, false));
}

// Whether it is a branch of that parent's pair that has ended.
fn is_over(note: &Note, parent: ThreadNo) -> bool
    ensures { result ≡ over_of parent (state_by note.now) }
{
    match note {
        Note::Branch(of, _, over) => parent == *of && *over,
        Note::Going | Note::Dropped | Note::Ended(_) | Note::Asked(_, _) => false,
    }
}

// Whether the other half of the pair of a branch that goes on has ended.
fn is_other_over(
    notes: &IndexMap<u64, Option<Note>>,
    number: u64,
    parent: ThreadNo,
    other: ThreadNo,
) -> bool
    requires branch { note_at notes.now.entries number ≡ Some (Branch parent other false) }
    requires halves { KnowsHalves notes.now.entries }
    ensures { over_in (tasks_in notes.now.entries) parent ≡ (if result then Some other else None) }
{
    let _inside: Option<Owned> = None;
    // The length is what says that no two keys are equal.
    let _len = notes.len();
    match note_of(notes, other.number()) {
        Some(note) => is_over(&note, parent),
        None => false,
    }
}

// A branch of that parent's pair has ended: it waits for the other one, or both go.
fn branch_ended(
    notes: &mut IndexMap<u64, Option<Note>>,
    number: u64,
    parent: ThreadNo,
    other: ThreadNo,
) -> EndedAs
    requires branch { note_at notes.old.entries number ≡ Some (Branch parent other false) }
    requires halves { KnowsHalves notes.old.entries }
    ensures tasks { pair_ended (tasks_in notes.old.entries) number parent (over_in (tasks_in notes.old.entries) parent) ≡ (tasks_in notes.new.entries, result) }
    ensures halves { KnowsHalves notes.new.entries }
    ensures room { spare notes.old ≤ spare notes.new }
{
    if is_other_over(notes, number, parent, other) {
        remove(notes, number);
        remove(notes, other.number());
        EndedAs::Both(parent)
    } else {
        set_note(notes, number, Note::Branch(parent, other, true));
        EndedAs::Kept
    }
}

impl Tasks {
    /// No thread, and no memory taken yet.
    pub fn new(alloc: Global) -> Tasks
        ensures state { result.state ≡ [] }
        ensures spare { result.room ≡ 0 }
    {
        Tasks {
            notes: IndexMap::new(alloc),
            room: 0,
        }
    }

    /// Makes room for `n` more threads or pairs to begin; a refusal changes nothing.
    pub fn reserve(&mut self, n: usize) -> Result<(), NoMemory>
        ensures state { self.new.state ≡ self.old.state }
        ensures room { OnOk result (n ≤ self.new.room) }
        ensures had_room { n ≤ self.old.room → IsOk result }
        ensures spare { self.old.room ≤ self.new.room }
        ensures refused { OnErr result (self.new ≡ self.old) }
    {
        if n <= self.room {
            return Ok(());
        }
        let places = n.checked_add(n).ok_or(NoMemory)?;
        make_places(&mut self.notes, places)?;
        self.room = n;
        Ok(())
    }

    /// A thread begins, and somebody has its task. There is room, and the thread isn't there.
    pub fn begin(&mut self, thread: ThreadNo)
        requires room { 0 < self.old.room }
        requires new { can_begin self.old.state thread ≡ true }
        ensures state { self.new.state ≡ begin self.old.state thread }
        ensures spare { self.new.room + 1 ≡ self.old.room }
    {
        add(&mut self.notes, thread.number(), Note::Going);
        self.room -= 1;
    }

    /// Two threads begin, and their parent waits for both. There is room, the two aren't there and differ, and the parent has no
    /// other pair here.
    pub fn begin_pair(&mut self, parent: ThreadNo, a: ThreadNo, b: ThreadNo)
        requires room { 0 < self.old.room }
        requires new { can_begin_pair self.old.state parent a b ≡ true }
        ensures state { self.new.state ≡ begin_pair self.old.state parent a b }
        ensures spare { self.new.room + 1 ≡ self.old.room }
    {
        add_pair(&mut self.notes, parent, a, b);
        self.room -= 1;
    }

    /// A thread has ended with that value, which goes where the answer says. The thread is there and hasn't ended before.
    pub fn ended(&mut self, thread: ThreadNo, value: Owned) -> EndedAs
        requires there { IsSome (ended self.old.state thread value) }
        ensures state { ended self.old.state thread value ≡ Some (self.new.state, result) }
        ensures spare { self.new.room ≡ self.old.room }
    {
        let number = thread.number();
        let note = note_of(&self.notes, number);
        match &note {
            Some(Note::Going) => {
                set_note(&mut self.notes, number, Note::Ended(value));
                EndedAs::Kept
            }
            Some(Note::Dropped) => {
                remove(&mut self.notes, number);
                EndedAs::LetGo(value)
            }
            Some(Note::Asked(server, by)) => {
                remove(&mut self.notes, number);
                EndedAs::Answer(*server, *by, value)
            }
            Some(Note::Branch(parent, other, false)) => {
                branch_ended(&mut self.notes, number, *parent, *other)
            }
            _ => unreachable!(),
        }
    }

    /// A thread at that server asks for the result, and has it exactly where the thread has ended. The thread is there, in no pair,
    /// and was neither asked for nor let go before.
    pub fn ask(&mut self, thread: ThreadNo, server: u8, by: ThreadNo) -> Option<Owned>
        requires there { IsSome (ask self.old.state thread server by) }
        ensures state { ask self.old.state thread server by ≡ Some (self.new.state, result) }
        ensures spare { self.new.room ≡ self.old.room }
    {
        let number = thread.number();
        match note_of(&self.notes, number) {
            Some(Note::Going) => {
                set_note(&mut self.notes, number, Note::Asked(server, by));
                None
            }
            Some(Note::Ended(value)) => {
                remove(&mut self.notes, number);
                Some(value)
            }
            _ => unreachable!(),
        }
    }

    /// The thread's task is dropped, and the result comes exactly where the thread has ended. The thread is there, in no pair, and
    /// was neither asked for nor let go before.
    pub fn let_go(&mut self, thread: ThreadNo) -> Option<Owned>
        requires there { IsSome (let_go_of self.old.state thread) }
        ensures state { let_go_of self.old.state thread ≡ Some (self.new.state, result) }
        ensures spare { self.new.room ≡ self.old.room }
    {
        let number = thread.number();
        match note_of(&self.notes, number) {
            Some(Note::Going) => {
                set_note(&mut self.notes, number, Note::Dropped);
                None
            }
            Some(Note::Ended(value)) => {
                remove(&mut self.notes, number);
                Some(value)
            }
            _ => unreachable!(),
        }
    }
}
