//! The threads that stand at a server.

ghost use Rattle.std.specs.Prelude.{◌≡◌, ◌-◌, ◌<◌, ◌≤◌, ◌^◌, true, false, [], ◌∷◌, None, Some, length, vec_len, slice_get, option_map, IfSome, IsTrue, IsOk, IsSome, OnOk, OnErr};
ghost use Rattle.std.specs.Vec.{vec_capacity};
ghost use Rattle.rank_map.specs.Places.{has_place, item_at, with_place, with_free};
ghost use Rattle.server_model.specs.Events.{can_step, has_phase, is_ready};
ghost use Rattle.server_model.specs.Work.{thread_in, set_thread, with_thread, without_thread};
ghost use Rattle.thread_state.specs.View.{ThreadState};
ghost use Rattle.server_model.specs.Questions.{runnable_in, wait_of, waits_among, active_in, movable_in};
ghost use Rattle.server_parts.specs.Growing.{HaveThreadsGrown};
ghost use Rattle.server_parts.specs.Seen.{in_runnable, in_waiting, in_movable};
ghost use Rattle.server_parts.specs.Sites.{HasItems};
ghost use Rattle.server_parts.specs.Threads.{states, steps, waits, moves};

use crate::kind::Kind;
use crate::marks::Marks;
use fr_base::{NoMemory, ThreadNo, Wait};
use server_index::Table;
use std::alloc::Global;
use std::marker::Model;
use thread_state::{BoxedThread, Phase, Thread};

/// The threads that stand at a server, those that are over among them. Contracts see a place for each number for which there is
/// room, by rising number, with its thread where one stands there.
///
/// A thread is found, put and taken in a handful of steps, however many there are; the one of some rank among those that can step or wait, and
/// the first that may be moved, in one step where at most sixteen can, else in at most some three hundred (`MarkSet`). Threads that are over
/// cost nothing. Only `reserve` takes memory.
#[derive(Drop)]
pub struct Threads {
    all: Table<BoxedThread>,
    // those that can step, that wait at a lock, a join or a pair, and that may be moved
    marks: Marks,
    // how many aren't over
    active: usize,
}

impl Model for Threads {
    ghost use Rattle.std.specs.Prelude.{List};
    ghost use Rattle.rank_map.specs.Places.{Place};
    ghost use Rattle.thread_state.specs.View.{ThreadView};
    ghost use Rattle.server_parts.specs.Threads.{AreThreads};

    ghost Value = { List (Place ThreadView) };

    ghost view = { λ t. t.all };

    ghost invariant = { λ t. AreThreads t.all t.marks.runnable t.marks.waiting t.marks.movable t.active };
}

/// Whether the thread doesn't wait.
pub fn can_step(thread: &Thread) -> bool
    ensures { result ≡ steps thread.now }
{
    matches!(
        &thread.phase,
        Phase::Ready | Phase::Got | Phase::GotPar(_, _) | Phase::Taken(_)
    )
}

// Which marks a thread has.
fn kind_of(thread: &BoxedThread) -> Kind
    ensures runnable { in_runnable result ≡ steps thread.now }
    ensures waiting { in_waiting result ≡ waits thread.now }
    ensures movable { in_movable result ≡ moves thread.now }
{
    match &thread.thread.phase {
        Phase::Ready if thread.thread.moved_since_step => Kind::Steps,
        Phase::Ready => Kind::Moves,
        Phase::Got | Phase::GotPar(_, _) | Phase::Taken(_) => Kind::Steps,
        Phase::WaitLock(_) | Phase::WaitJoin(_) | Phase::WaitPar(_, _) => Kind::Waits,
        Phase::WaitCell(_) | Phase::WaitDup(_) | Phase::Over => Kind::Other,
    }
}

// What a thread waits for at a lock, a join or a pair.
fn wait_of(thread: &BoxedThread) -> Option<Wait>
    ensures { result ≡ wait_of thread.now.state.phase }
{
    match &thread.thread.phase {
        Phase::WaitLock(mutex) => Some(Wait::Lock(*mutex)),
        Phase::WaitJoin(other) => Some(Wait::Join(*other)),
        Phase::WaitPar(first, second) => Some(Wait::Par(*first, *second)),
        _ => None,
    }
}

// One, if it isn't over.
fn active_in(thread: &BoxedThread) -> usize
    ensures { result ≡ active_in (thread.now.state ∷ []) }
{
    usize::from(!matches!(&thread.thread.phase, Phase::Over))
}

// How many more items fit in a list.
fn spare<T>(items: &Vec<T>) -> usize
    ensures { result ≡ vec_capacity items.now - vec_len items.now }
{
    items.capacity() - items.len()
}

/// Whether so many items more fit in each list of the thread. No memory.
pub fn has_items(thread: &Thread, n: usize) -> bool
    ensures yes { IsTrue result → n ≤ thread.now.room }
    ensures no { result ≡ false → thread.now.room < n }
{
    n <= spare(&thread.slots) && n <= spare(&thread.temps) && n <= spare(&thread.walk)
}

impl Threads {
    /// No thread and no room, and no memory taken yet.
    pub fn new(alloc: Global) -> Threads
        ensures { result ≡ [] }
    {
        Threads {
            all: Table::new(alloc),
            marks: Marks::new(alloc),
            active: 0,
        }
    }

    /// Makes room for the thread of that number, which stays for good; a refusal leaves what is there.
    #[tactic(auto, using(crate::proofs::RoomLemmas::same_grown, crate::proofs::RoomLemmas::reserved_grown, crate::proofs::RoomLemmas::reserved_place))]
    pub fn reserve(&mut self, thread: ThreadNo) -> Result<(), NoMemory>
        ensures room { OnOk result (self.new ≡ with_free self.old thread) }
        ensures place { OnOk result (has_place self.new thread ≡ true) }
        ensures had_room { has_place self.old thread ≡ true → IsOk result }
        ensures grown { HaveThreadsGrown self.old self.new }
        ensures refused { OnErr result (self.new ≡ self.old) }
    {
        let number = thread.number();
        if self.all.has_place(number) {
            return Ok(());
        }
        self.marks.reserve(number)?;
        self.all.reserve(number)
    }

    /// The thread of that number; `None` exactly where it doesn't stand there.
    pub fn get(&self, thread: ThreadNo) -> Option<&Thread>
        ensures state { option_map (λ t. t.now.state) result ≡ thread_in (states self.now) thread }
        ensures item { option_map (λ t. t.now) result ≡ item_at self.now thread }
    {
        match self.all.get(thread.number()) {
            Some(standing) => Some(standing.get()),
            None => None,
        }
    }

    /// A thread stands there from now on. There is room for it, and it doesn't stand there.
    pub fn insert(&mut self, thread: BoxedThread)
        requires room { has_place self.old thread.state.number ≡ true }
        requires absent { thread_in (states self.old) thread.state.number ≡ None }
        ensures state { states self.new ≡ with_thread (states self.old) thread.state }
        ensures places { self.new ≡ with_place self.old thread.state.number (Some (Some thread)) }
    {
        let number = thread.number().number();
        self.marks.come(number, kind_of(&thread));
        self.active += active_in(&thread);
        self.all.insert(number, thread);
    }

    /// Takes the thread of that number; room for it stays, and put back by `insert` in another state it stands where it stood. It stands
    /// there.
    pub fn take(&mut self, thread: ThreadNo) -> BoxedThread
        requires there { IsSome (thread_in (states self.old) thread) }
        ensures thread { thread_in (states self.old) thread ≡ Some result.state }
        ensures number { result.state.number ≡ thread }
        ensures state { states self.new ≡ without_thread (states self.old) thread }
        ensures item { item_at self.old thread ≡ Some result }
        ensures places { self.new ≡ with_place self.old thread (Some None) }
        ensures room { has_place self.new thread ≡ true }
        ensures absent { thread_in (states self.new) thread ≡ None }
        ensures back { (t : ThreadState) → t.number ≡ thread → with_thread (states self.new) t ≡ set_thread (states self.old) t }
    {
        let number = thread.number();
        let Some(taken) = self.all.take(number) else {
            unreachable!();
        };
        self.marks.leave(number, kind_of(&taken));
        self.active -= active_in(&taken);
        taken
    }

    /// Makes room for `n` more items in each list of the thread of that number, where it stands there; a refusal leaves what is there.
    pub fn reserve_lists(&mut self, thread: ThreadNo, n: usize) -> Result<(), NoMemory>
        ensures grown { HaveThreadsGrown self.old self.new }
        ensures room { OnOk result (HasItems n (item_at self.new thread)) }
        ensures had_room { HasItems n (item_at self.old thread) → IsOk result }
    {
        let Some(standing) = self.get(thread) else {
            return Ok(());
        };
        if has_items(standing, n) {
            return Ok(());
        }
        let mut taken = self.take(thread);
        let reserved = taken.reserve(n);
        self.insert(taken);
        reserved
    }

    /// How many threads aren't over.
    pub fn active(&self) -> usize
        ensures { result ≡ active_in (states self.now) }
    {
        self.active
    }

    /// How many threads can step.
    pub fn stepping(&self) -> usize
        ensures { result ≡ length (runnable_in (states self.now)) }
    {
        self.marks.stepping()
    }

    /// The thread at that place, from 0, among those that can step, by rising number; it stands there. `None` exactly past the end.
    pub fn runnable(&self, at: usize) -> Option<ThreadNo>
        ensures thread { result ≡ slice_get (runnable_in (states self.now)) at }
        ensures stands { IfSome result (λ thread. has_phase can_step (thread_in (states self.now) thread) ≡ true) }
    {
        match self.marks.runnable(at) {
            Some(number) => Some(ThreadNo::from_number(number)),
            None => None,
        }
    }

    /// The thread at that place, from 0, among those that wait at a lock, a join or a pair, by rising number, and what it waits for;
    /// `None` exactly past the end.
    pub fn waits_at(&self, at: usize) -> Option<(ThreadNo, Wait)>
        ensures { result ≡ slice_get (waits_among (states self.now) []) at }
    {
        let Some(number) = self.marks.waiting(at) else {
            return None;
        };
        match self.all.get(number) {
            Some(thread) => match wait_of(thread) {
                Some(wait) => Some((ThreadNo::from_number(number), wait)),
                None => unreachable!(),
            },
            None => unreachable!(),
        }
    }

    /// The least thread that is ready and hasn't moved since its last plain step; it stands there. `None` exactly where there is none.
    pub fn movable(&self) -> Option<ThreadNo>
        ensures thread { result ≡ movable_in (states self.now) }
        ensures stands { IfSome result (λ thread. has_phase is_ready (thread_in (states self.now) thread) ≡ true) }
    {
        match self.marks.movable(0) {
            Some(number) => Some(ThreadNo::from_number(number)),
            None => None,
        }
    }
}
