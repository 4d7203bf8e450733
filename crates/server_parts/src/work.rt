//! A server in the middle of an event.

ghost use Rattle.std.specs.Prelude.{◌≡◌, ◌+◌, ◌<◌, ◌≤◌, ◌++◌, ℕ, [], ◌∷◌, true, length, slice_get, Some, IsOk, OnOk, OnErr, IfErr};
ghost use Rattle.server_model.specs.Servers.{empty_server};
ghost use Rattle.server_model.specs.Work.{add_waiting, send, receive, note, label_all, is_hop, without_hops};
ghost use Rattle.server_model.specs.Events.{entry_of};
ghost use Rattle.server_model.specs.Drop.{give_up};
ghost use Rattle.server_parts.specs.Sites.{has_copy_room};

use crate::idle::Idle;
use fr_base::{Fresh, Label, Labels, NoMemory, Options, Plain, Released, ThreadNo};
use global_addr::Word;
use heap_partition::Owned;
use join_home::Tasks;
use journal::{Act, Acts, Entry};
use mutex_home::Mutexes;
use owner_box::Partition;
use read_cache::Cache;
use server_index::FrontQueue;
use server_msgs::Message;
use std::alloc::Global;
use std::collections::VecDeque;
use std::marker::Model;
use std::mem;

// For how many of each thing room is made at a time, at least: some five events add as many.
const AHEAD: usize = 16;

/// What an event touches of its server but for its threads, and what it has done so far. Contracts see it as `state`, and beside it
/// as `room` how many of each thing an event adds fit without memory, as `copies` the words for whose copies there is room, and as
/// `inbox_room` how many more messages can wait.
#[derive(Drop)]
pub struct Work {
    /// The server's number.
    pub number: u8,
    /// The objects that lie here.
    pub partition: Partition,
    /// The copies of objects that lie elsewhere.
    pub cache: Cache,
    /// The mutexes whose home is here.
    pub mutexes: Mutexes,
    /// The threads that it started.
    pub tasks: Tasks,
    /// The messages that wait here.
    pub inbox: FrontQueue<Message>,
    /// The messages to other servers, the first one first.
    pub outbox: VecDeque<(u8, Message)>,
    /// How many threads it has started.
    pub started: u32,
    /// The acts of the event so far.
    pub acts: Acts,
    /// The labels of its plain step so far.
    pub labels: Labels,
    // room for the acts of an event that ends with a request
    asked: Acts,
    // the lists of the next event's entry
    idle: Idle,
    alloc: Global,
    /// For how many of each thing there is still room, by what was reserved.
    pub room: usize,
}

impl Model for Work {
    ghost use Rattle.std.specs.Prelude.{◌≡◌, ◌+◌, ◌-◌, ◌≤◌, [], length};
    ghost use Rattle.std.specs.VecDeque.{deque_capacity, deque_len};
    ghost use Rattle.server_parts.specs.Works.{WorkView, HasRooms, sendings};

    ghost Value = { WorkView };

    ghost view = { λ w. record {
      state = record {
        rest = record {
          number = w.number;
          partition = w.partition.state;
          cache = w.cache.state;
          mutexes = w.mutexes.state;
          tasks = w.tasks.state;
          inbox = w.inbox.items;
          outbox = sendings w.outbox.items;
          started = w.started;
        };
        acts = w.acts.items;
        labels = w.labels.items;
      };
      room = w.room;
      copies = w.cache.rooms;
      inbox_room = w.inbox.room;
    } };

    ghost invariant = { λ w. HasRooms w.room w.inbox.room (deque_capacity w.outbox - deque_len w.outbox) w.partition.room w.mutexes.room.mutexes w.mutexes.room.threads w.tasks.room w.acts.spare w.labels.spare × (w.asked.items ≡ []) × (length w.acts.items + w.room ≤ w.asked.spare) };
}

// Whether an act is a hop.
fn is_hop(act: &Act) -> bool
    ensures { result ≡ is_hop act.now }
{
    matches!(act, Act::Local(_, _) | Act::Hit(_, _))
}

// Adds an act that is no hop.
fn add_request(act: &Act, asked: &mut Acts)
    requires room { 0 < asked.old.spare }
    ensures items { asked.new.items ≡ asked.old.items ++ without_hops (act.now ∷ []) }
    ensures spare { asked.old.spare ≤ asked.new.spare + 1 }
{
    // The check asks that each type inside an act is named where an act is moved.
    let _inside: Option<Released> = None;
    if is_hop(act) {
        return;
    }
    match asked.push(*act) {
        Ok(()) => {}
        Err(_) => unreachable!(),
    }
}

// Adds those of the acts that are no hops, in order.
fn add_without_hops(acts: &[Act], asked: &mut Acts)
    requires nothing { asked.old.items ≡ [] }
    requires room { length acts.now ≤ asked.old.spare }
    ensures { asked.new.items ≡ without_hops acts.now }
{
    'acts: for act in acts {
        add_request(act, asked);
    }
}

impl Work {
    /// A server of that number with no thread, at the start of a run.
    pub fn new(alloc: Global, number: u8, options: &Options) -> Work
        requires colours { (1 ≤ options.now.colours) × (options.now.colours ≤ 65536) }
        ensures rest { result.state.rest ≡ (empty_server options.now number).rest }
        ensures nothing { (result.state.acts ≡ []) × (result.state.labels ≡ []) }
    {
        Work {
            number,
            partition: Partition::new(alloc, number, options.colours),
            cache: Cache::new(alloc),
            mutexes: Mutexes::new(alloc, number),
            tasks: Tasks::new(alloc),
            inbox: FrontQueue::new(alloc),
            outbox: VecDeque::new(alloc),
            started: 0,
            acts: Acts::new(alloc),
            labels: Labels::new(alloc),
            asked: Acts::new(alloc),
            idle: Idle::new(alloc),
            alloc,
            room: 0,
        }
    }

    /// Puts a message last in the list of waiting ones; where memory is wanting, it comes back and nothing changes.
    pub fn accept(&mut self, message: Message) -> Result<(), (Message, NoMemory)>
        ensures state { OnOk result (self.new.state ≡ record self.old.state { rest = add_waiting message self.old.state.rest }) }
        ensures had_room { 0 < self.old.inbox_room → IsOk result }
        ensures room { OnOk result (self.old.inbox_room ≤ self.new.inbox_room + 1) }
        ensures back { IfErr result (λ e. e.0 ≡ message) }
        ensures refused { OnErr result (self.new.state ≡ self.old.state) }
    {
        if self.inbox.reserve(1).is_err() {
            return Err((message, NoMemory));
        }
        self.inbox.push(message);
        self.room = self.room.saturating_sub(1);
        Ok(())
    }

    /// Makes room for `n` more messages that wait; the state is unchanged either way.
    pub fn accept_room(&mut self, n: usize) -> Result<(), NoMemory>
        ensures state { self.new.state ≡ self.old.state }
        ensures room { OnOk result (n ≤ self.new.inbox_room) }
        ensures had_room { n ≤ self.old.inbox_room → IsOk result }
        ensures spare { self.old.inbox_room ≤ self.new.inbox_room }
    {
        self.inbox.reserve(n)
    }

    /// Makes room for `n` more of each thing that an event adds, and where there is less, for some events at once; the state is unchanged either
    /// way, and room that was made stays.
    pub fn reserve(&mut self, n: usize) -> Result<(), NoMemory>
        ensures state { self.new.state ≡ self.old.state }
        ensures room { OnOk result (n ≤ self.new.room) }
        ensures had_room { n ≤ self.old.room → IsOk result }
        ensures spare { self.old.room ≤ self.new.room }
        ensures copies { self.new.copies ≡ self.old.copies }
        ensures inbox { self.old.inbox_room ≤ self.new.inbox_room }
    {
        if n <= self.room {
            return Ok(());
        }
        let n = n.max(AHEAD);
        self.inbox.reserve(n)?;
        self.outbox.reserve(n)?;
        self.partition.reserve(n)?;
        self.mutexes.reserve(n)?;
        self.tasks.reserve(n)?;
        self.acts.reserve(n)?;
        let Some(asked) = n.checked_add(self.acts.len() as usize) else {
            return Err(NoMemory);
        };
        self.asked.reserve(asked)?;
        self.labels.reserve(n)?;
        self.room = n;
        Ok(())
    }

    /// Makes room for a copy under that word; the state is unchanged either way, and room that was made stays.
    pub fn reserve_copy(&mut self, word: Word) -> Result<(), NoMemory>
        ensures state { self.new.state ≡ self.old.state }
        ensures place { OnOk result (has_copy_room self.new word ≡ true) }
        ensures had_place { has_copy_room self.old word ≡ true → IsOk result }
        ensures places { (w : ℕ) → has_copy_room self.old w ≡ true → has_copy_room self.new w ≡ true }
        ensures room { self.new.room ≡ self.old.room }
        ensures inbox { self.new.inbox_room ≡ self.old.inbox_room }
    {
        self.cache.reserve(word)
    }

    /// Takes out the waiting message at that place, from 0, and the later ones move up. There is such a place.
    pub fn receive(&mut self, at: usize) -> Message
        requires within { at < length self.old.state.rest.inbox }
        ensures message { slice_get self.old.state.rest.inbox at ≡ Some result }
        ensures state { self.new.state ≡ record self.old.state { rest = receive self.old.state.rest at } }
        ensures room { self.new.room ≡ self.old.room }
        ensures copies { self.new.copies ≡ self.old.copies }
    {
        self.inbox.take(at)
    }

    /// Sends a message: one to the server itself waits last here.
    pub fn send(&mut self, target: u8, message: Message)
        requires room { 0 < self.old.room }
        ensures state { self.new.state ≡ send target message self.old.state }
        ensures spare { self.new.room + 1 ≡ self.old.room }
        ensures copies { self.new.copies ≡ self.old.copies }
    {
        if target == self.number {
            self.inbox.push(message);
        } else {
            match self.outbox.push_back((target, message)) {
                Ok(()) => {}
                Err(_) => unreachable!(),
            }
        }
        self.room -= 1;
    }

    /// Notes an act of the event.
    pub fn note(&mut self, act: Act)
        requires room { 0 < self.old.room }
        ensures state { self.new.state ≡ note act self.old.state }
        ensures spare { self.new.room + 1 ≡ self.old.room }
        ensures copies { self.new.copies ≡ self.old.copies }
    {
        // The check asks that each type inside an act is named where an act is moved.
        let _inside: Option<Released> = None;
        match self.acts.push(act) {
            Ok(()) => {}
            Err(_) => unreachable!(),
        }
        self.room -= 1;
    }

    /// Notes a label of the event's plain step.
    pub fn label(&mut self, label: Label)
        requires room { 0 < self.old.room }
        ensures state { self.new.state ≡ label_all (label ∷ []) self.old.state }
        ensures spare { self.new.room + 1 ≡ self.old.room }
        ensures copies { self.new.copies ≡ self.old.copies }
    {
        let _inside: Option<Plain> = None;
        match self.labels.push(label) {
            Ok(()) => {}
            Err(_) => unreachable!(),
        }
        self.room -= 1;
    }

    /// The labels so far don't count.
    pub fn unlabel(&mut self)
        ensures state { self.new.state ≡ record self.old.state { labels = [] } }
        ensures room { self.new.room ≡ self.old.room }
        ensures copies { self.new.copies ≡ self.old.copies }
    {
        self.labels.clear();
    }

    /// The event ends with a request: its hops and its labels count in the event that does the step.
    #[tactic(auto, using(crate::proofs::HopLemmas::fewer_acts))]
    pub fn put_off(&mut self)
        ensures state { self.new.state ≡ record self.old.state { acts = without_hops self.old.state.acts; labels = [] } }
        ensures copies { self.new.copies ≡ self.old.copies }
    {
        add_without_hops(self.acts.as_slice(), &mut self.asked);
        mem::swap(&mut self.acts, &mut self.asked);
        self.asked.clear();
        self.labels.clear();
        self.room = self.room.min(self.acts.spare());
    }

    // The acts and labels that were noted; nothing is noted any more, and the next event has the lists that were last given back, with the room that
    // they have.
    fn take_noted(&mut self) -> (Acts, Labels)
        ensures acts { result.0.items ≡ self.old.state.acts }
        ensures labels { result.1.items ≡ self.old.state.labels }
        ensures rest { self.new.state.rest ≡ self.old.state.rest }
        ensures nothing { (self.new.state.acts ≡ []) × (self.new.state.labels ≡ []) }
    {
        let idle = mem::replace(&mut self.idle, Idle::new(self.alloc));
        self.room = self.room.min(idle.room());
        let (next_acts, next_labels) = idle.into_lists();
        let acts = mem::replace(&mut self.acts, next_acts);
        let labels = mem::replace(&mut self.labels, next_labels);
        (acts, labels)
    }

    /// The entry of the event, with the acts and labels that were noted; nothing is noted any more. Where nothing was, the entry's lists have no room,
    /// and those of the event stay for the next one.
    pub fn entry(&mut self, thread: Option<ThreadNo>, done: Option<Fresh>) -> Entry
        ensures entry { result ≡ entry_of thread done self.old.state }
        ensures rest { self.new.state.rest ≡ self.old.state.rest }
        ensures nothing { (self.new.state.acts ≡ []) × (self.new.state.labels ≡ []) }
    {
        let server = self.number;
        let (acts, labels) = if self.acts.len() == 0 && self.labels.len() == 0 {
            (Acts::new(self.alloc), Labels::new(self.alloc))
        } else {
            self.take_noted()
        };
        Entry {
            server,
            thread,
            done,
            acts,
            labels,
        }
    }

    /// Lists whose acts and labels aren't needed any more are there for an entry to come, with the room that they have. The state is unchanged. It
    /// takes time linear in what stands in them.
    pub fn reuse(&mut self, acts: Acts, labels: Labels)
        ensures state { self.new.state ≡ self.old.state }
        ensures copies { self.new.copies ≡ self.old.copies }
        ensures inbox_room { self.new.inbox_room ≡ self.old.inbox_room }
    {
        self.idle = Idle::of(acts, labels);
    }

    /// An owned value goes: whoever has what it leads to is told.
    pub fn give_up(&mut self, value: Owned)
        requires room { 2 ≤ self.old.room }
        ensures state { self.new.state ≡ give_up value self.old.state }
        ensures spare { self.old.room ≤ self.new.room + 2 }
        ensures copies { self.new.copies ≡ self.old.copies }
    {
        match value {
            Owned::Box(pointer) => {
                self.note(Act::Condemn(pointer.object, pointer.word));
                self.send(
                    pointer.word.server(),
                    Message::Drop(pointer.word, pointer.object),
                );
            }
            Owned::Mutex(mutex) => {
                self.note(Act::LetGo(Released::Mutex(mutex)));
                self.send(mutex.home, Message::Release(Released::Mutex(mutex)));
            }
            Owned::Task(thread) => {
                self.note(Act::LetGo(Released::Task(thread)));
                self.send(thread.server(), Message::Release(Released::Task(thread)));
            }
            Owned::Nothing | Owned::Unit | Owned::Int(_) => {}
        }
    }
}
