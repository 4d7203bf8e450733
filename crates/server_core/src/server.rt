//! One server.

ghost use Rattle.std.specs.Prelude.{◌≡◌, ◌≢◌, ℕ, ◌+◌, ◌<◌, ◌≤◌, [], Some, None, true, length, slice_get, option_map, IfSome, IsSome, IsOk, IfOk, IfErr, OnOk, OnErr};
ghost use Rattle.server_model.specs.Servers.{start_of, server_at};
ghost use Rattle.server_model.specs.Clusters.{accept};
ghost use Rattle.server_model.specs.Events.{does, enabled, is_ready};
ghost use Rattle.std.specs.Arc.{arc_value};
ghost use Rattle.server_parts.specs.Works.{sending};
ghost use Rattle.server_core.specs.Outboxes.{taken_out};
ghost use Rattle.server_core.specs.Rooms.{HasRoom};
ghost use Rattle.server_core.specs.Steps.{CountsLeft};
ghost use Rattle.server_parts.specs.Threads.{states, first_threads};
ghost use Rattle.server_model.specs.declared.event.What.{What};
ghost use Rattle.server_model.specs.declared.event.What.TheVariants.{Step, Evict, Migrate};
ghost use Rattle.server_model.specs.Questions.{due, runnable, active, movable, waits_among};

use crate::rooms::{delivery_room, step_room};
use crate::stepping::step_at;
use fr_base::{Code, NoMemory, Options, ThreadNo, Wait};
use global_addr::Word;
use journal::Entry;
use server_deliveries::{deliver, evict_at, migrate_at};
use server_model::What;
use server_msgs::Message;
use server_parts::{Spares, Threads, Work, can_step};
use std::alloc::Global;
use std::marker::Model;
use std::sync::Arc;
use thread_state::{BoxedThread, Phase, Thread};

/// One server of a run. Contracts see its state as the definitions have it, the code and the options that it keeps, and beside them the
/// room: as `inbox_room` how many more messages can wait without memory, and what room an event finds (`HasRoom`).
#[derive(Drop)]
pub struct Server {
    code: Arc<Code>,
    options: Options,
    // without acts and labels between two events; in boxes, so that a server that is moved is small
    work: Box<Work>,
    threads: Box<Threads>,
    // for the slots of new threads
    spares: Spares,
    // how many events it has done
    events: u64,
}

impl Model for Server {
    ghost use Rattle.std.specs.Arc.{arc_value};
    ghost use Rattle.std.specs.Prelude.{◌≡◌, ◌<◌, []};
    ghost use Rattle.server_core.specs.Servers.{ServerView};
    ghost use Rattle.server_parts.specs.Threads.{states};

    ghost Value = { ServerView };

    ghost view = { λ s. record {
      state = record {
        rest = s.work.value.state.rest;
        threads = states s.threads.value;
        events = s.events;
      };
      code = (arc_value s.code).items;
      options = s.options;
      inbox_room = s.work.value.inbox_room;
      room = s.work.value.room;
      copies = s.work.value.copies;
      places = s.threads.value;
      spares = s.spares;
    } };

    ghost invariant = { λ s. (s.work.value.state.acts ≡ []) × (s.work.value.state.labels ≡ []) × (0 < s.options.servers) };
}

// The threads of a server at the start: the main thread at server 0.
fn first_threads(alloc: Global, server: u8) -> Result<Threads, NoMemory>
    ensures { IfOk result (λ t. states t ≡ first_threads server) }
{
    let mut threads = Threads::new(alloc);
    if server > 0 {
        return Ok(threads);
    }
    let main = ThreadNo::new(0, 0);
    threads.reserve(main)?;
    let first = Thread::new(alloc, main, 0, Vec::new(alloc));
    threads.insert(BoxedThread::new(alloc, first)?);
    Ok(threads)
}

// Whether a thread has begun no step.
fn is_ready(thread: &Thread) -> bool
    ensures { result ≡ is_ready thread.now.state.phase }
{
    matches!(&thread.phase, Phase::Ready)
}

impl Server {
    /// The server of that number at the start of a run: server 0 has the main thread, at its first instruction without a slot, and the
    /// others have none. It shares the code and keeps the options. The server is one of the run, and the limit of colours is from
    /// 1 to 65,536.
    pub fn new(
        alloc: Global,
        server: u8,
        code: &Arc<Code>,
        options: &Options,
    ) -> Result<Server, NoMemory>
        requires server { server < options.now.servers }
        requires colours { (1 ≤ options.now.colours) × (options.now.colours ≤ 65536) }
        ensures state { IfOk result (λ s. server_at (start_of (arc_value code.now).items options.now).servers server ≡ Some s.state) }
        ensures code { IfOk result (λ s. s.code ≡ (arc_value code.now).items) }
        ensures options { IfOk result (λ s. s.options ≡ options.now) }
    {
        Ok(Server {
            code: code.clone()?,
            options: *options,
            work: Box::new(alloc, Work::new(alloc, server, options))?,
            threads: Box::new(alloc, first_threads(alloc, server)?)?,
            spares: Spares::new(alloc),
            events: 0,
        })
    }

    /// Whether the server can do that event: a step of a thread that is here and doesn't wait, the delivery of a message that waits
    /// here, the eviction of a copy without a user, or the migration of a thread that is ready here to another server of the run.
    /// No memory.
    pub fn enabled(&self, what: What) -> bool
        ensures { result ≡ enabled self.now.options self.now.state what }
    {
        let work: &Work = &self.work;
        match &what {
            What::Step(thread) => match self.threads.get(*thread) {
                Some(thread) => can_step(thread),
                None => false,
            },
            What::Deliver(at) => *at < work.inbox.len(),
            What::Evict(word) => work.cache.hit(*word).is_some() && work.cache.users(*word) == 0,
            What::Migrate(thread, target) => match self.threads.get(*thread) {
                Some(thread) => is_ready(thread)
                    && *target < self.options.servers
                    && *target != work.number,
                None => false,
            },
        }
    }

    /// Makes room for all that the event can need, the entry's lists included: with it the event takes no memory. What the server stands
    /// for is unchanged either way, and room that was made for an event stays.
    pub fn room(&mut self, what: What) -> Result<(), NoMemory>
        ensures state { self.new.state ≡ self.old.state }
        ensures kept { (self.new.code ≡ self.old.code) × (self.new.options ≡ self.old.options) }
        ensures room { OnOk result (HasRoom what self.new) }
        ensures had_room { HasRoom what self.old → IsOk result }
        ensures stays { (other : What) → HasRoom other self.old → HasRoom other self.new }
        ensures inbox_room { self.old.inbox_room ≤ self.new.inbox_room }
    {
        match what {
            What::Step(thread) => step_room(
                &mut self.work,
                &mut self.threads,
                &mut self.spares,
                &self.code,
                thread,
            ),
            What::Deliver(at) => delivery_room(&mut self.work, &mut self.threads, at),
            What::Evict(_) => self.work.reserve(1),
            What::Migrate(_, _) => self.work.reserve(2),
        }
    }

    /// Does an event, and gives its entry of the journal. The event is enabled and has a result here, as each enabled one has at a server of
    /// a coherent cluster; `room` made room for it, and no count of the server is near its end. Refuses nothing and takes no memory. A step
    /// takes time in the stars of its place, an eviction, a migration and a delivery in the values of the thread that they move, and each
    /// finds its thread in a handful of steps.
    #[tactic(auto, using(crate::proofs::ActLemmas::begins_step, crate::proofs::ActLemmas::ends_step, crate::proofs::ActLemmas::leaves, crate::proofs::ActLemmas::can_take, server_deliveries::proofs::DeliverLemmas::made_of))]
    pub fn act(&mut self, what: What) -> Entry
        requires enabled { enabled self.old.options self.old.state what ≡ true }
        requires result { IsSome (does self.old.code self.old.options self.old.state what) }
        requires room { HasRoom what self.old }
        requires counts { CountsLeft self.old.state }
        ensures done { does self.old.code self.old.options self.old.state what ≡ Some (self.new.state, result) }
        ensures kept { (self.new.code ≡ self.old.code) × (self.new.options ≡ self.old.options) }
    {
        let events = self.events;
        self.events += 1;
        let work: &mut Work = &mut self.work;
        let threads: &mut Threads = &mut self.threads;
        match what {
            What::Step(thread) => {
                let done = step_at(
                    work,
                    threads,
                    &mut self.spares,
                    &self.code,
                    self.options.servers,
                    thread,
                );
                work.entry(Some(thread), done)
            }
            What::Deliver(at) => {
                deliver(work, threads, &self.code, at, events);
                work.entry(None, None)
            }
            What::Evict(word) => {
                evict_at(work, threads, word, events);
                work.entry(None, None)
            }
            What::Migrate(thread, target) => {
                migrate_at(work, threads, thread, target, events);
                work.entry(Some(thread), None)
            }
        }
    }

    /// The lists of an entry that isn't needed any more are there for those of the next event, so that `room` needn't make them anew. What the server
    /// stands for is unchanged. It takes time linear in the entry's acts and labels, and no memory.
    pub fn reuse(&mut self, entry: Entry)
        ensures state { self.new.state ≡ self.old.state }
        ensures kept { (self.new.code ≡ self.old.code) × (self.new.options ≡ self.old.options) }
        ensures inbox_room { self.new.inbox_room ≡ self.old.inbox_room }
    {
        let Entry { acts, labels, .. } = entry;
        self.work.reuse(acts, labels);
    }

    /// Takes out the first message to another server, with that server; `None` exactly where there is none. It takes constant time and no memory.
    pub fn outbox(&mut self) -> Option<(u8, Message)>
        ensures taken { taken_out self.old.state ≡ (option_map sending result, self.new.state) }
        ensures kept { (self.new.code ≡ self.old.code) × (self.new.options ≡ self.old.options) }
        ensures room { self.new.inbox_room ≡ self.old.inbox_room }
    {
        let work: &mut Work = &mut self.work;
        work.outbox.pop_front()
    }

    /// Puts a message last in the list of waiting ones; where memory is wanting, it comes back and nothing changes.
    pub fn accept(&mut self, message: Message) -> Result<(), (Message, NoMemory)>
        ensures state { OnOk result (self.new.state ≡ accept message self.old.state) }
        ensures kept { (self.new.code ≡ self.old.code) × (self.new.options ≡ self.old.options) }
        ensures had_room { 0 < self.old.inbox_room → IsOk result }
        ensures room { OnOk result (self.old.inbox_room ≤ self.new.inbox_room + 1) }
        ensures back { IfErr result (λ e. e.0 ≡ message) }
        ensures refused { OnErr result (self.new.state ≡ self.old.state) }
    {
        self.work.accept(message)
    }

    /// Makes room for `n` more messages: the next `n` calls of `accept` can't be refused. What the server stands for is unchanged either
    /// way, and room that was made stays.
    pub fn accept_room(&mut self, n: usize) -> Result<(), NoMemory>
        ensures state { self.new.state ≡ self.old.state }
        ensures kept { (self.new.code ≡ self.old.code) × (self.new.options ≡ self.old.options) }
        ensures room { OnOk result (n ≤ self.new.inbox_room) }
        ensures had_room { n ≤ self.old.inbox_room → IsOk result }
        ensures spare { self.old.inbox_room ≤ self.new.inbox_room }
    {
        self.work.accept_room(n)
    }

    /// How many messages wait here.
    pub fn waiting(&self) -> usize
        ensures { result ≡ length self.now.state.rest.inbox }
    {
        let work: &Work = &self.work;
        work.inbox.len()
    }

    /// The message that waits at that place, from 0, the oldest first; `None` exactly past the end.
    pub fn message(&self, at: usize) -> Option<&Message>
        ensures { option_map (λ m. m.now) result ≡ slice_get self.now.state.rest.inbox at }
    {
        let work: &Work = &self.work;
        work.inbox.at(at)
    }

    /// The oldest cached word that nobody uses, exactly where the cache holds more words than the options keep; else `None`. Its eviction is
    /// enabled.
    pub fn due(&self) -> Option<Word>
        ensures word { result ≡ due self.now.options self.now.state }
        ensures enabled { IfSome result (λ word. enabled self.now.options self.now.state (Evict word) ≡ true) }
    {
        let work: &Work = &self.work;
        if work.cache.len() > self.options.cache as usize {
            work.cache.oldest_unused()
        } else {
            None
        }
    }

    /// How many threads can step here: those whose step is enabled.
    pub fn stepping(&self) -> usize
        ensures { result ≡ length (runnable self.now.state) }
    {
        self.threads.stepping()
    }

    /// The thread at that place, from 0, among those whose step is enabled, by rising number; `None` exactly past the end.
    pub fn runnable(&self, at: usize) -> Option<ThreadNo>
        ensures thread { result ≡ slice_get (runnable self.now.state) at }
        ensures enabled { IfSome result (λ thread. enabled self.now.options self.now.state (Step thread) ≡ true) }
    {
        self.threads.runnable(at)
    }

    /// How many threads stand here that aren't over.
    pub fn active(&self) -> u64
        ensures { result ≡ active self.now.state }
    {
        self.threads.active() as u64
    }

    /// The least thread here that is ready and hasn't moved since its last plain step; `None` exactly where there is none. Its migration to
    /// any other server of the run is enabled.
    pub fn movable(&self) -> Option<ThreadNo>
        ensures thread { result ≡ movable self.now.state }
        ensures enabled { IfSome result (λ thread. (target : ℕ) → target < self.now.options.servers → target ≢ self.now.state.rest.number → enabled self.now.options self.now.state (Migrate thread target) ≡ true) }
    {
        self.threads.movable()
    }

    /// How many addresses of this server were retired for good.
    pub fn retired(&self) -> u64
        ensures { result ≡ self.now.state.rest.partition.retired }
    {
        let work: &Work = &self.work;
        work.partition.retired()
    }

    /// How many events the server has done.
    pub fn events(&self) -> u64
        ensures { result ≡ self.now.state.events }
    {
        self.events
    }

    /// What the run is asked to be like.
    pub fn options(&self) -> &Options
        ensures { result.now ≡ self.now.options }
    {
        &self.options
    }

    /// How many messages to other servers stand in the outbox.
    pub fn sending(&self) -> usize
        ensures { result ≡ length self.now.state.rest.outbox }
    {
        let work: &Work = &self.work;
        work.outbox.len()
    }

    /// The thread at that place, from 0, among those here that wait at a lock, a join or a pair, by rising number, with what it waits
    /// for; `None` exactly past the end.
    pub fn waits_at(&self, at: usize) -> Option<(ThreadNo, Wait)>
        ensures { result ≡ slice_get (waits_among self.now.state.threads []) at }
    {
        self.threads.waits_at(at)
    }
}
