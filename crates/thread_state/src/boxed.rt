//! A thread in a box.

ghost use Rattle.std.specs.Prelude.{◌≡◌, ◌≤◌, IfOk, IsOk, OnOk, OnErr};

use crate::thread::Thread;
use fr_base::{NoMemory, ThreadNo};
use std::alloc::Global;
use std::marker::Model;

/// A thread in a box: it goes from place to place by its pointer, without its two hundred bytes. Contracts see it as the thread.
#[derive(Drop)]
pub struct BoxedThread {
    /// The thread, whole.
    pub thread: Box<Thread>,
}

impl Model for BoxedThread {
    ghost use Rattle.thread_state.specs.View.{ThreadView};

    ghost Value = { ThreadView };

    ghost view = { λ b. b.thread.value };
}

impl BoxedThread {
    /// The thread in a box of its own. Where memory is wanting the thread is dropped.
    pub fn new(alloc: Global, thread: Thread) -> Result<BoxedThread, NoMemory>
        ensures { IfOk result (λ boxed. boxed ≡ thread) }
    {
        Ok(BoxedThread {
            thread: Box::new(alloc, thread)?,
        })
    }

    /// The thread. It takes no memory.
    pub fn get(&self) -> &Thread
        ensures { result.now ≡ self.now }
    {
        &self.thread
    }

    /// The thread's number. It takes no memory.
    pub fn number(&self) -> ThreadNo
        ensures { result ≡ self.now.state.number }
    {
        self.thread.number
    }

    /// Makes room for `n` more items in each of the thread's lists; a refusal changes nothing.
    pub fn reserve(&mut self, n: usize) -> Result<(), NoMemory>
        ensures state { self.new.state ≡ self.old.state }
        ensures room { OnOk result (n ≤ self.new.room) }
        ensures had_room { n ≤ self.old.room → IsOk result }
        ensures spare { self.old.room ≤ self.new.room }
        ensures refused { OnErr result (self.new ≡ self.old) }
    {
        self.thread.reserve(n)
    }
}
