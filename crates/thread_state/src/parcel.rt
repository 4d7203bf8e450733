//! A thread on its way.

ghost use Rattle.std.specs.Prelude.{◌≡◌};
ghost use Rattle.thread_state.specs.View.{IsPacked};

use crate::boxed::BoxedThread;
use fr_base::ThreadNo;
use std::marker::Model;

/// A thread on its way to another server: it uses no cached word, and none of its references keeps a copy in use.
/// Contracts see it as the thread's state; its room isn't seen.
#[derive(Drop)]
pub struct Parcel {
    boxed: BoxedThread,
}

impl Model for Parcel {
    ghost use Rattle.thread_state.specs.View.{ThreadState, IsPacked};

    ghost Value = { ThreadState };

    ghost view = { λ p. p.boxed.state };

    ghost invariant = { λ p. IsPacked p.boxed.state };
}

impl Parcel {
    /// The thread, packed. No memory.
    pub fn new(boxed: BoxedThread) -> Parcel
        requires packed { IsPacked boxed.state }
        ensures { result ≡ boxed.state }
    {
        Parcel { boxed }
    }

    /// The thread's number. No memory.
    pub fn number(&self) -> ThreadNo
        ensures { result ≡ self.now.number }
    {
        self.boxed.thread.number
    }

    /// The thread, unpacked. No memory.
    pub fn into_thread(self) -> BoxedThread
        ensures thread { result.state ≡ self }
        ensures packed { IsPacked result.state }
    {
        self.boxed
    }
}
