//! Names of threads, mutexes and objects.

ghost use Rattle.std.specs.Prelude.{◌≡◌, ◌<◌, ◌+◌, ◌*◌, ◌/◌, ◌%◌, ◌^◌};

use std::marker::Model;

/// How many counts a server has for the threads that it starts.
const COUNTS: u64 = 1 << 32;

/// A thread: the server that started it (bits 32 to 39) and its count there (the low 32 bits).
/// The main thread is 0.0. Contracts see it as the number `server * 2^32 + count`.
#[derive(Clone, Copy, Debug, PartialEq, Eq)]
pub struct ThreadNo(u64);

impl Model for ThreadNo {
    ghost use Rattle.std.specs.Prelude.{ℕ, ◌<◌, ◌^◌};

    ghost Value = { ℕ };

    ghost view = { λ t. t.0 };

    ghost invariant = { λ t. t.0 < 2 ^ 40 };

    ghost inverse = { λ n. record { 0 = n } };
}

impl ThreadNo {
    /// The thread that `server` started as its number `count`. No memory.
    pub fn new(server: u8, count: u32) -> ThreadNo
        ensures { result ≡ server * 2 ^ 32 + count }
    {
        ThreadNo(u64::from(server) * COUNTS + u64::from(count))
    }

    /// The thread as one number, `server * 2^32 + count`. No memory.
    pub fn number(self) -> u64
        ensures number { result ≡ self }
        ensures few { self < 2 ^ 40 }
    {
        self.0
    }

    /// The thread of such a number. No memory.
    pub fn from_number(number: u64) -> ThreadNo
        requires few { number < 2 ^ 40 }
        ensures { result ≡ number }
    {
        ThreadNo(number)
    }

    /// The server that started the thread.
    pub fn server(self) -> u8
        ensures { result ≡ self / 2 ^ 32 }
    {
        (self.0 / COUNTS) as u8
    }

    /// Its count at that server.
    pub fn count(self) -> u32
        ensures { result ≡ self % 2 ^ 32 }
    {
        (self.0 % COUNTS) as u32
    }
}

/// A mutex: the server where it was made, and its count there, from 1.
#[derive(Clone, Copy, Debug, PartialEq, Eq)]
pub struct MutexNo {
    pub home: u8,
    pub count: u32,
}

/// The object that a thread made as its number `count`, from 0.
#[derive(Clone, Copy, Debug, PartialEq, Eq)]
pub struct ObjNo {
    pub thread: ThreadNo,
    pub count: u64,
}
