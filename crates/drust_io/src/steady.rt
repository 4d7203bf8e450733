//! A source and a sink that never fail.

ghost use Rattle.std.specs.Prelude.{◌≡◌, ℕ, ◌<◌, ◌≤◌, length, take, min, Some, None, Ok, IfOk, OnErr};
ghost use Rattle.drust_io.specs.Flow.{ComesOff, NothingLeft};

use crate::flow::{Failed, Sink, Source};
use crate::memory::copy_front;
use std::marker::Model;

/// Gives bytes, at most `most` of them in a call, and never fails. Contracts see what is left, and `most`.
#[derive(Drop)]
pub struct NoFaultSource {
    bytes: Vec<u8>,
    at: usize,
    most: usize,
}

impl Model for NoFaultSource {
    ghost use Rattle.std.specs.Prelude.{◌<◌, ◌≤◌, drop, vec_len};
    ghost use Rattle.drust_io.specs.Memory.{Steady};

    ghost Value = { Steady };

    ghost view = { λ s. record { bytes = drop s.at s.bytes.items; most = s.most } };

    ghost invariant = { λ s. (s.at ≤ vec_len s.bytes) × (0 < s.most) };
}

impl NoFaultSource {
    /// A source that has these bytes left. `most` is at least 1.
    pub fn new(bytes: Vec<u8>, most: usize) -> NoFaultSource
        requires { 0 < most }
        ensures { result ≡ record { bytes = bytes.items; most = most } }
    {
        NoFaultSource { bytes, at: 0, most }
    }
}

impl Source for NoFaultSource {
    ghost left = { λ s. Some s.bytes };

    ghost fault_count = { λ _. 0 };

    fn read(&mut self, room: &mut [u8]) -> Result<usize, Failed>
        ensures within { IfOk result (λ n. n ≤ length room.old) }
        ensures bytes { IfOk result (λ n. ComesOff (take n room.new) (Some self.old.bytes) (Some self.new.bytes)) }
        ensures end { IfOk result (λ n. n ≡ 0 → 0 < length room.old → NothingLeft (Some self.new.bytes)) }
        // It never fails, and gives as much as there is, as fits the room, and as one call takes.
        ensures count { result ≡ Ok (min (min (length room.old) self.old.most) (length self.old.bytes)) }
        ensures most { self.new.most ≡ self.old.most }
    {
        let n = copy_front(&self.bytes[self.at..], self.most, room);
        self.at += n;
        Ok(n)
    }

    fn faults(&self) -> u64 {
        0
    }
}

/// Takes bytes, at most `most` of them in a call, keeps none, tells nothing of them, and never fails.
/// Contracts see it as `most`.
#[derive(Drop)]
pub struct NoFaultSink {
    most: usize,
}

impl Model for NoFaultSink {
    ghost use Rattle.std.specs.Prelude.{ℕ, ◌<◌};

    ghost Value = { ℕ };

    ghost view = { λ s. s.most };

    ghost invariant = { λ s. 0 < s.most };
}

impl NoFaultSink {
    /// A sink that takes at most `most` bytes in a call; `most` is at least 1.
    pub fn new(most: usize) -> NoFaultSink
        requires { 0 < most }
        ensures { result ≡ most }
    {
        NoFaultSink { most }
    }
}

impl Sink for NoFaultSink {
    ghost written = { λ _. None };

    ghost fault_count = { λ _. 0 };

    fn write(&mut self, piece: &[u8]) -> Result<usize, Failed>
        ensures within { IfOk result (λ n. n ≤ length piece.now) }
        ensures some { IfOk result (λ n. 0 < length piece.now → 0 < n) }
        // It never fails, and takes as much as there is, and as one call takes.
        ensures count { result ≡ Ok (min (length piece.now) self.old) }
        ensures most { self.new ≡ self.old }
    {
        Ok(piece.len().min(self.most))
    }

    fn faults(&self) -> u64 {
        0
    }
}
