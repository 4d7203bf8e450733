//! Sources and sinks in memory, whose calls fail by plan.

ghost use Rattle.std.specs.Prelude.{◌≡◌, ℕ, ◌+◌, ◌<◌, ◌≤◌, [], length, take, Some, Contains, IsErr, IfOk, OnOk, OnErr, min, ◌-◌, ◌^◌, ◌↔◌};
ghost use Rattle.drust_io.specs.Flow.{Rose, ComesOff, NothingLeft, GoesOn};

use crate::flow::{Failed, Sink, Source};
use std::alloc::Global;
use std::marker::Model;

/// Puts the first bytes, at most `most` of them, in front of `room`, and says how many.
pub(crate) fn copy_front(bytes: &[u8], most: usize, room: &mut [u8]) -> usize
    ensures count { result ≡ min (min (length room.old) most) (length bytes.now) }
    ensures bytes { take result room.new ≡ take result bytes.now }
{
    let n = room.len().min(most).min(bytes.len());
    room[..n].copy_from_slice(&bytes[..n]);
    n
}

/// Gives bytes, at most `most` of them in a call. The calls whose numbers, from 1, stand in its plan fail.
/// Contracts see what is left, the plan, and how many calls there were and failed.
#[derive(Drop)]
pub struct MemorySource {
    bytes: Vec<u8>,
    at: usize,
    most: usize,
    failing: Vec<u64>,
    calls: u64,
    faults: u64,
}

impl Model for MemorySource {
    ghost use Rattle.std.specs.Prelude.{◌<◌, ◌≤◌, drop, vec_len};
    ghost use Rattle.drust_io.specs.Memory.{Device};

    ghost Value = { Device };

    ghost view = { λ s. record { bytes = drop s.at s.bytes.items; most = s.most; failing = s.failing.items; calls = s.calls; faults = s.faults } };

    ghost invariant = { λ s. (s.at ≤ vec_len s.bytes) × (0 < s.most) };
}

impl MemorySource {
    /// A source that has these bytes left and no call behind it. `most` is at least 1.
    pub fn new(bytes: Vec<u8>, most: usize, failing: Vec<u64>) -> MemorySource
        requires { 0 < most }
        ensures { result ≡ record { bytes = bytes.items; most = most; failing = failing.items; calls = 0; faults = 0 } }
    {
        MemorySource {
            bytes,
            at: 0,
            most,
            failing,
            calls: 0,
            faults: 0,
        }
    }
}

impl Source for MemorySource {
    ghost left = { λ s. Some s.bytes };

    ghost fault_count = { λ s. s.faults };

    fn read(&mut self, room: &mut [u8]) -> Result<usize, Failed>
        ensures within { IfOk result (λ n. n ≤ length room.old) }
        ensures bytes { IfOk result (λ n. ComesOff (take n room.new) (Some self.old.bytes) (Some self.new.bytes)) }
        ensures end { IfOk result (λ n. n ≡ 0 → 0 < length room.old → NothingLeft (Some self.new.bytes)) }
        ensures kept { OnErr result (self.new.bytes ≡ self.old.bytes) }
        ensures failed { OnErr result (Rose self.old.faults self.new.faults) }
        ensures grows { self.old.faults ≤ self.new.faults }
        // A fault is counted exactly where the call failed.
        ensures no_fault { OnOk result (self.new.faults ≡ self.old.faults) }
        ensures one_fault { OnErr result (self.new.faults ≡ min (self.old.faults + 1) (2 ^ 64 - 1)) }
        // As much as there is, as fits the room, and as one call takes.
        ensures count { IfOk result (λ n. n ≡ min (min (length room.old) self.old.most) (length self.old.bytes)) }
        // It fails exactly where the plan has this call.
        ensures planned { IsErr result ↔ Contains self.old.failing self.new.calls }
        ensures calls { self.new.calls ≡ min (self.old.calls + 1) (2 ^ 64 - 1) }
        ensures plan { (self.new.most ≡ self.old.most) × (self.new.failing ≡ self.old.failing) }
    {
        self.calls = self.calls.saturating_add(1);
        if self.failing.contains(&self.calls) {
            self.faults = self.faults.saturating_add(1);
            return Err(Failed);
        }
        let n = copy_front(&self.bytes[self.at..], self.most, room);
        self.at += n;
        Ok(n)
    }

    fn faults(&self) -> u64 {
        self.faults
    }
}

/// Keeps bytes, at most `most` of them in a call. The calls whose numbers, from 1, stand in its plan fail, and so does a
/// call that found no memory. Contracts see what was written, the plan, and how many calls there were and failed.
#[derive(Drop)]
pub struct MemorySink {
    bytes: Vec<u8>,
    most: usize,
    failing: Vec<u64>,
    calls: u64,
    faults: u64,
}

impl Model for MemorySink {
    ghost use Rattle.std.specs.Prelude.{◌<◌};
    ghost use Rattle.drust_io.specs.Memory.{Device};

    ghost Value = { Device };

    ghost view = { λ s. record { bytes = s.bytes.items; most = s.most; failing = s.failing.items; calls = s.calls; faults = s.faults } };

    ghost invariant = { λ s. 0 < s.most };
}

impl MemorySink {
    /// A sink to which nothing was written and with no call behind it. `most` is at least 1.
    pub fn new(alloc: Global, most: usize, failing: Vec<u64>) -> MemorySink
        requires { 0 < most }
        ensures { result ≡ record { bytes = []; most = most; failing = failing.items; calls = 0; faults = 0 } }
    {
        MemorySink {
            bytes: Vec::new(alloc),
            most,
            failing,
            calls: 0,
            faults: 0,
        }
    }

    /// What was written.
    pub fn bytes(&self) -> &[u8]
        ensures { result.now ≡ self.now.bytes }
    {
        &self.bytes
    }
}

impl Sink for MemorySink {
    ghost written = { λ s. Some s.bytes };

    ghost fault_count = { λ s. s.faults };

    fn write(&mut self, piece: &[u8]) -> Result<usize, Failed>
        ensures within { IfOk result (λ n. n ≤ length piece.now) }
        ensures some { IfOk result (λ n. 0 < length piece.now → 0 < n) }
        ensures bytes { IfOk result (λ n. GoesOn (take n piece.now) (Some self.old.bytes) (Some self.new.bytes)) }
        ensures kept { OnErr result (self.new.bytes ≡ self.old.bytes) }
        ensures failed { OnErr result (Rose self.old.faults self.new.faults) }
        ensures grows { self.old.faults ≤ self.new.faults }
        // A fault is counted exactly where the call failed.
        ensures no_fault { OnOk result (self.new.faults ≡ self.old.faults) }
        ensures one_fault { OnErr result (self.new.faults ≡ min (self.old.faults + 1) (2 ^ 64 - 1)) }
        // As much as there is, and as one call takes.
        ensures count { IfOk result (λ n. n ≡ min (length piece.now) self.old.most) }
        // It fails where the plan has this call; without memory others fail too.
        ensures planned { Contains self.old.failing self.new.calls → IsErr result }
        ensures calls { self.new.calls ≡ min (self.old.calls + 1) (2 ^ 64 - 1) }
        ensures plan { (self.new.most ≡ self.old.most) × (self.new.failing ≡ self.old.failing) }
    {
        self.calls = self.calls.saturating_add(1);
        let n = piece.len().min(self.most);
        if self.failing.contains(&self.calls)
            || self.bytes.extend_from_slice(&piece[..n]).is_err()
        {
            self.faults = self.faults.saturating_add(1);
            return Err(Failed);
        }
        Ok(n)
    }

    fn faults(&self) -> u64 {
        self.faults
    }
}
