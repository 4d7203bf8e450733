//! Standard input and output. What a terminal or a pipe gave or took is claimed nowhere.

ghost use Rattle.std.specs.Prelude.{◌≡◌, ℕ, ◌+◌, ◌^◌, ◌-◌, ◌<◌, ◌≤◌, length, min, take, None, IfOk, OnOk, OnErr};
ghost use Rattle.std.specs.Io.KnownBytes.{ReadConsumes, Appends};
ghost use Rattle.drust_io.specs.Flow.{Rose};

use crate::flow::{Failed, Sink, Source};
use std::io::{Read, Write};
use std::marker::Model;

/// Reads from a reader, as standard input: `StdSource::new(rt.stdin())`. It tells nothing of what is left, and each error
/// of the reader counts as a fault. Contracts see the reader and the count.
#[derive(Drop)]
pub struct StdSource<R: Read + Drop> {
    from: R,
    faults: u64,
}

impl<R: Read + Drop> Model for StdSource<R> {
    ghost use Rattle.drust_io.specs.Counted.{Counted};

    ghost Value = { Counted R };

    ghost view = { λ s. record { device = s.from; faults = s.faults } };
}

impl<R: Read + Drop> StdSource<R> {
    /// A source over this reader, with no fault.
    pub fn new(from: R) -> StdSource<R>
        ensures { result ≡ record { device = from; faults = 0 } }
    {
        StdSource { from, faults: 0 }
    }
}

impl<R: Read + Drop> Source for StdSource<R> {
    ghost left = { λ _. None };

    ghost fault_count = { λ s. s.faults };

    fn read(&mut self, room: &mut [u8]) -> Result<usize, Failed>
        ensures within { IfOk result (λ n. n ≤ length room.old) }
        ensures failed { OnErr result (Rose self.old.faults self.new.faults) }
        ensures grows { self.old.faults ≤ self.new.faults }
        // A fault is counted exactly where the call failed.
        ensures no_fault { OnOk result (self.new.faults ≡ self.old.faults) }
        ensures one_fault { OnErr result (self.new.faults ≡ min (self.old.faults + 1) (2 ^ 64 - 1)) }
        // Where the reader tells its bytes, these are the bytes.
        ensures reader { ReadConsumes (R.remaining self.old.device) (R.remaining self.new.device) result room.new }
    {
        match self.from.read(room) {
            Ok(n) => Ok(n),
            Err(_) => {
                self.faults = self.faults.saturating_add(1);
                Err(Failed)
            }
        }
    }

    fn faults(&self) -> u64 {
        self.faults
    }
}

/// Writes to a writer, as standard output: `StdSink::new(rt.stdout())`. It tells nothing of what was written. A call writes
/// and flushes; an error of either counts as a fault, and so does a writer that takes nothing of some bytes. Contracts
/// see the writer and the count.
#[derive(Drop)]
pub struct StdSink<W: Write + Drop> {
    to: W,
    faults: u64,
}

impl<W: Write + Drop> Model for StdSink<W> {
    ghost use Rattle.drust_io.specs.Counted.{Counted};

    ghost Value = { Counted W };

    ghost view = { λ s. record { device = s.to; faults = s.faults } };
}

impl<W: Write + Drop> StdSink<W> {
    /// A sink over this writer, with no fault.
    pub fn new(to: W) -> StdSink<W>
        ensures { result ≡ record { device = to; faults = 0 } }
    {
        StdSink { to, faults: 0 }
    }

    // Counts a fault.
    fn failed(&mut self) -> Failed
        ensures counted { self.new ≡ record { device = self.old.device; faults = min (self.old.faults + 1) (2 ^ 64 - 1) } }
        ensures grows { self.old.faults ≤ self.new.faults }
    {
        self.faults = self.faults.saturating_add(1);
        Failed
    }
}

impl<W: Write + Drop> Sink for StdSink<W> {
    ghost written = { λ _. None };

    ghost fault_count = { λ s. s.faults };

    fn write(&mut self, piece: &[u8]) -> Result<usize, Failed>
        ensures within { IfOk result (λ n. n ≤ length piece.now) }
        ensures some { IfOk result (λ n. 0 < length piece.now → 0 < n) }
        ensures failed { OnErr result (Rose self.old.faults self.new.faults) }
        ensures grows { self.old.faults ≤ self.new.faults }
        // A fault is counted exactly where the call failed.
        ensures no_fault { OnOk result (self.new.faults ≡ self.old.faults) }
        ensures one_fault { OnErr result (self.new.faults ≡ min (self.old.faults + 1) (2 ^ 64 - 1)) }
        // Where the writer tells its bytes, these were appended.
        ensures writer { IfOk result (λ n. Appends (W.contents self.old.device) (W.contents self.new.device) (take n piece.now)) }
        // Else first bytes of the piece at most, once.
        ensures refused { OnErr result ((m : ℕ) × (m ≤ length piece.now) × Appends (W.contents self.old.device) (W.contents self.new.device) (take m piece.now)) }
    {
        let Ok(n) = self.to.write(piece) else {
            return Err(self.failed());
        };
        if n == 0 && !piece.is_empty() {
            return Err(self.failed());
        }
        if self.to.flush().is_err() {
            return Err(self.failed());
        }
        Ok(n)
    }

    fn faults(&self) -> u64 {
        self.faults
    }
}
