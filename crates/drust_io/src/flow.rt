//! Where bytes come from and where they go.

ghost use Rattle.std.specs.Prelude.{◌≡◌, ℕ, ◌<◌, ◌≤◌, List, Option, length, take, IfOk, OnErr};
ghost use Rattle.drust_io.specs.Flow.{Rose, ComesOff, NothingLeft, GoesOn};

/// The device failed in this call: nothing was read or taken.
#[derive(Clone, Copy, Debug, PartialEq, Eq)]
pub struct Failed;

/// Where bytes come from.
pub trait Source {
    /// What is left to read, where the source tells that.
    ghost left: { Self → Option (List ℕ) };

    /// How many calls failed.
    ghost fault_count: { Self → ℕ };

    /// Puts the next bytes in front of `room` and says how many. 0 for a room of some bytes is the end: then nothing is
    /// left. `Failed` comes only where the count of faults rose, and leaves what was left.
    fn read(&mut self, room: &mut [u8]) -> Result<usize, Failed>
        ensures within { IfOk result (λ n. n ≤ length room.old) }
        ensures bytes { IfOk result (λ n. ComesOff (take n room.new) (left self.old) (left self.new)) }
        ensures end { IfOk result (λ n. n ≡ 0 → 0 < length room.old → NothingLeft (left self.new)) }
        ensures kept { OnErr result (left self.new ≡ left self.old) }
        ensures failed { OnErr result (Rose (fault_count self.old) (fault_count self.new)) }
        ensures grows { fault_count self.old ≤ fault_count self.new };

    /// How many calls failed; at 2^64 - 1 the count stands still.
    fn faults(&self) -> u64
        ensures { result ≡ fault_count self.now };
}

/// Where bytes go.
pub trait Sink {
    /// What was written, where the sink tells that.
    ghost written: { Self → Option (List ℕ) };

    /// How many calls failed.
    ghost fault_count: { Self → ℕ };

    /// Takes bytes off the front of `piece`, at least one of a piece of some bytes, and says how many. `Failed` comes
    /// only where the count of faults rose, and then nothing was taken.
    fn write(&mut self, piece: &[u8]) -> Result<usize, Failed>
        ensures within { IfOk result (λ n. n ≤ length piece.now) }
        ensures some { IfOk result (λ n. 0 < length piece.now → 0 < n) }
        ensures bytes { IfOk result (λ n. GoesOn (take n piece.now) (written self.old) (written self.new)) }
        ensures kept { OnErr result (written self.new ≡ written self.old) }
        ensures failed { OnErr result (Rose (fault_count self.old) (fault_count self.new)) }
        ensures grows { fault_count self.old ≤ fault_count self.new };

    /// How many calls failed; at 2^64 - 1 the count stands still.
    fn faults(&self) -> u64
        ensures { result ≡ fault_count self.now };
}
