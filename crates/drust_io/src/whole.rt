//! Whole reads and writes.

ghost use Rattle.std.specs.Prelude.{◌≡◌, ◌+◌, ◌<◌, ◌≤◌, length, take, vec_len, IfOk, OnOk, IfErr, IsErrOf};
ghost use Rattle.drust_io.specs.Flow.{Rose, ComesOff, NothingLeft, GoesOn, SomeComeOff, AtMostComeOff};
ghost use Rattle.drust_io.specs.declared.whole.ReadError.TheVariants.{NoMemory};

use crate::flow::{Sink, Source};
use std::alloc::{AllocError, Global};
use thiserror::Error;

/// Why a whole read has no bytes to give.
#[derive(Clone, Copy, Debug, PartialEq, Eq, Error)]
pub enum ReadError {
    /// The source failed.
    #[error("the source failed")]
    ReadFault,
    /// There are more bytes than the limit.
    #[error("too many bytes")]
    TooLong,
    /// There was no memory for the bytes.
    #[error("no memory")]
    NoMemory,
}

impl From<AllocError> for ReadError {
    ghost from_gives = { λ _ e. e ≡ NoMemory };

    fn from(_error: AllocError) -> ReadError {
        ReadError::NoMemory
    }
}

const ROOM: usize = 4096;

/// All bytes that are left, at most `limit` of them. `ReadFault` comes only where the source's count of faults rose in
/// this call, `TooLong` only where more than `limit` bytes were left, of which it has read one more than the limit.
/// With more than `limit` bytes left it never gives bytes. What it read before an error is gone.
pub fn read_all<S: Source>(
    alloc: Global,
    source: &mut S,
    limit: usize,
) -> Result<Vec<u8>, ReadError>
    ensures all { IfOk result (λ v. ComesOff v.items (S.left source.old) (S.left source.new)) }
    ensures end { IfOk result (λ v. NothingLeft (S.left source.new)) }
    ensures within { IfOk result (λ v. vec_len v ≤ limit) }
    ensures too_long { IsErrOf result ReadError.TooLong → SomeComeOff (limit + 1) (S.left source.old) (S.left source.new) }
    ensures fault { IsErrOf result ReadError.ReadFault → Rose (S.fault_count source.old) (S.fault_count source.new) }
    ensures took { AtMostComeOff (limit + 1) (S.left source.old) (S.left source.new) }
    ensures grows { S.fault_count source.old ≤ S.fault_count source.new }
{
    let mut bytes = Vec::new(alloc);
    let mut room = [0u8; ROOM];
    loop {
        let left = limit - bytes.len();
        let want = left.min(ROOM - 1) + 1;
        let Ok(n) = source.read(&mut room[..want]) else {
            return Err(ReadError::ReadFault);
        };
        if n == 0 {
            return Ok(bytes);
        }
        if n > left {
            return Err(ReadError::TooLong);
        }
        bytes.extend_from_slice(&room[..n])?;
    }
}

/// The sink failed when it had taken the first `written` bytes and no more.
#[derive(Clone, Copy, Debug, PartialEq, Eq)]
pub struct WriteFault {
    pub written: usize,
}

/// Writes all bytes, in as many calls as the sink needs. `WriteFault` comes only where the sink's count of faults rose in
/// this call; the first `written` bytes, and not all, were written. No memory.
pub fn write_all<K: Sink>(sink: &mut K, bytes: &[u8]) -> Result<(), WriteFault>
    ensures all { OnOk result (GoesOn bytes.now (K.written sink.old) (K.written sink.new)) }
    ensures within { IfErr result (λ e. e.written < length bytes.now) }
    ensures some { IfErr result (λ e. GoesOn (take e.written bytes.now) (K.written sink.old) (K.written sink.new)) }
    ensures fault { IfErr result (λ e. Rose (K.fault_count sink.old) (K.fault_count sink.new)) }
    ensures grows { K.fault_count sink.old ≤ K.fault_count sink.new }
{
    let mut written = 0;
    while written < bytes.len() {
        let Ok(n) = sink.write(&bytes[written..]) else {
            return Err(WriteFault { written });
        };
        written += n;
    }
    Ok(())
}
