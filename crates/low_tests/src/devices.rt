//! Each source and sink at work: both sides of the limit, short calls, and faults in the middle.

ghost use Rattle.std.specs.Prelude.{◌<◌};

use crate::answers::first_wrong;
use drust_io::{
    Gate, MemorySink, MemorySource, NoFaultSink, NoFaultSource, NoGate, ReadError, Sink, Source,
    StdSink, StdSource, WriteFault, read_all, write_all,
};
use std::alloc::Global;
use std::cell::Cell;
use std::io;
use std::io::{ErrorKind, Read, Write};
use std::test::Fail;

// How many bytes are read, where they are all that the source has.
fn count(alloc: Global, source: &mut NoFaultSource, limit: usize) -> Result<usize, ReadError> {
    let bytes = read_all(alloc, source, limit)?;
    if bytes.as_slice() == [1, 2, 3, 4, 5].as_slice() {
        Ok(bytes.len())
    } else {
        Ok(0)
    }
}

// What is read of five bytes, so many at a time, up to a limit, and how many faults are counted.
fn read_five(
    alloc: Global,
    most: usize,
    limit: usize,
) -> Result<(Result<usize, ReadError>, u64), Fail>
    requires { 0 < most }
{
    let mut source = NoFaultSource::new(vec![in alloc; 1, 2, 3, 4, 5]?, most);
    Ok((count(alloc, &mut source, limit), source.faults()))
}

// The number of the first wrong answer.
fn wrong_read(alloc: Global) -> Result<Option<usize>, Fail> {
    let right = [
        read_five(alloc, 1, 5)? == (Ok(5), 0),
        read_five(alloc, 2, 5)? == (Ok(5), 0),
        read_five(alloc, 9, 6)? == (Ok(5), 0),
        read_five(alloc, 9, usize::MAX)? == (Ok(5), 0),
        read_five(alloc, 1, 4)? == (Err(ReadError::TooLong), 0),
        read_five(alloc, 9, 4)? == (Err(ReadError::TooLong), 0),
        read_five(alloc, 9, 0)? == (Err(ReadError::TooLong), 0),
    ];
    Ok(first_wrong(&right))
}

#[test]
fn reads_up_to_the_limit(rt: HostRuntime) -> Result<(), Fail> {
    assert_eq!(rt; wrong_read(rt.alloc())?, None);
    Ok(())
}

// What is read where it can't be, if anything.
fn refusal<S: Source>(alloc: Global, source: &mut S, limit: usize) -> Option<ReadError> {
    read_all(alloc, source, limit).err()
}

// Whether all that is left is read, and is this.
fn reads<S: Source>(alloc: Global, source: &mut S, limit: usize, want: &[u8]) -> bool {
    match read_all(alloc, source, limit) {
        Ok(bytes) => bytes.as_slice() == want,
        Err(_) => false,
    }
}

// The number of the first wrong answer: a read in the middle fails, and the next one goes on.
fn wrong_source(alloc: Global, source: &mut MemorySource) -> Option<usize> {
    let right = [
        refusal(alloc, source, 9) == Some(ReadError::ReadFault),
        source.faults() == 1,
        reads(alloc, source, 9, b"cde"),
    ];
    first_wrong(&right)
}

// The same of writes.
fn wrong_sink(sink: &mut MemorySink) -> Option<usize> {
    let right = [
        write_all(sink, b"abcde") == Err(WriteFault { written: 2 }),
        sink.faults() == 1,
        write_all(sink, b"cde") == Ok(()),
        sink.bytes() == b"abcde".as_slice(),
    ];
    first_wrong(&right)
}

#[test]
fn goes_on_after_a_fault(rt: HostRuntime) -> Result<(), Fail> {
    let bytes = vec![in rt.alloc(); b'a', b'b', b'c', b'd', b'e']?;
    let mut source = MemorySource::new(bytes, 2, vec![in rt.alloc(); 2]?);
    let mut sink = MemorySink::new(rt.alloc(), 2, vec![in rt.alloc(); 2]?);
    let wrong = (wrong_source(rt.alloc(), &mut source), wrong_sink(&mut sink));
    assert_eq!(rt; wrong, (None, None));
    let mut nowhere = NoFaultSink::new(1);
    assert_eq!(rt; write_all(&mut nowhere, b"abcde"), Ok(()));
    Ok(())
}

#[derive(Drop)]
struct Broken;

impl Read for Broken {
    fn read(&mut self, _buf: &mut [u8]) -> io::Result<usize> {
        Err(io::Error::from(ErrorKind::Other))
    }
}

impl Write for Broken {
    fn write(&mut self, _buf: &[u8]) -> io::Result<usize> {
        Ok(0)
    }

    fn flush(&mut self) -> io::Result<()> {
        Ok(())
    }
}

// Takes two bytes in a call and counts its flushes; the last of them fails.
#[derive(Drop)]
struct Flushed<'a> {
    flushes: &'a Cell<u64>,
    last: u64,
}

impl<'a> Write for Flushed<'a> {
    fn write(&mut self, buf: &[u8]) -> io::Result<usize> {
        Ok(buf.len().min(2))
    }

    fn flush(&mut self) -> io::Result<()> {
        let count = self.flushes.get().saturating_add(1);
        self.flushes.set(count);
        if count < self.last {
            Ok(())
        } else {
            Err(io::Error::from(ErrorKind::Other))
        }
    }
}

// What comes of five bytes where the flush of that number fails, how many faults are counted, and how many flushes there were.
fn flush_five(last: u64) -> (Result<(), WriteFault>, u64, u64) {
    let flushes = Cell::new(0u64);
    let mut sink = StdSink::new(Flushed {
        flushes: &flushes,
        last,
    });
    let written = write_all(&mut sink, b"abcde");
    (written, sink.faults(), flushes.get())
}

#[test]
fn flushes_each_piece(rt: HostRuntime) {
    let right = [
        flush_five(9) == (Ok(()), 0, 3),
        flush_five(3) == (Err(WriteFault { written: 4 }), 1, 3),
        flush_five(1) == (Err(WriteFault { written: 0 }), 1, 1),
    ];
    assert_eq!(rt; first_wrong(&right), None);
}

// The number of the first wrong answer, of devices whose calls fail.
fn wrong_device(alloc: Global) -> Option<usize> {
    let mut whole = StdSource::new(b"abc".as_slice());
    let mut source = StdSource::new(Broken);
    let mut sink = StdSink::new(Broken);
    let right = [
        reads(alloc, &mut whole, 3, b"abc"),
        whole.faults() == 0,
        refusal(alloc, &mut source, 3) == Some(ReadError::ReadFault),
        source.faults() == 1,
        write_all(&mut sink, b"abc") == Err(WriteFault { written: 0 }),
        sink.faults() == 1,
    ];
    first_wrong(&right)
}

#[test]
fn counts_errors_of_devices(rt: HostRuntime) {
    let mut sink = StdSink::new(rt.stdout());
    assert_eq!(rt; write_all(&mut sink, b""), Ok(()));
    assert_eq!(rt; wrong_device(rt.alloc()), None);
    NoGate.arrive(3);
}
