//! Whole answers, over sources and sinks in memory: inputs of all lengths, single bytes, and devices that fail. What programs and orders write stands in
//! `examples/`.

use crate::right::first_wrong;
use drust_io::{Gate, MemorySink, MemorySource, NoGate};
use drust_top::drust;
use std::alloc::Global;
use std::sync::Wait;
use std::test::Fail;
use std::thread::Threads;

const FIRST: &str = "{ let mut x = box 1; *x = 2; print *x }";

const FIRST_REPORT: &str =
    "ended finished\nprints 1\n2\norder 1\n0.0 7\nsteps 7\nevents 8\nissued 2\nrenewed 0\nhits 0\nevictions 0\nmessages 0\n";

// The report of an empty block's run.
const EMPTY_REPORT: &str =
    "ended finished\nprints 0\norder 1\n0.0 1\nsteps 1\nevents 1\nissued 0\nrenewed 0\nhits 0\nevictions 0\nmessages 0\n";

/// How many bytes a call of the source gives or one of the sink takes, and which calls of the source and of the sink fail.
#[derive(Clone, Copy)]
pub struct Devices {
    most: usize,
    reads: &'static [u64],
    writes: &'static [u64],
}

// No call fails.
const SMALL: Devices = Devices {
    most: 64,
    reads: &[],
    writes: &[],
};

/// No call fails, and each gives or takes much.
pub const LARGE: Devices = Devices {
    most: 4096,
    ..SMALL
};

const SINGLE: Devices = Devices { most: 1, ..SMALL };

const NO_SOURCE: Devices = Devices {
    reads: &[1],
    ..LARGE
};

const HALF_A_SINK: Devices = Devices {
    most: 16,
    writes: &[2],
    ..SMALL
};

// As deep a source as may be, and a deeper one, but for what closes them.
const DEEP: &str = "{{{{{{{{{{{{{{{{{{{{{{{{{{{{{{{{{{{{{{{{{{{{{{{{{{{{{{{{{{{{{{{{";

const TOO_DEEP: &str = "{{{{{{{{{{{{{{{{{{{{{{{{{{{{{{{{{{{{{{{{{{{{{{{{{{{{{{{{{{{{{{{{{";

// The words of a command line.
fn words_of(alloc: Global, texts: &[&str]) -> Result<Vec<String>, Fail> {
    let mut words = Vec::new(alloc);
    for text in texts {
        words.push(String::from_str(alloc, text)?)?;
    }
    Ok(words)
}

/// The status and the bytes that are written for words and an input, where each server's work comes by that gate.
pub fn answer_by<G: Gate + Sync, R: Threads + Wait + Sync>(
    rt: &R,
    alloc: Global,
    words: &[&str],
    input: &[u8],
    devices: &Devices,
    gate: &G,
) -> Result<(u8, Vec<u8>), Fail> {
    let most = devices.most.max(1);
    let words = words_of(alloc, words)?;
    let mut source = MemorySource::new(input.to_vec(alloc)?, most, devices.reads.to_vec(alloc)?);
    let mut sink = MemorySink::new(alloc, most, devices.writes.to_vec(alloc)?);
    let outcome = drust(rt, alloc, &words, &mut source, &mut sink, gate);
    Ok((outcome.status, sink.bytes().to_vec(alloc)?))
}

// Whether an input is run, and answered with this status and this text.
fn is_answered<R: Threads + Wait + Sync>(
    rt: &R,
    alloc: Global,
    input: &[u8],
    devices: &Devices,
    want: (u8, &str),
) -> Result<bool, Fail> {
    let (status, bytes) = answer_by(rt, alloc, &["run"], input, devices, &NoGate)?;
    Ok(status == want.0 && bytes.as_slice() == want.1.as_bytes())
}

// The first source, with devices that give and take single bytes or fail.
fn wrong_device<R: Threads + Wait + Sync>(rt: &R, alloc: Global) -> Result<Option<usize>, Fail> {
    let first = FIRST.as_bytes();
    let right = [
        is_answered(rt, alloc, first, &LARGE, (0, FIRST_REPORT))?,
        is_answered(rt, alloc, first, &SINGLE, (0, FIRST_REPORT))?,
        is_answered(rt, alloc, first, &NO_SOURCE, (6, ""))?,
        is_answered(rt, alloc, first, &HALF_A_SINK, (7, "ended finished\np"))?,
    ];
    Ok(first_wrong(&right))
}

#[test]
fn devices_that_give_little_or_fail(rt: HostRuntime) -> Result<(), Fail> {
    assert_eq!(rt; wrong_device(&rt, rt.alloc())?, None);
    Ok(())
}

// These bytes, and then others up to that length.
fn bytes_of(alloc: Global, first: &str, next: u8, length: usize) -> Result<Vec<u8>, Fail> {
    let mut bytes = first.as_bytes().to_vec(alloc)?;
    let rest = vec![in alloc; next; length.saturating_sub(first.len())]?;
    bytes.extend_from_slice(&rest)?;
    Ok(bytes)
}

// Whether an input that begins with a text and goes on with one byte up to a length is answered so.
fn is_told<R: Threads + Wait + Sync>(
    rt: &R,
    alloc: Global,
    input: (&str, u8, usize),
    status: u8,
    text: &str,
) -> Result<bool, Fail> {
    let input = bytes_of(alloc, input.0, input.1, input.2)?;
    is_answered(rt, alloc, &input, &LARGE, (status, text))
}

// The number of the first wrong answer to an input that is padded.
fn wrong_padded<R: Threads + Wait + Sync>(rt: &R, alloc: Global) -> Result<Option<usize>, Fail> {
    let right = [
        is_told(rt, alloc, ("{ }", b' ', 3), 0, EMPTY_REPORT)?,
        is_told(rt, alloc, (DEEP, b'}', 128), 0, EMPTY_REPORT)?,
        is_told(rt, alloc, (TOO_DEEP, b'}', 130), 3, "refused depth at 64\n")?,
        is_told(rt, alloc, (FIRST, b' ', 1_048_576), 0, FIRST_REPORT)?,
        is_told(rt, alloc, (FIRST, b' ', 1_048_577), 9, "refused size\n")?,
    ];
    Ok(first_wrong(&right))
}

#[test]
fn padded_inputs(rt: HostRuntime) -> Result<(), Fail> {
    assert_eq!(rt; wrong_padded(&rt, rt.alloc())?, None);
    Ok(())
}

// How many bytes an input may have.
const MOST: usize = 1_048_576;

// The number of the first wrong answer to an input as long as may be, or one byte longer, that no grammar has.
fn wrong_long<R: Threads + Wait + Sync>(rt: &R, alloc: Global) -> Result<Option<usize>, Fail> {
    let right = [
        is_told(
            rt,
            alloc,
            ("", b' ', MOST),
            3,
            "refused syntax at 1048576\n",
        )?,
        is_told(rt, alloc, ("", b' ', MOST + 1), 9, "refused size\n")?,
        is_told(rt, alloc, ("", b'{', MOST), 3, "refused depth at 64\n")?,
        is_told(rt, alloc, ("", b'*', MOST), 3, "refused syntax at 0\n")?,
        is_told(rt, alloc, ("{", b'*', MOST), 3, "refused depth at 9\n")?,
        is_told(rt, alloc, ("{", b'(', MOST), 3, "refused depth at 64\n")?,
        is_told(rt, alloc, ("{", b'n', MOST), 3, "refused name at 1\n")?,
        is_told(rt, alloc, ("{", b'9', MOST), 3, "refused number at 1\n")?,
        is_told(rt, alloc, ("{", b';', MOST), 3, "refused syntax at 1\n")?,
        is_told(rt, alloc, ("{", b'&', MOST), 3, "refused syntax at 2\n")?,
    ];
    Ok(first_wrong(&right))
}

#[test]
fn long_inputs(rt: HostRuntime) -> Result<(), Fail> {
    assert_eq!(rt; wrong_long(&rt, rt.alloc())?, None);
    Ok(())
}

// Whether the first so many bytes of the first source are refused at that place.
fn is_cut<R: Threads + Wait + Sync>(
    rt: &R,
    alloc: Global,
    length: usize,
    place: usize,
) -> Result<bool, Fail> {
    let text = format!(in alloc; "refused syntax at {place}\n")?;
    let input = FIRST.as_bytes().get(..length).unwrap_or(b"");
    is_answered(rt, alloc, input, &SMALL, (3, text.as_str()))
}

// The length of the first proper prefix of the first source that isn't refused at its end.
fn wrong_prefix<R: Threads + Wait + Sync>(rt: &R, alloc: Global) -> Result<Option<usize>, Fail> {
    for length in 0..FIRST.len() {
        // a word that is cut is a name: that matters where `mut` has to stand
        let place = if length == 7 || length == 8 {
            6
        } else {
            length
        };
        if !is_cut(rt, alloc, length, place)? {
            return Ok(Some(length));
        }
    }
    Ok(None)
}

#[test]
fn each_proper_prefix_is_refused_at_its_end(rt: HostRuntime) -> Result<(), Fail> {
    assert_eq!(rt; wrong_prefix(&rt, rt.alloc())?, None);
    Ok(())
}

// Whether the first source with this byte at this place is answered, with a line at least.
fn tells_of_byte<R: Threads + Wait + Sync>(
    rt: &R,
    alloc: Global,
    place: usize,
    byte: u8,
) -> Result<bool, Fail> {
    let mut input = FIRST.as_bytes().to_vec(alloc)?;
    match input.get_mut(place) {
        Some(old) => *old = byte,
        None => return Ok(false),
    }
    let (status, bytes) = answer_by(rt, alloc, &["run"], &input, &LARGE, &NoGate)?;
    Ok(matches!(status, 0 | 3 | 4) && bytes.ends_with(b"\n"))
}

// The first place with a byte, of all bytes, that isn't answered so.
fn wrong_byte<R: Threads + Wait + Sync>(
    rt: &R,
    alloc: Global,
) -> Result<Option<(usize, u8)>, Fail> {
    for place in 0..FIRST.len() {
        for byte in 0..=255u8 {
            if !tells_of_byte(rt, alloc, place, byte)? {
                return Ok(Some((place, byte)));
            }
        }
    }
    Ok(None)
}

#[test]
fn any_byte_at_any_place_is_answered(rt: HostRuntime) -> Result<(), Fail> {
    assert_eq!(rt; wrong_byte(&rt, rt.alloc())?, None);
    Ok(())
}
