//! Workers beside each other: that they are, which no contract says, and that what is written doesn't depend on their number.

use crate::answers::{LARGE, answer_by};
use drust_io::{Gate, NoGate};
use std::alloc::Global;
use std::sync::Wait;
use std::sync::atomic::{AtomicBool, Ordering};
use std::test::Fail;
use std::thread::Threads;

// How many turns of a loop server 0 is held at most.
const TURNS: u32 = 1_000_000_000;

// Holds server 0 until another one has arrived, and tells where none comes.
#[derive(Drop)]
struct Held {
    others_arrived: AtomicBool,
    stays_alone: AtomicBool,
}

impl Held {
    fn new() -> Held {
        Held {
            others_arrived: AtomicBool::new(false),
            stays_alone: AtomicBool::new(false),
        }
    }
}

impl Gate for Held {
    fn arrive(&self, server: u8) {
        if server > 0 {
            self.others_arrived.store(true, Ordering::SeqCst);
            return;
        }
        for _ in 0..TURNS {
            if self.others_arrived.load(Ordering::SeqCst) {
                return;
            }
        }
        self.stays_alone.store(true, Ordering::SeqCst);
    }
}

#[test]
fn workers_work_beside_each_other(rt: HostRuntime) -> Result<(), Fail> {
    let held = Held::new();
    let words = ["run", "--servers", "2", "--workers", "2"];
    let (status, _) = answer_by(&rt, rt.alloc(), &words, b"{ print 1 }", &LARGE, &held)?;
    let beside = held.others_arrived.load(Ordering::SeqCst);
    let alone = held.stays_alone.load(Ordering::SeqCst);
    assert_eq!(rt; (status, beside, alone), (0, true, false));
    Ok(())
}

// Whether the words with that number of workers are answered as with one.
fn is_the_same<'w, R: Threads + Wait + Sync>(
    rt: &R,
    alloc: Global,
    words: &[&'w str; 9],
    input: &[u8],
    workers: &'w str,
) -> Result<bool, Fail> {
    let mut others = *words;
    others[2] = workers;
    let one = answer_by(rt, alloc, words, input, &LARGE, &NoGate)?;
    let other = answer_by(rt, alloc, &others, input, &LARGE, &NoGate)?;
    Ok(one.0 == other.0 && one.1.as_slice() == other.1.as_slice())
}

#[rattlefmt::skip]
const LOAD: [&str; 9] = ["load", "--workers", "1", "--number", "4", "--size", "50", "--servers", "8"];

#[rattlefmt::skip]
const RUN: [&str; 9] = ["run", "--workers", "1", "--quantum", "1024", "--servers", "3", "--trace", "1"];

// Two threads, each with work for some rounds of a full quantum.
fn long_threads(alloc: Global) -> Result<Vec<u8>, Fail> {
    let mut source = b"{ let mut h = ".to_vec(alloc)?;
    for rest in ["; let mut i = ", "; join h; join i }"] {
        source.extend_from_slice(b"spawn () { let mut x = 1")?;
        for _ in 0..900u32 {
            source.extend_from_slice(b"; x = (x + 1)")?;
        }
        source.extend_from_slice(b" }")?;
        source.extend_from_slice(rest.as_bytes())?;
    }
    Ok(source)
}

// The first number of workers with which something else is written.
fn wrong_workers<'w, R: Threads + Wait + Sync>(
    rt: &R,
    alloc: Global,
    long: &[u8],
    numbers: &[&'w str],
) -> Result<Option<&'w str>, Fail> {
    for workers in numbers {
        let load = is_the_same(rt, alloc, &LOAD, b"", workers)?;
        let run = is_the_same(rt, alloc, &RUN, long, workers)?;
        if !load || !run {
            return Ok(Some(*workers));
        }
    }
    Ok(None)
}

#[test]
fn any_number_of_workers_writes_the_same(rt: HostRuntime) -> Result<(), Fail> {
    let long = long_threads(rt.alloc())?;
    let wrong = wrong_workers(&rt, rt.alloc(), &long, &["2", "3", "8"])?;
    assert_eq!(rt; wrong, None);
    Ok(())
}
