//! Makes, stores and frees objects of one partition, as many times as its argument says (3,000 without one), and writes
//! how many objects are left and how many addresses were used. `bench/memory.sh` takes its time.
#![tactic(auto)]

ghost use Rattle.std.specs.Prelude.{◌≡◌, ◌≤◌};

use drust_io::{StdSink, write_all};
use fr_base::{NoMemory, ObjNo, ThreadNo};
use global_addr::Word;
use heap_partition::{Cell, Owned};
use itoa::Buffer;
use owner_box::Partition;
use std::alloc::Global;
use std::process::ExitCode;

// One address more than there are.
const ADDRESSES: u64 = 1_099_511_627_776;

// How often to make an object: the first argument.
fn rounds_of(rt: &HostRuntime) -> u64 {
    match std::env::args(rt) {
        Ok(args) => match args.skip(1).collect::<Vec<String>>(rt.alloc()) {
            Ok(words) => match words.first() {
                Some(word) => word.parse::<u64>().unwrap_or(3_000),
                None => 3_000,
            },
            Err(_) => 3_000,
        },
        Err(_) => 3_000,
    }
}

fn cell(count: u64) -> Cell {
    let thread = ThreadNo::new(0, 0);
    Cell {
        object: ObjNo { thread, count },
        value: Owned::Int(0),
    }
}

// Makes an object and stores a value in it.
fn make(partition: &mut Partition, live: &mut Vec<Word>, count: u64) -> Result<(), NoMemory> {
    partition.reserve(1)?;
    if partition.next() < ADDRESSES {
        let word = partition.make(cell(count));
        live.push(word)?;
        if partition.leads_to(word) {
            partition.store(word, Owned::Unit);
        }
    }
    Ok(())
}

// Frees the object that was made last.
fn free(partition: &mut Partition, live: &mut Vec<Word>) {
    if let Some(word) = live.pop() {
        if partition.leads_to(word) {
            partition.free(word);
        }
    }
}

// So many objects are made, and of each three the last is freed.
fn work(partition: &mut Partition, live: &mut Vec<Word>, rounds: u64) -> Result<(), NoMemory> {
    'rounds: for count in 0..rounds {
        make(partition, live, count)?;
        if count % 3 == 2 {
            free(partition, live);
        }
    }
    Ok(())
}

fn report(alloc: Global, left: u64, used: u64) -> Result<String, NoMemory> {
    let mut text = String::from_str(alloc, "left ")?;
    let mut buffer = Buffer::new();
    text.push_str(buffer.format(left))?;
    text.push_str("\nused ")?;
    text.push_str(buffer.format(used))?;
    text.push_str("\n")?;
    Ok(text)
}

fn run(rt: &HostRuntime, rounds: u64) -> Result<String, NoMemory> {
    let mut partition = Partition::new(rt.alloc(), 0, 65_536);
    let mut live = Vec::new(rt.alloc());
    work(&mut partition, &mut live, rounds)?;
    report(rt.alloc(), live.len() as u64, partition.next())
}

fn main(rt: HostRuntime) -> ExitCode {
    let rounds = rounds_of(&rt);
    let Ok(text) = run(&rt, rounds) else {
        return ExitCode::from(8);
    };
    match write_all(&mut StdSink::new(rt.stdout()), text.as_bytes()) {
        Ok(()) => ExitCode::from(0),
        Err(_) => ExitCode::from(7),
    }
}
