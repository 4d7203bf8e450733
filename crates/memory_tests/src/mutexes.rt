//! Mutexes made, asked for, given back and counted.

ghost use Rattle.std.specs.Prelude.{◌≡◌, [], true, OnOk, OnSome, IsTrue};
ghost use Rattle.memory_tests.specs.Mutexes.{is_out};

use crate::answers::first_wrong;
use fr_base::{MutexNo, NoMemory, ThreadNo};
use heap_partition::Owned;
use mutex_home::{Asked, Back, Mutexes};
use std::test::Fail;

// The number of the first wrong answer, where two mutexes are asked for and given back, and a third one has gone.
fn wrong_answer(mutexes: &mut Mutexes) -> Result<Option<usize>, NoMemory>
    requires state { mutexes.old.state ≡ record { home = 2; made = 0; there = [] } }
{
    let by = ThreadNo::new(0, 4);
    let next = ThreadNo::new(1, 5);
    mutexes.reserve(4)?;
    let gone = mutexes.make(Owned::Unit);
    let left = mutexes.less(gone);
    let first = mutexes.make(Owned::Int(3));
    let second = mutexes.make(Owned::Int(9));
    let granted = mutexes.ask(first, 0, by);
    mutexes.more(first);
    let right = [
        left == Some(Owned::Unit),
        second == MutexNo { home: 2, count: 3 },
        granted == Asked::Granted(Owned::Int(3)),
        mutexes.ask(first, 1, next) == Asked::Queued,
        mutexes.ask(second, 1, by) == Asked::Granted(Owned::Int(9)),
        mutexes.give_back(first, Owned::Int(6)) == Back::Next(1, next, Owned::Int(6)),
        mutexes.give_back(second, Owned::Int(8)) == Back::Kept,
        mutexes.less(first) == None,
        mutexes.less(first) == None,
        mutexes.give_back(first, Owned::Int(7)) == Back::Ended(Owned::Int(7)),
    ];
    Ok(first_wrong(&right))
}

#[test]
fn grants_in_the_order_of_asking(rt: HostRuntime) -> Result<(), Fail> {
    let mut mutexes = Mutexes::new(rt.alloc(), 2);
    assert_eq!(rt; wrong_answer(&mut mutexes)?, None);
    Ok(())
}

// How many threads wait for each of two mutexes.
const WAITING: u32 = 300;

// A thread waits for a mutex whose content is out, as that of another one is.
fn wait(
    mutexes: &mut Mutexes,
    asked: MutexNo,
    other: MutexNo,
    thread: ThreadNo,
) -> Result<(), NoMemory>
    requires asked { is_out mutexes.old.state asked ≡ true }
    requires other { is_out mutexes.old.state other ≡ true }
    ensures asked { OnOk result (is_out mutexes.new.state asked ≡ true) }
    ensures other { OnOk result (is_out mutexes.new.state other ≡ true) }
{
    mutexes.reserve(1)?;
    mutexes.ask(asked, 1, thread);
    Ok(())
}

// The thread that the content goes on to, where one waits.
fn granted(mutexes: &mut Mutexes, back: MutexNo, other: MutexNo) -> Option<ThreadNo>
    requires back { is_out mutexes.old.state back ≡ true }
    requires other { is_out mutexes.old.state other ≡ true }
    ensures back { OnSome result (is_out mutexes.new.state back ≡ true) }
    ensures other { OnSome result (is_out mutexes.new.state other ≡ true) }
{
    match mutexes.give_back(back, Owned::Unit) {
        Back::Next(_, thread, _) => Some(thread),
        Back::Ended(_) | Back::Kept => None,
    }
}

fn wait_in_turn(mutexes: &mut Mutexes, first: MutexNo, second: MutexNo) -> Result<(), NoMemory>
    requires first { is_out mutexes.old.state first ≡ true }
    requires second { is_out mutexes.old.state second ≡ true }
    ensures first { OnOk result (is_out mutexes.new.state first ≡ true) }
    ensures second { OnOk result (is_out mutexes.new.state second ≡ true) }
{
    'threads: for count in 0..WAITING {
        wait(mutexes, first, second, ThreadNo::new(1, count))?;
        wait(mutexes, second, first, ThreadNo::new(2, count))?;
    }
    Ok(())
}

// Whether the contents go on to the threads that wait in the order in which these came.
fn granted_in_turn(mutexes: &mut Mutexes, first: MutexNo, second: MutexNo) -> bool
    requires first { is_out mutexes.old.state first ≡ true }
    requires second { is_out mutexes.old.state second ≡ true }
    ensures first { IsTrue result → is_out mutexes.new.state first ≡ true }
    ensures second { IsTrue result → is_out mutexes.new.state second ≡ true }
{
    'threads: for count in 0..WAITING {
        match granted(mutexes, first, second) {
            Some(thread) if thread == ThreadNo::new(1, count) => {}
            _ => return false,
        }
        match granted(mutexes, second, first) {
            Some(thread) if thread == ThreadNo::new(2, count) => {}
            _ => return false,
        }
    }
    true
}

// The number of the first wrong answer, where many threads wait for each of two mutexes.
fn wrong_turn(mutexes: &mut Mutexes) -> Result<Option<usize>, NoMemory>
    requires state { mutexes.old.state ≡ record { home = 0; made = 0; there = [] } }
{
    let by = ThreadNo::new(0, 0);
    mutexes.reserve(2)?;
    let first = mutexes.make(Owned::Int(3));
    let second = mutexes.make(Owned::Int(9));
    let granted = (mutexes.ask(first, 0, by), mutexes.ask(second, 0, by));
    wait_in_turn(mutexes, first, second)?;
    let in_turn = granted_in_turn(mutexes, first, second);
    let right = [
        in_turn,
        granted.0 == Asked::Granted(Owned::Int(3)),
        granted.1 == Asked::Granted(Owned::Int(9)),
        in_turn && mutexes.give_back(second, Owned::Unit) == Back::Kept,
    ];
    Ok(first_wrong(&right))
}

#[test]
fn grants_each_mutex_in_its_order(rt: HostRuntime) -> Result<(), Fail> {
    let mut mutexes = Mutexes::new(rt.alloc(), 0);
    assert_eq!(rt; wrong_turn(&mut mutexes)?, None);
    Ok(())
}
