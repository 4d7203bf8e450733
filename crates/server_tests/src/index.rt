//! What a server looks for by number or by place, beside plain lists, with more of them than stand side by side.

ghost use Rattle.std.specs.Prelude.{◌<◌, ◌^◌};

use crate::answers::first_wrong;
use fr_base::NoMemory;
use server_index::{FrontQueue, MarkSet, Table};
use std::test::Fail;

// How many items come.
const COME: u64 = 60;

// And how many where the later ones are to move to more slots several times.
const CROWD: u64 = 600;

// A row has the numbers with the same higher bits.
const ROW: u64 = 1 << 32;

// Puts an item last in a queue and in a list.
fn put(queue: &mut FrontQueue<u64>, list: &mut Vec<u64>, item: u64) -> Result<(), NoMemory> {
    queue.reserve(1)?;
    queue.push(item);
    match list.push(item) {
        Ok(()) => Ok(()),
        Err(_) => Err(NoMemory),
    }
}

// Whether what is taken at a place is the same of both, where both have it.
fn take_same(queue: &mut FrontQueue<u64>, list: &mut Vec<u64>, at: usize) -> bool {
    if at < queue.len() && at < list.len() {
        queue.take(at) == list.remove(at)
    } else {
        queue.len() == list.len()
    }
}

// Whether both have the same items.
fn same(queue: &FrontQueue<u64>, list: &[u64]) -> bool {
    let mut same = queue.len() == list.len() && queue.at(list.len()).is_none();
    for (at, item) in list.iter().enumerate() {
        same = same && queue.at(at) == Some(item);
    }
    same
}

// The first item after which both differ, where items come, and go near the front.
fn wrong_in_front(
    queue: &mut FrontQueue<u64>,
    list: &mut Vec<u64>,
) -> Result<Option<u64>, NoMemory> {
    for item in 0..COME {
        put(queue, list, item)?;
        let taken = item % 3 != 2 || take_same(queue, list, (item * 7 % 23) as usize);
        if !taken || !same(queue, list) {
            return Ok(Some(item));
        }
    }
    Ok(None)
}

// The first turn after which both differ, where the items go near the front.
fn wrong_behind(queue: &mut FrontQueue<u64>, list: &mut Vec<u64>) -> Option<u64> {
    for turn in 0..COME {
        if !take_same(queue, list, (turn * 5 % 11) as usize) || !same(queue, list) {
            return Some(turn);
        }
    }
    None
}

// The first item after which both differ, where many items come, and go out of the front or of the middle.
fn wrong_in_crowd(
    queue: &mut FrontQueue<u64>,
    list: &mut Vec<u64>,
) -> Result<Option<u64>, NoMemory> {
    for item in 0..CROWD {
        put(queue, list, item)?;
        let at = (item * 7) as usize % list.len().max(1);
        if item % 3 == 2 && !take_same(queue, list, at) {
            return Ok(Some(item));
        }
    }
    Ok(None)
}

// The first turn after which both differ, where the items go from anywhere.
fn wrong_anywhere(queue: &mut FrontQueue<u64>, list: &mut Vec<u64>) -> Option<u64> {
    for turn in 0..CROWD {
        let at = (turn * 31) as usize % list.len().max(1);
        if !take_same(queue, list, at) {
            return Some(turn);
        }
    }
    None
}

// The number of the first wrong answer, of a queue and a list that are empty before.
fn wrong_queue(
    queue: &mut FrontQueue<u64>,
    list: &mut Vec<u64>,
) -> Result<Option<usize>, NoMemory> {
    let right = [
        wrong_in_front(queue, list)?.is_none(),
        wrong_behind(queue, list).is_none(),
        wrong_in_crowd(queue, list)?.is_none(),
        same(queue, list),
        wrong_anywhere(queue, list).is_none(),
        list.is_empty() && queue.len() == 0,
    ];
    Ok(first_wrong(&right))
}

#[test]
fn takes_from_front_and_behind(rt: HostRuntime) -> Result<(), Fail> {
    let mut queue = FrontQueue::new(rt.alloc());
    let mut list = Vec::new(rt.alloc());
    assert_eq!(rt; wrong_queue(&mut queue, &mut list)?, None);
    Ok(())
}

// How many keys there are: a prime number.
const KEYS: u64 = 257;

// The key of a number, in one of three rows.
fn key_of(number: u64) -> u64
    requires { number < 257 }
    ensures { result < 2 ^ 40 }
{
    number % 3 * ROW + number
}

// Puts an item at a key, for which it makes a place.
#[tactic(auto, using(rank_map::proofs::MarkLemmas::free_there))]
fn stand(table: &mut Table<u64>, key: u64, item: u64) -> Result<Option<u64>, NoMemory>
    requires { key < 2 ^ 40 }
{
    table.reserve(key)?;
    Ok(table.insert(key, item))
}

// Takes the item of a key out, for which it makes a place.
#[tactic(auto, using(rank_map::proofs::MarkLemmas::free_there))]
fn leave(table: &mut Table<u64>, key: u64) -> Result<Option<u64>, NoMemory>
    requires { key < 2 ^ 40 }
{
    table.reserve(key)?;
    Ok(table.take(key))
}

// Whether the key has a place, but no item.
fn is_vacant(table: &Table<u64>, key: u64) -> bool
    requires { key < 2 ^ 40 }
{
    table.has_place(key) && table.get(key).is_none()
}

// The first turn in which a key was there before.
fn wrong_stand(table: &mut Table<u64>) -> Result<Option<u64>, NoMemory> {
    for turn in 0..KEYS {
        let key = key_of(turn * 37 % KEYS);
        let new = !table.has_place(key) && table.get(key).is_none();
        if !new || stand(table, key, turn)?.is_some() {
            return Ok(Some(turn));
        }
    }
    Ok(None)
}

// The first turn in which another item stood at a key, or it doesn't go.
fn wrong_leave(table: &mut Table<u64>) -> Result<Option<u64>, NoMemory> {
    for turn in 0..KEYS {
        let number = turn * 101 % KEYS;
        let key = key_of(number);
        // 37 times 132 is 1 more than a multiple of 257
        let old = number * 132 % KEYS;
        let there = table.get(key) == Some(&old);
        let replaced = stand(table, key, turn)? == Some(old);
        let left = leave(table, key)? == Some(turn);
        if !there || !replaced || !left || !is_vacant(table, key) {
            return Ok(Some(turn));
        }
    }
    Ok(None)
}

// The first wrong turns, of a table that is empty before.
fn wrong_turns(table: &mut Table<u64>) -> Result<(Option<u64>, Option<u64>), NoMemory> {
    Ok((wrong_stand(table)?, wrong_leave(table)?))
}

#[test]
fn finds_by_number(rt: HostRuntime) -> Result<(), Fail> {
    let mut table = Table::new(rt.alloc());
    assert_eq!(rt; wrong_turns(&mut table)?, (None, None));
    Ok(())
}

// Marks a number or not, for which it makes a place.
#[tactic(auto, using(rank_map::proofs::MarkLemmas::free_there))]
fn change(marks: &mut MarkSet, number: u64, on: bool) -> Result<(), NoMemory>
    requires { number < 2 ^ 40 }
{
    marks.reserve(number)?;
    if on {
        marks.mark(number);
    } else {
        marks.unmark(number);
    }
    Ok(())
}

// Whether so many numbers are marked, from the first one on.
fn are_marked(marks: &MarkSet, first: u64, count: u64) -> bool {
    let mut same = marks.len() as u64 == count && marks.nth(marks.len()).is_none();
    for at in 0..marks.len() {
        same = same && marks.nth(at) == Some(first.saturating_add(at as u64));
    }
    same
}

// The first turn after which other numbers are marked, where they come downwards.
fn wrong_mark(marks: &mut MarkSet) -> Result<Option<u64>, NoMemory> {
    for turn in 0..COME {
        change(marks, COME - turn, true)?;
        if !are_marked(marks, COME - turn, turn + 1) {
            return Ok(Some(turn));
        }
    }
    Ok(None)
}

// The same where they go upwards.
fn wrong_unmark(marks: &mut MarkSet) -> Result<Option<u64>, NoMemory> {
    for turn in 0..COME {
        change(marks, turn + 1, false)?;
        if !are_marked(marks, turn + 2, COME - turn - 1) {
            return Ok(Some(turn));
        }
    }
    Ok(None)
}

// The number of the first wrong answer: up to sixty and down to none, twice, through sixteen and eight.
fn wrong_marks(marks: &mut MarkSet) -> Result<Option<usize>, NoMemory> {
    let right = [
        wrong_mark(marks)?.is_none(),
        wrong_unmark(marks)?.is_none(),
        wrong_mark(marks)?.is_none(),
        wrong_unmark(marks)?.is_none(),
    ];
    Ok(first_wrong(&right))
}

#[test]
fn marks_few_and_many(rt: HostRuntime) -> Result<(), Fail> {
    let mut marks = MarkSet::new(rt.alloc());
    assert_eq!(rt; wrong_marks(&mut marks)?, None);
    Ok(())
}

// So many numbers are marked in each of three rows, so far apart: a row's states have sums of sums of sums, and more than one of them.
const MANY: u64 = 5_000;

const APART: u64 = 60;

const ALL: u64 = 3 * MANY;

// The marked number of that rank.
fn spread(at: u64) -> u64
    requires { at < 15_000 }
    ensures { result < 2 ^ 40 }
{
    at / MANY * ROW + at % MANY * APART
}

// All are marked in mixed order: 7,919 and 15,000 have no common divisor.
fn mark_all(marks: &mut MarkSet) -> Result<(), NoMemory> {
    for turn in 0..ALL {
        change(marks, spread(turn * 7_919 % ALL), true)?;
    }
    Ok(())
}

// Each second one goes, from the first on.
fn unmark_half(marks: &mut MarkSet) -> Result<(), NoMemory> {
    for turn in 0..ALL / 2 {
        change(marks, spread(turn * 2), false)?;
    }
    Ok(())
}

// The first rank at which another number is marked, where all are.
fn wrong_of_all(marks: &MarkSet) -> Option<u64> {
    for at in 0..ALL {
        if marks.nth(at as usize) != Some(spread(at)) {
            return Some(at);
        }
    }
    None
}

// The same where each second one is.
fn wrong_of_half(marks: &MarkSet) -> Option<u64> {
    for at in 0..ALL / 2 {
        if marks.nth(at as usize) != Some(spread(at * 2 + 1)) {
            return Some(at);
        }
    }
    None
}

// The number of the first wrong answer, where none is marked before.
fn wrong_rows(marks: &mut MarkSet) -> Result<Option<usize>, NoMemory> {
    mark_all(marks)?;
    let all = wrong_of_all(marks);
    unmark_half(marks)?;
    let right = [
        all.is_none(),
        marks.len() as u64 == ALL / 2,
        wrong_of_half(marks).is_none(),
    ];
    Ok(first_wrong(&right))
}

#[test]
fn marks_in_rows(rt: HostRuntime) -> Result<(), Fail> {
    let mut marks = MarkSet::new(rt.alloc());
    assert_eq!(rt; wrong_rows(&mut marks)?, None);
    Ok(())
}
