//! Cells that are put, taken and put back by the thousand, beside a plain ordered map.

use crate::answers::first_wrong;
use fr_base::{NoMemory, ObjNo, ThreadNo};
use heap_partition::{Cell, Cells, Owned};
use std::collections::BTreeMap;
use std::test::Fail;

const PUTS: u64 = 5_000;

const PUT_BACK: u64 = 1_500;

fn cell(count: u64) -> Cell {
    Cell {
        object: ObjNo {
            thread: ThreadNo::new(0, 0),
            count,
        },
        value: Owned::Int(5),
    }
}

// How many addresses are taken: each third one.
const TAKEN: u64 = 1_667;

// One of the addresses that are taken: each turn another one, in no order.
fn drawn(turn: u64) -> u64 {
    turn.saturating_mul(761) % TAKEN * 3
}

fn put(cells: &mut Cells) -> Result<(), NoMemory> {
    for count in 0..PUTS {
        cells.reserve(1)?;
        cells.put(cell(count));
    }
    Ok(())
}

fn take_thirds(cells: &mut Cells) {
    for address in 0..PUTS {
        if address % 3 == 0 && cells.get(address).is_some() {
            cells.take(address);
        }
    }
}

fn put_back(cells: &mut Cells) {
    for turn in 0..PUT_BACK {
        let address = drawn(turn);
        if address < cells.next() && cells.get(address).is_none() {
            cells.put_at(address, cell(turn));
        }
    }
}

// What should stand at each address: the count of its object.
fn plain_puts(map: &mut BTreeMap<u64, u64>) -> Result<(), Fail> {
    for count in 0..PUTS {
        map.insert(count, count)?;
    }
    Ok(())
}

fn plain_thirds(map: &mut BTreeMap<u64, u64>) {
    for address in 0..PUTS {
        if address % 3 == 0 {
            map.remove(&address);
        }
    }
}

fn plain_put_back(map: &mut BTreeMap<u64, u64>) -> Result<(), Fail> {
    for turn in 0..PUT_BACK {
        let address = drawn(turn);
        if map.get(&address).is_none() {
            map.insert(address, turn)?;
        }
    }
    Ok(())
}

// The count of the object that lies at an address.
fn count_at(cells: &Cells, address: u64) -> Option<u64> {
    match cells.get(address) {
        Some(cell) => Some(cell.object.count),
        None => None,
    }
}

fn plain_at(map: &BTreeMap<u64, u64>, address: u64) -> Option<u64> {
    match map.get(&address) {
        Some(count) => Some(*count),
        None => None,
    }
}

// How many addresses have the same in both.
fn agreeing(cells: &Cells, map: &BTreeMap<u64, u64>) -> u64 {
    let mut same = 0u64;
    for address in 0..PUTS {
        if count_at(cells, address) == plain_at(map, address) {
            same = same.saturating_add(1);
        }
    }
    same
}

fn filled(cells: &mut Cells) -> Result<(), NoMemory> {
    put(cells)?;
    take_thirds(cells);
    put_back(cells);
    Ok(())
}

fn plain(map: &mut BTreeMap<u64, u64>) -> Result<(), Fail> {
    plain_puts(map)?;
    plain_thirds(map);
    plain_put_back(map)
}

// The number of the first wrong answer, where the same is done to both.
fn wrong_answer(cells: &mut Cells, map: &mut BTreeMap<u64, u64>) -> Result<Option<usize>, Fail> {
    filled(cells)?;
    plain(map)?;
    let right = [
        agreeing(cells, map) == PUTS,
        cells.next() == PUTS,
        map.len() as u64 == PUTS - TAKEN + PUT_BACK,
    ];
    Ok(first_wrong(&right))
}

#[test]
fn cells_stand_as_in_an_ordered_map(rt: HostRuntime) -> Result<(), Fail> {
    let mut cells = Cells::new(rt.alloc());
    let mut map = BTreeMap::new(rt.alloc());
    assert_eq!(rt; wrong_answer(&mut cells, &mut map)?, None);
    Ok(())
}
