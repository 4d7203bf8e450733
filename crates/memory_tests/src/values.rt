//! Cells put, read, changed and taken.

ghost use Rattle.std.specs.Prelude.{◌≡◌, []};

use crate::answers::first_wrong;
use fr_base::{MutexNo, NoMemory, ObjNo, Plain, ThreadNo};
use global_addr::Word;
use heap_partition::{BoxPtr, Cell, Cells, Owned};
use std::test::Fail;

fn cell(number: u32) -> Cell {
    Cell {
        object: ObjNo {
            thread: ThreadNo::new(0, 0),
            count: u64::from(number),
        },
        value: Owned::Int(i64::from(number)),
    }
}

// The number of the first wrong answer, where two cells are put and one is taken, put back and changed.
fn wrong_answer(cells: &mut Cells) -> Result<Option<usize>, NoMemory>
    requires state { cells.old.state ≡ [] }
{
    let none = (cells.next(), cells.get(0));
    cells.reserve(2)?;
    let put = (cells.put(cell(7)), cells.put(cell(8)), cells.next());
    let there = (cells.get(0), cells.get(1));
    let taken = cells.take(0);
    let left = (cells.next(), cells.get(0), cells.get(1), cells.get(2));
    cells.put_at(0, cell(9));
    cells.set(0, cell(10));
    let right = [
        none == (0, None),
        put == (0, 1, 2),
        there == (Some(cell(7)), Some(cell(8))),
        taken == cell(7),
        left == (2, None, Some(cell(8)), None),
        (cells.get(0), cells.next()) == (Some(cell(10)), 2),
    ];
    Ok(first_wrong(&right))
}

#[test]
fn keeps_cells_by_address(rt: HostRuntime) -> Result<(), Fail> {
    let mut cells = Cells::new(rt.alloc());
    assert_eq!(rt; wrong_answer(&mut cells)?, None);
    Ok(())
}

// Takes what may go to another thread and be shared by threads.
fn crosses<T: Send + Sync + Drop>(_value: T) {}

#[test]
fn may_cross_threads(rt: HostRuntime) {
    crosses(Cells::new(rt.alloc()));
}

fn object() -> ObjNo {
    ObjNo {
        thread: ThreadNo::new(1, 2),
        count: 3,
    }
}

#[test]
fn shows_no_word(rt: HostRuntime) {
    let pointer = BoxPtr {
        word: Word::pack(1, 2, 3),
        object: object(),
    };
    assert_eq!(rt; Owned::Box(pointer).plain(), Plain::Box(object()));
    assert_eq!(rt; Owned::Int(-1).plain(), Plain::Int(-1));
    assert_eq!(rt;
        Owned::Mutex(MutexNo { home: 1, count: 2 }).plain(),
        Plain::Mutex(MutexNo { home: 1, count: 2 })
    );
    assert_eq!(rt;
        Owned::Task(ThreadNo::new(1, 2)).plain(),
        Plain::Task(ThreadNo::new(1, 2))
    );
    assert_eq!(rt;
        (Owned::Nothing.plain(), Owned::Unit.plain()),
        (Plain::Nothing, Plain::Unit)
    );
}
