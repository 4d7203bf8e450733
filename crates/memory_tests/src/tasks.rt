//! Threads begun, asked for and ended.

ghost use Rattle.std.specs.Prelude.{◌≡◌, []};

use crate::answers::first_wrong;
use fr_base::{NoMemory, ThreadNo};
use heap_partition::Owned;
use join_home::{EndedAs, Tasks};
use std::test::Fail;

// The number of the first wrong answer, where a thread is asked for, one is let go, and two end as a pair.
fn wrong_answer(tasks: &mut Tasks) -> Result<Option<usize>, NoMemory>
    requires state { tasks.old.state ≡ [] }
{
    let first = ThreadNo::new(1, 1);
    let second = ThreadNo::new(1, 2);
    let third = ThreadNo::new(1, 3);
    let by = ThreadNo::new(2, 8);
    tasks.reserve(3)?;
    tasks.begin(first);
    let asked = (tasks.ask(first, 3, by), tasks.ended(first, Owned::Int(5)));
    tasks.begin(first);
    let let_go = (tasks.let_go(first), tasks.ended(first, Owned::Int(5)));
    tasks.begin_pair(by, second, third);
    let pair = (
        tasks.ended(third, Owned::Unit),
        tasks.ended(second, Owned::Unit),
    );
    // More room than before: what has gone is cleared, and the first thread's number is free.
    tasks.reserve(9)?;
    tasks.begin(third);
    tasks.begin(first);
    let right = [
        asked == (None, EndedAs::Answer(3, by, Owned::Int(5))),
        let_go == (None, EndedAs::LetGo(Owned::Int(5))),
        pair == (EndedAs::Kept, EndedAs::Both(by)),
        tasks.ended(first, Owned::Int(6)) == EndedAs::Kept,
        tasks.ask(first, 3, by) == Some(Owned::Int(6)),
        tasks.let_go(third) == None,
    ];
    Ok(first_wrong(&right))
}

#[test]
fn hands_results_on(rt: HostRuntime) -> Result<(), Fail> {
    let mut tasks = Tasks::new(rt.alloc());
    assert_eq!(rt; wrong_answer(&mut tasks)?, None);
    Ok(())
}
