//! Environments that are built slot by slot.

use crate::slots::answer;
use fr_base::NoMemory;
use fr_types::Env;
use std::alloc::Global;
use std::test::Fail;

// Cases, each from an environment without slots. A row is a change, or a question with its answer; slots count from 0, and each is
// followed by its stars.
const CASES: &str = "\
# loans come and go
number
number
lend 0 0
share 1 0
blocked 0|true true
blocked 1|false true
set-gone 2 0 1 0
blocked 0|false false
blocked 1|false true
pop
blocked 1|false false
# a write goes through mutable references
box
lend 0 0
lend 1 1
lend 2 1
kind 3 1|box
kind 3 2|number
path 3 2|true false true
path 3 1|true false true
path 0 1|true true false
kind 3 3|no target
# a borrowed slot may lead elsewhere
number
box
share 0 0
share 2 0
share 3 2
kind 4 1|number
set-share 2 0 1 0
kind 4 1|box
kind 3 3|number
set-number 2
kind 4 1|no target
# several places of a slot lend it once
number
box
either 0 0 1 1
either 1 0 1 1
kind 2 1|number
kind 3 1|no target
copy
blocked 0|false true
blocked 1|false true
pop
blocked 1|false true
pop
blocked 0|false false
blocked 1|false false
# references to two shapes have no join
number
number
box
share 0 0
share 1 0
share 2 0
either 3 0 4 0
either 3 0 5 0
kind 6 2|number
kind 7 1|no target
set-unit 1
kind 6 1|no target
set-number 1
kind 6 2|number
kind 7 1|no target
# a slot that changes its shape is compared
number
number
share 0 0
mutex
same 0 0 1 0|true
same 3 0 3 0|true
same 3 0 0 0|false
set-unit 0
same 0 0 1 0|false
same 0 0 2 1|true
same 1 0 2 1|false
# a box is left and filled
box
take 0 1
kind 0 1|gone
kind 0 2|not defined
copy
put 0 1
kind 0 0|box
kind 0 1|number
# a long chain is no long way
number
share 0 0
chain 49999 1
links 50000|true
path 50000 1|false false false
blocked 49999|false true
blocked 50000|false false
chain 40 0
set-unit 0
same 1 0 50000 0|true
same 50000 1 50000 0|false
same 50040 40 1 0|true
same 50040 41 0 0|true
same 50040 42 0 0|false
same 50040 0 50039 0|false
# references to references are told apart
number
chain 20000 0
levels 20000|true
";

// The first row that is answered otherwise.
fn first_wrong(alloc: Global) -> Result<Option<&'static str>, NoMemory> {
    let mut env = Env::new(alloc);
    for row in CASES.lines() {
        if row.starts_with('#') {
            env = Env::new(alloc);
            continue;
        }
        let (call, want) = row.split_once('|').unwrap_or((row, ""));
        if answer(alloc, &mut env, call)?.as_str() != want {
            return Ok(Some(row));
        }
    }
    Ok(None)
}

#[test]
fn environments(rt: HostRuntime) -> Result<(), Fail> {
    let wrong = first_wrong(rt.alloc())?;
    assert_eq!(rt; wrong, None);
    Ok(())
}
