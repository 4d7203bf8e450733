//! Programs that are checked: those with a type, the first fault of the others, and what is noted of the nodes of some. The checker is asked
//! itself. Places, reasons and nodes were worked out by hand.

use crate::sharing_cases::{BESIDE, BESIDE_FAULTS, LOCK_FAULTS, LOCKED};
use crate::thread_cases::{FAULTS, TYPED};
use borrow_check::{CheckError, Checked, check};
use fr_base::Lval;
use fr_grammar::parse;
use fr_syntax::tokens;
use std::alloc::Global;
use std::process::Abort;
use std::test::Fail;

// Programs of one thread, with the place and the reason of their first fault: operands are numbers, a lent box stays, a mutable
// reference blocks reads, no reference leaves its block.
const ALONE: &str = "\
{ print (1 - ()) }|byte 13: WrongType
{ let mut x = box 1; let mut r = &x; x }|byte 37: WriteBlocked
{ let mut x = 1; let mut r = &mut x; x }|byte 37: ReadBlocked
{ { let mut y = 2; &y } }|byte 19: Outlives
";

// Places of an environment.
const FIRST: Option<Lval> = Some(Lval { slot: 0, depth: 0 });

const FIRST_LEADS: Option<Lval> = Some(Lval { slot: 0, depth: 1 });

const SECOND: Option<Lval> = Some(Lval { slot: 1, depth: 0 });

const SECOND_LEADS: Option<Lval> = Some(Lval { slot: 1, depth: 1 });

const THIRD: Option<Lval> = Some(Lval { slot: 2, depth: 0 });

// Programs with the number of their nodes, the places of some of them, and whether some of them take what they read or capture: a box
// is taken, a mutable reference is written through, a captured name has its variable, and a content stands above its mutex.
#[rattlefmt::skip]
const NODES: [(&str, u64, &[(u32, Option<Lval>)], &[(u32, bool)]); 4] = [
    ("{ let mut x = box 1; x }", 6, &[(3, FIRST), (4, None)], &[(3, false), (4, true)]),
    ("{ let mut x = 1; let mut r = &mut x; *r = 2 }", 9, &[(2, FIRST), (5, SECOND_LEADS)], &[(3, false)]),
    (
        "{ let mut x = box 1; let mut y = 2; spawn (y, x) { x } }",
        12, &[(5, SECOND), (6, FIRST), (7, SECOND), (10, None)], &[(5, false), (6, true), (8, true)],
    ),
    (
        "{ let mut m = mutex 1; let mut x = box 1; par (m) { lock m as c { print c } } (x) { print *x } }",
        21, &[(6, FIRST), (7, FIRST), (8, THIRD), (12, None), (14, SECOND), (15, FIRST_LEADS)], &[(6, true), (9, false), (14, true)],
    ),
];

// The checker's answer to a source. Where it is too long, the answer is one that no test expects.
fn answer(alloc: Global, input: &[u8]) -> Result<Result<Checked, CheckError>, Fail> {
    if input.len() > 1_048_576 {
        return Ok(Err(CheckError::NoMemory));
    }
    let tokens = tokens(alloc, input)?;
    let tree = parse(alloc, &tokens)?;
    Ok(check(alloc, tree))
}

// Each program has a type.
fn have_types<R: Abort>(rt: &R, alloc: Global, rows: &str) -> Result<(), Fail> {
    for input in rows.lines().filter(|row| !row.starts_with("# ")) {
        assert_eq!(rt; answer(alloc, input.as_bytes())?.err(), None, "{input}");
    }
    Ok(())
}

// Each row's program has that first fault.
fn have_faults<R: Abort>(rt: &R, alloc: Global, rows: &str) -> Result<(), Fail> {
    for row in rows.lines().filter(|row| !row.starts_with("# ")) {
        let (input, want) = row.split_once('|').expect(rt, "a fault");
        let given = match answer(alloc, input.as_bytes())? {
            Ok(_) => String::from_str(alloc, "a type")?,
            Err(error) => format!(in alloc; "{error}")?,
        };
        assert_eq!(rt; given.as_str(), want, "{row}");
    }
    Ok(())
}

#[test]
fn programs(rt: HostRuntime) -> Result<(), Fail> {
    have_types(&rt, rt.alloc(), TYPED)?;
    have_types(&rt, rt.alloc(), LOCKED)?;
    have_types(&rt, rt.alloc(), BESIDE)?;
    have_faults(&rt, rt.alloc(), ALONE)?;
    have_faults(&rt, rt.alloc(), FAULTS)?;
    have_faults(&rt, rt.alloc(), LOCK_FAULTS)?;
    have_faults(&rt, rt.alloc(), BESIDE_FAULTS)
}

#[test]
fn nodes(rt: HostRuntime) -> Result<(), Fail> {
    for (input, count, places, takes) in NODES {
        let checked = answer(rt.alloc(), input.as_bytes())??;
        assert_eq!(rt; checked.tree().len(), count);
        for (node, place) in places {
            assert!(rt; u64::from(*node) < checked.tree().len());
            assert_eq!(rt; checked.lval(*node), *place, "{node} of {input}");
        }
        for (node, want) in takes {
            assert!(rt; u64::from(*node) < checked.tree().len());
            assert_eq!(rt; checked.takes(*node), *want, "{node} of {input}");
        }
    }
    Ok(())
}
