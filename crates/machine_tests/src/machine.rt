//! The plain machine, step by step, on programs whose steps, waits and labels were worked out by hand.

use borrow_check::{CheckError, Checked, check};
use fr_grammar::parse;
use fr_meaning::Pool;
use fr_syntax::tokens;
use journal::{Order, OrderLine, read_order};
use std::alloc::Global;
use std::process::Abort;
use std::test::Fail;

// A row is a call of `step`, in the form of a line of an order, and what comes of it: how the machine stands and what the thread needs
// before it, and how many labels the step gives or why it is refused. The tables are texts, since calls that are written one behind
// another are proved one by one.

const JOINED: &str = "{ let mut h = spawn () { 3 }; print join h }";

const JOINS: &str = "\
0.1 1|Going None Err(NoThread)
0.0 1|Going Some(Thread) Err(NameKind)
0.0 thread 0.0|Going Some(Thread) Err(NameUsed)
0.0 thread 0.1|Going Some(Thread) Ok(1)
0.0 1|Going Some(Nothing) Ok(0)
0.0 1|Going Some(Nothing) Ok(0)
0.0 1|Going Some(Nothing) Err(Waits(Join(ThreadNo(1))))
0.1 1|Going Some(Nothing) Ok(1)
0.0 1|Going Some(Nothing) Ok(0)
0.0 1|Going Some(Nothing) Ok(1)
0.0 1|Going Some(Nothing) Ok(0)
0.0 1|Going Some(Nothing) Ok(1)
0.1 1|Finished None Err(Ended)
0.0 1|Finished None Err(Ended)
";

// A thread waits for the mutex that it holds.
const LOCKED_TWICE: &str = "{ let mut m = mutex 1; lock m as a { lock m as b { print b } } }";

const LOCKS: &str = "\
0.0 mutex 0.1|Going Some(Mutex) Ok(0)
0.0 1|Going Some(Nothing) Ok(0)
0.0 1|Going Some(Nothing) Ok(1)
0.0 1|Deadlocked Some(Nothing) Err(Waits(Lock(MutexNo { home: 0, count: 1 })))
";

// A thread of the pair waits for the mutex that its parent holds, which waits for the pair.
const HELD: &str =
    "{ let mut m = mutex 8; let mut n = dup m; lock m as x { par (n) { lock n as y { print y } } () { print 7 } } }";

const HOLDS: &str = "\
0.0 mutex 0.1|Going Some(Mutex) Ok(0)
0.0 1|Going Some(Nothing) Ok(0)
0.0 1|Going Some(Nothing) Ok(0)
0.0 1|Going Some(Nothing) Ok(0)
0.0 1|Going Some(Nothing) Ok(1)
0.0 threads 0.1 0.2|Going Some(Threads) Ok(2)
0.2 1|Going Some(Nothing) Ok(1)
0.2 1|Going Some(Nothing) Ok(1)
0.0 1|Deadlocked Some(Nothing) Err(Waits(Par(ThreadNo(1), ThreadNo(2))))
0.1 1|Deadlocked Some(Nothing) Err(Waits(Lock(MutexNo { home: 0, count: 1 })))
0.2 1|Deadlocked None Err(Ended)
";

// The checked program of a source. One that is too long has a fault that no test expects.
fn checked(alloc: Global, input: &[u8]) -> Result<Result<Checked, CheckError>, Fail> {
    if input.len() > 1_048_576 {
        return Ok(Err(CheckError::NoMemory));
    }
    let tokens = tokens(alloc, input)?;
    let tree = parse(alloc, &tokens)?;
    Ok(check(alloc, tree))
}

// The machine at the start of a source's program.
fn pool_of(alloc: Global, source: &str) -> Result<Pool, Fail> {
    let checked = checked(alloc, source.as_bytes())??;
    Ok(Pool::new(alloc, &checked)?)
}

// What comes of a call.
fn told(alloc: Global, pool: &mut Pool, call: &OrderLine) -> Result<String, Fail> {
    let (stands, needs) = (pool.ending(), pool.needs(call.thread));
    let given = match pool.step(call.thread, call.fresh) {
        Ok(labels) => Ok(labels.len()),
        Err(error) => Err(error),
    };
    Ok(format!(in alloc; "{stands:?} {needs:?} {given:?}")?)
}

// The call that a row makes.
fn call_of(alloc: Global, text: &str) -> Result<Order, Fail> {
    let line = format!(in alloc; "{text}\n")?;
    Ok(read_order(alloc, line.as_bytes(), 0)?)
}

// The machine answers the row's call as the row says.
fn tells<R: Abort>(rt: &R, alloc: Global, pool: &mut Pool, row: &str) -> Result<(), Fail> {
    let (call, want) = row.split_once('|').expect(rt, "an answer");
    let order = call_of(alloc, call)?;
    let given = told(alloc, pool, order.at(0).expect(rt, "a call"))?;
    assert_eq!(rt; given.as_str(), want, "{row}");
    Ok(())
}

// It answers each row's.
fn answers<R: Abort>(rt: &R, alloc: Global, pool: &mut Pool, rows: &str) -> Result<(), Fail> {
    for row in rows.lines() {
        tells(rt, alloc, pool, row)?;
    }
    Ok(())
}

#[test]
fn a_thread_is_started_and_joined(rt: HostRuntime) -> Result<(), Fail> {
    let mut pool = pool_of(rt.alloc(), JOINED)?;
    answers(&rt, rt.alloc(), &mut pool, JOINS)?;
    assert_eq!(rt; pool.output(), [3].as_slice());
    Ok(())
}

#[test]
fn a_thread_waits_for_itself(rt: HostRuntime) -> Result<(), Fail> {
    let mut pool = pool_of(rt.alloc(), LOCKED_TWICE)?;
    answers(&rt, rt.alloc(), &mut pool, LOCKS)?;
    assert!(rt; pool.output().is_empty());
    Ok(())
}

#[test]
fn a_branch_waits_for_its_parent(rt: HostRuntime) -> Result<(), Fail> {
    let mut pool = pool_of(rt.alloc(), HELD)?;
    answers(&rt, rt.alloc(), &mut pool, HOLDS)?;
    assert_eq!(rt; pool.output(), [7].as_slice());
    Ok(())
}
