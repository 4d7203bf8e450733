//! Whole runs.

use crate::run::Run;
use fr_base::Options;
use std::alloc::Global;
use std::process::Abort;
use std::test::Fail;

// A row is an event, and behind a bar how often it is done one after another, or that it is refused since it isn't enabled; or it tells how many messages
// wait, or how many addresses of server 0 were retired. The tables are texts, since calls that are written one behind another are proved one by one.

// Main makes a box and lends it, and goes to server 1, where it reads; it writes at server 0, and reads at server 1 again. While it waits it can't step.
const LENT: &str =
    "{ let mut x = box 1; { let mut r = &mut *x; *r = 2; print *r; *r = 3; print *r }; print *x }";

const LENT_EVENTS: &str = "\
0 step 0.0|5
0 migrate 0.0 1
1 step 0.0|refused
1 deliver 0
1 step 0.0
1 step 0.0|refused
0 deliver 0
1 step 0.0|refused
1 deliver 0
1 step 0.0|2
1 migrate 0.0 0
0 deliver 0
0 step 0.0
waiting|0
0 migrate 0.0 1
1 deliver 0
1 step 0.0
0 deliver 0
1 deliver 0
1 step 0.0|7
1 step 0.0|refused
0 deliver 0
0 deliver 0|refused
";

const LENT_REPORT: &str = "\
ended finished
prints 3
2
3
3
order 1
0.0 15
steps 15
events 28
issued 3
renewed 0
hits 3
evictions 0
messages 8
fetch 2
fetched 2
drop 1
migrate 3
";

// Server 1 has kept a copy under each word that came after a write.
const LENT_COPIES: &str = "\
1 evict 0 0 0|refused
1 evict 1 0 0
1 evict 1 0 0|refused
1 evict 2 0 0
";

// Branches read at servers 1 and 2, and then at 0 and 1. The write between them sends nothing.
const READ: &str =
    "{ let mut x = box 1; { let mut r = &*x; par (r) { print *r } (r) { print *r } }; *x = 2; { let mut s = &*x; par (s) { print *s } (s) { print *s } } }";

const READ_EVENTS: &str = "\
0 step 0.0|5
1 deliver 0
1 step 0.1
0 deliver 0
1 deliver 0
1 step 0.1|4
0 deliver 0
2 deliver 0
2 step 0.2
0 deliver 0
2 deliver 0
2 step 0.2|4
0 deliver 0
0 step 0.0|2
waiting|0
0 step 0.0
waiting|0
0 step 0.0|3
0 deliver 0
0 step 0.3|4
0 deliver 0
1 deliver 0
1 step 0.4
0 deliver 0
1 deliver 0
1 step 0.4|4
0 deliver 0
0 step 0.0|4
0 deliver 0
";

const READ_REPORT: &str = "\
ended finished
prints 4
1
1
2
2
order 9
0.0 4
0.0 threads 0.1 0.2
0.1 4
0.2 4
0.0 5
0.0 threads 0.3 0.4
0.3 4
0.4 4
0.0 4
steps 31
events 49
issued 2
renewed 0
hits 3
evictions 0
messages 12
fetch 3
fetched 3
start 3
finished 3
";

// Servers 1 and 2 have kept the old copy, and server 1 has the new one too.
const READ_COPIES: &str = "\
1 evict 0 0 0
1 evict 1 0 0
2 evict 0 0 0
2 evict 1 0 0|refused
";

// A branch reads two boxes at server 1, whose cache should hold one copy. Neither copy goes while a reference of a thread there leads to it.
const BOTH: &str =
    "{ let mut x = box 1; let mut y = box 2; let mut a = &*x; let mut b = &*y; par (a, b) { print *a; print *b; print (*a + *b) } () { } }";

const BOTH_EVENTS: &str = "\
0 step 0.0|9
0 deliver 0
0 step 0.2
0 deliver 0
1 deliver 0
1 step 0.1
0 deliver 0
1 deliver 0
1 evict 0 0 0|refused
1 step 0.1|3
1 evict 0 0 0|refused
0 deliver 0
1 deliver 0
1 evict 0 0 0|refused
1 evict 0 0 1|refused
1 step 0.1|7
1 evict 0 0 0|refused
1 evict 0 0 1
1 evict 0 0 1|refused
1 step 0.1|2
0 deliver 0
0 step 0.0|6
0 deliver 0|2
";

const BOTH_REPORT: &str = "\
ended finished
prints 3
1
2
3
order 5
0.0 8
0.0 threads 0.1 0.2
0.2 1
0.1 11
0.0 6
steps 27
events 40
issued 2
renewed 0
hits 4
evictions 1
messages 6
fetch 2
fetched 2
start 1
finished 1
";

// A box in a mutex is written at server 1, so that it comes to lie there. The content comes back and the last share goes.
const LOCKED: &str =
    "{ let mut m = mutex box 7; let mut h = spawn (m) { lock m as c { *c = 8 } }; join h }";

const LOCKED_EVENTS: &str = "\
0 step 0.0|7
0 deliver 0
1 deliver 0
1 step 0.1
0 deliver 0
1 deliver 0
1 step 0.1|2
0 deliver 0
1 deliver 0
1 step 0.1|3
1 deliver 0|refused
waiting|2
";

// The share goes before the content is back: no message is sent for it.
const RELEASED_FIRST: &str = "\
0 deliver 1
waiting|1
0 deliver 0
";

const UNLOCKED_FIRST: &str = "\
0 deliver 0
waiting|1
0 deliver 0
";

// With the last of the two, the box is dropped at server 1.
const FREED_EVENTS: &str = "\
waiting|1
1 deliver 0
1 step 0.1
0 deliver 0|2
0 step 0.0|4
";

const LOCKED_REPORT: &str = "\
ended finished
prints 0
order 7
0.0 1
0.0 mutex 0.1
0.0 1
0.0 thread 0.1
0.0 2
0.1 5
0.0 4
steps 15
events 29
issued 2
renewed 0
hits 0
evictions 0
messages 9
move 1
moved 1
drop 1
lock 1
granted 1
unlock 1
release 1
start 1
finished 1
";

// With two colours an address is retired by each second write, and by the last free.
const WRITTEN: &str = "{ let mut x = box 0; *x = 1; *x = 2; *x = 3; *x = 4; *x = 5; print *x }";

const WRITTEN_EVENTS: &str = "\
retired|0
0 step 0.0|11
retired|2
0 deliver 0
retired|3
";

const WRITTEN_REPORT: &str = "\
ended finished
prints 1
5
order 1
0.0 11
steps 11
events 12
issued 6
renewed 2
hits 0
evictions 0
messages 0
";

// A thread waits for the mutex that it holds.
const TWICE: &str = "{ let mut m = mutex 1; lock m as a { lock m as b { print b } } }";

const TWICE_EVENTS: &str = "\
0 step 0.0|3
0 deliver 0|2
0 step 0.0|2
0 deliver 0
0 step 0.0|refused
waiting|0
";

const TWICE_REPORT: &str = "\
ended deadlocked
prints 0
order 2
0.0 mutex 0.1
0.0 2
steps 3
events 8
issued 0
renewed 0
hits 0
evictions 0
messages 0
waits 1
0.0 lock 0.1
";

const TWO_SERVERS: Options = Options {
    servers: 2,
    ..Options::DEFAULT
};

const THREE_SERVERS: Options = Options {
    servers: 3,
    ..Options::DEFAULT
};

const ONE_COPY: Options = Options {
    servers: 2,
    cache: 1,
    ..Options::DEFAULT
};

const TWO_COLOURS: Options = Options {
    colours: 2,
    ..Options::DEFAULT
};

// A run of these events reports this.
fn reports<R: Abort>(
    rt: &R,
    alloc: Global,
    run: &mut Run,
    events: &str,
    want: &str,
) -> Result<(), Fail> {
    run.rows(rt, events)?;
    assert_eq!(rt; run.report(alloc)?.as_str(), want);
    Ok(())
}

#[test]
fn a_box_is_written_at_one_server_and_read_at_another(rt: HostRuntime) -> Result<(), Fail> {
    let mut run = Run::new(rt.alloc(), LENT, &TWO_SERVERS)?;
    reports(&rt, rt.alloc(), &mut run, LENT_EVENTS, LENT_REPORT)?;
    run.rows(&rt, LENT_COPIES)
}

#[test]
fn a_new_value_is_read_beside_an_old_copy(rt: HostRuntime) -> Result<(), Fail> {
    let mut run = Run::new(rt.alloc(), READ, &THREE_SERVERS)?;
    reports(&rt, rt.alloc(), &mut run, READ_EVENTS, READ_REPORT)?;
    run.rows(&rt, READ_COPIES)
}

#[test]
fn a_copy_in_use_stays(rt: HostRuntime) -> Result<(), Fail> {
    let mut run = Run::new(rt.alloc(), BOTH, &ONE_COPY)?;
    reports(&rt, rt.alloc(), &mut run, BOTH_EVENTS, BOTH_REPORT)
}

// The content of a mutex is freed where its lock's end and its last share come home in this order.
fn frees<R: Abort>(rt: &R, alloc: Global, order: &str) -> Result<(), Fail> {
    let mut run = Run::new(alloc, LOCKED, &TWO_SERVERS)?;
    run.rows(rt, LOCKED_EVENTS)?;
    run.rows(rt, order)?;
    reports(rt, alloc, &mut run, FREED_EVENTS, LOCKED_REPORT)
}

#[test]
fn a_content_is_freed_with_the_last_share(rt: HostRuntime) -> Result<(), Fail> {
    frees(&rt, rt.alloc(), RELEASED_FIRST)?;
    frees(&rt, rt.alloc(), UNLOCKED_FIRST)
}

#[test]
fn addresses_are_retired(rt: HostRuntime) -> Result<(), Fail> {
    let mut run = Run::new(rt.alloc(), WRITTEN, &TWO_COLOURS)?;
    reports(&rt, rt.alloc(), &mut run, WRITTEN_EVENTS, WRITTEN_REPORT)
}

#[test]
fn a_thread_waits_for_itself(rt: HostRuntime) -> Result<(), Fail> {
    let mut run = Run::new(rt.alloc(), TWICE, &Options::DEFAULT)?;
    reports(&rt, rt.alloc(), &mut run, TWICE_EVENTS, TWICE_REPORT)
}
