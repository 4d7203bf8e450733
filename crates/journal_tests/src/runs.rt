//! The texts of whole runs: journals that are made by hand, event after event, and what is written of them. The texts were worked out by
//! hand, from the rules and not from the program.

use crate::answers::first_wrong;
use crate::rows::{add_often, add_rows, journal_of};
use coloured_heap::{LegalError, legal};
use fr_base::{Ending, MutexNo, NoMemory, Options, ThreadNo, Wait, Waits};
use journal::Journal;
use std::alloc::Global;
use std::test::Fail;
use tracer::{report_text, summary_text, trace_text};

// { let mut x = box 1; *x = 2; print *x }
const WRITTEN: &str = "\
0 0.0 step make:0.0#0:0.0.0 | make:0.0#0:1
0 0.0 step
0 0.0 step tint:0.0#0:0.0.0:1.0.0 | store:0.0#0:2
0 0.0 step local:0.0#0:1.0.0 | load:0.0#0:2
0 0.0 step | print:2
0 0.0 step condemn:0.0#0:1.0.0 | drop:0.0#0
0 0.0 step | end:0.0
0 - - free:0.0#0:1.0.0
";

// The same, where the word stays as it was.
const WRITTEN_UNDER_THE_OLD_WORD: &str = "\
0 0.0 step make:0.0#0:0.0.0 | make:0.0#0:1
0 0.0 step
0 0.0 step tint:0.0#0:0.0.0:0.0.0 | store:0.0#0:2
0 0.0 step local:0.0#0:0.0.0 | load:0.0#0:2
0 0.0 step | print:2
0 0.0 step condemn:0.0#0:0.0.0 | drop:0.0#0
0 0.0 step | end:0.0
0 - - free:0.0#0:0.0.0
";

// At two servers: { let mut x = box 5; let mut h = spawn (x) { print *x; print *x }; join h }
const READ_FAR: &str = "\
0 0.0 step make:0.0#0:0.0.0 | make:0.0#0:5
0 0.0 step
0 0.0 thread:0.1 start:0.1:1 | start:0.1
0 0.0 step
1 - -
1 0.1 - ask:0.0#0:0.0.0
0 - - serve:0.0#0:0.0.0:1
1 - - fill:0.0#0:0.0.0
1 0.1 step hit:0.0#0:0.0.0 | load:0.0#0:5
1 0.1 step | print:5
1 0.1 step hit:0.0#0:0.0.0 | load:0.0#0:5
1 0.1 step | print:5
1 0.1 step condemn:0.0#0:0.0.0 | drop:0.0#0
0 - - free:0.0#0:0.0.0
1 0.1 step finish:0.1 | end:0.1
0 - -
0 0.0 step
0 0.0 - askjoin:0.1
0 - - answer:0.1:0.0:0
0 - -
0 0.0 step
0 0.0 step
0 0.0 step
0 0.0 step | end:0.0
";

// At two servers: { let mut x = box 5; let mut h = spawn (x) { *x = 6; x }; let mut y = join h; print *y }
const WRITTEN_FAR: &str = "\
0 0.0 step make:0.0#0:0.0.0 | make:0.0#0:5
0 0.0 step
0 0.0 thread:0.1 start:0.1:1 | start:0.1
0 0.0 step
1 - -
1 0.1 - pull:0.0#0:0.0.0
0 - - give:0.0#0:0.0.0:1
1 - - take:0.0#0:0.0.0:0.1.0
1 0.1 step | store:0.0#0:6
1 0.1 step
1 0.1 step
1 0.1 step finish:0.1 | end:0.1
0 - -
0 0.0 step
0 0.0 - askjoin:0.1
0 - - answer:0.1:0.0:0
0 - -
0 0.0 step
0 0.0 step
0 0.0 - ask:0.0#0:0.1.0
1 - - serve:0.0#0:0.1.0:0
0 - - fill:0.0#0:0.1.0
0 0.0 step hit:0.0#0:0.1.0 | load:0.0#0:6
0 0.0 step | print:6
0 0.0 step condemn:0.0#0:0.1.0 | drop:0.0#0
0 0.0 step
0 0.0 step
0 0.0 step | end:0.0
1 - - free:0.0#0:0.1.0
";

// At three servers: { let mut x = box 1; { let mut r = &*x; par (r) { print *r } (r) { print *r } }; *x = 2;
// { let mut s = &*x; par (s) { print *s } (s) { print *s } } }
const READ_BY_TWO: &str = "\
0 0.0 step make:0.0#0:0.0.0 | make:0.0#0:1
0 0.0 step
0 0.0 step
0 0.0 step
0 0.0 threads:0.1,0.2 start:0.1:1 start:0.2:2 | start:0.1 start:0.2
1 - -
1 0.1 - ask:0.0#0:0.0.0
0 - - serve:0.0#0:0.0.0:1
1 - - fill:0.0#0:0.0.0
1 0.1 step hit:0.0#0:0.0.0 | load:0.0#0:1
1 0.1 step | print:1
1 0.1 step
1 0.1 step finish:0.1 | end:0.1
0 - -
2 - -
2 0.2 - ask:0.0#0:0.0.0
0 - - serve:0.0#0:0.0.0:2
2 - - fill:0.0#0:0.0.0
2 0.2 step hit:0.0#0:0.0.0 | load:0.0#0:1
2 0.2 step | print:1
2 0.2 step
2 0.2 step finish:0.2 | end:0.2
0 - -
0 0.0 step
0 0.0 step
0 0.0 step tint:0.0#0:0.0.0:1.0.0 | store:0.0#0:2
0 0.0 step
0 0.0 step
0 0.0 threads:0.3,0.4 start:0.3:0 start:0.4:1 | start:0.3 start:0.4
0 - -
0 0.3 step local:0.0#0:1.0.0 | load:0.0#0:2
0 0.3 step | print:2
0 0.3 step
0 0.3 step finish:0.3 | end:0.3
0 - -
1 - -
1 0.4 - ask:0.0#0:1.0.0
0 - - serve:0.0#0:1.0.0:1
1 - - fill:0.0#0:1.0.0
1 0.4 step hit:0.0#0:1.0.0 | load:0.0#0:2
1 0.4 step | print:2
1 0.4 step
1 0.4 step finish:0.4 | end:0.4
0 - -
0 0.0 step
0 0.0 step
0 0.0 step condemn:0.0#0:1.0.0 | drop:0.0#0
0 0.0 step | end:0.0
0 - - free:0.0#0:1.0.0
";

// With two colours: { let mut x = box 0; *x = 1; *x = 2; *x = 3; *x = 4; *x = 5; print *x }
const RENEWED: &str = "\
0 0.0 step make:0.0#0:0.0.0 | make:0.0#0:0
0 0.0 step
0 0.0 step tint:0.0#0:0.0.0:1.0.0 | store:0.0#0:1
0 0.0 step renew:0.0#0:1.0.0:0.0.1 | store:0.0#0:2
0 0.0 step tint:0.0#0:0.0.1:1.0.1 | store:0.0#0:3
0 0.0 step renew:0.0#0:1.0.1:0.0.2 | store:0.0#0:4
0 0.0 step tint:0.0#0:0.0.2:1.0.2 | store:0.0#0:5
0 0.0 step local:0.0#0:1.0.2 | load:0.0#0:5
0 0.0 step | print:5
0 0.0 step condemn:0.0#0:1.0.2 | drop:0.0#0
0 0.0 step | end:0.0
0 - - free:0.0#0:1.0.2
";

// { let mut m = mutex 1; lock m as a { lock m as b { print b } } }
const LOCKED_TWICE: &str = "\
0 0.0 mutex:0.1
0 0.0 step
0 0.0 - asklock:0.1
0 - - grant:0.1:0.0:0
0 - -
0 0.0 step | lock:0.1
0 0.0 - asklock:0.1
0 - -
";

// At three servers: { let mut m = mutex 0; let mut a = dup m; let mut b = dup m; let mut h = spawn (a) { .. }; let mut g = spawn (b) { .. };
// join h; join g; lock m as c { print c } }, where each of the threads locks m a hundred times and adds one to its content. Up to there:
const TWO_STARTED: &str = "\
0 0.0 mutex:0.1
0 0.0 step
0 0.0 - askdup:0.1
0 - - dupped:0.1:0.0:0
0 - -
0 0.0 step
0 0.0 step
0 0.0 - askdup:0.1
0 - - dupped:0.1:0.0:0
0 - -
0 0.0 step
0 0.0 step
0 0.0 thread:0.1 start:0.1:1 | start:0.1
0 0.0 step
0 0.0 thread:0.2 start:0.2:2 | start:0.2
0 0.0 step
";

// The first of them adds once, and ends.
const FIRST_ADDS: &str = "\
1 0.1 - asklock:0.1
0 - - grant:0.1:0.1:1
1 - -
1 0.1 step | lock:0.1
1 0.1 step
1 0.1 step
1 0.1 step
1 0.1 step giveback:0.1 | unlock:0.1
0 - -
";

const FIRST_ENDS: &str = "\
1 0.1 step letgo:0.1
0 - -
1 0.1 step finish:0.1 | end:0.1
0 - -
";

// The other one does so.
const OTHER_ADDS: &str = "\
2 0.2 - asklock:0.1
0 - - grant:0.1:0.2:2
2 - -
2 0.2 step | lock:0.1
2 0.2 step
2 0.2 step
2 0.2 step
2 0.2 step giveback:0.1 | unlock:0.1
0 - -
";

const OTHER_ENDS: &str = "\
2 0.2 step letgo:0.1
0 - -
2 0.2 step finish:0.2 | end:0.2
0 - -
";

// Both are joined, and the content is printed.
const BOTH_JOINED: &str = "\
0 0.0 step
0 0.0 - askjoin:0.1
0 - - answer:0.1:0.0:0
0 - -
0 0.0 step
0 0.0 step
0 0.0 step
0 0.0 - askjoin:0.2
0 - - answer:0.2:0.0:0
0 - -
0 0.0 step
0 0.0 step
0 0.0 - asklock:0.1
0 - - grant:0.1:0.0:0
0 - -
0 0.0 step | lock:0.1
0 0.0 step
0 0.0 step | print:200
0 0.0 step giveback:0.1 | unlock:0.1
0 - -
0 0.0 step
0 0.0 step
0 0.0 step
0 0.0 step
0 0.0 step letgo:0.1
0 - -
0 0.0 step | end:0.0
";

// The journal of the last of these, where each adds a hundred times.
fn added_by_two(alloc: Global) -> Result<Journal, Fail> {
    let mut journal = journal_of(alloc, TWO_STARTED, usize::MAX)?;
    add_rows(alloc, &mut journal, "1 - -\n")?;
    add_often(alloc, &mut journal, FIRST_ADDS, 100)?;
    add_rows(alloc, &mut journal, FIRST_ENDS)?;
    add_rows(alloc, &mut journal, "2 - -\n")?;
    add_often(alloc, &mut journal, OTHER_ADDS, 100)?;
    add_rows(alloc, &mut journal, OTHER_ENDS)?;
    add_rows(alloc, &mut journal, BOTH_JOINED)?;
    Ok(journal)
}

fn options(servers: u8, colours: u32) -> Options {
    Options {
        servers,
        colours,
        ..Options::DEFAULT
    }
}

// How many messages the journal sends to other servers, or the place of its first entry that breaks a rule.
fn told(alloc: Global, journal: &Journal, options: &Options) -> Result<Result<u64, u64>, Fail> {
    match legal(alloc, journal, options) {
        Ok(tally) => Ok(Ok(tally.total())),
        Err(LegalError::IllegalAt { place }) => Ok(Err(place)),
        Err(LegalError::NoMemory) => Err(Fail::from(NoMemory)),
    }
}

// Whether the journal has that report once it has finished.
fn has_report(alloc: Global, journal: &Journal, want: &str) -> Result<bool, Fail> {
    let report = report_text(alloc, journal, Ending::Finished, &Waits::new(alloc))?;
    Ok(report.as_str() == want)
}

// Whether the journal of the rows is legal and sends so many messages, and has that report once it has finished.
fn reports(
    alloc: Global,
    rows: &str,
    options: &Options,
    messages: u64,
    want: &str,
) -> Result<bool, Fail> {
    let journal = journal_of(alloc, rows, usize::MAX)?;
    Ok(told(alloc, &journal, options)? == Ok(messages) && has_report(alloc, &journal, want)?)
}

const WRITTEN_REPORT: &str = "\
ended finished
prints 1
2
order 1
0.0 7
steps 7
events 8
issued 2
renewed 0
hits 0
evictions 0
messages 0
";

const ENDS_REPORT: &str = "\
ended finished
prints 0
order 1
0.0 1
steps 1
events 1
issued 0
renewed 0
hits 0
evictions 0
messages 0
";

const RENEWED_REPORT: &str = "\
ended finished
prints 1
5
order 1
0.0 11
steps 11
events 12
issued 6
renewed 2
hits 0
evictions 0
messages 0
";

#[test]
fn runs_of_one_server(rt: HostRuntime) -> Result<(), Fail> {
    let alloc = rt.alloc();
    let many = options(1, 65536);
    let right = [
        reports(alloc, WRITTEN, &many, 0, WRITTEN_REPORT)?,
        reports(alloc, "0 0.0 step | end:0.0\n", &many, 0, ENDS_REPORT)?,
        reports(alloc, RENEWED, &options(1, 2), 0, RENEWED_REPORT)?,
    ];
    assert_eq!(rt; first_wrong(&right), None);
    Ok(())
}

// What is told of the journal of the rows.
fn told_of_rows(alloc: Global, rows: &str, options: &Options) -> Result<Result<u64, u64>, Fail> {
    told(alloc, &journal_of(alloc, rows, usize::MAX)?, options)
}

#[test]
fn a_tint_gives_the_old_word_again(rt: HostRuntime) -> Result<(), Fail> {
    let many = options(1, 65536);
    let told = told_of_rows(rt.alloc(), WRITTEN_UNDER_THE_OLD_WORD, &many)?;
    assert_eq!(rt; told, Err(2));
    Ok(())
}

const READ_FAR_REPORT: &str = "\
ended finished
prints 2
5
5
order 5
0.0 2
0.0 thread 0.1
0.0 1
0.1 6
0.0 5
steps 15
events 24
issued 1
renewed 0
hits 2
evictions 0
messages 5
fetch 1
fetched 1
drop 1
start 1
finished 1
";

const WRITTEN_FAR_REPORT: &str = "\
ended finished
prints 1
6
order 5
0.0 2
0.0 thread 0.1
0.0 1
0.1 4
0.0 9
steps 17
events 29
issued 2
renewed 0
hits 1
evictions 0
messages 7
fetch 1
fetched 1
move 1
moved 1
drop 1
start 1
finished 1
";

const READ_BY_TWO_REPORT: &str = "\
ended finished
prints 4
1
1
2
2
order 9
0.0 4
0.0 threads 0.1 0.2
0.1 4
0.2 4
0.0 5
0.0 threads 0.3 0.4
0.3 4
0.4 4
0.0 4
steps 31
events 49
issued 2
renewed 0
hits 3
evictions 0
messages 12
fetch 3
fetched 3
start 3
finished 3
";

#[test]
fn runs_of_more_servers(rt: HostRuntime) -> Result<(), Fail> {
    let alloc = rt.alloc();
    let (two, three) = (options(2, 65536), options(3, 65536));
    let right = [
        reports(alloc, READ_FAR, &two, 5, READ_FAR_REPORT)?,
        reports(alloc, WRITTEN_FAR, &two, 7, WRITTEN_FAR_REPORT)?,
        reports(alloc, READ_BY_TWO, &three, 12, READ_BY_TWO_REPORT)?,
    ];
    assert_eq!(rt; first_wrong(&right), None);
    Ok(())
}

const ADDED_BY_TWO_SUMMARY: &str = "\
ended finished
prints 1
last 200
steps 1030
events 1853
issued 0
renewed 0
hits 0
evictions 0
messages 606
lock 200
granted 200
unlock 200
release 2
start 2
finished 2
";

// Whether the journal is legal and sends so many messages, and has that summary once it has finished.
fn summarizes(alloc: Global, journal: &Journal, messages: u64, want: &str) -> Result<bool, Fail> {
    let summary = summary_text(alloc, journal, Ending::Finished, &Waits::new(alloc))?;
    Ok(told(alloc, journal, &options(3, 65536))? == Ok(messages) && summary.as_str() == want)
}

#[test]
fn a_summary_of_a_thousand_steps(rt: HostRuntime) -> Result<(), Fail> {
    let journal = added_by_two(rt.alloc())?;
    let right = summarizes(rt.alloc(), &journal, 606, ADDED_BY_TWO_SUMMARY)?;
    assert!(rt; right);
    Ok(())
}

const LOCKED_TWICE_REPORT: &str = "\
ended deadlocked
prints 0
order 2
0.0 mutex 0.1
0.0 2
steps 3
events 8
issued 0
renewed 0
hits 0
evictions 0
messages 0
waits 1
0.0 lock 0.1
";

// Whether the journal of the thread that waits for itself is legal and sends nothing, and has that report.
fn reports_the_wait(alloc: Global, waits: &mut Waits, want: &str) -> Result<bool, Fail> {
    let mutex = MutexNo { home: 0, count: 1 };
    waits.push((ThreadNo::new(0, 0), Wait::Lock(mutex)))?;
    let journal = journal_of(alloc, LOCKED_TWICE, usize::MAX)?;
    let report = report_text(alloc, &journal, Ending::Deadlocked, waits)?;
    Ok(told(alloc, &journal, &options(1, 65536))? == Ok(0) && report.as_str() == want)
}

#[test]
fn a_thread_that_waits_for_itself(rt: HostRuntime) -> Result<(), Fail> {
    let mut waits = Waits::new(rt.alloc());
    let right = reports_the_wait(rt.alloc(), &mut waits, LOCKED_TWICE_REPORT)?;
    assert!(rt; right);
    Ok(())
}

const WRITTEN_TRACE: &str = "\
trace 8
0 0.0 step make:0.0#0:0000000000000000 | make:0.0#0:1
0 0.0 step |
0 0.0 step tint:0.0#0:0000000000000000:0001000000000000 | store:0.0#0:2
0 0.0 step local:0.0#0:0001000000000000 | load:0.0#0:2
0 0.0 step | print:2
0 0.0 step condemn:0.0#0:0001000000000000 | drop:0.0#0
0 0.0 step | end:0.0
0 - - free:0.0#0:0001000000000000 |
";

const WRITTEN_FAR_TRACE: &str = "\
trace 16
0 0.0 step make:0.0#0:0000000000000000 | make:0.0#0:5
0 0.0 step |
0 0.0 thread:0.1 start:0.1:1 | start:0.1
0 0.0 step |
1 - - |
1 0.1 - pull:0.0#0:0000000000000000 |
0 - - give:0.0#0:0000000000000000:1 |
1 - - take:0.0#0:0000000000000000:0000010000000000 |
1 0.1 step | store:0.0#0:6
1 0.1 step |
1 0.1 step |
1 0.1 step finish:0.1 | end:0.1
0 - - |
0 0.0 step |
0 0.0 - askjoin:0.1 |
0 - - answer:0.1:0.0:0 |
";

// Whether the first so many rows have that trace.
fn traces(alloc: Global, rows: &str, count: usize, want: &str) -> Result<bool, Fail> {
    let journal = journal_of(alloc, rows, count)?;
    Ok(trace_text(alloc, &journal)?.as_str() == want)
}

#[test]
fn traces_of_runs(rt: HostRuntime) -> Result<(), Fail> {
    let alloc = rt.alloc();
    let ended = "trace 1\n0 0.0 step | end:0.0\n";
    let right = [
        traces(alloc, WRITTEN, 8, WRITTEN_TRACE)?,
        traces(alloc, "0 0.0 step | end:0.0\n", 1, ended)?,
        traces(alloc, WRITTEN_FAR, 16, WRITTEN_FAR_TRACE)?,
    ];
    assert_eq!(rt; first_wrong(&right), None);
    Ok(())
}
