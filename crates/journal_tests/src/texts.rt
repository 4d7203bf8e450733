//! Traces, reports and summaries of journals that are made by hand.

ghost use Rattle.std.specs.Prelude.{IfOk};
ghost use Rattle.journal.specs.Journals.{NamesItsThread};

use crate::answers::first_wrong;
use fr_base::{
    Ending, Fresh, Label, Labels, MutexNo, ObjNo, Plain, Released, ThreadNo, Wait, Waits,
};
use global_addr::Word;
use journal::{Act, Acts, Entry, Journal};
use std::alloc::Global;
use std::test::Fail;
use tracer::{report_text, summary_text, trace_text};

fn object(count: u64) -> ObjNo {
    ObjNo {
        thread: ThreadNo::new(0, 0),
        count,
    }
}

fn acts_of(alloc: Global, items: &[Act]) -> Result<Acts, Fail> {
    let mut acts = Acts::new(alloc);
    for act in items {
        acts.push(*act)?;
    }
    Ok(acts)
}

fn labels_of(alloc: Global, items: &[Label]) -> Result<Labels, Fail> {
    let mut labels = Labels::new(alloc);
    for label in items {
        labels.push(*label)?;
    }
    Ok(labels)
}

// An entry of server 0 and the main thread.
fn step(alloc: Global, done: Fresh, acts: &[Act], labels: &[Label]) -> Result<Entry, Fail>
    ensures names { IfOk result NamesItsThread }
{
    let acts = acts_of(alloc, acts)?;
    let labels = labels_of(alloc, labels)?;
    Ok(Entry {
        server: 0,
        thread: Some(ThreadNo::new(0, 0)),
        done: Some(done),
        acts,
        labels,
    })
}

// An object that comes to server 1, where a share of a mutex is let go: an entry without a thread.
fn delivery(alloc: Global, mutex: MutexNo) -> Result<Entry, Fail>
    ensures names { IfOk result NamesItsThread }
{
    let acts = [
        Act::Take(object(0), Word::pack(0, 0, 0), Word::pack(3, 1, 48_879)),
        Act::LetGo(Released::Mutex(mutex)),
    ];
    let acts = acts_of(alloc, &acts)?;
    Ok(Entry {
        server: 1,
        thread: None,
        done: None,
        acts,
        labels: Labels::new(alloc),
    })
}

// A new object, an object that comes to another server, a step that takes two names, and the end.
fn add_entries(alloc: Global, journal: &mut Journal) -> Result<(), Fail> {
    let (first, second) = (ThreadNo::new(0, 1), ThreadNo::new(1, 2));
    let mutex = MutexNo { home: 1, count: 3 };
    let acts = [Act::Make(object(0), Word::pack(0, 0, 0))];
    let labels = [Label::Make(object(0), Plain::Int(1))];
    journal.push(step(alloc, Fresh::None, &acts, &labels)?)?;
    journal.push(delivery(alloc, mutex)?)?;
    let labels = [
        Label::Start(first),
        Label::Store(object(7), Plain::Box(object(0))),
    ];
    let fresh = Fresh::Threads(first, second);
    journal.push(step(alloc, fresh, &[Act::Start(first, 1)], &labels)?)?;
    let labels = [
        Label::Print(-5),
        Label::Lock(mutex),
        Label::End(ThreadNo::new(0, 0)),
    ];
    journal.push(step(alloc, Fresh::None, &[], &labels)?)?;
    Ok(())
}

const TRACE: &str = "\
trace 4
0 0.0 step make:0.0#0:0000000000000000 | make:0.0#0:1
1 - - take:0.0#0:0000000000000000:000301000000beef letgo:mutex=1.3 |
0 0.0 threads:0.1,1.2 start:0.1:1 | start:0.1 store:0.0#7:box=0.0#0
0 0.0 step | print:-5 lock:1.3 end:0.0
";

// Whether the journal has that trace.
fn has_trace(alloc: Global, journal: &Journal, want: &str) -> Result<bool, Fail> {
    Ok(trace_text(alloc, journal)?.as_str() == want)
}

// The number of the first wrong trace, of a journal that is empty before.
fn wrong_trace(alloc: Global, journal: &mut Journal) -> Result<Option<usize>, Fail> {
    let empty = has_trace(alloc, journal, "trace 0\n")?;
    add_entries(alloc, journal)?;
    let right = [empty, has_trace(alloc, journal, TRACE)?];
    Ok(first_wrong(&right))
}

#[test]
fn a_line_for_each_entry(rt: HostRuntime) -> Result<(), Fail> {
    let mut journal = Journal::new(rt.alloc());
    assert_eq!(rt; wrong_trace(rt.alloc(), &mut journal)?, None);
    Ok(())
}

// A step that prints and asks another server, an object that comes there with a share of its own mutex let go, and a new thread.
fn some_entries(alloc: Global, thread: ThreadNo, mutex: MutexNo) -> Result<Journal, Fail> {
    let mut journal = Journal::new(alloc);
    let (here, there) = (Word::pack(0, 0, 0), Word::pack(0, 1, 5));
    let acts = [
        Act::Make(object(0), here),
        Act::Hit(object(1), there),
        Act::Ask(object(2), there),
    ];
    let labels = [Label::Print(-5), Label::Print(7)];
    journal.push(step(alloc, Fresh::None, &acts, &labels)?)?;
    journal.push(delivery(alloc, mutex)?)?;
    let acts = [
        Act::Start(thread, 1),
        Act::Renew(object(0), here, here),
        Act::Evict(there),
    ];
    let labels = [Label::Start(thread)];
    journal.push(step(alloc, Fresh::Thread(thread), &acts, &labels)?)?;
    Ok(journal)
}

// What is written of some parts, one behind the other.
fn joined(alloc: Global, parts: &[&str]) -> Result<String, Fail> {
    let mut text = String::new(alloc);
    for part in parts {
        text.push_str(part)?;
    }
    Ok(text)
}

const FIGURES: &str = "\
steps 2
events 3
issued 3
renewed 1
hits 1
evictions 1
messages 2
fetch 1
start 1
";

const WAITS: &str = "\
waits 3
0.0 join 0.1
0.1 lock 1.3
1.2 par 0.1 1.2
";

const NO_FIGURES: &str = "\
ended finished
prints 0
last -
steps 0
events 0
issued 0
renewed 0
hits 0
evictions 0
messages 0
";

// Whether a run that ended so has the report and the summary that begin with the first text and end with the last one.
fn tells(
    alloc: Global,
    told: (&Journal, &Waits),
    ending: Ending,
    ended: &str,
    tail: &str,
) -> Result<bool, Fail> {
    let (journal, waits) = told;
    let prints = "prints 2\n-5\n7\n";
    let order = "order 2\n0.0 1\n0.0 thread 0.1\n";
    let want = joined(alloc, &[ended, prints, order, FIGURES, tail])?;
    let report = report_text(alloc, journal, ending, waits)?;
    let same_report = report.as_str() == want.as_str();
    let want = joined(alloc, &[ended, "prints 2\nlast 7\n", FIGURES, tail])?;
    let summary = summary_text(alloc, journal, ending, waits)?;
    Ok(same_report && summary.as_str() == want.as_str())
}

// Three threads wait.
fn add_waits(waits: &mut Waits) -> Result<(), Fail> {
    let (first, second) = (ThreadNo::new(0, 1), ThreadNo::new(1, 2));
    let mutex = MutexNo { home: 1, count: 3 };
    waits.push((ThreadNo::new(0, 0), Wait::Join(first)))?;
    waits.push((first, Wait::Lock(mutex)))?;
    waits.push((second, Wait::Par(first, second)))?;
    Ok(())
}

// Whether a journal without entries has that summary.
fn sums_up_nothing(alloc: Global, waits: &Waits) -> Result<bool, Fail> {
    let summary = summary_text(alloc, &Journal::new(alloc), Ending::Finished, waits)?;
    Ok(summary.as_str() == NO_FIGURES)
}

// The number of the first wrong answer: the three endings, with the same journal and the same waits, and a journal without entries.
fn wrong_report(alloc: Global, waits: &mut Waits) -> Result<Option<usize>, Fail> {
    add_waits(waits)?;
    let journal = some_entries(alloc, ThreadNo::new(0, 1), MutexNo { home: 1, count: 3 })?;
    let told = (&journal, &*waits);
    let right = [
        tells(alloc, told, Ending::Finished, "ended finished\n", "")?,
        tells(alloc, told, Ending::Deadlocked, "ended deadlocked\n", WAITS)?,
        tells(alloc, told, Ending::Unfinished, "ended unfinished\n", "")?,
        sums_up_nothing(alloc, waits)?,
    ];
    Ok(first_wrong(&right))
}

#[test]
fn reports_and_summaries(rt: HostRuntime) -> Result<(), Fail> {
    let mut waits = Waits::new(rt.alloc());
    assert_eq!(rt; wrong_report(rt.alloc(), &mut waits)?, None);
    Ok(())
}
