//! Single entries, with an act and a label at most.

ghost use Rattle.std.specs.Prelude.{IfOk};
ghost use Rattle.journal.specs.Journals.{NamesItsThread};

use fr_base::{Fresh, Label, Labels, MutexNo, NoMemory, ObjNo, Plain, Released, ThreadNo};
use global_addr::Word;
use journal::{Act, Acts, Entry};
use std::alloc::Global;

// A list of one act.
fn acts_of(alloc: Global, act: Act) -> Result<Acts, NoMemory> {
    // The check asks that each type inside an act is named where an act is moved.
    let _inside: Option<(Released, MutexNo, ObjNo, Word)> = None;
    let mut acts = Acts::new(alloc);
    acts.push(act)?;
    Ok(acts)
}

// A list of one label.
fn labels_of(alloc: Global, label: Label) -> Result<Labels, NoMemory> {
    let _inside: Option<Plain> = None;
    let mut labels = Labels::new(alloc);
    labels.push(label)?;
    Ok(labels)
}

/// A plain step without new names, with an act and a label.
pub fn step(
    alloc: Global,
    server: u8,
    thread: ThreadNo,
    act: Act,
    label: Label,
) -> Result<Entry, NoMemory>
    ensures names { IfOk result NamesItsThread }
{
    let acts = acts_of(alloc, act)?;
    let labels = labels_of(alloc, label)?;
    Ok(Entry {
        server,
        thread: Some(thread),
        done: Some(Fresh::None),
        acts,
        labels,
    })
}

/// A plain step of the main thread, which starts a thread at server 1.
pub fn start(alloc: Global, thread: ThreadNo) -> Result<Entry, NoMemory>
    ensures names { IfOk result NamesItsThread }
{
    let acts = acts_of(alloc, Act::Start(thread, 1))?;
    let labels = labels_of(alloc, Label::Start(thread))?;
    Ok(Entry {
        server: 0,
        thread: Some(ThreadNo::new(0, 0)),
        done: Some(Fresh::Thread(thread)),
        acts,
        labels,
    })
}

/// A turn of a thread that isn't at its plain step yet.
pub fn turn(alloc: Global, server: u8, thread: ThreadNo, act: Act) -> Result<Entry, NoMemory>
    ensures names { IfOk result NamesItsThread }
{
    let acts = acts_of(alloc, act)?;
    Ok(Entry {
        server,
        thread: Some(thread),
        done: None,
        acts,
        labels: Labels::new(alloc),
    })
}

/// A message that is delivered, or an eviction.
pub fn event(alloc: Global, server: u8, act: Act) -> Result<Entry, NoMemory>
    ensures names { IfOk result NamesItsThread }
{
    let acts = acts_of(alloc, act)?;
    Ok(Entry {
        server,
        thread: None,
        done: None,
        acts,
        labels: Labels::new(alloc),
    })
}
