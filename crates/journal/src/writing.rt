//! Writing an order.

ghost use Rattle.std.specs.Prelude.{◌≡◌, ◌++◌, ◌∷◌, [], ℕ, List, codes, IfOk, OnOk, OnErr, string_bytes};
ghost use Rattle.std.specs.Fmt.{decimal};
ghost use Rattle.fr_base.specs.declared.step.Fresh.{Fresh};
ghost use Rattle.journal.specs.Journals.{order};
ghost use Rattle.journal.specs.OrderText.{AreSteps, IsBegun, mutex_text, name_text, steps_text, thread_text};
ghost use Rattle.journal.specs.WrittenOrder.{IsOrderText, IsWritten, joins, last_text};

use crate::entries::Journal;
use fr_base::{Fresh, MutexNo, NoMemory, ThreadNo};
use itoa::Buffer;
use std::alloc::Global;

/// The most steps that one line has.
const MOST: u64 = 1_000_000_000;

// A line that more steps may join: steps of one thread that take no name.
#[derive(Clone, Copy)]
struct LastLine {
    thread: ThreadNo,
    steps: u64,
}

/// Adds a number in decimal digits. `NoMemory` alone is refused, and leaves the text as it was.
pub fn add_number(text: &mut String, number: u64) -> Result<(), NoMemory>
    ensures added { OnOk result (string_bytes text.new ≡ string_bytes text.old ++ decimal number) }
    ensures refused { OnErr result (string_bytes text.new ≡ string_bytes text.old) }
{
    let mut buffer = Buffer::new();
    text.push_str(buffer.format(number))?;
    Ok(())
}

// Adds a server and a count.
fn add_name(text: &mut String, server: u8, count: u32) -> Result<(), NoMemory>
    ensures added { OnOk result (string_bytes text.new ≡ string_bytes text.old ++ name_text server count) }
    ensures refused { OnErr result (IsBegun (string_bytes text.old) (name_text server count) (string_bytes text.new)) }
{
    add_number(text, u64::from(server))?;
    text.push_str(".")?;
    add_number(text, u64::from(count))
}

/// Adds a thread as its server and its count, as in `3.17`. `NoMemory` alone is refused, and leaves the first bytes of it, or none.
pub fn add_thread(text: &mut String, thread: ThreadNo) -> Result<(), NoMemory>
    ensures added { OnOk result (string_bytes text.new ≡ string_bytes text.old ++ thread_text thread) }
    ensures refused { OnErr result (IsBegun (string_bytes text.old) (thread_text thread) (string_bytes text.new)) }
{
    add_name(text, thread.server(), thread.count())
}

/// Adds a mutex as its server and its count. `NoMemory` alone is refused, and leaves the first bytes of it, or none.
pub fn add_mutex(text: &mut String, mutex: MutexNo) -> Result<(), NoMemory>
    ensures added { OnOk result (string_bytes text.new ≡ string_bytes text.old ++ mutex_text mutex) }
    ensures refused { OnErr result (IsBegun (string_bytes text.old) (mutex_text mutex) (string_bytes text.new)) }
{
    add_name(text, mutex.home, mutex.count)
}

// Adds how many steps take no name, or the names that one step takes.
fn add_steps(text: &mut String, steps: u64, fresh: Fresh) -> Result<(), NoMemory>
    ensures text { OnOk result (string_bytes text.new ≡ string_bytes text.old ++ steps_text steps fresh) }
    ensures fits { OnOk result (AreSteps 1 fresh) }
{
    match fresh {
        Fresh::None => add_number(text, steps),
        Fresh::Thread(thread) => {
            text.push_str("thread ")?;
            add_thread(text, thread)
        }
        Fresh::Threads(thread, other) => {
            text.push_str("threads ")?;
            add_thread(text, thread)?;
            text.push_str(" ")?;
            add_thread(text, other)
        }
        Fresh::Mutex(mutex) => {
            text.push_str("mutex ")?;
            add_mutex(text, mutex)
        }
    }
}

// Adds a line.
fn add_line(text: &mut String, thread: ThreadNo, steps: u64, fresh: Fresh) -> Result<(), NoMemory>
    ensures fits { OnOk result (AreSteps 1 fresh) }
    ensures text { OnOk result (string_bytes text.new ≡ string_bytes text.old ++ (thread_text thread ++ codes " " ++ steps_text steps fresh ++ codes "\n")) }
{
    add_thread(text, thread)?;
    text.push_str(" ")?;
    add_steps(text, steps, fresh)?;
    text.push_str("\n")?;
    Ok(())
}

// Adds the last line.
fn close(text: &mut String, last: &Option<LastLine>) -> Result<(), NoMemory>
    ensures { OnOk result (string_bytes text.new ≡ string_bytes text.old ++ last_text last.now) }
{
    match last {
        Some(line) => add_line(text, line.thread, line.steps, Fresh::None),
        None => Ok(()),
    }
}

// Whether the step can stand in the last line.
fn can_join(last: &Option<LastLine>, thread: ThreadNo, fresh: &Fresh) -> bool
    ensures { result ≡ joins last.now thread fresh.now }
{
    match (last, fresh) {
        (Some(line), Fresh::None) => line.thread == thread && line.steps < MOST,
        _ => false,
    }
}

// Adds one step more: it joins the last line, or that line is whole, and the step begins a line.
fn add_step(
    text: &mut String,
    last: &Option<LastLine>,
    thread: ThreadNo,
    fresh: &Fresh,
) -> Result<Option<LastLine>, NoMemory>
    ensures { IfOk result (λ next. (steps : List (ℕ × Fresh)) → IsWritten steps (string_bytes text.old) last.now → IsWritten (steps ++ (thread, fresh.now) ∷ []) (string_bytes text.new) next) }
{
    if can_join(last, thread, fresh) {
        if let Some(line) = last {
            let steps = line.steps + 1;
            return Ok(Some(LastLine { thread, steps }));
        }
    }
    close(text, last)?;
    if let Fresh::None = fresh {
        return Ok(Some(LastLine { thread, steps: 1 }));
    }
    add_line(text, thread, 1, *fresh)?;
    Ok(None)
}

/// The text of a journal's order: which thread took which plain step with which new names, with neighbouring steps of one thread
/// that take no name in one line, up to 1,000,000,000. `NoMemory` alone is refused. It takes time in the number of entries
/// and memory in the text.
pub fn order_text(alloc: Global, journal: &Journal) -> Result<String, NoMemory>
    ensures { IfOk result (λ text. IsOrderText (order journal.now.items) (string_bytes text)) }
{
    let mut text = String::new(alloc);
    let mut last = None;
    'entries: for entry in journal.as_slice() {
        if let Some(fresh) = &entry.done {
            if let Some(thread) = entry.thread {
                last = add_step(&mut text, &last, thread, fresh)?;
            }
        }
    }
    close(&mut text, &last)?;
    Ok(text)
}
