//! The report of a run, and its summary.

ghost use Rattle.std.specs.Prelude.{◌≡◌, ◌++◌, ◌∷◌, [], length, codes, IfOk, OnOk, string_bytes};
ghost use Rattle.std.specs.Fmt.{decimal};
ghost use Rattle.fr_base.specs.Lists.{last_of};
ghost use Rattle.coloured_heap.specs.Sends.{messages};
ghost use Rattle.journal.specs.Journals.{printed, prints};
ghost use Rattle.tracer.specs.Counting.{newlines, tally_lines};
ghost use Rattle.tracer.specs.ReportText.{IsReport, count_lines, ended_line, ending_text, figure_lines, kind_line, kind_text, last_line, number_line, print_line, print_lines, report, summary, wait_line, wait_lines, wait_text, waits_lines};

use crate::figures::figures_of;
use crate::names::add_signed;
use coloured_heap::message_counts;
use fr_base::{Ending, Kind, Label, List, NoMemory, ThreadNo, Wait, Waits};
use fr_tally::{Tally, each_kind};
use itoa::Buffer;
use journal::{Journal, add_mutex, add_thread, order_text};
use std::alloc::Global;

// How a run ended, as a word.
fn ending_name(ending: Ending) -> &'static str
    ensures { result.now ≡ ending_text ending }
{
    match ending {
        Ending::Finished => "finished",
        Ending::Deadlocked => "deadlocked",
        Ending::Unfinished => "unfinished",
    }
}

// A kind of messages, as a word.
fn kind_name(kind: Kind) -> &'static str
    ensures { result.now ≡ kind_text kind }
{
    each_kind!(
        kind, Kind;
        "fetch", "fetched", "move", "moved", "drop", "lock", "granted", "unlock",
        "dup", "dupped", "release", "start", "join", "joined", "finished", "migrate",
    )
}

// Adds a line with a name and a number.
fn add_number_line(text: &mut String, name: &str, number: u128) -> Result<(), NoMemory>
    ensures { OnOk result (string_bytes text.new ≡ string_bytes text.old ++ number_line name.now number) }
{
    let mut buffer = Buffer::new();
    text.push_str(name)?;
    text.push_str(" ")?;
    text.push_str(buffer.format(number))?;
    text.push_str("\n")?;
    Ok(())
}

// Adds how the run ended.
fn add_ended(text: &mut String, ending: Ending) -> Result<(), NoMemory>
    ensures { OnOk result (string_bytes text.new ≡ string_bytes text.old ++ ended_line ending) }
{
    text.push_str("ended ")?;
    text.push_str(ending_name(ending))?;
    text.push_str("\n")?;
    Ok(())
}

// Adds a printed number and the end of its line.
fn add_print(text: &mut String, number: i64) -> Result<(), NoMemory>
    ensures { OnOk result (string_bytes text.new ≡ string_bytes text.old ++ print_line number) }
{
    add_signed(text, number)?;
    text.push_str("\n")?;
    Ok(())
}

// Adds the printed numbers, a line each.
fn add_prints(text: &mut String, numbers: &[i64]) -> Result<(), NoMemory>
    ensures { OnOk result (string_bytes text.new ≡ string_bytes text.old ++ print_lines numbers.now) }
{
    'numbers: for number in numbers {
        add_print(text, *number)?;
    }
    Ok(())
}

// Adds the last printed number, or a hyphen.
fn add_last(text: &mut String, numbers: &[i64]) -> Result<(), NoMemory>
    ensures { OnOk result (string_bytes text.new ≡ string_bytes text.old ++ last_line numbers.now) }
{
    text.push_str("last ")?;
    match numbers.last() {
        Some(number) => add_signed(text, *number)?,
        None => text.push_str("-")?,
    }
    text.push_str("\n")?;
    Ok(())
}

// Adds the line of a kind of messages, where there are some.
fn add_kind(text: &mut String, kind: Kind, count: u128) -> Result<(), NoMemory>
    ensures { OnOk result (string_bytes text.new ≡ string_bytes text.old ++ kind_line kind count) }
{
    if count == 0 {
        return Ok(());
    }
    add_number_line(text, kind_name(kind), count)
}

// Adds the lines of these kinds, of which so many messages were counted.
fn add_kinds(text: &mut String, tally: &Tally<16>, kinds: &[Kind]) -> Result<(), NoMemory>
    ensures { OnOk result (string_bytes text.new ≡ string_bytes text.old ++ tally_lines tally.now kinds.now) }
{
    'kinds: for kind in kinds {
        add_kind(text, *kind, u128::from(tally.count(kind.number())))?;
    }
    Ok(())
}

// Adds the journal's counts; the messages were counted.
fn add_counts(text: &mut String, journal: &Journal, sent: u64) -> Result<(), NoMemory>
    ensures { OnOk result (sent ≡ messages journal.now.items → string_bytes text.new ≡ string_bytes text.old ++ count_lines journal.now.items) }
{
    let figures = figures_of(journal);
    add_number_line(text, "steps", u128::from(figures.steps))?;
    add_number_line(text, "events", u128::from(journal.len()))?;
    add_number_line(text, "issued", figures.issued)?;
    add_number_line(text, "renewed", figures.renewed)?;
    add_number_line(text, "hits", figures.hits)?;
    add_number_line(text, "evictions", figures.evictions)?;
    add_number_line(text, "messages", u128::from(sent))
}

// Adds the journal's figures.
fn add_figures(text: &mut String, journal: &Journal) -> Result<(), NoMemory>
    ensures { OnOk result (string_bytes text.new ≡ string_bytes text.old ++ figure_lines journal.now.items) }
{
    let tally = message_counts(journal)?;
    add_counts(text, journal, tally.total())?;
    add_kinds(text, &tally, &each_kind!(Kind))?;
    Ok(())
}

// Adds what a thread waits for.
fn add_wait(text: &mut String, wait: Wait) -> Result<(), NoMemory>
    ensures { OnOk result (string_bytes text.new ≡ string_bytes text.old ++ wait_text wait) }
{
    match wait {
        Wait::Lock(mutex) => {
            text.push_str("lock ")?;
            add_mutex(text, mutex)
        }
        Wait::Join(other) => {
            text.push_str("join ")?;
            add_thread(text, other)
        }
        Wait::Par(first, second) => {
            text.push_str("par ")?;
            add_thread(text, first)?;
            text.push_str(" ")?;
            add_thread(text, second)
        }
    }
}

// Adds the line of a thread that waits.
fn add_wait_line(text: &mut String, thread: ThreadNo, wait: Wait) -> Result<(), NoMemory>
    ensures { OnOk result (string_bytes text.new ≡ string_bytes text.old ++ wait_line (thread, wait)) }
{
    add_thread(text, thread)?;
    text.push_str(" ")?;
    add_wait(text, wait)?;
    text.push_str("\n")?;
    Ok(())
}

// Adds a line for each thread that waits.
fn add_each_wait(text: &mut String, waits: &[(ThreadNo, Wait)]) -> Result<(), NoMemory>
    ensures { OnOk result (string_bytes text.new ≡ string_bytes text.old ++ wait_lines waits.now) }
{
    'waits: for (thread, wait) in waits {
        add_wait_line(text, *thread, *wait)?;
    }
    Ok(())
}

// Adds the waits of a run that is deadlocked.
fn add_waits(text: &mut String, ending: Ending, waits: &Waits) -> Result<(), NoMemory>
    ensures { OnOk result (string_bytes text.new ≡ string_bytes text.old ++ waits_lines ending waits.now.items) }
{
    match ending {
        Ending::Deadlocked => {
            add_number_line(text, "waits", u128::from(waits.len()))?;
            add_each_wait(text, waits.as_slice())
        }
        _ => Ok(()),
    }
}

// Adds the numbers that labels print.
fn add_printed(numbers: &mut List<i64>, labels: &[Label]) -> Result<(), NoMemory>
    ensures { OnOk result (numbers.new.items ≡ numbers.old.items ++ printed labels.now) }
{
    'labels: for label in labels {
        if let Label::Print(number) = label {
            numbers.push(*number)?;
        }
    }
    Ok(())
}

// The numbers that a run printed.
fn prints_of(alloc: Global, journal: &Journal) -> Result<List<i64>, NoMemory>
    ensures { IfOk result (λ numbers. numbers.items ≡ prints journal.now.items) }
{
    let mut numbers = List::new(alloc);
    'entries: for entry in journal.as_slice() {
        add_printed(&mut numbers, entry.labels.as_slice())?;
    }
    Ok(numbers)
}

// How many newlines a text has.
fn count_newlines(text: &[u8]) -> u64
    ensures { result ≡ newlines text.now }
{
    let mut count = 0;
    'bytes: for byte in text {
        if *byte == b'\n' {
            count += 1;
        }
    }
    count
}

// Adds how many lines the order has, and these.
fn add_order(text: &mut String, order: &str) -> Result<(), NoMemory>
    ensures { OnOk result (string_bytes text.new ≡ string_bytes text.old ++ (number_line (codes "order") (newlines order.now) ++ order.now)) }
{
    add_number_line(text, "order", u128::from(count_newlines(order.as_bytes())))?;
    text.push_str(order)?;
    Ok(())
}

// The report with this text as its order.
fn report_with(
    alloc: Global,
    journal: &Journal,
    ending: Ending,
    waits: &Waits,
    order: &str,
) -> Result<String, NoMemory>
    ensures { IfOk result (λ text. string_bytes text ≡ report ending journal.now.items waits.now.items (newlines order.now) order.now) }
{
    let numbers = prints_of(alloc, journal)?;
    let mut text = String::new(alloc);
    add_ended(&mut text, ending)?;
    add_number_line(&mut text, "prints", u128::from(numbers.len()))?;
    add_prints(&mut text, numbers.as_slice())?;
    add_order(&mut text, order)?;
    add_figures(&mut text, journal)?;
    add_waits(&mut text, ending, waits)?;
    Ok(text)
}

/// The report of a run that ended so, with this journal and these waits: the ending, the printed numbers, the order, the figures,
/// and the waits where the run is deadlocked, in the order in which they are given. `NoMemory` alone is refused. It takes time in
/// the number of acts and in the length of the text, and memory in the length of the text.
#[tactic(auto, using(crate::proofs::LineLemmas::is_report))]
pub fn report_text(
    alloc: Global,
    journal: &Journal,
    ending: Ending,
    waits: &Waits,
) -> Result<String, NoMemory>
    ensures { IfOk result (λ text. IsReport ending journal.now.items waits.now.items (string_bytes text)) }
{
    let order = order_text(alloc, journal)?;
    report_with(alloc, journal, ending, waits, order.as_str())
}

/// The summary of a run that ended so, with this journal and these waits: the ending, how many numbers were printed and the last of
/// them, the figures, and the waits where the run is deadlocked, in the order in which they are given. `NoMemory` alone is refused.
/// It takes time in the number of acts and in the length of the text, and memory in the number of prints.
pub fn summary_text(
    alloc: Global,
    journal: &Journal,
    ending: Ending,
    waits: &Waits,
) -> Result<String, NoMemory>
    ensures { IfOk result (λ text. string_bytes text ≡ summary ending journal.now.items waits.now.items) }
{
    let numbers = prints_of(alloc, journal)?;
    let mut text = String::new(alloc);
    add_ended(&mut text, ending)?;
    add_number_line(&mut text, "prints", u128::from(numbers.len()))?;
    add_last(&mut text, numbers.as_slice())?;
    add_figures(&mut text, journal)?;
    add_waits(&mut text, ending, waits)?;
    Ok(text)
}
