//! Journals as texts of rows.

ghost use Rattle.std.specs.Prelude.{IfOk};
ghost use Rattle.journal.specs.Journals.{NamesItsThread};

use crate::words::{act_of, cut, fresh_of, label_of, thread_of};
use fr_base::{Fresh, Labels, MutexNo, ObjNo, Plain, Released, ThreadNo};
use global_addr::Word;
use journal::{Acts, Entry, Journal};
use std::alloc::Global;
use std::test::Fail;

// A row can't be read.
#[derive(Debug, Drop)]
struct Unreadable;

// An act more.
fn add_act(acts: &mut Acts, word: &str) -> Result<(), Fail> {
    // The check asks that each type inside an act is named where an act is moved.
    let _inside: Option<(Released, MutexNo, ObjNo, Word)> = None;
    acts.push(act_of(word).ok_or(Unreadable)?)?;
    Ok(())
}

// The acts of the words.
fn acts_of(alloc: Global, text: &str) -> Result<Acts, Fail> {
    let mut acts = Acts::new(alloc);
    for word in text.split(' ') {
        if !word.is_empty() {
            add_act(&mut acts, word)?;
        }
    }
    Ok(acts)
}

// A label more.
fn add_label(labels: &mut Labels, word: &str) -> Result<(), Fail> {
    // The check asks that each type inside a label is named where a label is moved.
    let _inside: Option<(Plain, MutexNo, ObjNo)> = None;
    labels.push(label_of(word).ok_or(Unreadable)?)?;
    Ok(())
}

// The labels of the words.
fn labels_of(alloc: Global, text: &str) -> Result<Labels, Fail> {
    let mut labels = Labels::new(alloc);
    for word in text.split(' ') {
        if !word.is_empty() {
            add_label(&mut labels, word)?;
        }
    }
    Ok(labels)
}

// The thread of a row, or none.
fn turn_of(text: &str) -> Result<Option<ThreadNo>, Fail> {
    if text == "-" {
        return Ok(None);
    }
    Ok(Some(thread_of(text).ok_or(Unreadable)?))
}

// The names that a plain step took, where there was one.
fn done_of(text: &str) -> Result<Option<Fresh>, Fail> {
    if text == "-" {
        return Ok(None);
    }
    Ok(Some(fresh_of(text).ok_or(Unreadable)?))
}

// The entry of a row.
fn entry_of(alloc: Global, row: &str) -> Result<Entry, Fail>
    ensures names { IfOk result NamesItsThread }
{
    let (turn, labels) = cut(row, '|');
    let (server, rest) = cut(turn, ' ');
    let (thread, rest) = cut(rest, ' ');
    let (done, acts) = cut(rest, ' ');
    let server = server.parse::<u8>().ok().ok_or(Unreadable)?;
    let thread = turn_of(thread)?;
    let done = done_of(done)?;
    let done = match thread {
        Some(_) => done,
        None => None,
    };
    Ok(Entry {
        server,
        thread,
        done,
        acts: acts_of(alloc, acts)?,
        labels: labels_of(alloc, labels)?,
    })
}

/// Adds the entries of the rows. A row is written as a line of a trace: the server, the thread or `-`, its plain step with the names that it took or `-`, the acts,
/// and behind a bar the labels; but a word is its colour, server and address with dots between.
pub fn add_rows(alloc: Global, journal: &mut Journal, rows: &str) -> Result<(), Fail> {
    for row in rows.lines() {
        journal.push(entry_of(alloc, row)?)?;
    }
    Ok(())
}

/// The same so many times over.
pub fn add_often(alloc: Global, journal: &mut Journal, rows: &str, times: u32) -> Result<(), Fail> {
    for _ in 0..times {
        add_rows(alloc, journal, rows)?;
    }
    Ok(())
}

/// The journal of the first so many rows.
pub fn journal_of(alloc: Global, rows: &str, count: usize) -> Result<Journal, Fail> {
    let mut journal = Journal::new(alloc);
    for row in rows.lines().take(count) {
        journal.push(entry_of(alloc, row)?)?;
    }
    Ok(journal)
}

/// The journal of the rows, with one row more before the row at that place.
pub fn journal_with(alloc: Global, rows: &str, place: usize, more: &str) -> Result<Journal, Fail> {
    let mut journal = journal_of(alloc, rows, place)?;
    journal.push(entry_of(alloc, more)?)?;
    for row in rows.lines().skip(place) {
        journal.push(entry_of(alloc, row)?)?;
    }
    Ok(journal)
}
