//! What events have left.

use fr_base::{Label, NoMemory};
use journal::{Entry, Journal};
use server_model::What;
use std::alloc::Global;
use tracer::trace_text;

/// What was done, how often memory was wanting for an event, and the entries, where they are kept.
#[derive(Drop)]
pub struct Noted {
    pub steps: u64,
    pub deliveries: u64,
    pub prints: u64,
    pub refused: u64,
    journal: Option<Journal>,
}

// How many of the labels are prints.
fn prints_among(entry: &Entry) -> u64 {
    let mut prints: u64 = 0;
    for label in entry.labels.as_slice() {
        if matches!(label, Label::Print(_)) {
            prints = prints.saturating_add(1);
        }
    }
    prints
}

impl Noted {
    /// Nothing yet, and whether entries are kept.
    pub fn new(alloc: Global, trace: bool) -> Noted {
        Noted {
            steps: 0,
            deliveries: 0,
            prints: 0,
            refused: 0,
            journal: if trace {
                Some(Journal::new(alloc))
            } else {
                None
            },
        }
    }

    /// Makes room for one entry more, where they are kept.
    pub fn room(&mut self) -> Result<(), NoMemory> {
        match &mut self.journal {
            Some(journal) => journal.reserve(1),
            None => Ok(()),
        }
    }

    // Keeps an entry, where they are kept. A journal takes none that does a plain step of no thread, and no event has such an entry.
    fn keep(&mut self, entry: Entry) -> Result<(), NoMemory> {
        match &mut self.journal {
            Some(journal) if entry.done.is_none() || entry.thread.is_some() => journal.push(entry),
            _ => Ok(()),
        }
    }

    /// Counts an event that was done, and keeps its entry.
    pub fn add(&mut self, what: &What, entry: Entry) -> Result<(), NoMemory> {
        match what {
            What::Step(_) => self.steps = self.steps.saturating_add(1),
            What::Deliver(_) => self.deliveries = self.deliveries.saturating_add(1),
            What::Evict(_) | What::Migrate(_, _) => {}
        }
        self.prints = self.prints.saturating_add(prints_among(&entry));
        self.keep(entry)
    }

    /// Counts an event for which memory was wanting.
    pub fn refuse(&mut self) {
        self.refused = self.refused.saturating_add(1);
    }

    /// Adds the trace of the events, where their entries are kept.
    pub fn add_trace(&self, alloc: Global, text: &mut String) -> Result<(), NoMemory> {
        if let Some(journal) = &self.journal {
            text.push_str(trace_text(alloc, journal)?.as_str())?;
        }
        Ok(())
    }
}
