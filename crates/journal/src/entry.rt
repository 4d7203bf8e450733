//! What one event leaves in the journal.

use crate::act::Acts;
use fr_base::{Fresh, Labels, ThreadNo};
use std::marker::Model;

/// One event of a server, whole: the server, the thread (of a step and of a migration alone), the new names of the plain step
/// where the event did one, the acts in the order in which they were done, and the labels of the plain step. Contracts see the two
/// lists as lists, whatever room they have.
#[derive(Debug, Drop)]
pub struct Entry {
    pub server: u8,
    pub thread: Option<ThreadNo>,
    pub done: Option<Fresh>,
    pub acts: Acts,
    pub labels: Labels,
}

impl Model for Entry {
    ghost use Rattle.journal.specs.View.{EntryView};

    ghost Value = { EntryView };

    ghost view = { λ e. record { server = e.server; thread = e.thread; done = e.done; acts = e.acts.items; labels = e.labels.items } };
}
