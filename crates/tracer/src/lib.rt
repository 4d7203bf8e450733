//! The texts of a run, written from its journal.
#![tactic(auto)]

mod figures;
mod names;
mod report;
mod trace;

pub use report::{report_text, summary_text};
pub use trace::trace_text;
