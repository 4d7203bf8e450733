//! What a server looks for by a number or by a place: its threads, which of them are marked, and the messages that wait.
#![tactic(auto)]

mod index;
mod keys;
mod line;
mod marks;
mod queue;
mod ranks;
mod row;
mod rows;
mod sums;
mod table;
mod widen;

pub use marks::MarkSet;
pub use queue::FrontQueue;
pub use table::Table;
