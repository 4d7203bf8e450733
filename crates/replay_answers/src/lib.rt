//! Answers to replays: from the bytes of a source with an order behind it to the text of its run under the order, or why there is none.
#![tactic(auto)]

mod replay;
mod report;

pub use replay::replay_answer;
