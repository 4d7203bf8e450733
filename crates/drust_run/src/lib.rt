//! Runs in rounds: each server does some events by itself, and then their messages are handed over. The servers of a round are spread over workers, which
//! work beside each other; what is run doesn't depend on their number.
#![tactic(auto)]

mod balance;
mod desk;
mod desks;
mod drive;
mod fitted;
mod ran;
mod round;
mod rounds;
mod seats;
mod turns;
mod work;

pub use ran::Ran;
pub use rounds::run_rounds;
