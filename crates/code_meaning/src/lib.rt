//! What compiled code means over one heap: all its instructions, with mutexes and pairs of threads, and what it is that a cluster is left by a
//! run of its own code. There is no code here: a law is the contract of a function with an empty body.
#![tactic(auto)]

mod laws;

pub use laws::{
    last_shares_go, prints_alike, rows_agree, runs_agree, runs_as_program, starts_left,
    steps_refused,
};
