//! How runs keep coherence, go on and end, what threads wait for, and that whole runs of programs are runs on one heap. There is no code here: a law is the contract of a function that calls other laws at most.
#![tactic(auto)]

pub mod ends;
pub mod going;
pub mod programs;
pub mod runs;
pub mod waits;

pub use ends::{finished_is_empty, going_goes_on};
pub use going::{going_clusters_go_on, runs_go_on};
pub use programs::{programs_are_left, programs_run_right};
pub use runs::{runs_are_left, runs_from_starts};
pub use waits::{locks_wait, programs_stand_there, waits_agree};
// passed on to the crates above
pub use law_runs_coherent::events_keep_coherence;
