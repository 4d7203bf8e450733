//! What a step leaves of its own thread's walk, and what was taken or passed after each event. There is no code here: a law is the contract of a function that calls other laws at most.
#![tactic(auto)]

pub mod passed;
pub mod steps;
pub mod taken;

pub use passed::{
    each_event_uncopied, passed_stays, steps_uncopied, unstepped_passed, unstepped_uncopied,
};
pub use steps::{own_walks_stand, steps_keep_walks};
pub use taken::taken_stays;
// passed on to the crates above
pub use law_walks_others::all_land;
