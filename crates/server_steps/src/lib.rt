//! The plain step of each instruction whose place is ready, and what its end leaves of the thread's walk.
#![tactic(auto)]

mod committed;
mod committing;
mod dropping;
mod operands;
mod settling;
mod starting;
mod steps_alone;
mod steps_asking;
mod steps_mutexes;
mod steps_objects;
mod steps_places;
mod steps_references;
mod steps_starting;
mod steps_threads;

pub use committed::Committed;
pub use committing::commit;
pub use settling::settle;
