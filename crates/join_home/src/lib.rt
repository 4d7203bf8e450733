//! The threads that one server started, until they have ended and their results are gone (this project's rules).
#![tactic(auto)]

mod answers;
mod laws;
mod note;
mod tasks;

pub use answers::EndedAs;
pub use laws::tasks_compute;
pub use tasks::Tasks;
