//! The plain machine in code: a `Pool` of threads over one heap steps as the running terms do.
#![tactic(auto)]

mod bodies;
mod common;
mod control;
mod error;
mod frame;
mod locks;
mod machine;
mod need;
mod next;
mod pool;
mod running;
mod standing;
mod thread;
mod threads;
mod twins;

pub use error::StepError;
pub use need::Need;
pub use pool::Pool;
