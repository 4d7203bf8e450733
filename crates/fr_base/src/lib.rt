//! Names that every layer speaks of: threads, mutexes and objects, places, plain values, labels of steps, instructions, kinds
//! of messages, and what a run is asked to be like.
//! No call here has a refusal but want of memory, and a number's parts are what it was made of.
#![tactic(auto)]

mod boxed;
mod instruction;
mod instructions;
mod label;
mod list;
mod memory;
mod message;
mod name;
mod place;
mod release;
mod settings;
mod step;

pub use boxed::BoxedList;
pub use instruction::{Captures, Instr, Operand};
pub use instructions::Code;
pub use label::{Label, Labels, Plain};
pub use list::List;
pub use memory::NoMemory;
pub use message::Kind;
pub use name::{MutexNo, ObjNo, ThreadNo};
pub use place::{Lval, Op};
pub use release::Released;
pub use settings::Options;
pub use step::{Ending, Ending3, Fresh, Wait, Waits};
