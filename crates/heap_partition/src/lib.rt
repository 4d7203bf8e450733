//! The cells of one server's memory by their addresses: an object's name and its one owned value.
//! Contracts see the cell or nothing at each address that was ever used, and how many more fit without memory.
#![tactic(auto)]

mod cells;
mod chunk;
mod live;
mod value;

pub use cells::Cells;
pub use value::{BoxPtr, Cell, Owned};
