//! What the threads of the plain machine share, in code: the heap, mutexes, and pairs of threads whose parents
//! wait, each found without a scan.
#![tactic(auto)]

mod heap;
mod laws;
mod mutexes;
mod objects;
mod pairs;
mod places;

pub use heap::{Heap, Released};
pub use laws::{acts_change, shares_release};
pub use mutexes::{Mutexes, Shared};
pub use pairs::{Pairs, Two};
pub use places::Places;
