//! References to objects of the heap as a thread holds them: the word that each leads by, and for a mutable one whether
//! it was written and the word that its holder's pointer had.
#![tactic(auto)]

mod mutable;
mod shared;

pub use mutable::{Cleaned, MutRef, changed_law};
pub use shared::SharedRef;
