//! The cached copies of one server, each under the word that it was served for, with how many use it (in the manner of DRust, OSDI
//! 2024; the rules are this project's).
#![tactic(auto)]

mod cache;
mod hash;
mod laws;
mod slot;

pub use cache::Cache;
pub use laws::cache_computes;
