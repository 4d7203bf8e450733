//! Items in the order of their keys, found by their key and by their rank, where only the making of a place takes memory (this project's own).
#![tactic(auto)]

mod block;
mod map;
mod tree;

pub use map::RankMap;
