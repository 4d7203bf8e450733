//! One server of the run: its threads by number and by rank, its waiting messages, and what it tells of itself (this project's rules).
#![tactic(auto)]

mod rooms;
mod server;
mod stepping;

pub use server::Server;
