//! A server at its work in a round.

use controller::Choice;
use journal::Journal;
use server_core::Server;

// A server in a round: its generator, the journal of what it has done in the round, and whether memory was wanting.
#[derive(Drop)]
pub(crate) struct Desk {
    pub(crate) number: u8,
    pub(crate) server: Server,
    pub(crate) choice: Choice,
    pub(crate) entries: Journal,
    pub(crate) lacks: bool,
}
