//! An answer, before it is written.

use drust_run::Ran;

/// What is written and with which status, and the run that it tells of, if there is one.
#[derive(Drop)]
pub struct Answer {
    pub ran: Option<Ran>,
    pub status: u8,
    pub text: String,
}
