//! What a call ended with.

use server_answers::Ran;

/// What the program ended with: 0, 1 or 2 where the text of a run is written, 3 to 10 where there is none (`drust` says when each comes),
/// and the run that was made on servers, if there is one: there is exactly where it is told of, also where the sink failed.
#[derive(Drop)]
pub struct Outcome {
    pub status: u8,
    pub ran: Option<Ran>,
}
