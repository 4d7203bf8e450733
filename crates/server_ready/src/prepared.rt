//! What became of a place that a step follows.

use server_parts::Spot;

/// A place is ready, and leads to that spot; or one request was sent, and the thread waits.
#[derive(Clone, Copy)]
pub enum Prepared {
    Ready(Spot),
    Requested,
}
