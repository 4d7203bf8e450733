//! What an event of a server works on: the server without its threads, its threads by number and by rank, spare lists for the slots of new
//! threads, and the places that instructions name with the values that stand there (this project's rules).
#![tactic(auto)]

mod access;
mod idle;
mod kind;
mod marks;
mod needing;
mod places;
mod spares;
mod spot;
mod threads;
mod uses;
mod words;
mod work;

pub use access::Access;
pub use needing::access_of;
pub use places::{cell_at, load_at, plain_of, pointer_of, put_at, put_slot, set_pointer, value_at};
pub use spares::Spares;
pub use spot::Spot;
pub use threads::{Threads, can_step, has_items};
pub use uses::use_word;
pub use words::{issue_colour, issue_renewal, issue_tint, place};
pub use work::Work;
