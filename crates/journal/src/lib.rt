//! The journal of a run: what every event did, entry after entry, with its acts and labels. And orders: which thread takes which
//! steps, as a text of lines.
//! A text is read exactly where it is the texts of lines one after another, and there is one list of such lines; else the first
//! line that isn't in the format is named by its place. What is written for an order is read again as lines that spell it.
#![tactic(auto)]

mod act;
mod cursor;
mod entries;
mod entry;
mod fault;
mod laws;
mod order;
mod reading;
mod writing;

pub use act::{Act, Acts};
pub use entries::Journal;
pub use entry::Entry;
pub use fault::OrderError;
pub use laws::{by_lines, one_order, same_steps, written_is_read};
pub use order::{Order, OrderLine};
pub use reading::read_order;
pub use writing::{add_mutex, add_number, add_thread, order_text};
