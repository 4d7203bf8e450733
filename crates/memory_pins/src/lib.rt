//! What calls on a server's memory come to, each on values of its own. A pin is a function whose contract states a value that one wrong
//! body in a crate below would spoil, so that no contract there can be too weak to refuse that body. Nothing runs these functions.
#![tactic(auto)]

mod cells;
mod colours;
mod copies;
mod mutexes;
mod ranks;
mod references;

pub use cells::{a_changed_cell_is_there, a_taken_cell_is_gone};
pub use colours::{a_freed_address_is_given_once, a_retired_address_is_not_given};
pub use copies::{
    a_copy_in_use_is_no_candidate, an_evicted_copy_is_the_named_one, each_use_of_a_copy_counts,
    room_stands_in_the_order_of_asking,
};
pub use mutexes::the_first_to_ask_is_first;
pub use ranks::{a_later_item_has_its_rank, a_removed_place_is_gone};
pub use references::{a_written_reference_is_dirty, an_unchanged_reference_ends_without_a_word};
