//! Types, environments and the type of a place, in code: each call answers what the definitions of typing say, for every
//! list of the names' texts.
#![tactic(auto)]

mod env;
mod error;
mod join;
mod kinds;
mod loans;
mod numbered;
mod path;
mod place;
mod places;
mod put;
mod resolved;
mod shape;
mod shape_node;
mod shape_table;
mod slot_shapes;
mod types;
mod variable;
mod walk;

pub use env::Env;
pub use error::TypeError;
pub use join::{join_parts, join_types};
pub use kinds::{boxed, copies, is_full, is_int, is_owned, names_from, same_owned};
pub use path::{goes_through_mutable, is_own_path, is_writable};
pub use place::lval_type;
pub use places::Places;
pub use shape::{has_shape_of, same_shape};
pub use types::{O, Part, Ty};
