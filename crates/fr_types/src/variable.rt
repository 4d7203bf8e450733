//! Slots.

use crate::types::Part;

/// A slot: the number of its name, where it has one, and its part.
#[derive(Debug, Drop)]
pub struct Variable {
    pub name: Option<u32>,
    pub part: Part,
}
