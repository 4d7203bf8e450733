//! How a place of a checked term is used.

/// The slot of the place's variable, and whether what stands there is taken out.
#[derive(Clone, Copy, Debug, PartialEq, Eq)]
pub struct Usage {
    pub slot: u32,
    pub takes: bool,
}
