//! Which colour an address has next: addresses that were freed are used again from their next colour, the last freed
//! first; an address that is freed at the last colour is retired for good.
#![tactic(auto)]

mod colours;

pub use colours::Colours;
