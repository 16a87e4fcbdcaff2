//! Searches: what a run of the search is, as definitions that every part of it cites, and their laws.
#![tactic(auto)]

mod found;
mod laws;
mod placed;

pub use found::Found;
pub use laws::{
    combinations_are_all, harder_entities_come_first, placings_leave_the_rest,
    placings_place_in_order, quiet_runs_grow,
};
pub use placed::Placed;
