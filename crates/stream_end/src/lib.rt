//! The node at a rule's end: its rows, with their match weights and what these add up to, led on bit by bit.
#![tactic(auto)]

mod ahead;
mod kept_rows;
mod keys;
mod laws;
mod rows_end;

pub use ahead::EndAhead;
pub use laws::{end_sums_are_match_weights, ends_stand_by_meaning};
pub use rows_end::EndNode;
