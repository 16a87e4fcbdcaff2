//! Moves: edits of a plan's variables.
#![tactic(auto)]

mod choices;
mod edit;
mod legal;
mod maker;

pub use choices::{choice_at, choice_count};
pub use edit::{Edit, Set, Touch};
pub use maker::{MoveMaker, make_by};
