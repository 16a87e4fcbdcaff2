//! Indictments: in how many matches each fact stands, and what these add to the score.
#![tactic(auto)]

mod tallies;
mod tally;

pub use tallies::Tallies;
pub use tally::Tally;
