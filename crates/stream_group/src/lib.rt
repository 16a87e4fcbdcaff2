//! A node of a network that makes one row of the rows with each key, and is led on bit by bit.
#![tactic(auto)]

mod ahead;
mod change;
mod count;
mod group;
mod grouping;
mod laws;
mod made;
mod noted;
mod tally;
mod turn;
mod words;

pub use ahead::GroupAhead;
pub use group::GroupNode;
pub use grouping::Grouping;
pub use laws::group_rows_mean_groups;
