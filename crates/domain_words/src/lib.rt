//! What the domains' closures and tables are made of: what can be read off a row, how numbers that may not be there
//! compare, the parts of classes and rules, and the parts of moves.
#![tactic(auto)]

mod classes;
mod handed;
mod moves;
mod numbers;
mod rows;
mod rules;

pub use classes::{Variable, class};
pub use handed::ClosureNumbers;
pub use moves::{fact_picked, gives};
pub use numbers::{
    WEIGHT_CAP, are_different, clipped_excess, excess_weight, is_above, is_soon_after, key_or_zero,
};
pub use rows::{field_at, given_field_at, held_field_at, held_id_at, id_at, is_null_at, number_at};
pub use rules::{grouped, one_node, pairs, penalty, reward, same_key, weighed_penalty};
