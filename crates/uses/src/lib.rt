//! A domain of one's own, to copy from: a restaurant gives its parties of guests tables.
//!
//! `classes` has the classes of facts, `rules` what the rules ask and the rules themselves, `maker` moves of its own, and `domain`
//! puts them together; specs/ says what each of them is. The boxes of the closures are made where it is run, as in `tests`.
#![tactic(auto)]

mod classes;
mod domain;
mod maker;
mod rules;
#[cfg(test)]
mod tests;

pub use classes::schema;
pub use domain::restaurant_of;
pub use maker::Maker;
pub use rules::{
    KEY_TABLE, MOST_STANDING, Restaurant, TEST_LACKS_SEATS, WEIGH_STANDING, defs, guests_standing,
    lacks_seats, table_of,
};
