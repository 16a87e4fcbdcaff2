//! The timetable: lessons get a timeslot and a room.
#![tactic(auto)]

mod classes;
mod closures;
mod lessons;
mod maker;
mod names;
mod rules;

pub use classes::schema;
pub use closures::{key_value, test_value, weight_value};
pub use maker::Maker;
pub use names::numbers;
pub use rules::{defs, harder};
