//! The roster: shifts get a worker.
#![tactic(auto)]

mod classes;
mod closures;
mod maker;
mod names;
mod rules;
mod shifts;

pub use classes::{open_schema, schema};
pub use closures::{key_value, test_value, weight_value};
pub use maker::Maker;
pub use names::numbers;
pub use rules::{defs, harder, open_defs};
