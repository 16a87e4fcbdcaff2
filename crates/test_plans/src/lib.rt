//! Schemas and plans for tests, made of sketches that a test writes down as constants.
#![tactic(auto)]

mod classes;
mod facts;

pub use classes::{ClassSketch, VarSketch, schema_of};
pub use facts::{FactSketch, plan_of};
