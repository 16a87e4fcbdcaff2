//! The records of a problem: their shape, and the plan and the names that they are.
#![tactic(auto)]

mod contents;
mod faults;
mod names;
mod path;
mod raws;
mod record;
mod records;
mod shape;

pub use records::{Records, read_records};
