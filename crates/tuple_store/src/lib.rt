//! Rows under numbers, with trials that are taken back exactly.
#![tactic(auto)]

mod bits;
mod held;
mod log;
mod rows;
mod store;
mod trial;
mod word;

pub use store::{Memory, Store};
