//! Reports: every line that a run prints, and its text.
#![tactic(auto)]

mod change;
mod line;
mod parts;

pub use line::{Line, write_line};
