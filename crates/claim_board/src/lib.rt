//! Numbers below a limit that threads draw, each once, waiting for nobody.
#![tactic(auto)]

mod board;
mod claims;

pub use board::{Board, Pass};
pub use plan_facts::Memory;

#[cfg(test)]
mod tests;
