//! Calls side by side: each in a thread of its own, all of which the calling thread begins.
#![tactic(auto)]

mod beside;

pub use beside::each_beside;

#[cfg(test)]
mod tests;
