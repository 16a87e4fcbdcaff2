//! Candidates: the edits that the selectors of a search make of a plan and eight random words.
#![tactic(auto)]

mod changes;
mod class_pool;
mod links;
mod movables;
mod pillars;
mod pool;
mod selectors;
mod swaps;
mod values;

pub use pool::Pool;
pub use selectors::candidate;
