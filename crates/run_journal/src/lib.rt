//! The journal of a run that is done again: which boundary each line of the feed was taken at.
#![tactic(auto)]

mod fault;
mod lines;
mod number;
mod read;

pub use fault::JournalFault;
pub use lines::bounds_of;
