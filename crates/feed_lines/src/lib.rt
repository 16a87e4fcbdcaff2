//! The lines of a source of bytes, one after another, up to 4,096 lines and 2^30 bytes.
#![tactic(auto)]

mod fault;
mod lines;
mod window;

pub use fault::FeedFault;
pub use lines::{LONGEST_LINE, Lines, MOST_BYTES, MOST_LINES};
