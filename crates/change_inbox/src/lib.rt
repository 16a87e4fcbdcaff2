//! One journal of posts, cuts and shuts that several threads write in turns, each with a seat of its own.
#![tactic(auto)]

mod book;
mod copies;
mod entry;
mod inbox;
mod journal;
mod knowledge;
mod seat;

pub use entry::{Entry, Kept, PostAnswer};
pub use inbox::Inbox;
pub use journal::Journal;
pub use plan_facts::Memory;
pub use seat::Seat;
