//! The lines of a feed, each read as a change or as the first fault of the line.
#![tactic(auto)]

mod change;
mod deeds;
mod feed;
mod flaws;
mod items;
mod line;
mod members;

pub use feed::Feed;
pub use feed_lines::FeedFault;
pub use line::body_of;
