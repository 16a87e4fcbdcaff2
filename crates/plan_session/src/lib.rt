//! Sessions: a command is read, its problem fetched, judged and searched, and what is due is written, line by line.
#![tactic(auto)]

mod answer;
mod best;
mod deciding;
mod driving;
mod events;
mod explaining;
mod fault;
mod fed_files;
mod fetching;
mod generate;
mod journal;
mod leading;
mod legs;
mod live_fault;
mod nowhere;
mod outside;
mod printing;
mod replay_files;
mod replaying;
mod report;
mod searching;
mod status;
mod steps;
mod task;
mod text;
mod top;
mod touring;

pub use driving::{Driven, drive};
pub use searching::Hands;
pub use status::Status;
pub use top::run;
