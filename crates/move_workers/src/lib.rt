//! Workers: each judges candidates of a search's steps on a plan of its own; teams of them judge at once.
#![tactic(auto)]

mod alone;
mod batch;
mod draw;
mod due;
mod follower;
mod job;
mod kit;
mod laws;
mod team;
mod worker;

pub use alone::{director_alone, keep_alone};
pub use kit::Kit;
pub use laws::workers_search;
pub use team::Team;
pub use worker::Worker;
