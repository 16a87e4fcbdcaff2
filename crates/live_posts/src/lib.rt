//! The two halves of a live run over one inbox: the feeder, which posts the lines of a feed, and the seat that cuts at the
//! boundaries of a search and takes what came.
#![tactic(auto)]

mod copying;
mod cutter;
mod fed;
mod feeder;
mod laws;
mod run;

pub use cutter::Cutter;
pub use fed::Fed;
pub use feeder::feed_all;
pub use laws::no_post_is_refused;
pub use run::{close_run, open_run};
