//! Live changes in a search: what a line of a feed makes of the plan, the names and the weights that are searched, and the
//! line that says so.
#![tactic(auto)]

mod alone;
mod feed;
mod laws;
mod line;
mod taking;

pub use alone::take_alone;
pub use feed::read_feed;
pub use laws::lines_are_taken_in_order;
pub use taking::{take_line, take_lines};
