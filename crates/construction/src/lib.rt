//! Construction: a plan is placed entity by entity, each by the first best of all combinations of its choices.
#![tactic(auto)]

mod alone;
mod best;
mod judge;
mod next;
mod order;
mod todo;

pub use alone::{order_alone, place_alone};
pub use next::{Course, Placing, next_placing, place};
pub use order::placing_order;
