//! Changes: what a live change does to a plan, its names and the weights of its rules, and what it is refused for.
#![tactic(auto)]

mod change;
mod fault;
mod line;
mod named;
mod perform;
mod preparing;
mod ready;
mod refused;
mod undo;

pub use change::{Change, Deed, FieldItem, Item, ValueItem, WEIGHT_LIMIT};
pub use fault::ChangeFault;
pub use line::{Body, LineFault, Post, Spot, StopCause};
pub use preparing::prepare;
pub use ready::Ready;
pub use undo::Undo;
