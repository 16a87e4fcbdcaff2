//! Which records go and come when a plan changes, as rows of one cell for each class.
#![tactic(auto)]

mod changes;
mod gathering;
mod let_go;
mod turn;

pub use changes::{ClassChange, clear};
pub use gathering::gather;
pub use let_go::{let_come_go, let_gone_go};
