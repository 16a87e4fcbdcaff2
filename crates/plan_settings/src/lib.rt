//! Settings: what a run of the search may be told, with the usual values and the ranges.
#![tactic(auto)]

mod setting;
mod settings;

pub use setting::{AcceptorKind, Construction, Early, Selector, Setting};
pub use settings::{SELECTOR_LIMIT, SIZE_LIMIT, STEP_LIMIT, Settings};
