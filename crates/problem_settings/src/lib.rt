//! The root of a problem, its settings and its weights, read from a JSON value.
#![tactic(auto)]

mod root;
mod settings;
mod weights;
mod words;

pub use root::{Format, check_root};
pub use settings::read_settings;
pub use weights::read_weights;
