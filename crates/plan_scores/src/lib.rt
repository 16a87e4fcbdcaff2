//! Scores of plans: their order, their sum and their text.
#![tactic(auto)]

mod laws;
mod level;
mod memory;
mod plan_score;
mod score;

pub use laws::{first_best_is_first, plan_scores_are_ordered, scores_add_up, scores_are_ordered};
pub use level::Level;
pub use memory::Memory;
pub use plan_score::PlanScore;
pub use score::Score;
