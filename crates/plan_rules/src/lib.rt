//! Rules: rows, the streams that make them, the closures that they ask, their bounds, and laws of rows.
#![tactic(auto)]

mod check;
mod closures;
mod copies;
mod fault;
mod handed;
mod harder;
mod laws;
mod missing;
mod places;
mod range;
mod row;
mod rule;
mod rules;
mod shared;
mod steps;

pub use check::WEIGHT_LIMIT;
pub use closures::{Book, Judges, Kept, Key, KeyBody, Test, TestBody, Weigh, WeighBody};
pub use copies::copy_rules;
pub use fault::{ClosureKind, RangeFault, RuleFault};
pub use laws::{
    changes_add_up, changes_lead_through_nodes, order_comes_back, order_may_be_forgotten,
    scores_add_up_by_rule,
};
pub use places::{Numbers, Places};
pub use row::{Delta, Match, Part, Row};
pub use rule::{Collect, Harder, Head, Joiner, Named, Node, RuleDef};
pub use rules::Rules;
pub use steps::Steps;
