//! The director: a plan with its score, and edits of it that are attempted, taken back, kept and judged; and the network
//! of all rules behind it, from the records of a plan to the rows at each rule's end.
#![tactic(auto)]

mod all;
mod chain;
mod director;
mod fresh;
mod holders;
mod laws;
mod net;
mod network;
mod node;
mod order;
mod parts;
mod plain;
mod rule;
mod sums;
mod totals;

pub use director::Director;
pub use laws::fresh_nets_stand_for_nothing;
pub use net::Net;
pub use node::{Kind, NetNode, NodeAhead};
pub use order::put_in_order;
pub use rule::{RuleAhead, RuleNet};
pub use sums::score_of_totals;
pub use totals::totals_by_network;
