//! The slow calculator: the matches of all rules and the score of a plan, by plain loops over all of its records.
#![tactic(auto)]

mod alone;
mod calculator;
mod collect;
mod facts;
mod group;
mod head;
mod impact;
mod join;
mod keyed;
mod keys;
mod matches;
mod node;
mod right;
mod rows;
mod single;
mod stream;
mod sum;

pub use alone::{score_alone, totals_alone};
pub use calculator::{Totals, recalc, score, totals_of_rows};
