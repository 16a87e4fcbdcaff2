//! Problems: what a problem's bytes mean over some domains, read in one order of looking.
#![tactic(auto)]

mod domain;
mod limits;
mod problem;
mod read;

pub use domain::Domain;
pub use problem::Problem;
pub use read::{BYTE_LIMIT, read_problem};
