//! Why a problem's bytes are refused, and the line that says so.
#![tactic(auto)]

mod fault;
mod pieces;
mod words;

pub use fault::ProblemFault;
pub use words::{setting_name, write_refusal};
