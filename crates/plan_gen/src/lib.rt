//! The generator of problems: a number and a size make a timetable problem, as JSON text.
#![tactic(auto)]

mod draw;
mod facts;
mod text;

use std::alloc::{AllocError, AllocFailed};
pub use text::problem_text;

/// Want of memory.
#[derive(Clone, Copy, Debug, PartialEq, Eq)]
pub struct Memory;

impl From<AllocError> for Memory {
    fn from(_: AllocError) -> Self {
        Memory
    }
}

impl<T: Drop> From<AllocFailed<T>> for Memory {
    fn from(_: AllocFailed<T>) -> Self {
        Memory
    }
}
