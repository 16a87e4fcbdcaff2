//! The core of the search: a machine that takes the events of a search one by one and answers each.
#![tactic(auto)]

mod by_number;
mod event;
mod judging;
mod laws;
mod machine;
mod one_thread;

pub use event::{CoreFault, Event, Reply};
pub use laws::{
    chosen_as_in_one_thread, events_are_of_run, order_makes_no_difference, steps_end_with_winner,
};
pub use machine::Core;
pub use one_thread::{decide, record_found, take};
