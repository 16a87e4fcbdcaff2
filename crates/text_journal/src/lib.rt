//! What a run prints can be handed in as the journal of a replay: laws of the text of
//! printed lines, and of what is read of it.
#![tactic(auto)]

mod laws;

pub use laws::{a_run_is_its_own_journal, accepted_have_names};
