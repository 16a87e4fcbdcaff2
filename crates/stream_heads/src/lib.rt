//! Records under places, rows of places, and what these rows mean.
#![tactic(auto)]

mod cells;
mod delta;
mod head;
mod heads;
mod indexed;
mod last;
mod member;
mod placed;
mod side;

pub use cells::{Cell, Cells, WIDEST};
pub use delta::CellsDelta;
pub use heads::Heads;
pub use indexed::Indexed;
pub use last::LastRow;
pub use member::Member;
pub use placed::Placed;
pub use side::Side;
