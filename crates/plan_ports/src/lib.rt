//! The outside: where bytes come from and go to, with counts of faults.
#![tactic(auto)]

mod calls;
mod fault;
mod gate;
mod memory;
mod memory_shelf;
mod shelf;
mod stream;
mod system;

pub use fault::{Failed, PortFault, ReadFault};
pub use gate::{Gate, NoGate, Place};
pub use memory::{MemSink, MemSource};
pub use memory_shelf::{MemFile, MemShelf};
pub use shelf::Shelf;
pub use stream::{Sink, Source, put_all, read_all};
pub use system::{FileShelf, FileSource, OutSink};
