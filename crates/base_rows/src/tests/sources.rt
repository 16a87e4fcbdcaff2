//! Sources in memory.

use plan_ports::MemSource;
use std::alloc::{AllocError, Global};

/// The number of no take.
pub const NEVER: u32 = u32::MAX;

/// A source of so many of one byte and of these, which gives so many at most and fails at takes.
pub fn source(
    alloc: Global,
    front: (usize, u8),
    rest: &[u8],
    most: usize,
    fail: &[u32],
) -> Result<MemSource, AllocError> {
    let (count, byte) = front;
    let fail = Vec::from_slice(alloc, fail)?;
    let mut bytes = vec![in alloc; byte; count]?;
    bytes.extend_from_slice(rest)?;
    Ok(MemSource::new(bytes, most.max(1), fail))
}
