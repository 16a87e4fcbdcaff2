ghost use Rattle.std.specs.Prelude.{◌≡◌};
ghost use Rattle.feed_lines.specs.declared.fault.FeedFault.TheVariants.{Memory};

use std::alloc::AllocError;

/// Why no further line of a feed can be read.
#[derive(Clone, Copy, Debug, Drop, PartialEq, Eq)]
pub enum FeedFault {
    /// Want of memory.
    Memory,
    /// The source failed, and counted it.
    ReadFault,
    /// The feed has a 4,097th line, or a byte past the first 2^30.
    Overrun,
}

impl From<AllocError> for FeedFault {
    ghost from_gives = { λ _ fault. fault ≡ Memory };

    fn from(_: AllocError) -> Self {
        FeedFault::Memory
    }
}
