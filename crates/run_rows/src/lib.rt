//! Tests of whole runs: what is printed of rows that were worked by hand, what is left where an open, a take or a put fails, how
//! often workers ask closures, and changes that come while steps go on. Here stands what these tests need of contracts: closures
//! that count their calls, a gate and a feed that wait for each other, and whether a text begins with another.
#![tactic(auto)]

ghost use Rattle.std.specs.Prelude.{◌≡◌, nat_eq};
ghost use Rattle.std.specs.List.{starts_with};

mod counting;
mod feed;
mod meeting;

pub use counting::{ROOM_SIZE, counted_test, counted_weight};
pub use feed::WaitingFeed;
pub use meeting::Meeting;

/// Whether a text begins with this front.
pub fn is_front(front: &[u8], text: &[u8]) -> bool
    ensures { result ≡ starts_with nat_eq text.now front.now }
{
    text.starts_with(front)
}

#[cfg(test)]
mod tests;
