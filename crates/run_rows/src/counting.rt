//! Two of the timetable's closures, which count their calls.
ghost use Rattle.std.specs.Prelude.{◌≡◌, ◌≤◌};
ghost use Rattle.domain_words.specs.Numbers.{weight_cap};
ghost use Rattle.shipped_domains.specs.Meaning.{shipped_test, shipped_weight};

use shipped_domains::{Row, shipped_test, shipped_weight};
use std::sync::Arc;
use std::sync::atomic::{AtomicU64, Ordering};

/// The number of the timetable's test, and of its weigher, on the size of rooms.
pub const ROOM_SIZE: u16 = 0;

/// Whether the room of the row's lesson is too small; counts the call.
pub fn counted_test(calls: &Arc<AtomicU64>, row: &Row) -> bool
    ensures { result ≡ shipped_test 0 row.now }
{
    calls.fetch_add(1, Ordering::SeqCst);
    shipped_test(ROOM_SIZE, row)
}

/// How many seats that room lacks, at most 10,000; counts the call.
pub fn counted_weight(calls: &Arc<AtomicU64>, row: &Row) -> u32
    ensures value { result ≡ shipped_weight 0 row.now }
    ensures range { result ≤ weight_cap }
{
    calls.fetch_add(1, Ordering::SeqCst);
    shipped_weight(ROOM_SIZE, row)
}
