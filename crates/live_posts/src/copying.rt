//! Copies of what stands in a journal.

ghost use Rattle.std.specs.Prelude.{◌≡◌, ◌≤◌, length, slice_range, IfOk};
ghost use Rattle.change_inbox.specs.Entries.{posts_in};
ghost use Rattle.change_inbox.specs.Seats.{GoesOn};

use change_inbox::{Inbox, Kept, Memory, Seat};
use plan_facts::List;
use std::alloc::Global;
use std::sync::Wait;

/// Copies of the posts of a journal from one place to another.
pub(crate) fn copy_posts<T: Kept, W: Wait>(
    rt: &W,
    alloc: Global,
    inbox: &Inbox<T>,
    seat: &mut Seat<T>,
    from: u32,
    to: u32,
) -> Result<List<T>, Memory>
    requires own { seat.old.inbox ≡ inbox.now }
    requires there { to ≤ length (posts_in seat.old.seen) }
    ensures copies { IfOk result (λ copies. copies ≡ slice_range (posts_in seat.old.seen) from to) }
    ensures later { GoesOn seat.old seat.new.seen }
    ensures seat { (seat.new.inbox ≡ inbox.now) × (seat.new.number ≡ seat.old.number) }
{
    let mut copies = List::new(alloc);
    for place in from..to {
        match inbox.post_at(rt, seat, place)? {
            Some(copy) => copies.push(copy)?,
            None => unreachable!(),
        }
    }
    Ok(copies)
}
