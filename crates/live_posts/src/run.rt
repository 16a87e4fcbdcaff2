//! The inbox of a run, opened and closed.

ghost use Rattle.std.specs.Prelude.{◌≡◌, [], IfOk};
ghost use mathlib.Core.List.{IsPrefix};
ghost use Rattle.change_inbox.specs.Entries.{by_seat, posts_in, shuts_in};
ghost use Rattle.change_inbox.specs.Seats.{fresh_seat, own_of};
ghost use Rattle.live_posts.specs.Cuts.{posts_taken, taken_by, takes};
ghost use Rattle.live_posts.specs.Feeding.{entries_of};

use crate::cutter::Cutter;
use change_inbox::{Inbox, Journal, Kept, Memory, Seat};
use std::alloc::Global;

/// The inbox of a run with one feeder, with room for so many posts and cuts; the feeder's seat, which is the first of two, and
/// the cutter, which has the last.
pub fn open_run<T: Kept>(
    alloc: Global,
    posts: u32,
    cuts: u32,
) -> Result<(Inbox<T>, Seat<T>, Cutter<T>), Memory>
    ensures limits { IfOk result (λ run. run.0.limits ≡ record { seats = 2; posts = posts; cuts = cuts }) }
    ensures feeder { IfOk result (λ run. run.1 ≡ fresh_seat run.0 0) }
    ensures cutter { IfOk result (λ run. run.2 ≡ fresh_seat run.0 1) }
{
    let (inbox, mut seats) = Inbox::open(alloc, 2, posts, cuts)?;
    let Some(last) = seats.pop() else {
        unreachable!()
    };
    let Some(first) = seats.pop() else {
        unreachable!()
    };
    Ok((inbox, first, Cutter::new(alloc, last)))
}

/// The whole journal of a run with one feeder, which has the first of two seats, and a cutter, which has the last. Its posts
/// are the feeder's, in order, its cuts the cutter's, each with the posts that it took; the cuts take the first posts, each
/// once and in order: all of them where the cutter has cut since it met the feeder. It takes no memory.
pub fn close_run<T: Kept>(inbox: Inbox<T>, feeder: Seat<T>, cutter: Cutter<T>) -> Journal<T>
    requires seats { inbox.limits.seats ≡ 2 }
    requires feeder { (feeder.inbox ≡ inbox) × (feeder.number ≡ 0) }
    requires cutter { (cutter.inbox ≡ inbox) × (cutter.number ≡ 1) }
    requires posts { own_of feeder ≡ entries_of feeder.number 0 (posts_in (own_of feeder)) }
    ensures posts { posts_in result ≡ posts_in (own_of feeder) }
    ensures takes { takes result ≡ taken_by cutter }
    ensures front { IsPrefix (posts_taken (takes result)) (posts_in result) }
    ensures all { IsPrefix (posts_in feeder.seen) (posts_taken (taken_by cutter))
        → posts_taken (takes result) ≡ posts_in result }
    ensures shuts { shuts_in result ≡ shuts_in (own_of cutter) }
    ensures feeder { IsPrefix feeder.seen result × (by_seat 0 result ≡ own_of feeder) }
    ensures cutter { IsPrefix cutter.seen result × (by_seat 1 result ≡ own_of cutter) }
{
    inbox.close_both(feeder, cutter.into_seat())
}
