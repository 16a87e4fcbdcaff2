//! The half of a run that feeds it.

ghost use Rattle.std.specs.Prelude.{◌≡◌, ◌+◌, ◌++◌, ◌∷◌, [], ◌<◌, ◌≤◌, true, false, length, map, IfNone, IfSome, OnSome};
ghost use mathlib.Core.List.{IsPrefix};
ghost use Rattle.std.specs.List.{range_with_len};
ghost use Rattle.plan_ports.specs.Outside.{LaterSource, SourceFails};
ghost use Rattle.feed_lines.specs.Limits.{most_lines};
ghost use Rattle.change_inbox.specs.Entries.{posts_in};
ghost use Rattle.change_inbox.specs.Seats.{own_of};
ghost use Rattle.change_feed.specs.Feeds.{lines_of, overlong};
ghost use Rattle.live_posts.specs.Feeding.{Shows, bodies_among, cause_of, entries_of, is_refused, lines_among, posts_of, stops_behind};

use crate::fed::Fed;
use change_feed::{Feed, FeedFault};
use change_inbox::{Inbox, PostAnswer, Seat};
use plan_changes::{Body, Post, StopCause};
use plan_ports::{Gate, Place, Source};
use std::alloc::Global;
use std::sync::Wait;

/// The cause that a stop names for a fault.
fn cause_of(fault: FeedFault) -> StopCause
    ensures { result ≡ cause_of fault }
{
    match fault {
        FeedFault::Memory => StopCause::Memory,
        FeedFault::ReadFault => StopCause::ReadFault,
        FeedFault::Overrun => StopCause::Overrun,
    }
}

/// Posts one more; where it isn't stored, this is how the feeder ends.
fn post_next<W: Wait>(rt: &W, inbox: &Inbox<Post>, seat: &mut Seat<Post>, post: Post) -> Option<Fed>
    requires { seat.old.inbox ≡ inbox.now }
    ensures stored { let number = length (posts_of seat.old) in
        IfNone result (own_of seat.new ≡ own_of seat.old ++ entries_of seat.old.number number (post ∷ [])) }
    ensures same { OnSome result (own_of seat.new ≡ own_of seat.old) }
    ensures refused { IfSome result (λ fed. is_refused fed ≡ true) }
    ensures shows { IfSome result (λ fed. Shows fed seat.new) }
    ensures seat { (seat.new.inbox ≡ inbox.now) × (seat.new.number ≡ seat.old.number) }
    ensures later { IsPrefix seat.old.seen seat.new.seen }
{
    match inbox.post(rt, seat, post) {
        PostAnswer::Stored(_) => None,
        PostAnswer::Full(_) => Some(Fed::Full),
        PostAnswer::Shut(_) => Some(Fed::Shut),
    }
}

/// Posts a stop behind so many lines, and tells how the feeder ends.
fn post_stop<W: Wait>(
    rt: &W,
    inbox: &Inbox<Post>,
    seat: &mut Seat<Post>,
    lines: u32,
    fault: FeedFault,
) -> Fed
    requires own { seat.old.inbox ≡ inbox.now }
    requires few { lines < 4097 }
    ensures posted { let number = length (posts_of seat.old) in
        own_of seat.new ≡ own_of seat.old ++ entries_of seat.old.number number (stops_behind lines result) }
    ensures cause { is_refused result ≡ false → result ≡ Fed.Stopped (cause_of fault) }
    ensures shows { Shows result seat.new }
    ensures seat { (seat.new.inbox ≡ inbox.now) × (seat.new.number ≡ seat.old.number) }
    ensures later { IsPrefix seat.old.seen seat.new.seen }
{
    let cause = cause_of(fault);
    let post = Post {
        line: lines + 1,
        body: Body::Stop(cause),
    };
    match post_next(rt, inbox, seat, post) {
        None => Fed::Stopped(cause),
        Some(fed) => fed,
    }
}

/// Posts the lines of a feed one after another, in order, each once, and enters a place of the gate behind each. Where the feed
/// fails, a stop with the cause is posted behind the lines. It ends at the end of the feed, at a fault of it, and where a post
/// is refused, which is then not posted. It may wait.
pub fn feed_all<W: Wait, R: Source, G: Gate>(
    rt: &W,
    alloc: Global,
    inbox: &Inbox<Post>,
    seat: &mut Seat<Post>,
    src: &mut R,
    gate: &G,
) -> Fed
    requires own { seat.old.inbox ≡ inbox.now }
    requires fresh { own_of seat.old ≡ [] }
    ensures own { own_of seat.new ≡ entries_of seat.new.number 0 (posts_of seat.new) }
    ensures numbers { let lines = lines_among (posts_of seat.new) in
        map (λ line. line.line) lines ≡ range_with_len 1 (length lines) }
    ensures few { length (lines_among (posts_of seat.new)) ≤ most_lines }
    ensures stop { let lines = lines_among (posts_of seat.new) in
        posts_of seat.new ≡ lines ++ stops_behind (length lines) result }
    ensures front { (R.state src.old).tells ≡ true
        → IsPrefix (bodies_among (posts_of seat.new)) (lines_of (R.state src.old).left) }
    ensures whole { (R.state src.old).tells ≡ true
        → result ≡ Fed.Ended → bodies_among (posts_of seat.new) ≡ lines_of (R.state src.old).left }
    ensures within { (R.state src.old).tells ≡ true → result ≡ Fed.Ended → overlong (R.state src.old).left ≡ false }
    ensures overrun { (R.state src.old).tells ≡ true
        → result ≡ Fed.Stopped StopCause.Overrun → overlong (R.state src.old).left ≡ true }
    ensures failed { result ≡ Fed.Stopped StopCause.ReadFault → SourceFails (R.state src.old) (R.state src.new) }
    ensures unsound { result ≡ Fed.Stopped StopCause.ReadFault → (R.state src.old).is_sound ≡ false }
    ensures shows { Shows result seat.new }
    ensures seat { (seat.new.inbox ≡ inbox.now) × (seat.new.number ≡ seat.old.number) }
    ensures seen { IsPrefix seat.old.seen seat.new.seen }
    ensures later { LaterSource (R.state src.old) (R.state src.new) }
{
    let mut feed = Feed::new(alloc);
    let mut lines = 0;
    'posts: loop {
        match feed.next_line(src) {
            Ok(Some(post)) => {
                lines = post.line;
                match post_next(rt, inbox, seat, post) {
                    None => gate.enter(Place::Line(lines)),
                    Some(fed) => return fed,
                }
            }
            Ok(None) => return Fed::Ended,
            Err(fault) => return post_stop(rt, inbox, seat, lines, fault),
        }
    }
}
