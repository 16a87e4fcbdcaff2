//! A feed that is read whole.

ghost use Rattle.std.specs.Prelude.{◌≡◌, ◌++◌, ◌∷◌, [], false, true, IfErr, IfOk, IsErrOf, OnOk, map};
ghost use Rattle.change_feed.specs.Feeds.{lines_of, overlong};
ghost use Rattle.plan_ports.specs.Outside.{LaterSource, SourceFails};
ghost use Rattle.live_lines.specs.Reading.{AreLines};

use change_feed::{Feed, FeedFault};
use plan_changes::Post;
use plan_ports::Source;
use std::alloc::Global;

/// Appends a line to those that were read.
fn keep(posts: &mut Vec<Post>, post: Post) -> Result<(), FeedFault>
    ensures ok { OnOk result (posts.new.items ≡ posts.old.items ++ post ∷ []) }
    ensures err { IfErr result (λ fault. fault ≡ FeedFault.Memory) }
{
    match posts.push(post) {
        Ok(()) => Ok(()),
        Err(_) => Err(FeedFault::Memory),
    }
}

/// All lines of a source, in order, each by its number from 1: a change or the first fault of the line. Memory; ReadFault only
/// where the source counted a fault; Overrun exactly where there is a 4,097th line, or one that doesn't end within the first
/// 2^30 bytes.
pub fn read_feed<R: Source>(alloc: Global, src: &mut R) -> Result<Vec<Post>, FeedFault>
    ensures lines { IfOk result (λ posts. AreLines posts.items) }
    ensures bodies { (R.state src.old).tells ≡ true
        → IfOk result (λ posts. map (λ post. post.body) posts.items ≡ lines_of (R.state src.old).left) }
    ensures within { (R.state src.old).tells ≡ true → IfOk result (λ posts. overlong (R.state src.old).left ≡ false) }
    ensures overrun { (R.state src.old).tells ≡ true
        → IsErrOf result FeedFault.Overrun → overlong (R.state src.old).left ≡ true }
    ensures failed { IsErrOf result FeedFault.ReadFault → SourceFails (R.state src.old) (R.state src.new) }
    ensures unsound { IsErrOf result FeedFault.ReadFault → (R.state src.old).is_sound ≡ false }
    ensures later { LaterSource (R.state src.old) (R.state src.new) }
{
    let mut feed = Feed::new(alloc);
    let mut posts = Vec::new(alloc);
    'lines: while let Some(post) = feed.next_line(src)? {
        keep(&mut posts, post)?;
    }
    Ok(posts)
}
