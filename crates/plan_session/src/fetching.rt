ghost use Rattle.std.specs.Prelude.{◌≡◌, IfOk, IsErrOf};
ghost use Rattle.plan_ports.specs.Outside.{FailsAt, LaterShelf};
ghost use Rattle.plan_session.specs.Sources.{HoldsFeed, HoldsOverlong};

use change_feed::FeedFault;
use live_lines::read_feed;
use plan_changes::Post;
use plan_ports::{PortFault, Shelf};
use std::alloc::Global;

/// Opens the feed of this name, reads all its lines, and gives it back.
pub fn fetch_feed<S: Shelf>(
    alloc: Global,
    shelf: &mut S,
    name: &[u8],
) -> Result<Vec<Post>, FeedFault>
    ensures feed { IfOk result (λ posts. HoldsFeed (S.state shelf.old) name.now posts.items) }
    ensures overlong { IsErrOf result FeedFault.Overrun → HoldsOverlong (S.state shelf.old) name.now }
    ensures failed { IsErrOf result FeedFault.ReadFault → FailsAt name.now (S.state shelf.old) (S.state shelf.new) }
    ensures given_back { (S.state shelf.new).lent ≡ (S.state shelf.old).lent }
    ensures later { LaterShelf (S.state shelf.old) (S.state shelf.new) }
{
    let mut file = match shelf.open(name) {
        Ok(file) => file,
        Err(PortFault::Memory) => return Err(FeedFault::Memory),
        Err(PortFault::Failed) => return Err(FeedFault::ReadFault),
    };
    let read = read_feed(alloc, &mut file);
    shelf.close(file);
    read
}
