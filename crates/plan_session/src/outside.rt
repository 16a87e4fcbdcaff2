ghost use Rattle.std.specs.Prelude.{◌≡◌, ◌<◌, ◌≤◌, ℕ, List, length, IfOk, IsErrOf};
ghost use Rattle.plan_ports.specs.Outside.{FailsAt, Holds, LaterShelf, LaterSink};
ghost use Rattle.plan_session.specs.Ending.{Ended, Says};

use crate::status::Status;
use plan_ports::{PortFault, ReadFault, Shelf, Sink, put_all, read_all};
use std::alloc::Global;

/// Opens the file of this name, reads it to its end, up to so many bytes, and gives it back.
pub fn fetch<S: Shelf>(
    alloc: Global,
    shelf: &mut S,
    name: &[u8],
    limit: usize,
) -> Result<Vec<u8>, ReadFault>
    ensures bytes { IfOk result (λ bytes. Holds (S.state shelf.old) name.now bytes.items) }
    ensures short { IfOk result (λ bytes. length bytes.items ≤ limit) }
    ensures too_long { IsErrOf result ReadFault.TooLong →
        (bytes : List ℕ) × Holds (S.state shelf.old) name.now bytes × (limit < length bytes) }
    ensures failed { IsErrOf result ReadFault.Failed → FailsAt name.now (S.state shelf.old) (S.state shelf.new) }
    ensures given_back { (S.state shelf.new).lent ≡ (S.state shelf.old).lent }
    ensures later { LaterShelf (S.state shelf.old) (S.state shelf.new) }
{
    let mut file = match shelf.open(name) {
        Ok(file) => file,
        Err(PortFault::Memory) => return Err(ReadFault::Memory),
        Err(PortFault::Failed) => return Err(ReadFault::Failed),
    };
    let read = read_all(alloc, &mut file, limit as u64);
    shelf.close(file);
    read
}

/// Writes a whole text, and answers the status; or that memory or the sink lacked.
pub fn say<K: Sink>(out: &mut K, status: Status, text: &[u8]) -> Status
    ensures ended { Ended (Says status text.now) (K.state out.old) (K.state out.new) result }
    ensures later { LaterSink (K.state out.old) (K.state out.new) }
{
    match put_all(out, text) {
        Ok(()) => status,
        Err(PortFault::Memory) => Status::Memory,
        Err(PortFault::Failed) => Status::Write,
    }
}
