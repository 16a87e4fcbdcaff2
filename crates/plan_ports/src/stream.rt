// Sources and sinks, and the calls that read or write the whole.
ghost use Rattle.std.specs.Prelude.{◌≡◌, ◌≤◌, true, false, length, take, IfOk, OnOk, OnErr, IsErrOf, IsOk};
ghost use Rattle.plan_ports.specs.Outside.{CountsStall, HasMore, LaterSink, LaterSource, Moves, ReadsAll, SinkFails, SinkState, SourceFails, SourceState, Wrote, WroteFront, WroteNothing};

use crate::{Failed, PortFault, ReadFault};
use std::alloc::Global;

/// Where bytes come from.
pub trait Source {
    /// What contracts see of a source.
    ghost state: { Self → SourceState };

    /// Moves the first bytes that are left into the buffer, and gives their number. No bytes in a
    /// buffer with room are the end. What an `Err` leaves of the bytes is open.
    fn take(&mut self, buf: &mut [u8]) -> Result<usize, Failed>
        ensures within { IfOk result (λ n. n ≤ length buf.old) }
        ensures moves { IfOk result (λ n. Moves n (state self.old) (state self.new) buf.old buf.new) }
        ensures failed { OnErr result (SourceFails (state self.old) (state self.new)) }
        ensures sound { (state self.old).is_sound ≡ true → IsOk result }
        ensures later { LaterSource (state self.old) (state self.new) };
}

/// Where bytes go to.
pub trait Sink {
    /// What contracts see of a sink.
    ghost state: { Self → SinkState };

    /// Appends a front of the piece, and gives its length. An `Err` appends nothing.
    fn put(&mut self, piece: &[u8]) -> Result<usize, PortFault>
        ensures within { IfOk result (λ n. n ≤ length piece.now) }
        ensures appends { IfOk result (λ n. Wrote (take n piece.now) (state self.old) (state self.new)) }
        ensures nothing { OnErr result (WroteNothing (state self.old) (state self.new)) }
        ensures failed { IsErrOf result PortFault.Failed → SinkFails (state self.old) (state self.new) }
        ensures stalls { IfOk result (λ n. CountsStall n piece.now (state self.old) (state self.new)) }
        ensures later { LaterSink (state self.old) (state self.new) };
}

/// Puts until the whole text is written. A put that takes nothing ends it as `Failed`. After an `Err`
/// a front of the text was written.
pub fn put_all<K: Sink>(sink: &mut K, text: &[u8]) -> Result<(), PortFault>
    ensures written { OnOk result (Wrote text.now (K.state sink.old) (K.state sink.new)) }
    ensures front { OnErr result (WroteFront text.now (K.state sink.old) (K.state sink.new)) }
    ensures failed { IsErrOf result PortFault.Failed → SinkFails (K.state sink.old) (K.state sink.new) }
    ensures later { LaterSink (K.state sink.old) (K.state sink.new) }
{
    let mut done = 0;
    'put: while done < text.len() {
        let n = sink.put(&text[done..])?;
        if n == 0 {
            return Err(PortFault::Failed);
        }
        done += n;
    }
    Ok(())
}

// How many bytes a take of `read_all` asks for.
const CHUNK: usize = 4096;

/// Reads all bytes that are left, to their end. `TooLong` where there are more than `limit` of them;
/// what was read before an `Err` is gone from the source.
pub fn read_all<R: Source>(alloc: Global, src: &mut R, limit: u64) -> Result<Vec<u8>, ReadFault>
    ensures whole { IfOk result (λ bytes. ReadsAll bytes.items (R.state src.old) (R.state src.new)) }
    ensures short { IfOk result (λ bytes. length bytes.items ≤ limit) }
    ensures too_long { IsErrOf result ReadFault.TooLong → HasMore limit (R.state src.old) }
    ensures failed { IsErrOf result ReadFault.Failed → SourceFails (R.state src.old) (R.state src.new) }
    ensures unsound { IsErrOf result ReadFault.Failed → (R.state src.old).is_sound ≡ false }
    ensures later { LaterSource (R.state src.old) (R.state src.new) }
{
    let mut bytes = Vec::new(alloc);
    let mut buf = [0u8; CHUNK];
    'read: while bytes.len() as u64 <= limit {
        let Ok(n) = src.take(&mut buf) else {
            return Err(ReadFault::Failed);
        };
        if n == 0 {
            return Ok(bytes);
        }
        bytes.extend_from_slice(&buf[..n])?;
    }
    Err(ReadFault::TooLong)
}
