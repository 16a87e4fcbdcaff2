// A source and a sink in memory, which fail at the calls that they are told.
ghost use Rattle.std.specs.Prelude.{◌≡◌, ◌≤◌, ◌↔◌, [], true, length, take, drop, min, IsTrue, IfOk, OnErr, IsOk, IsErr, IsErrOf};
ghost use Rattle.plan_ports.specs.InMemory.{SourceView, SinkView, fresh_calls, fails_next, never_fails, given, after_take, after_put, sink_state, source_state};
ghost use Rattle.plan_ports.specs.Outside.{CountsStall, LaterSink, LaterSource, Moves, SinkFails, SourceFails, Wrote, WroteNothing};

use crate::calls::Calls;
use crate::{Failed, PortFault, Sink, Source};
use std::alloc::Global;
use std::marker::Model;

/// A source of bytes in memory.
#[derive(Drop)]
pub struct MemSource {
    bytes: Vec<u8>,
    at: usize,
    most: usize,
    calls: Calls,
}

impl Model for MemSource {
    ghost Value = { SourceView };

    ghost view = { λ s. record { left = drop s.at s.bytes.items; most = s.most; calls = s.calls } };

    ghost invariant = { λ s. (s.at ≤ length s.bytes.items) × (1 ≤ s.most) };
}

impl MemSource {
    /// A source of these bytes that gives at most `most` of them in each take. The takes whose
    /// numbers, from 0, stand in `fail` fail.
    pub fn new(bytes: Vec<u8>, most: usize, fail: Vec<u32>) -> MemSource
        requires { 1 ≤ most }
        ensures { result ≡ record { left = bytes.items; most = most; calls = fresh_calls fail.items } }
    {
        MemSource {
            bytes,
            at: 0,
            most,
            calls: Calls::new(fail),
        }
    }

    /// How many takes failed.
    pub fn faults(&self) -> u64
        ensures { result ≡ self.now.calls.faults }
    {
        self.calls.faults()
    }
}

impl Source for MemSource {
    ghost state = { source_state };

    // The trait's clauses, then what only this source says.
    fn take(&mut self, buf: &mut [u8]) -> Result<usize, Failed>
        ensures within { IfOk result (λ n. n ≤ length buf.old) }
        ensures moves { IfOk result (λ n. Moves n (source_state self.old) (source_state self.new) buf.old buf.new) }
        ensures failed { OnErr result (SourceFails (source_state self.old) (source_state self.new)) }
        ensures sound { never_fails self.old.calls ≡ true → IsOk result }
        ensures later { LaterSource (source_state self.old) (source_state self.new) }

        // It fails exactly at the calls that it was told, and then gives nothing.
        ensures fails { IsErr result ↔ IsTrue (fails_next self.old.calls) }
        ensures after_err { OnErr result (self.new ≡ after_take 0 self.old) }
        ensures nothing { OnErr result (buf.new ≡ buf.old) }
        ensures gives { IfOk result (λ n. n ≡ given self.old (length buf.old)) }
        ensures after { IfOk result (λ n. self.new ≡ after_take n self.old) }
    {
        if self.calls.next_fails() {
            return Err(Failed);
        }
        let left = &self.bytes[self.at..];
        let n = buf.len().min(self.most).min(left.len());
        buf[..n].copy_from_slice(&left[..n]);
        self.at += n;
        Ok(n)
    }
}

/// A sink that keeps in memory what is written.
#[derive(Drop)]
pub struct MemSink {
    bytes: Vec<u8>,
    most: usize,
    calls: Calls,
}

impl Model for MemSink {
    ghost Value = { SinkView };

    ghost view = { λ s. record { written = s.bytes.items; most = s.most; calls = s.calls } };

    ghost invariant = { λ s. 1 ≤ s.most };
}

impl MemSink {
    /// An empty sink that takes at most `most` bytes in each put. The puts whose numbers, from 0,
    /// stand in `fail` fail.
    pub fn new(alloc: Global, most: usize, fail: Vec<u32>) -> MemSink
        requires { 1 ≤ most }
        ensures { result ≡ record { written = []; most = most; calls = fresh_calls fail.items } }
    {
        MemSink {
            bytes: Vec::new(alloc),
            most,
            calls: Calls::new(fail),
        }
    }

    /// What was written so far.
    pub fn text(&self) -> &[u8]
        ensures { result.now ≡ self.now.written }
    {
        &self.bytes
    }
}

impl Sink for MemSink {
    ghost state = { sink_state };

    // The trait's clauses, then what only this sink says.
    fn put(&mut self, piece: &[u8]) -> Result<usize, PortFault>
        ensures within { IfOk result (λ n. n ≤ length piece.now) }
        ensures appends { IfOk result (λ n. Wrote (take n piece.now) (sink_state self.old) (sink_state self.new)) }
        ensures nothing { OnErr result (WroteNothing (sink_state self.old) (sink_state self.new)) }
        ensures failed { IsErrOf result PortFault.Failed → SinkFails (sink_state self.old) (sink_state self.new) }
        ensures stalls { IfOk result (λ n. CountsStall n piece.now (sink_state self.old) (sink_state self.new)) }
        ensures later { LaterSink (sink_state self.old) (sink_state self.new) }

        // It fails exactly at the calls that it was told.
        ensures fails { IsErrOf result PortFault.Failed ↔ IsTrue (fails_next self.old.calls) }
        ensures takes { IfOk result (λ n. n ≡ min (length piece.now) self.old.most) }
        ensures after { IfOk result (λ n. self.new ≡ after_put (take n piece.now) self.old) }
        ensures after_err { OnErr result (self.new ≡ after_put [] self.old) }
    {
        if self.calls.next_fails() {
            return Err(PortFault::Failed);
        }
        let n = piece.len().min(self.most);
        self.bytes.extend_from_slice(&piece[..n])?;
        Ok(n)
    }
}
