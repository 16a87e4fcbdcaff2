ghost use Rattle.std.specs.Prelude.{◌≡◌, ◌≤◌, ◌<◌, [], ◌++◌, length, drop, position, false, vec_len, IfOk, OnOk, IsErrOf};
ghost use Rattle.plan_ports.specs.Outside.{LaterSource, SourceFails};
ghost use Rattle.feed_lines.specs.Parts.{is_feed};
ghost use Rattle.feed_lines.specs.Limits.{most_bytes};
ghost use Rattle.feed_lines.specs.Windows.{Fills, KeepsAhead, Ends, Skips, IsPast, Finds, IsWithin, TellsMore};

use crate::fault::FeedFault;
use crate::lines::LONGEST_LINE;
use plan_ports::Source;
use std::alloc::{AllocError, Global};
use std::marker::Model;

/// How many bytes a take asks for.
const CHUNK: usize = 8192;

/// Bytes that were read and not passed yet.
#[derive(Drop)]
pub struct Window {
    held: Vec<u8>,
    at: usize,
}

impl Model for Window {
    ghost use Rattle.std.specs.Prelude.{◌≤◌, List, ℕ, drop, length};

    ghost Value = { List ℕ };

    ghost view = { λ w. drop w.at w.held.items };

    ghost invariant = { λ w. w.at ≤ length w.held.items };
}

/// Where the first line of a window ends.
#[derive(Clone, Copy)]
pub enum LineEnd {
    /// At the line feed with this place.
    Feed(usize),
    /// With the input, whose last bytes the window has.
    Input,
    /// Behind the window, which has more bytes than a line may have.
    Far,
}

/// The first line of a feed: how many bytes of the window it has, how many it takes there with its line feed, whether it is too
/// long, and how many bytes of the feed it takes.
#[derive(Clone, Copy)]
pub struct Found {
    pub size: usize,
    pub end: usize,
    pub is_long: bool,
    pub taken: u64,
}

/// The place of the first line feed.
fn line_feed(bytes: &[u8]) -> Option<usize>
    ensures { result ≡ position is_feed bytes.now }
{
    bytes.iter().position(|b| *b == b'\n')
}

/// Takes the first `n` bytes out.
fn remove_front(bytes: &mut Vec<u8>, n: usize)
    requires { n ≤ vec_len bytes.old }
    ensures { bytes.new.items ≡ drop n bytes.old.items }
{
    let len = bytes.len();
    bytes.as_mut_slice().copy_within(n..len, 0);
    bytes.truncate(len - n);
}

impl Window {
    pub fn new(alloc: Global) -> Window
        ensures { result ≡ [] }
    {
        Window {
            held: Vec::new(alloc),
            at: 0,
        }
    }

    /// The bytes.
    pub fn rest(&self) -> &[u8]
        ensures { result.now ≡ self.now }
    {
        &self.held[self.at..]
    }

    /// Passes the first `n` bytes.
    pub fn pass(&mut self, n: usize)
        requires { n ≤ length self.old }
        ensures { self.new ≡ drop n self.old }
    {
        self.at += n;
    }

    /// Appends the bytes of a piece.
    fn hold(&mut self, piece: &[u8]) -> Result<(), AllocError>
        ensures { OnOk result (self.new ≡ self.old ++ piece.now) }
    {
        if self.at > 0 {
            remove_front(&mut self.held, self.at);
            self.at = 0;
        }
        self.held.extend_from_slice(piece)
    }

    /// Appends the next bytes of the source, and gives their number: 0 at its end.
    pub fn fill<R: Source>(&mut self, src: &mut R) -> Result<usize, FeedFault>
        ensures more { IfOk result (λ n. Fills n self.old self.new (R.state src.old) (R.state src.new)) }
        ensures within { ¬ (IsErrOf result FeedFault.Overrun) }
        ensures failed { IsErrOf result FeedFault.ReadFault → SourceFails (R.state src.old) (R.state src.new) }
        ensures unsound { IsErrOf result FeedFault.ReadFault → (R.state src.old).is_sound ≡ false }
        ensures later { LaterSource (R.state src.old) (R.state src.new) }
    {
        let mut buf = [0u8; CHUNK];
        let Ok(n) = src.take(&mut buf) else {
            return Err(FeedFault::ReadFault);
        };
        self.hold(&buf[..n])?;
        Ok(n)
    }

    /// Whether there is a byte ahead.
    pub fn has_more<R: Source>(&mut self, src: &mut R) -> Result<bool, FeedFault>
        ensures more { IfOk result (λ more. TellsMore more self.old (R.state src.old)) }
        ensures within { ¬ (IsErrOf result FeedFault.Overrun) }
        ensures failed { IsErrOf result FeedFault.ReadFault → SourceFails (R.state src.old) (R.state src.new) }
        ensures unsound { IsErrOf result FeedFault.ReadFault → (R.state src.old).is_sound ≡ false }
        ensures later { LaterSource (R.state src.old) (R.state src.new) }
    {
        if !self.rest().is_empty() {
            return Ok(true);
        }
        let n = self.fill(src)?;
        Ok(n > 0)
    }

    /// Reads until it has the whole first line, or more bytes than a line may have.
    fn seek<R: Source>(&mut self, src: &mut R) -> Result<LineEnd, FeedFault>
        ensures end { IfOk result (λ end. Ends end self.new (R.state src.new)) }
        ensures ahead { OnOk result (KeepsAhead self.old self.new (R.state src.old) (R.state src.new)) }
        ensures within { ¬ (IsErrOf result FeedFault.Overrun) }
        ensures failed { IsErrOf result FeedFault.ReadFault → SourceFails (R.state src.old) (R.state src.new) }
        ensures unsound { IsErrOf result FeedFault.ReadFault → (R.state src.old).is_sound ≡ false }
        ensures later { LaterSource (R.state src.old) (R.state src.new) }
    {
        let mut seen = 0;
        'seek: while self.rest().len() <= LONGEST_LINE {
            if let Some(n) = line_feed(&self.rest()[seen..]) {
                return Ok(LineEnd::Feed(seen + n));
            }
            seen = self.rest().len();
            if self.fill(src)? == 0 {
                return Ok(LineEnd::Input);
            }
        }
        match line_feed(&self.rest()[seen..]) {
            Some(n) => Ok(LineEnd::Feed(seen + n)),
            None => Ok(LineEnd::Far),
        }
    }

    /// Passes the first line, which may be of any length, and gives the number of its bytes with the line feed. Overrun where
    /// there are more than `room` of them.
    fn skip<R: Source>(&mut self, src: &mut R, room: u64) -> Result<u64, FeedFault>
        requires room { room ≤ most_bytes }
        requires some { 0 < length self.old }
        ensures skips { IfOk result (λ n. Skips n self.old self.new (R.state src.old) (R.state src.new)) }
        ensures overrun { IsErrOf result FeedFault.Overrun → IsPast room self.old (R.state src.old) }
        ensures failed { IsErrOf result FeedFault.ReadFault → SourceFails (R.state src.old) (R.state src.new) }
        ensures unsound { IsErrOf result FeedFault.ReadFault → (R.state src.old).is_sound ≡ false }
        ensures later { LaterSource (R.state src.old) (R.state src.new) }
    {
        let mut gone = 0u64;
        'skip: while gone <= room {
            if let Some(n) = line_feed(self.rest()) {
                self.pass(n + 1);
                return Ok(gone + n as u64 + 1);
            }
            let all = self.rest().len();
            self.pass(all);
            gone += all as u64;
            if self.fill(src)? == 0 {
                return Ok(gone);
            }
        }
        Err(FeedFault::Overrun)
    }

    /// The first line, which stands at the front of the window then, unless it is too long. Overrun only where it takes more
    /// than `room` bytes.
    pub fn find<R: Source>(&mut self, src: &mut R, room: u64) -> Result<Found, FeedFault>
        requires { room ≤ most_bytes }
        ensures finds { IfOk result (λ found. Finds found self.old self.new (R.state src.old) (R.state src.new)) }
        ensures within { IfOk result (λ found. IsWithin found self.new) }
        ensures overrun { IsErrOf result FeedFault.Overrun → IsPast room self.old (R.state src.old) }
        ensures failed { IsErrOf result FeedFault.ReadFault → SourceFails (R.state src.old) (R.state src.new) }
        ensures unsound { IsErrOf result FeedFault.ReadFault → (R.state src.old).is_sound ≡ false }
        ensures later { LaterSource (R.state src.old) (R.state src.new) }
    {
        let end = self.seek(src)?;
        let all = self.rest().len();
        match end {
            LineEnd::Feed(n) => Ok(Found {
                size: n,
                end: n + 1,
                is_long: n > LONGEST_LINE,
                taken: n as u64 + 1,
            }),
            LineEnd::Input => Ok(Found {
                size: all,
                end: all,
                is_long: all > LONGEST_LINE,
                taken: all as u64,
            }),
            LineEnd::Far => {
                let taken = self.skip(src, room)?;
                Ok(Found {
                    size: 0,
                    end: 0,
                    is_long: true,
                    taken,
                })
            }
        }
    }
}
