ghost use Rattle.std.specs.Prelude.{◌≤◌, length};

use crate::meeting::Meeting;
use plan_ports::{Failed, Source};

/// A feed of two lines, which gives the second one once four boundaries were entered.
#[derive(Drop)]
pub struct WaitingFeed<'a> {
    meeting: &'a Meeting,
    first: &'a [u8],
    second: &'a [u8],
    has_waited: bool,
}

impl<'a> WaitingFeed<'a> {
    /// The feed of these lines.
    pub fn new(meeting: &'a Meeting, first: &'a [u8], second: &'a [u8]) -> WaitingFeed<'a> {
        WaitingFeed {
            meeting,
            first,
            second,
            has_waited: false,
        }
    }
}

/// Moves the first bytes of a text into a buffer, and gives their number and the rest.
fn moved<'a>(text: &'a [u8], buf: &mut [u8]) -> (usize, &'a [u8])
    ensures { result.0 ≤ length buf.old }
{
    let n = buf.len().min(text.len());
    buf[..n].copy_from_slice(&text[..n]);
    (n, &text[n..])
}

impl<'a> Source for WaitingFeed<'a> {
    ghost use Rattle.run_rows.specs.Untold.{untold};

    // It doesn't tell its bytes.
    ghost state = { untold };

    fn take(&mut self, buf: &mut [u8]) -> Result<usize, Failed> {
        if !self.first.is_empty() {
            let (n, rest) = moved(self.first, buf);
            self.first = rest;
            return Ok(n);
        }
        if !self.has_waited {
            self.has_waited = true;
            self.meeting.wait_for_boundaries(4);
        }
        let (n, rest) = moved(self.second, buf);
        self.second = rest;
        Ok(n)
    }
}
