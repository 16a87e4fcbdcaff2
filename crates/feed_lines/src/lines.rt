ghost use Rattle.std.specs.Prelude.{◌≡◌, ◌≤◌, false, option_map, IfOk, IsErrOf};
ghost use Rattle.plan_ports.specs.Outside.{LaterSource, SourceFails};
ghost use Rattle.feed_lines.specs.Limits.{most_lines};
ghost use Rattle.feed_lines.specs.Reading.{fresh_lines, Advances, Overruns, count_after};

use crate::fault::FeedFault;
use crate::window::{Found, Window};
use plan_ports::Source;
use std::alloc::Global;
use std::marker::Model;

/// The most bytes of a line, without its line feed.
pub const LONGEST_LINE: usize = 65_536;

/// The most lines of a feed.
pub const MOST_LINES: u32 = 4_096;

/// The most bytes of a feed.
pub const MOST_BYTES: u64 = 1 << 30;

/// Nothing found yet.
const NOTHING: Found = Found {
    size: 0,
    end: 0,
    is_long: false,
    taken: 0,
};

/// Reads the lines of a feed one after another: the parts that end in a line feed, and what stands behind the last one, unless
/// that is empty.
#[derive(Drop)]
pub struct Lines {
    window: Window,
    found: Found,
    count: u32,
    passed: u64,
}

impl Model for Lines {
    ghost use Rattle.std.specs.Prelude.{◌≤◌, drop};
    ghost use Rattle.feed_lines.specs.Limits.{most_lines, most_bytes};
    ghost use Rattle.feed_lines.specs.Windows.{found_line, IsWithin};
    ghost use Rattle.feed_lines.specs.Reading.{LinesView, view_of};

    ghost Value = { LinesView };

    ghost view = { λ l. view_of (found_line l.found l.window) (drop l.found.end l.window) l.count l.passed };

    ghost invariant = { λ l. IsWithin l.found l.window × (l.count ≤ most_lines) × (l.passed ≤ most_bytes) };
}

impl Lines {
    /// A reader that has read nothing.
    pub fn new(alloc: Global) -> Lines
        ensures { result ≡ fresh_lines }
    {
        Lines {
            window: Window::new(alloc),
            found: NOTHING,
            count: 0,
            passed: 0,
        }
    }

    /// How many lines were given.
    pub fn count(&self) -> u32
        ensures count { result ≡ self.now.count }
        ensures few { result ≤ most_lines }
    {
        self.count
    }

    /// The line that was given last, without its line feed; none where it has more than 65,536 bytes.
    pub fn line(&self) -> Option<&[u8]>
        ensures { option_map (λ line. line.now) result ≡ self.now.line }
    {
        if self.found.is_long {
            None
        } else {
            Some(&self.window.rest()[..self.found.size])
        }
    }

    /// Gives the next line of the source, which `line` shows then; no at the end of the input. Overrun exactly where the next
    /// line would be the 4,097th, or doesn't end within the first 2^30 bytes; after it, as after a fault of the source, nothing
    /// further is told of the lines.
    pub fn advance<R: Source>(&mut self, src: &mut R) -> Result<bool, FeedFault>
        ensures next { IfOk result (λ more. Advances more self.old self.new (R.state src.old) (R.state src.new)) }
        ensures count { IfOk result (λ more. self.new.count ≡ count_after more self.old.count) }
        ensures overrun { IsErrOf result FeedFault.Overrun → Overruns self.old (R.state src.old) }
        ensures failed { IsErrOf result FeedFault.ReadFault → SourceFails (R.state src.old) (R.state src.new) }
        ensures unsound { IsErrOf result FeedFault.ReadFault → (R.state src.old).is_sound ≡ false }
        ensures later { LaterSource (R.state src.old) (R.state src.new) }
    {
        self.window.pass(self.found.end);
        self.found = NOTHING;
        if self.count == MOST_LINES {
            if self.window.has_more(src)? {
                return Err(FeedFault::Overrun);
            }
            return Ok(false);
        }
        let room = MOST_BYTES - self.passed;
        let found = self.window.find(src, room)?;
        if found.taken == 0 {
            return Ok(false);
        }
        if found.taken > room {
            return Err(FeedFault::Overrun);
        }
        self.found = found;
        self.count += 1;
        self.passed += found.taken;
        Ok(true)
    }
}
