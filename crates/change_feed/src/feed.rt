ghost use Rattle.std.specs.Prelude.{◌≡◌, ◌≤◌, true, false, is_none, IfOk, IfSome, OnErr, IsErrOf};
ghost use Rattle.plan_ports.specs.Outside.{LaterSource, SourceFails};
ghost use Rattle.feed_lines.specs.Limits.{most_lines};
ghost use Rattle.change_feed.specs.Bodies.{line_body};
ghost use Rattle.change_feed.specs.Feeds.{fresh_feed, Posts, Overruns, IsLine};

use crate::line::body_of;
use feed_lines::{FeedFault, Lines};
use plan_changes::{Body, LineFault, Post};
use plan_facts::Memory;
use plan_ports::Source;
use std::alloc::Global;
use std::marker::Model;

/// A feed of changes, one a line.
#[derive(Drop)]
pub struct Feed {
    alloc: Global,
    lines: Lines,
    ended: bool,
}

impl Model for Feed {
    ghost use Rattle.change_feed.specs.Feeds.{FeedView};

    ghost Value = { FeedView };

    ghost view = { λ f. record { lines = f.lines; ended = f.ended } };
}

impl Feed {
    /// A feed of which nothing was read.
    pub fn new(alloc: Global) -> Feed
        ensures { result ≡ fresh_feed }
    {
        Feed {
            alloc,
            lines: Lines::new(alloc),
            ended: false,
        }
    }

    /// Whether no line was left, or a line couldn't be read.
    pub fn ended(&self) -> bool
        ensures { result ≡ self.now.ended }
    {
        self.ended
    }

    /// The next line of the source, by its number from 1: a change or the first fault of the line. None exactly at the end of
    /// the input. Each line is given once and in order, however the source gives its bytes. Memory; ReadFault only where the
    /// source counted a fault; Overrun exactly where the next line would be the 4,097th, or doesn't end within the first 2^30
    /// bytes. None and each fault end the feed.
    pub fn next_line<R: Source>(&mut self, src: &mut R) -> Result<Option<Post>, FeedFault>
        requires { self.old.ended ≡ false }
        ensures next { IfOk result (λ post. Posts post self.old self.new (R.state src.old) (R.state src.new)) }
        ensures line { IfOk result (λ post. IfSome post (λ line. IsLine line self.old self.new)) }
        ensures few { IfOk result (λ post. IfSome post (λ line. line.line ≤ most_lines)) }
        ensures ended { IfOk result (λ post. self.new.ended ≡ is_none post) }
        ensures stopped { OnErr result (self.new.ended ≡ true) }
        ensures overrun { IsErrOf result FeedFault.Overrun → Overruns self.old (R.state src.old) }
        ensures failed { IsErrOf result FeedFault.ReadFault → SourceFails (R.state src.old) (R.state src.new) }
        ensures unsound { IsErrOf result FeedFault.ReadFault → (R.state src.old).is_sound ≡ false }
        ensures later { LaterSource (R.state src.old) (R.state src.new) }
    {
        self.ended = true;
        if !self.lines.advance(src)? {
            return Ok(None);
        }
        let Ok(body) = given_body(self.alloc, &self.lines) else {
            return Err(FeedFault::Memory);
        };
        self.ended = false;
        Ok(Some(Post {
            line: self.lines.count(),
            body,
        }))
    }
}

/// The line that was given last, as it is read.
fn given_body(alloc: Global, lines: &Lines) -> Result<Body, Memory>
    ensures { IfOk result (λ body. body ≡ line_body lines.now.line) }
{
    match lines.line() {
        Some(line) => body_of(alloc, line),
        None => Ok(Body::Bad(LineFault::LongLine)),
    }
}
