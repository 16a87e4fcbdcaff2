ghost use Rattle.std.specs.Prelude.{◌≡◌};
ghost use Rattle.plan_session.specs.Status.{number_of};

/// How a run ended.
#[derive(Clone, Copy, Debug, PartialEq, Eq)]
pub enum Status {
    /// The whole text was written.
    Ok,
    /// Want of memory.
    Memory,
    /// The words are no command.
    Usage,
    /// The problem, or the journal, couldn't be opened or read.
    Source,
    /// The problem's bytes are refused.
    Problem,
    /// The feed couldn't be opened or read.
    Feed,
    /// The text couldn't be written.
    Write,
    /// The journal doesn't name a boundary for each line of the feed.
    Journal,
    /// The feed has too many lines or bytes.
    FeedTooLong,
}

impl Status {
    /// The number that the program ends with, from 0 to 8.
    pub fn number(&self) -> u8
        ensures { result ≡ number_of self.now }
    {
        match self {
            Status::Ok => 0,
            Status::Memory => 1,
            Status::Usage => 2,
            Status::Source => 3,
            Status::Problem => 4,
            Status::Feed => 5,
            Status::Write => 6,
            Status::Journal => 7,
            Status::FeedTooLong => 8,
        }
    }
}
