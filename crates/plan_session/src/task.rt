ghost use Rattle.std.specs.Prelude.{◌≡◌, IfOk, IfSome, option_map};
ghost use Rattle.plan_words.specs.Command.{IsSized};
ghost use Rattle.plan_session.specs.Task.{IsFit, IsTimely, fed_by, task, task_of};

use crate::searching::Hands;
use plan_facts::{Memory, Text};
use plan_words::Command;
use std::alloc::Global;

/// What a command wants of a problem.
#[derive(Clone, Copy, Debug, PartialEq, Eq)]
pub enum Wanted {
    /// Its plan placed and searched by so many workers, with each line of the run.
    Solution(Hands),
    /// The score of its plan as read.
    Score,
    /// The score of its plan as read, each match, and the facts that are parts of matches.
    Explanation,
    /// The sum of a run by so many workers, where it is the generated problem of this number and size.
    Tour {
        number: u32,
        size: u32,
        hands: Hands,
    },
}

/// At which boundaries a run takes the lines of its feed.
#[derive(Debug, Drop)]
pub enum Timing {
    /// As they come, while so many workers search.
    Live(Hands),
    /// As the journal of this name says.
    Journal(Text),
}

/// The names of the files of a run with a feed, its problem and its feed, and when it takes the lines.
#[derive(Debug, Drop)]
pub struct Files {
    pub name: Text,
    pub feed: Text,
    pub timing: Timing,
}

/// The name of the problem that a command reads, and what it wants of it; none for a command that reads none, or that reads
/// other files too.
pub fn task_of(command: &Command) -> Option<(&[u8], Wanted)>
    requires sized { IsSized command.now }
    ensures task { option_map (λ asked. task asked.0.now asked.1) result ≡ task_of command.now }
    ensures fit { IfSome result (λ asked. IsFit asked.1) }
{
    match command {
        Command::Solve {
            name,
            feed: None,
            workers,
            buffer,
        } => {
            let hands = Hands {
                workers: *workers,
                buffer: *buffer,
            };
            Some((name.as_slice(), Wanted::Solution(hands)))
        }
        Command::Score { name } => Some((name.as_slice(), Wanted::Score)),
        Command::Explain { name } => Some((name.as_slice(), Wanted::Explanation)),
        _ => None,
    }
}

/// The files of the run with a feed that a command asks for; none for another command.
pub fn files_of(alloc: Global, command: &Command) -> Result<Option<Files>, Memory>
    requires sized { IsSized command.now }
    ensures files { IfOk result (λ files. files ≡ fed_by command.now) }
    ensures fit { IfOk result (λ files. IfSome files (λ one. IsTimely one.timing)) }
{
    match command {
        Command::Replay {
            name,
            feed,
            journal,
        } => Ok(Some(Files {
            name: name.copy(alloc)?,
            feed: feed.copy(alloc)?,
            timing: Timing::Journal(journal.copy(alloc)?),
        })),
        Command::Solve {
            name,
            feed: Some(feed),
            workers,
            buffer,
        } => Ok(Some(Files {
            name: name.copy(alloc)?,
            feed: feed.copy(alloc)?,
            timing: Timing::Live(Hands {
                workers: *workers,
                buffer: *buffer,
            }),
        })),
        _ => Ok(None),
    }
}
