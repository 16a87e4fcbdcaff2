ghost use Rattle.std.specs.Prelude.{◌≡◌};
ghost use Rattle.plan_words.specs.declared.command.WordFault.TheVariants as WordFault;

use plan_facts::{Memory, Text};

/// A command of the program. A name is UTF-8 and isn't empty; at most one of a command's names is
/// `@`, which is standard input.
#[derive(Debug, Drop)]
pub enum Command {
    /// Solves a problem, with the changes of a feed where there is one, by 1 to 16 workers that
    /// judge up to `buffer` candidates at a time, 1 to 1,024.
    Solve {
        name: Text,
        feed: Option<Text>,
        workers: u32,
        buffer: u32,
    },
    /// Solves a problem with a feed again, as a journal tells.
    Replay {
        name: Text,
        feed: Text,
        journal: Text,
    },
    /// Scores the plan of a problem.
    Score {
        name: Text,
    },
    /// Scores the plan of a problem, and says why.
    Explain {
        name: Text,
    },
    /// Writes the generated problem of a number and a size, 1 to 10,000.
    Gen {
        number: u32,
        size: u32,
    },
    /// Solves the generated problem of a number and a size, and sums up the run.
    Tour {
        number: u32,
        size: u32,
        workers: u32,
        buffer: u32,
    },
}

/// Why words are no command.
#[derive(Clone, Copy, Debug, PartialEq, Eq)]
pub enum WordFault {
    /// Want of memory.
    Memory,
    /// The words are no command.
    Usage,
}

impl From<Memory> for WordFault {
    ghost from_gives = { λ _ fault. fault ≡ WordFault.Memory };

    fn from(_: Memory) -> Self {
        WordFault::Memory
    }
}
