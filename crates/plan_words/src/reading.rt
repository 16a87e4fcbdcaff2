//! Reads the command of a line that is one, by the parser.

ghost use Rattle.std.specs.Prelude.{◌≡◌, IfOk, Some, is_some, true};
ghost use Rattle.plan_words.specs.Command.{command_of};
ghost use Rattle.plan_words.specs.Line.{word_at};
ghost use Rattle.plan_words.specs.Wanted.{command_in};

use crate::command::Command;
use crate::line::Line;
use crate::parsers::{parsed, parser};
use crate::rules::{Wanted, wanted_of};
use crate::verb::Verb;
use plan_facts::{Memory, Text};
use std::alloc::Global;

/// The command of a line that is one.
pub fn read(alloc: Global, verb: Verb, line: &Line<'_>) -> Result<Command, Memory>
    requires { is_some (command_of verb line.now) ≡ true }
    ensures { IfOk result (λ command. command_of verb line.now ≡ Some command) }
{
    let first = verb.name();
    let words = line.canonical(alloc, first)?;
    let parser = parser(alloc, first)?;
    let matches = parsed(parser, &words)?;
    let found = Line::read_from(&matches);
    own(alloc, wanted_of(verb, &found).unwrap())
}

// The command that is wanted, with names of its own.
fn own(alloc: Global, wanted: Wanted<'_>) -> Result<Command, Memory>
    ensures { IfOk result (λ command. command ≡ command_in wanted.entry) }
{
    match wanted {
        Wanted::Solve {
            name,
            feed,
            workers,
            buffer,
        } => Ok(Command::Solve {
            name: text(alloc, name)?,
            feed: optional_text(alloc, feed)?,
            workers,
            buffer,
        }),
        Wanted::Replay {
            name,
            feed,
            journal,
        } => Ok(Command::Replay {
            name: text(alloc, name)?,
            feed: text(alloc, feed)?,
            journal: text(alloc, journal)?,
        }),
        Wanted::Score { name } => Ok(Command::Score {
            name: text(alloc, name)?,
        }),
        Wanted::Explain { name } => Ok(Command::Explain {
            name: text(alloc, name)?,
        }),
        Wanted::Gen { number, size } => Ok(Command::Gen { number, size }),
        Wanted::Tour {
            number,
            size,
            workers,
            buffer,
        } => Ok(Command::Tour {
            number,
            size,
            workers,
            buffer,
        }),
    }
}

fn text(alloc: Global, word: &str) -> Result<Text, Memory>
    ensures { IfOk result (λ text. text ≡ word.now) }
{
    Text::from_slice(alloc, word.as_bytes())
}

fn optional_text(alloc: Global, word: Option<&str>) -> Result<Option<Text>, Memory>
    ensures { IfOk result (λ text. text ≡ word_at word.entry) }
{
    match word {
        Some(word) => Ok(Some(text(alloc, word)?)),
        None => Ok(None),
    }
}
