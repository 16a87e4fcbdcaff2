//! What a command wants of a line: its positional words, its options and their values.

ghost use Rattle.std.specs.Prelude.{◌≡◌, ◌&&◌, is_none, is_some, IfSome, IfNone, None, true, ◌-◌, ◌^◌, ◌∷◌, option_map, option_to_list};
ghost use Rattle.plan_words.specs.Command.{command, command_of, solve, replay, only_name, number_and_size, gen, tour, workers_of, buffer_of, has_no_option};
ghost use Rattle.plan_words.specs.Line.{word_at};
ghost use Rattle.plan_words.specs.Values.{are_names};
ghost use Rattle.plan_words.specs.Wanted.{command_in};

use crate::line::Line;
use crate::values::{are_names, number_in, number_or};
use crate::verb::Verb;
use plan_facts::Text;

/// What a command wants, as words that are borrowed from its line.
#[derive(Clone, Copy)]
pub enum Wanted<'a> {
    Solve {
        name: &'a str,
        feed: Option<&'a str>,
        workers: u32,
        buffer: u32,
    },
    Replay {
        name: &'a str,
        feed: &'a str,
        journal: &'a str,
    },
    Score {
        name: &'a str,
    },
    Explain {
        name: &'a str,
    },
    Gen {
        number: u32,
        size: u32,
    },
    Tour {
        number: u32,
        size: u32,
        workers: u32,
        buffer: u32,
    },
}

/// The verb and the line of words that are a command; none where they are none.
pub fn accepted<'a>(words: &'a [Text]) -> Option<(Verb, Line<'a>)>
    ensures some { IfSome result (λ (v, line). command words.now ≡ command_of v line) }
    ensures is_command { IfSome result (λ (v, line). is_some (command_of v line) ≡ true) }
    ensures none { IfNone result (command words.now ≡ None) }
{
    let (first, others) = words.split_first()?;
    let verb = Verb::of(first.as_slice())?;
    let line = Line::of(others)?;
    if wanted_of(verb, &line).is_some() {
        Some((verb, line))
    } else {
        None
    }
}

/// What a command that begins so wants of the line; none where the line is no such command.
pub fn wanted_of<'a>(verb: Verb, line: &Line<'a>) -> Option<Wanted<'a>>
    ensures { option_map command_in result ≡ command_of verb line.now }
{
    match verb {
        Verb::Solve => solve(line),
        Verb::Replay => replay(line),
        Verb::Score => Some(Wanted::Score {
            name: only_name(line)?,
        }),
        Verb::Explain => Some(Wanted::Explain {
            name: only_name(line)?,
        }),
        Verb::Gen => generate(line),
        Verb::Tour => tour(line),
    }
}

fn solve<'a>(line: &Line<'a>) -> Option<Wanted<'a>>
    ensures { option_map command_in result ≡ solve line.now }
{
    let name = line.one()?;
    let workers = workers(line)?;
    let buffer = buffer(line)?;
    let feed = line.feed();
    if is_name_with_feed(name, feed) && line.journal().is_none() {
        Some(Wanted::Solve {
            name,
            feed,
            workers,
            buffer,
        })
    } else {
        None
    }
}

fn replay<'a>(line: &Line<'a>) -> Option<Wanted<'a>>
    ensures { option_map command_in result ≡ replay line.now }
{
    let name = line.one()?;
    let feed = line.feed()?;
    let journal = line.journal()?;
    if are_names(&[name, feed, journal]) && has_no_numbers(line) {
        Some(Wanted::Replay {
            name,
            feed,
            journal,
        })
    } else {
        None
    }
}

// The name of a line that has nothing else.
fn only_name<'a>(line: &Line<'a>) -> Option<&'a str>
    ensures { word_at result ≡ only_name line.now }
{
    let name = line.one()?;
    if are_names(&[name]) && has_no_option(line) {
        Some(name)
    } else {
        None
    }
}

fn generate<'a>(line: &Line<'a>) -> Option<Wanted<'a>>
    ensures { option_map command_in result ≡ gen line.now }
{
    let (number, size) = number_and_size(line)?;
    if has_no_option(line) {
        Some(Wanted::Gen { number, size })
    } else {
        None
    }
}

fn tour<'a>(line: &Line<'a>) -> Option<Wanted<'a>>
    ensures { option_map command_in result ≡ tour line.now }
{
    let (number, size) = number_and_size(line)?;
    let workers = workers(line)?;
    let buffer = buffer(line)?;
    if line.feed().is_none() && line.journal().is_none() {
        Some(Wanted::Tour {
            number,
            size,
            workers,
            buffer,
        })
    } else {
        None
    }
}

// The number and the size of a generated problem, which the positional words are.
fn number_and_size(line: &Line<'_>) -> Option<(u32, u32)>
    ensures { result ≡ number_and_size line.now }
{
    let (number, size) = line.two()?;
    let number = number_in(0, u32::MAX, number)?;
    let size = number_in(1, 10_000, size)?;
    Some((number, size))
}

fn is_name_with_feed(name: &str, feed: Option<&str>) -> bool
    ensures { result ≡ are_names (name.now ∷ option_to_list (word_at feed.entry)) }
{
    match feed {
        Some(feed) => are_names(&[name, feed]),
        None => are_names(&[name]),
    }
}

// The number of workers that the line asks for, 1 where it doesn't say.
fn workers(line: &Line<'_>) -> Option<u32>
    ensures { result ≡ workers_of line.now }
{
    number_or(1, 1, 16, line.workers())
}

// The size of the buffer that the line asks for, 64 where it doesn't say.
fn buffer(line: &Line<'_>) -> Option<u32>
    ensures { result ≡ buffer_of line.now }
{
    number_or(64, 1, 1024, line.buffer())
}

// Whether the line says neither workers nor buffer.
fn has_no_numbers(line: &Line<'_>) -> bool
    ensures { result ≡ (is_none line.now.workers && is_none line.now.buffer) }
{
    line.workers().is_none() && line.buffer().is_none()
}

fn has_no_option(line: &Line<'_>) -> bool
    ensures { result ≡ has_no_option line.now }
{
    line.feed().is_none() && line.journal().is_none() && has_no_numbers(line)
}
