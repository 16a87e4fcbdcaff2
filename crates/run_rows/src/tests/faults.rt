//! Each open, each take and each put of a run fails in turn; and feeds that are cut off.
ghost use Rattle.std.specs.Thread.{IsSync};

use super::commands::{APART, COMMANDS, Command, File, SEARCHED, SEARCHED_TEXTS, SIX_LINES};
use super::fed_rows::EMPTY;
use super::full::Full;
use super::harness::{
    Asked, Lost, Outcome, ended, filled, first_wrong, outcomes, shelf_of, solved, words_in,
};
use crate::is_front;
use itoa::Buffer;
use plan_facts::Memory;
use plan_json::Domain;
use plan_ports::NoGate;
use plan_session::{Status, run};
use shipped_domains::{Act, Shipped, with_shipped_domains};
use std::alloc::Global;
use std::sync::Wait;
use std::test::Fail;
use std::thread::Threads;

/// How many bytes a put takes.
const PUT: usize = 7;

/// A command in which a call fails, and whose text and status are due none the less.
fn asked_of(alloc: Global, command: &Command, lost: Lost, take: usize) -> Result<Asked, Memory> {
    Ok(Asked {
        words: command.words,
        problem: filled(alloc, command.problem)?,
        feed: Vec::from_slice(alloc, command.feed.as_bytes())?,
        journal: Vec::from_slice(alloc, command.journal.as_bytes())?,
        lost,
        take,
        put: PUT,
        text: filled(alloc, command.text)?,
        status: command.status,
    })
}

/// A command in which a call fails, so that this text and this status are due.
fn asked_lost(
    alloc: Global,
    command: &Command,
    lost: Lost,
    take: usize,
    text: &str,
    status: Status,
) -> Result<Asked, Memory> {
    let mut asked = asked_of(alloc, command, lost, take)?;
    asked.text = Vec::from_slice(alloc, text.as_bytes())?;
    asked.status = status;
    Ok(asked)
}

/// How many opens are tried: one more than any command makes.
const OPENS: u32 = 4;

/// The opens of a command fail in turn; one that it doesn't make is no loss.
fn asked_opens(alloc: Global, command: &Command) -> Result<Vec<Asked>, Memory> {
    let mut all = Vec::new(alloc);
    for number in 0..OPENS {
        let lost = Lost::Open(number);
        let asked = match command.reads.get(number as usize) {
            Some(file) => asked_lost(alloc, command, lost, 50, file.unopened(), file.status())?,
            None => asked_of(alloc, command, lost, 50)?,
        };
        all.push(asked)?;
    }
    Ok(all)
}

/// A command, by its number, and its first open, take or other call that doesn't fail as is due.
type Wrong = Option<(usize, usize)>;

fn wrong_open<T: Threads + Wait + Sync>(threads: &T, alloc: Global) -> Result<Wrong, Memory> {
    for (place, command) in COMMANDS.iter().enumerate() {
        let asked = asked_opens(alloc, command)?;
        if let Some(number) = first_wrong(threads, alloc, &asked)? {
            return Ok(Some((place, number)));
        }
    }
    Ok(None)
}

#[test]
fn each_open_fails_in_turn(rt: HostRuntime) -> Result<(), Fail> {
    let wrong = wrong_open(&rt, rt.alloc())?;
    assert!(rt; wrong == None, "{wrong:?}");
    Ok(())
}

/// How many takes read so many bytes, with the one that finds the end.
fn takes_of(size: usize, take: usize) -> u32 {
    let takes = size.div_ceil(take.max(1)).saturating_add(1);
    u32::try_from(takes).unwrap_or(u32::MAX)
}

/// The bytes of a file of a command.
fn size_of(alloc: Global, command: &Command, file: File) -> Result<usize, Memory> {
    Ok(match file {
        File::Problem => filled(alloc, command.problem)?.len(),
        File::Feed | File::LiveFeed => command.feed.len(),
        File::Journal => command.journal.len(),
    })
}

/// The takes of a file fail in turn, each of which gives so many bytes, and then one that isn't made. Whether there is one more
/// behind the end is left open.
fn asked_takes(
    alloc: Global,
    command: &Command,
    file: File,
    take: usize,
) -> Result<Vec<Asked>, Memory> {
    let takes = takes_of(size_of(alloc, command, file)?, take);
    let mut all = Vec::new(alloc);
    for number in 0..takes {
        let lost = Lost::Take(file.name(), number);
        let (text, status) = (file.unread(), file.status());
        all.push(asked_lost(alloc, command, lost, take, text, status)?)?;
    }
    let beyond = Lost::Take(file.name(), takes.saturating_add(1));
    all.push(asked_of(alloc, command, beyond, take)?)?;
    Ok(all)
}

/// The first take of this file that doesn't fail as is due.
fn wrong_take<T: Threads + Wait + Sync>(
    threads: &T,
    alloc: Global,
    command: &Command,
    file: File,
    take: usize,
) -> Result<Option<usize>, Memory> {
    let asked = asked_takes(alloc, command, file, take)?;
    first_wrong(threads, alloc, &asked)
}

/// The first take of a file of the command that doesn't fail as is due.
fn wrong_take_of<T: Threads + Wait + Sync>(
    threads: &T,
    alloc: Global,
    command: &Command,
) -> Result<Option<usize>, Memory> {
    for file in command.reads {
        let wrong = wrong_take(threads, alloc, command, *file, 3)?;
        if wrong.is_some() {
            return Ok(wrong);
        }
    }
    Ok(None)
}

fn any_wrong_take<T: Threads + Wait + Sync>(threads: &T, alloc: Global) -> Result<Wrong, Memory> {
    for (place, command) in COMMANDS.iter().enumerate() {
        if let Some(number) = wrong_take_of(threads, alloc, command)? {
            return Ok(Some((place, number)));
        }
    }
    Ok(None)
}

#[test]
fn each_take_fails_in_turn(rt: HostRuntime) -> Result<(), Fail> {
    let wrong = any_wrong_take(&rt, rt.alloc())?;
    assert!(rt; wrong == None, "{wrong:?}");
    Ok(())
}

#[test]
fn each_byte_of_a_problem_may_be_the_last_that_is_read(rt: HostRuntime) -> Result<(), Fail> {
    let wrong = wrong_take(&rt, rt.alloc(), &APART, File::Problem, 1)?;
    assert!(rt; wrong == None, "{wrong:?}");
    Ok(())
}

/// How many puts a text takes at most, whose lines are put one by one.
fn puts_of(text: &[u8]) -> u32 {
    let mut puts = text.len().div_ceil(PUT);
    for byte in text {
        if *byte == b'\n' {
            puts = puts.saturating_add(1);
        }
    }
    u32::try_from(puts).unwrap_or(u32::MAX)
}

/// How many runs a failing put ended.
fn unwritten(outcomes: &[Outcome]) -> usize {
    let mut count = 0usize;
    for outcome in outcomes {
        if outcome.status == Status::Write {
            count = count.saturating_add(1);
        }
    }
    count
}

/// Whether a run wrote a front of the text, whose put of this number failed: each put before wrote something.
fn is_front_of(outcome: &Outcome, number: usize, text: &[u8]) -> bool {
    let written = outcome.text.len();
    outcome.status == Status::Write
        && outcome.lent == 0
        && is_front(&outcome.text, text)
        && number <= written
        && written <= number.saturating_mul(PUT)
}

/// The first of these runs that doesn't end as is due, whose puts failed in turn.
fn wrong_put(outcomes: &[Outcome], text: &[u8], status: Status) -> Option<usize> {
    let puts = unwritten(outcomes);
    if puts < text.len().div_ceil(PUT) || outcomes.len() <= puts {
        return Some(puts);
    }
    for (number, outcome) in outcomes.iter().enumerate() {
        let is_due = if number < puts {
            is_front_of(outcome, number, text)
        } else {
            ended(outcome, text, status)
        };
        if !is_due {
            return Some(number);
        }
    }
    None
}

/// The puts of a command that writes this text fail in turn, and then one that isn't made.
fn asked_puts(alloc: Global, command: &Command, puts: u32) -> Result<Vec<Asked>, Memory> {
    let mut all = Vec::new(alloc);
    for number in 0..=puts {
        all.push(asked_of(alloc, command, Lost::Put(number), 50)?)?;
    }
    Ok(all)
}

fn wrong_put_of<T: Threads + Wait + Sync>(
    threads: &T,
    alloc: Global,
    command: &Command,
) -> Result<Option<usize>, Memory> {
    let text = filled(alloc, command.text)?;
    let asked = asked_puts(alloc, command, puts_of(&text))?;
    let outcomes = outcomes(threads, alloc, &asked)?;
    Ok(wrong_put(&outcomes, &text, command.status))
}

fn any_wrong_put<T: Threads + Wait + Sync>(threads: &T, alloc: Global) -> Result<Wrong, Memory> {
    for (place, command) in COMMANDS.iter().enumerate() {
        if let Some(number) = wrong_put_of(threads, alloc, command)? {
            return Ok(Some((place, number)));
        }
    }
    Ok(None)
}

#[test]
fn each_put_fails_in_turn(rt: HostRuntime) -> Result<(), Fail> {
    let wrong = any_wrong_put(&rt, rt.alloc())?;
    assert!(rt; wrong == None, "{wrong:?}");
    Ok(())
}

/// A command over a sink that takes nothing of what it is given.
#[derive(Drop)]
struct Stalled<'a, T> {
    threads: &'a T,
    alloc: Global,
    asked: &'a Asked,
}

impl<'a, T: Threads + Wait + Sync> Act for Stalled<'a, T> {
    type Answer = Result<Status, Memory>;

    // The threads may be shared.
    ghost is_ready = { λ _. IsSync T.row };

    ghost answers = { λ _ _ _. Unit };

    fn act(self, domains: &[Domain<Shipped>]) -> Result<Status, Memory> {
        let words = words_in(self.alloc, self.asked.words)?;
        let mut shelf = shelf_of(self.alloc, self.asked)?;
        let mut out = Full::new();
        Ok(run(
            self.threads,
            self.alloc,
            &words,
            &mut shelf,
            &mut out,
            &NoGate,
            domains,
        ))
    }
}

/// How a command ends over a sink that takes nothing.
fn end_stalled<T: Threads + Wait + Sync>(
    threads: &T,
    alloc: Global,
    command: &Command,
) -> Result<Status, Memory> {
    let asked = asked_of(alloc, command, Lost::Nothing, 50)?;
    let stalled = Stalled {
        threads,
        alloc,
        asked: &asked,
    };
    with_shipped_domains(alloc, stalled)?
}

/// The first command that ends otherwise over a sink that takes nothing than where a put fails.
fn wrong_stall<T: Threads + Wait + Sync>(
    threads: &T,
    alloc: Global,
) -> Result<Option<usize>, Memory> {
    for (place, command) in COMMANDS.iter().enumerate() {
        if end_stalled(threads, alloc, command)? != Status::Write {
            return Ok(Some(place));
        }
    }
    Ok(None)
}

#[test]
fn a_sink_that_takes_nothing_ends_the_run(rt: HostRuntime) -> Result<(), Fail> {
    let wrong = wrong_stall(&rt, rt.alloc())?;
    assert!(rt; wrong == None, "{wrong:?}");
    Ok(())
}

/// A feed that was cut off, and the lines that tell what became of its lines.
#[derive(Drop)]
struct Cut {
    feed: Vec<u8>,
    told: Vec<u8>,
}

/// The line that tells what became of a line of the feed.
fn push_told(told: &mut Vec<u8>, line: usize, words: &str) -> Result<(), Memory> {
    told.extend_from_slice(b"change ")?;
    told.extend_from_slice(Buffer::new().format(line).as_bytes())?;
    told.extend_from_slice(b" 0 ")?;
    told.extend_from_slice(words.as_bytes())?;
    told.push(b'\n')?;
    Ok(())
}

/// The feed of six lines, cut off behind so many bytes. A part of a line is no JSON.
fn cut_behind(alloc: Global, bytes: usize) -> Result<Cut, Memory> {
    let mut feed = Vec::new(alloc);
    let mut told = Vec::new(alloc);
    let mut left = bytes;
    for (place, (line, words)) in SIX_LINES.iter().enumerate() {
        if left == 0 {
            break;
        }
        if left < line.len() {
            feed.extend_from_slice(line.as_bytes().get(..left).unwrap_or(b""))?;
            push_told(&mut told, place.saturating_add(1), "refused syntax json")?;
            break;
        }
        feed.extend_from_slice(line.as_bytes())?;
        push_told(&mut told, place.saturating_add(1), words)?;
        if left > line.len() {
            feed.push(b'\n')?;
        }
        left = left.saturating_sub(line.len().saturating_add(1));
    }
    Ok(Cut { feed, told })
}

/// How many bytes the feed of six lines has, each with its line feed.
fn bytes_of_six() -> usize {
    let mut bytes = 0usize;
    for (line, _) in SIX_LINES {
        bytes = bytes.saturating_add(line.len()).saturating_add(1);
    }
    bytes
}

/// The text of a run of no steps that takes the lines of a feed that was cut off.
fn cut_text(alloc: Global, told: &[u8]) -> Result<Vec<u8>, Memory> {
    let mut text = Vec::from_slice(alloc, b"run timetable\nleg 0\n")?;
    text.extend_from_slice(told)?;
    text.extend_from_slice(&filled(alloc, "start <Z>\nbest <Z>\n<TZ>\nend\n")?)?;
    Ok(text)
}

/// The run whose feed is cut off behind so many bytes.
fn asked_cut(alloc: Global, bytes: usize) -> Result<Asked, Memory> {
    let Cut { feed, told } = cut_behind(alloc, bytes)?;
    let mut asked = solved(alloc, filled(alloc, EMPTY)?);
    asked.words = "solve p --feed f";
    asked.feed = feed;
    asked.take = 3;
    asked.text = cut_text(alloc, &told)?;
    Ok(asked)
}

fn all_cuts(alloc: Global) -> Result<Vec<Asked>, Memory> {
    let mut all = Vec::new(alloc);
    for bytes in 0..=bytes_of_six() {
        all.push(asked_cut(alloc, bytes)?)?;
    }
    Ok(all)
}

#[test]
fn a_feed_that_is_cut_off_has_the_lines_that_are_left(rt: HostRuntime) -> Result<(), Fail> {
    let asked = all_cuts(rt.alloc())?;
    let wrong = first_wrong(&rt, rt.alloc(), &asked)?;
    assert!(rt; wrong == None, "cut behind {wrong:?}");
    Ok(())
}

/// Whether a run may have written this: a front of a text that it may have, or the whole of it where it ended well.
fn may_be(outcome: &Outcome, text: &[u8]) -> bool {
    is_front(&outcome.text, text)
        && (outcome.status != Status::Ok || outcome.text.len() == text.len())
}

/// The run of two steps wrote a front of one of its texts.
fn is_searched(alloc: Global, outcome: &Outcome) -> Result<bool, Memory> {
    for text in SEARCHED_TEXTS {
        if may_be(outcome, &filled(alloc, text)?) {
            return Ok(true);
        }
    }
    Ok(false)
}

/// Whether a run of two steps ended as it may, the call of whose number was to fail: with this status, or well where the
/// call has not one of the first numbers, so many of them.
fn ends_as_it_may(outcome: &Outcome, number: usize, status: Status, least: usize) -> bool {
    let is_well = outcome.status == Status::Ok && least <= number;
    outcome.lent == 0 && (outcome.status == status || is_well)
}

/// The first of these runs of two steps that doesn't end as it may, or didn't write what it may.
fn wrong_search(
    alloc: Global,
    outcomes: &[Outcome],
    status: Status,
    least: usize,
) -> Result<Option<usize>, Memory> {
    for (number, outcome) in outcomes.iter().enumerate() {
        if !ends_as_it_may(outcome, number, status, least) || !is_searched(alloc, outcome)? {
            return Ok(Some(number));
        }
    }
    Ok(None)
}

/// The takes of the feed of two steps fail in turn, and two more.
fn searched_takes(alloc: Global, takes: u32) -> Result<Vec<Asked>, Memory> {
    let mut all = Vec::new(alloc);
    for number in 0..takes.saturating_add(2) {
        all.push(asked_of(alloc, &SEARCHED, Lost::Take(b'f', number), 3)?)?;
    }
    Ok(all)
}

#[test]
fn a_search_may_lose_its_feed_at_each_take(rt: HostRuntime) -> Result<(), Fail> {
    let takes = takes_of(SEARCHED.feed.len(), 3);
    let asked = searched_takes(rt.alloc(), takes)?;
    let outcomes = outcomes(&rt, rt.alloc(), &asked)?;
    let wrong = wrong_search(rt.alloc(), &outcomes, Status::Feed, takes as usize)?;
    assert!(rt; wrong == None, "{wrong:?}");
    Ok(())
}

#[test]
fn a_search_may_lose_its_sink_at_each_put(rt: HostRuntime) -> Result<(), Fail> {
    let text = filled(rt.alloc(), SEARCHED.text)?;
    let asked = asked_puts(rt.alloc(), &SEARCHED, puts_of(&text).saturating_add(20))?;
    let outcomes = outcomes(&rt, rt.alloc(), &asked)?;
    let least = text.len().div_ceil(PUT);
    let wrong = wrong_search(rt.alloc(), &outcomes, Status::Write, least)?;
    assert!(rt; wrong == None, "{wrong:?}");
    Ok(())
}
