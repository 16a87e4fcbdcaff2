//! The lines of sources that give their bytes in pieces.

ghost use Rattle.std.specs.Prelude.{◌<◌};

use crate::tests::sources::{NEVER, source};
use feed_lines::{FeedFault, Lines};
use plan_ports::MemSource;
use std::alloc::{AllocError, Global};

/// So many of one byte, and the bytes behind them; how many bytes a take gives, in three tries; the
/// take that fails; how many lines come, and these, each with a bar behind it. Before them come as
/// many empty lines as there are line feeds in front.
type Case = (
    (usize, u8),
    &'static [u8],
    [usize; 3],
    u32,
    u32,
    &'static [u8],
);

const NONE: (usize, u8) = (0, b'x');

const SMALL: [usize; 3] = [1, 3, 100];

const LARGE: [usize; 3] = [1, 8192, 100_000];

const EMPTY_LINES: (usize, u8) = (4_096, b'\n');

const CASES: [Case; 15] = [
    (NONE, b"", SMALL, NEVER, 0, b"(end)|"),
    (NONE, b"\n", SMALL, NEVER, 1, b"|(end)|"),
    (NONE, b"a", SMALL, NEVER, 1, b"a|(end)|"),
    (NONE, b"a\n", SMALL, NEVER, 1, b"a|(end)|"),
    (NONE, b"one\ntwo\n", SMALL, NEVER, 2, b"one|two|(end)|"),
    (NONE, b"one\n\n\ntwo", SMALL, NEVER, 4, b"one|||two|(end)|"),
    (
        NONE,
        b"one\r\n\r\ntwo\r",
        SMALL,
        NEVER,
        3,
        b"one\r|\r|two\r|(end)|",
    ),
    (NONE, b"\xff\n\x00\n", SMALL, NEVER, 2, b"\xff|\x00|(end)|"),
    (
        (65_536, b'x'),
        b"\nab",
        LARGE,
        NEVER,
        2,
        b"(65536 bytes)|ab|(end)|",
    ),
    (
        (65_537, b'x'),
        b"\nab",
        LARGE,
        NEVER,
        2,
        b"(long)|ab|(end)|",
    ),
    (
        (1_000_000, b'x'),
        b"\nab",
        [8192; 3],
        NEVER,
        2,
        b"(long)|ab|(end)|",
    ),
    (EMPTY_LINES, b"", [1_000; 3], NEVER, 4_096, b"(end)|"),
    (EMPTY_LINES, b"\n", [1_000; 3], NEVER, 4_096, b"(overrun)|"),
    (EMPTY_LINES, b"x", [1_000; 3], NEVER, 4_096, b"(overrun)|"),
    (NONE, b"one\ntwo\n", [3; 3], 2, 1, b"one|(fault)|"),
];

/// The next line, or a word in its place for a very long one and for none.
fn next_of<'a>(lines: &'a mut Lines, src: &mut MemSource) -> &'a [u8] {
    match lines.advance(src) {
        Ok(true) => match lines.line() {
            Some(line) if line.len() == 65_536 => b"(65536 bytes)",
            Some(line) => line,
            None => b"(long)",
        },
        Ok(false) => b"(end)",
        Err(FeedFault::Overrun) => b"(overrun)",
        Err(FeedFault::ReadFault) => b"(fault)",
        Err(FeedFault::Memory) => b"(memory)",
    }
}

/// Whether so many empty lines come next.
fn are_empty(lines: &mut Lines, src: &mut MemSource, count: usize) -> bool {
    for _ in 0..count {
        if !next_of(lines, src).is_empty() {
            return false;
        }
    }
    true
}

/// Whether the lines of the text come next, at most five; nothing where others do.
fn come_next(lines: &mut Lines, src: &mut MemSource, text: &[u8]) -> Option<bool> {
    let mut left = text;
    for _ in 0..5 {
        if left.is_empty() {
            return Some(true);
        }
        left = left
            .strip_prefix(next_of(lines, src))?
            .strip_prefix(b"|".as_slice())?;
    }
    Some(left.is_empty())
}

/// Whether the source has the lines of the case.
fn has_lines(lines: &mut Lines, src: &mut MemSource, case: &Case) -> bool {
    let ((front, byte), _, _, fail, count, text) = *case;
    let empty = if byte == b'\n' { front } else { 0 };
    are_empty(lines, src, empty)
        && come_next(lines, src, text) == Some(true)
        && lines.count() == count
        && src.faults() == u64::from(fail != NEVER)
}

/// Whether the bytes of the case have its lines in one of the tries.
fn is_split(alloc: Global, case: &Case, number: usize) -> Result<bool, AllocError>
    requires { number < 3 }
{
    let (front, rest, tries, fail, _, _) = *case;
    let mut src = source(alloc, front, rest, tries[number], &[fail])?;
    Ok(has_lines(&mut Lines::new(alloc), &mut src, case))
}

#[test]
fn splits_at_line_feeds_however_the_bytes_come(rt: HostRuntime) {
    for i in 0..3 * CASES.len() {
        assert!(rt; matches!(is_split(rt.alloc(), &CASES[i / 3], i % 3), Ok(true)));
    }
}
