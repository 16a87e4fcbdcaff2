//! Sources, sinks, shelves and gates, in memory and real.

ghost use Rattle.std.specs.Prelude.{◌≤◌, IfOk, [], true};
ghost use Rattle.plan_ports.specs.InMemory.{EachGives};

use crate::tests::sources::{NEVER, source};
use plan_facts::Memory;
use plan_ports::{
    FileShelf, Gate, MemFile, MemShelf, MemSink, MemSource, NoGate, OutSink, Place, PortFault,
    ReadFault, Shelf, Sink, Source, put_all, read_all,
};
use std::alloc::{AllocError, Global};
use std::fmt::Display;
use std::{fs, io};

/// What the takes into five bytes give, or nothing where they fail.
const PIECES: [Option<&str>; 7] = [
    Some("abc"),
    None,
    Some("def"),
    Some("gh"),
    None,
    Some(""),
    Some(""),
];

/// Whether a take into five bytes gives this piece, or fails where there is none.
fn gives(src: &mut MemSource, piece: Option<&str>) -> bool {
    let mut buf = [0u8; 5];
    match (src.take(&mut buf), piece) {
        (Ok(n), Some(piece)) => &buf[..n] == piece.as_bytes(),
        (Err(_), None) => true,
        _ => false,
    }
}

/// Whether a source of eight bytes gives its pieces, and counts two faults.
fn gives_pieces(alloc: Global) -> Result<bool, AllocError> {
    let mut src = source(alloc, (0, b'x'), b"abcdefgh", 3, &[1, 4])?;
    let mut are_given = true;
    for piece in PIECES {
        are_given = gives(&mut src, piece) && are_given;
    }
    Ok(are_given && src.faults() == 2)
}

#[test]
fn a_source_gives_its_bytes_in_pieces_and_fails_at_its_calls(rt: HostRuntime) {
    assert!(rt; matches!(gives_pieces(rt.alloc()), Ok(true)));
}

const TEXT: &[u8] = b"score 0hard/0medium/0soft\nend\n";

/// Whether a sink whose put `n` fails has the front of the text that was put before, or all.
fn has_front(alloc: Global, n: u32) -> Result<bool, AllocError> {
    let fail = Vec::from_slice(alloc, &[n])?;
    let mut out = MemSink::new(alloc, 7, fail);
    let put = put_all(&mut out, TEXT);
    let is_right = if n < 5 {
        put == Err(PortFault::Failed)
    } else {
        put.is_ok()
    };
    let front = TEXT.get(..7 * n as usize).unwrap_or(TEXT);
    Ok(is_right && put_all(&mut out, b"").is_ok() && out.text() == front)
}

#[test]
fn a_front_of_the_text_is_written_where_a_put_fails(rt: HostRuntime) {
    for n in 0..6 {
        assert!(rt; matches!(has_front(rt.alloc(), n), Ok(true)));
    }
}

// A sink that is full.
#[derive(Drop)]
struct Full {
    faults: u64,
}

impl Sink for Full {
    ghost state = { λ s. record { tells = true; written = []; faults = s.faults } };

    fn put(&mut self, _piece: &[u8]) -> Result<usize, PortFault> {
        self.faults = self.faults.saturating_add(1);
        Ok(0)
    }
}

// An output that was closed.
#[derive(Drop)]
struct Closed;

impl Print for Closed {
    fn print<D: Display + Drop>(&self, _value: D) -> io::Result<()> {
        Err(io::Error::from(io::ErrorKind::BrokenPipe))
    }

    fn println<D: Display + Drop>(&self, _value: D) -> io::Result<()> {
        Err(io::Error::from(io::ErrorKind::BrokenPipe))
    }

    fn write_all(&self, _bytes: &[u8]) -> io::Result<()> {
        Err(io::Error::from(io::ErrorKind::BrokenPipe))
    }
}

#[test]
fn a_put_that_takes_nothing_ends_the_text(rt: HostRuntime) {
    let mut full = Full { faults: 0 };
    let closed = Closed;
    let failed = Err(PortFault::Failed);
    let ended = put_all(&mut full, b"end\n") == failed && put_all(&mut full, b"").is_ok();
    let is_closed = put_all(&mut OutSink::new(&closed), b"end\n") == failed;
    assert!(rt; ended && full.faults == 1 && is_closed);
}

/// So many bytes `x` and a text behind them, the most bytes that are read of them, how many bytes a
/// take gives, the take that fails, and why the reading fails.
type Reading = (usize, &'static str, u64, usize, u32, Option<ReadFault>);

const READINGS: [Reading; 14] = [
    (0, "hello", 5, 9, NEVER, None),
    (0, "hello", 6, 1, NEVER, None),
    (0, "hello", 4, 1, NEVER, Some(ReadFault::TooLong)),
    (0, "", 0, 1, NEVER, None),
    (0, "h", 0, 9, NEVER, Some(ReadFault::TooLong)),
    (0, "hello", 5, 1, 0, Some(ReadFault::Failed)),
    (0, "hello", 5, 1, 1, Some(ReadFault::Failed)),
    (0, "hello", 5, 1, 2, Some(ReadFault::Failed)),
    (0, "hello", 5, 1, 3, Some(ReadFault::Failed)),
    (0, "hello", 5, 1, 4, Some(ReadFault::Failed)),
    (0, "hello", 5, 1, 5, Some(ReadFault::Failed)),
    (0, "hello", 5, 1, 6, None),
    (10_000, "", 10_000, 5_000, NEVER, None),
    (10_000, "", 9_999, 5_000, NEVER, Some(ReadFault::TooLong)),
];

/// Whether the bytes are so many `x`, and then these.
fn are_filled(bytes: &[u8], count: usize, rest: &[u8]) -> bool {
    for i in 0..count {
        if bytes.get(i) != Some(&b'x') {
            return false;
        }
    }
    bytes.get(count..) == Some(rest)
}

/// Whether these bytes were read, or the reading failed as it was to.
fn is_as_wanted(
    read: &Result<Vec<u8>, ReadFault>,
    count: usize,
    text: &str,
    want: Option<ReadFault>,
) -> bool {
    match (read, want) {
        (Ok(bytes), None) => are_filled(bytes, count, text.as_bytes()),
        (Err(fault), Some(want)) => *fault == want,
        _ => false,
    }
}

/// Whether a reading goes as it is to, and the take that fails is counted.
fn is_read(alloc: Global, reading: &Reading) -> Result<bool, AllocError> {
    let (count, text, limit, most, fail, want) = *reading;
    let mut src = source(alloc, (count, b'x'), text.as_bytes(), most, &[fail])?;
    let is_right = is_as_wanted(&read_all(alloc, &mut src, limit), count, text, want);
    Ok(is_right && src.faults() == u64::from(fail < 6))
}

#[test]
fn all_is_read_up_to_the_limit_or_a_take_that_fails(rt: HostRuntime) {
    for i in 0..READINGS.len() {
        assert!(rt; matches!(is_read(rt.alloc(), &READINGS[i]), Ok(true)));
    }
}

/// A file of a name with these bytes.
fn file(alloc: Global, name: &str, bytes: &str, fail: u32) -> Result<MemFile, AllocError>
    ensures { IfOk result (λ f. 1 ≤ f.most) }
{
    Ok(MemFile {
        name: Vec::from_slice(alloc, name.as_bytes())?,
        bytes: Vec::from_slice(alloc, bytes.as_bytes())?,
        most: 2,
        fail: Vec::from_slice(alloc, &[fail])?,
    })
}

/// Puts a file on the list, whose bytes are given, and the take that fails.
fn add(
    alloc: Global,
    files: &mut Vec<MemFile>,
    name: &str,
    bytes: &str,
    fail: u32,
) -> Result<(), Memory>
    requires { EachGives files.old.items }
    ensures { EachGives files.new.items }
{
    files.push(file(alloc, name, bytes, fail)?)?;
    Ok(())
}

/// Puts three files on the list, two of one name.
fn add_files(alloc: Global, files: &mut Vec<MemFile>) -> Result<(), Memory>
    requires { EachGives files.old.items }
    ensures { EachGives files.new.items }
{
    add(alloc, files, "p", "one", NEVER)?;
    add(alloc, files, "q", "two", 1)?;
    add(alloc, files, "p", "three", NEVER)
}

/// Whether the file of a name is this text, or can't be read where there is none. Files may be sent
/// to a thread.
fn holds<S: Shelf>(alloc: Global, shelf: &mut S, name: &[u8], text: Option<&str>) -> bool
where
    S::File: Send,
{
    let mut file = match shelf.open(name) {
        Ok(file) => file,
        Err(fault) => return text.is_none() && fault == PortFault::Failed,
    };
    let read = read_all(alloc, &mut file, 100);
    shelf.close(file);
    match text {
        Some(text) => is_as_wanted(&read, 0, text, None),
        None => is_as_wanted(&read, 0, "", Some(ReadFault::Failed)),
    }
}

/// The first name that has another text.
fn first_wrong_name<S: Shelf>(
    alloc: Global,
    shelf: &mut S,
    names: &[(&str, Option<&str>)],
) -> Option<usize>
where
    S::File: Send,
{
    for i in 0..names.len() {
        let (name, text) = names[i];
        if !holds(alloc, shelf, name.as_bytes(), text) {
            return Some(i);
        }
    }
    None
}

/// What the opens of names in turn give, the third of which fails.
const NAMES: &[(&str, Option<&str>)] = &[
    ("p", Some("one")),
    ("p", Some("one")),
    ("p", None),
    ("q", None),
    ("r", None),
    ("", None),
    ("p", Some("one")),
];

/// Whether the shelf counts a file that it lends until it is given back, where the next open fails.
fn counts(shelf: &mut MemShelf) -> bool {
    let Ok(file) = shelf.open(b"p") else {
        return false;
    };
    let is_lent = shelf.open(b"p").is_err() && shelf.lent() == 1;
    shelf.close(file);
    is_lent && shelf.lent() == 0
}

/// Whether a shelf whose third and last opens fail opens the first file of a name, and counts it.
fn is_lent(alloc: Global) -> Result<bool, Memory> {
    let fail = Vec::from_slice(alloc, &[2, 8])?;
    let mut files = Vec::new(alloc);
    add_files(alloc, &mut files)?;
    let mut shelf = MemShelf::new(alloc, files, fail);
    Ok(first_wrong_name(alloc, &mut shelf, NAMES) == None && counts(&mut shelf))
}

#[test]
fn a_shelf_opens_the_first_file_of_a_name_and_counts_what_it_lends(rt: HostRuntime) {
    assert!(rt; matches!(is_lent(rt.alloc()), Ok(true)));
}

/// What real files hold.
const REAL: &[(&str, Option<&str>)] = &[
    ("plan_ports_test.txt", Some("two\nlines\n")),
    ("no such file", None),
    ("", None),
    (".", None),
];

/// Whether real files hold what they are to, and standard input can be opened.
fn are_real<S: Shelf>(alloc: Global, shelf: &mut S) -> bool
where
    S::File: Send,
{
    if first_wrong_name(alloc, shelf, REAL) != None || !holds(alloc, shelf, b"\xff", None) {
        return false;
    }
    let Ok(input) = shelf.open(b"@") else {
        return false;
    };
    shelf.close(input);
    true
}

#[test]
fn real_files_are_read_by_name(rt: HostRuntime) {
    let is_there = fs::write(&rt, "plan_ports_test.txt", "two\nlines\n").is_ok();
    let are_right = are_real(rt.alloc(), &mut FileShelf::new(&rt));
    let is_gone = fs::remove_file(&rt, "plan_ports_test.txt").is_ok();
    assert!(rt; is_there && are_right && is_gone);
}

// Writes a text to a sink that may be sent to a thread.
fn written<K: Sink + Send>(out: &mut K, text: &[u8]) -> Result<(), PortFault> {
    put_all(out, text)
}

#[test]
fn standard_output_takes_a_text(rt: HostRuntime) {
    let mut out = OutSink::new(&rt);
    assert!(rt; written(&mut out, b"standard output takes a text\n").is_ok());
}

#[test]
fn the_open_gate_holds_nothing(_rt: HostRuntime) {
    NoGate.enter(Place::Judge { step: 1, number: 0 });
    NoGate.enter(Place::Boundary(0));
    NoGate.enter(Place::Line(1));
}
