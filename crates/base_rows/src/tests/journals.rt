//! Journals: the boundaries that a feed's lines were taken at, or the line that is wrong.
ghost use Rattle.std.specs.Prelude.{◌≤◌, ◌^◌, length};

use run_journal::{JournalFault, bounds_of};
use std::alloc::Global;
use std::test::Fail;

/// Journals for a feed of so many lines at most 3 steps: the boundaries, or the line that refuses the journal.
const JOURNALS: &[(&[u8], u32, Result<&[u32], u32>)] = &[
    (b"", 0, Ok(&[])),
    (b"", 2, Err(1)),
    (b"change 1 1 x\nchange 2 3 x\n", 2, Ok(&[1, 3])),
    (b"change 1 1 x\nchange 2 3 x", 2, Ok(&[1, 3])),
    (
        b"run timetable\nleg 0\nchange 1 0 applied room#2\nstart 0\n",
        1,
        Ok(&[0]),
    ),
    (
        b"change 1 2 x\nchange 2 2 \n change 3 2 x\nchange",
        2,
        Ok(&[2, 2]),
    ),
    (b"change 1 9 x\n", 2, Err(1)),
    (b"change 1 1 x\n", 2, Err(2)),
    (b"change 1 1 x", 2, Err(2)),
    (b"change 01 0 x\n", 2, Err(1)),
    (b"change 1 0\n", 2, Err(1)),
    (b"change 2 0 x\n", 2, Err(1)),
    (b"change 1 00 x\n", 2, Err(1)),
    (b"change 1 +1 x\n", 2, Err(1)),
    (b"change 1  1 x\n", 2, Err(1)),
    (b"change 1 \xff x\n", 2, Err(1)),
    (b"change \n", 2, Err(1)),
    (b"change 1 4294967296 x\n", 2, Err(1)),
    (b"change 1 2 x\nchange 2 1 x\n", 2, Err(2)),
    (
        b"hello\nchange 1 0 x\nchange 2 3 x\nchange 3 3 x\n",
        2,
        Err(5),
    ),
    (
        b"hello\n\nchange 1 0 x\nchange 2 4 x\nchange 3 3 x\n",
        2,
        Err(4),
    ),
];

/// Whether the journal is read so.
fn is_read(alloc: Global, bytes: &[u8], count: u32, wanted: Result<&[u32], u32>) -> bool
    requires { length bytes.now ≤ 2 ^ 30 }
{
    match (bounds_of(alloc, bytes, count, 3), wanted) {
        (Ok(bounds), Ok(wanted)) => bounds.as_slice() == wanted,
        (Err(JournalFault::Line(line)), Err(wanted)) => line == wanted,
        _ => false,
    }
}

/// The place of the first journal that is read otherwise.
fn wrong_journal(alloc: Global) -> Option<usize> {
    for (place, (bytes, count, wanted)) in JOURNALS.iter().enumerate() {
        if bytes.len() >= 1_000 || !is_read(alloc, bytes, *count, *wanted) {
            return Some(place);
        }
    }
    None
}

#[test]
fn reads_the_boundaries_or_the_line_that_is_wrong(rt: HostRuntime) -> Result<(), Fail> {
    assert!(rt; wrong_journal(rt.alloc()) == None);
    Ok(())
}
