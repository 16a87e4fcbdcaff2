ghost use Rattle.std.specs.Prelude.{◌≡◌, ◌≤◌, ◌+◌, ◌^◌, ℕ, Ok, Err, All, length, position, IfOk};
ghost use Rattle.std.specs.List.{position_or_len};
ghost use Rattle.std.specs.List.Sorted.{IsNonDecreasing};
ghost use Rattle.feed_lines.specs.Parts.{is_feed, lines_in};
ghost use Rattle.run_journal.specs.Bounds.{bounds_from, bounds_of};
ghost use Rattle.run_journal.specs.declared.fault.JournalFault.TheVariants.{Line};

use crate::fault::JournalFault;
use crate::read::Reading;
use plan_facts::List;
use std::alloc::Global;

/// The place of the first line feed.
fn line_feed(bytes: &[u8]) -> Option<usize>
    ensures { result ≡ position is_feed bytes.now }
{
    bytes.iter().position(|b| *b == b'\n')
}

/// How many bytes the first line has.
fn line_size(bytes: &[u8]) -> usize
    ensures { result ≡ position_or_len is_feed bytes.now }
{
    match line_feed(bytes) {
        Some(n) => n,
        None => bytes.len(),
    }
}

/// Reads all lines.
fn read_lines(alloc: Global, bytes: &[u8], steps: u32) -> Result<Reading, JournalFault>
    requires { length bytes.now ≤ 2 ^ 30 }
    ensures bounds { IfOk result (λ r. bounds_from steps 0 0 0 (lines_in bytes.now) ≡ Ok r.bounds) }
    ensures lines { IfOk result (λ r. r.lines ≡ length (lines_in bytes.now)) }
    ensures few { IfOk result (λ r. r.lines ≤ 2 ^ 30 + 1) }
    ensures line { (n : ℕ) → result ≡ Err (Line n) → bounds_from steps 0 0 0 (lines_in bytes.now) ≡ Err n }
{
    let mut reading = Reading::new(alloc);
    let mut at = 0;
    'read: while at < bytes.len() {
        let rest = &bytes[at..];
        let size = line_size(rest);
        reading.read(&rest[..size], steps)?;
        at += size + 1;
    }
    Ok(reading)
}

/// The boundary of each of `count` lines of a feed, as a journal of at most 2^30 bytes names them. A journal is split into lines
/// as a feed is; a line that begins with `change ` is a change line, which goes on with a number, a space, a boundary and a
/// space; all others are passed over. The numbers are 1, 2 and so on; no boundary is below the one before or above `steps`.
/// Refuses the first change line that breaks this, by the number of the line from 1; where there are more or fewer change lines
/// than `count`, the number behind the last line.
pub fn bounds_of(
    alloc: Global,
    bytes: &[u8],
    count: u32,
    steps: u32,
) -> Result<List<u32>, JournalFault>
    requires { length bytes.now ≤ 2 ^ 30 }
    ensures bounds { IfOk result (λ bounds. bounds_of bytes.now count steps ≡ Ok bounds) }
    ensures count { IfOk result (λ bounds. length bounds ≡ count) }
    ensures rising { IfOk result (λ bounds. IsNonDecreasing bounds) }
    ensures within { IfOk result (λ bounds. All (λ bound. bound ≤ steps) bounds) }
    ensures line { (n : ℕ) → result ≡ Err (Line n) → bounds_of bytes.now count steps ≡ Err n }
{
    let reading = read_lines(alloc, bytes, steps)?;
    if reading.bounds.len() == count as usize {
        Ok(reading.bounds)
    } else {
        Err(JournalFault::Line(reading.lines + 1))
    }
}
