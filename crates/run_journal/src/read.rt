ghost use Rattle.std.specs.Prelude.{◌≡◌, ◌≤◌, ◌<◌, ◌+◌, ◌^◌, [], ◌∷◌, List, ℕ, Err, length, OnOk};
ghost use Rattle.run_journal.specs.Bounds.{boundary_in, line_boundary};
ghost use Rattle.run_journal.specs.Reading.{meant};
ghost use Rattle.run_journal.specs.declared.fault.JournalFault.TheVariants.{Line};

use crate::fault::JournalFault;
use crate::number::{first_space, number_before_space};
use plan_facts::List;
use std::alloc::Global;

/// The boundary from `low` to `high` that stands behind the number of a change.
fn boundary_in(number: u32, low: u32, high: u32, text: &[u8]) -> Option<u32>
    ensures { result ≡ boundary_in number low high text.now }
{
    number_before_space(number, number, text)?;
    let space = first_space(text)?;
    number_before_space(low, high, &text[space + 1..])
}

/// What a line says of the change with this number: nothing where it is no change line; then its boundary, if it is right.
fn line_boundary(number: u32, low: u32, high: u32, line: &[u8]) -> Option<Option<u32>>
    ensures { result ≡ line_boundary number low high line.now }
{
    match line.strip_prefix(b"change ".as_slice()) {
        Some(text) => Some(boundary_in(number, low, high, text)),
        None => None,
    }
}

/// What was read of a journal: the boundaries, the last of them, and how many lines.
#[derive(Drop)]
pub struct Reading {
    pub bounds: List<u32>,
    pub low: u32,
    pub lines: u32,
}

impl Reading {
    /// Nothing was read.
    pub fn new(alloc: Global) -> Reading
        ensures bounds { result.bounds ≡ [] }
        ensures low { result.low ≡ 0 }
        ensures lines { result.lines ≡ 0 }
    {
        Reading {
            bounds: List::new(alloc),
            low: 0,
            lines: 0,
        }
    }

    /// Reads a line.
    pub fn read(&mut self, line: &[u8], steps: u32) -> Result<(), JournalFault>
        requires few { self.old.lines < 2 ^ 31 }
        requires bounds { length self.old.bounds ≤ self.old.lines }
        ensures ok { OnOk result ((rest : List (List ℕ)) →
            meant steps self.old (line.now ∷ rest) ≡ meant steps self.new rest) }
        ensures lines { OnOk result (self.new.lines ≡ self.old.lines + 1) }
        ensures bounds { OnOk result (length self.new.bounds ≤ self.new.lines) }
        ensures line { (n : ℕ) → result ≡ Err (Line n) → (rest : List (List ℕ)) →
            meant steps self.old (line.now ∷ rest) ≡ Err n }
    {
        self.lines += 1;
        let number = self.bounds.len() as u32 + 1;
        match line_boundary(number, self.low, steps, line) {
            None => Ok(()),
            Some(None) => Err(JournalFault::Line(self.lines)),
            Some(Some(bound)) => {
                self.bounds.push(bound)?;
                self.low = bound;
                Ok(())
            }
        }
    }
}
