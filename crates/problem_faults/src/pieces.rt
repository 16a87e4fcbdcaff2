ghost use Rattle.std.specs.Prelude.{◌≡◌, IfOk};
ghost use Rattle.problem_faults.specs.Pieces.{joined};

use plan_facts::{Memory, Text};
use std::alloc::Global;

/// The pieces, one after another.
pub fn joined(alloc: Global, pieces: &[&[u8]]) -> Result<Text, Memory>
    ensures { IfOk result (λ text. text ≡ joined pieces.now) }
{
    let mut bytes = Vec::new(alloc);
    for piece in pieces {
        bytes.extend_from_slice(piece)?;
    }
    Text::from_slice(alloc, &bytes)
}
