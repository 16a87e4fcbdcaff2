//! Tests of the domains that come with the solver, each by itself, and the rows of one part that they ask.
#![tactic(auto)]

ghost use Rattle.std.specs.Prelude.{◌≡◌, ◌∷◌, [], IfOk};

use plan_facts::Memory;
use plan_rules::{Part, Row};
use std::alloc::Global;

/// The row of one part.
pub fn lone_row(alloc: Global, part: Part) -> Result<Row, Memory>
    ensures { IfOk result (λ row. row ≡ part ∷ []) }
{
    let mut row = Row::new(alloc);
    row.push(part)?;
    Ok(row)
}

#[cfg(test)]
mod tests;
