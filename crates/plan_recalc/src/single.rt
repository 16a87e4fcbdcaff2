ghost use Rattle.std.specs.Prelude.{◌≡◌};
ghost use Rattle.plan_rules.specs.Rows.{is_placed};

use plan_facts::{Memory, Rec};
use plan_rules::{Part, Row};
use std::alloc::Global;
use std::marker::Model;

/// A resolved record, kept as the row of it alone.
#[derive(Drop)]
pub struct Single {
    row: Row,
    placed: bool,
}

impl Model for Single {
    ghost use Rattle.plan_facts.specs.declared.record.Rec.{Rec};
    ghost use Rattle.plan_recalc.specs.Facts.{IsSingle, record_in};

    ghost Value = { Rec };

    ghost view = { λ single. record_in single.row };

    ghost invariant = { λ single. IsSingle single.row single.placed };
}

impl Single {
    ghost use Rattle.std.specs.Prelude.{◌≡◌, IfOk};
    ghost use Rattle.plan_rules.specs.Rows.{row_of};
    ghost use Rattle.plan_recalc.specs.Facts.{takes_part};

    /// The record, with its row.
    pub fn of(alloc: Global, rec: Rec) -> Result<Single, Memory>
        ensures { IfOk result (λ single. single ≡ rec) }
    {
        let placed = is_placed(&rec);
        let mut row = Row::new(alloc);
        row.push(Part::Fact(rec))?;
        Ok(Single { row, placed })
    }

    /// The row of the record alone.
    pub fn row(&self) -> &Row
        ensures { result.now ≡ row_of self.now }
    {
        &self.row
    }

    /// Whether the record takes part: it does where it has no null variable, and else where `nulls` says that null
    /// variables are let in.
    pub fn takes_part(&self, nulls: bool) -> bool
        ensures { result ≡ takes_part nulls self.now }
    {
        nulls || self.placed
    }
}

/// Whether the record has no null variable.
fn is_placed(rec: &Rec) -> bool
    ensures { result ≡ is_placed rec.now }
{
    rec.planned.as_slice().iter().all(|value| value.is_some())
}
