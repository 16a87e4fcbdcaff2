ghost use Rattle.std.specs.Prelude.{◌≡◌, ◌≤◌, ◌∷◌, ◌++◌, [], All, IfOk, length, map};
ghost use Rattle.plan_rules.specs.declared.row.Part.TheVariants.{Num};
ghost use Rattle.plan_rules.specs.Groups.{groups_of};
ghost use Rattle.plan_rules.specs.Limits.{row_limit};
ghost use Rattle.plan_rules.specs.Named.{collect_closures};
ghost use Rattle.plan_rules.specs.Sound.{IsHandedIn};
ghost use Rattle.plan_recalc.specs.HandedIn.{AreKeysHandedIn};

use crate::keyed::Keyed;
use crate::keys::{different_keys, group_keys};
use plan_facts::Memory;
use plan_rules::{Book, Collect, Kept, Part, Row, Rules, Steps};
use std::alloc::Global;
use std::sync::ledger::Ledger;

/// One row for each group key that occurs, the keys increasing: its numbers, then what the collector makes of the rows
/// with that key.
pub fn group_rows<B: Book, L: Ledger>(
    alloc: Global,
    rules: &Rules<B>,
    keys: &[u16],
    collect: &Collect,
    rows: &[Row],
    steps: &mut Steps<L>,
) -> Result<Vec<Row>, Memory>
    requires keeps { ⟦<Rules<B> as Kept>⟧.keeps rules.now }
    requires keys { AreKeysHandedIn rules.now.numbers keys.now }
    requires collect { All (IsHandedIn rules.now.numbers) (collect_closures collect.now) }
    requires few_keys { length keys.now ≤ 2 }
    requires few_rows { length rows.now ≤ row_limit }
    ensures { IfOk result (λ groups. groups.items ≡ groups_of B.meaning keys.now collect.now rows.now) }
{
    let row_keys = group_keys(alloc, rules, keys, rows, steps)?;
    let keyed = Keyed {
        rows,
        keys,
        row_keys: row_keys.as_slice(),
    };
    let mut groups = Vec::new(alloc);
    for key in &different_keys(alloc, row_keys.as_slice())? {
        let number = keyed.collected(alloc, rules, collect, key.as_slice(), steps)?;
        groups.push(group_row(alloc, key.as_slice(), number)?)?;
    }
    Ok(groups)
}

/// The row of a group: the numbers of its key, of which there are at most two, then the collected one.
fn group_row(alloc: Global, key: &[i64], number: i64) -> Result<Row, Memory>
    requires { length key.now ≤ 2 }
    ensures { IfOk result (λ row. row ≡ map (λ n. Num n) key.now ++ Num number ∷ []) }
{
    let mut row = Row::new(alloc);
    for part in key {
        row.push(Part::Num(*part))?;
    }
    row.push(Part::Num(number))?;
    Ok(row)
}
