ghost use Rattle.std.specs.Prelude.{◌≡◌, All, IfOk, false, map};
ghost use Rattle.plan_rules.specs.Range.{has_too_many_rows, sizes_of};
ghost use Rattle.plan_recalc.specs.Totals.{whole_rows};

use crate::facts::Facts;
use crate::stream::rule_rows;
use plan_facts::{Memory, Plan};
use plan_rules::{Book, Kept, Row, Rules, Steps};
use std::alloc::Global;
use std::sync::ledger::Ledger;

/// The rows at the end of each rule, none of whose streams may have more than 2^32.
pub fn all_rows<B: Book, L: Ledger>(
    alloc: Global,
    rules: &Rules<B>,
    plan: &Plan,
    steps: &mut Steps<L>,
) -> Result<Vec<Vec<Row>>, Memory>
    requires keeps { ⟦<Rules<B> as Kept>⟧.keeps rules.now }
    requires few { All (λ rule. has_too_many_rows (sizes_of plan.now) rule ≡ false) rules.now.defs }
    ensures { IfOk result (λ all. map (λ rows. rows.items) all.items ≡ whole_rows B.meaning rules.now.defs plan.now) }
{
    let facts = Facts::of(alloc, plan)?;
    let mut all = Vec::new(alloc);
    for rule in rules.defs.as_slice() {
        all.push(rule_rows(alloc, rules, &facts, rule, steps)?)?;
    }
    Ok(all)
}
