ghost use Rattle.std.specs.Prelude.{◌≡◌, IfOk};

use crate::single::Single;
use plan_facts::{List, Memory, Plan, Rec};
use std::alloc::Global;
use std::marker::Model;

/// The resolved records of a plan, class by class, in the order of their ids.
#[derive(Drop)]
pub struct Facts {
    classes: List<List<Single>>,
}

impl Model for Facts {
    ghost use Rattle.std.specs.Prelude.{List};
    ghost use Rattle.plan_facts.specs.declared.record.Rec.{Rec};

    ghost Value = { List (List Rec) };

    ghost view = { λ facts. facts.classes };
}

impl Facts {
    ghost use Rattle.std.specs.Prelude.{◌≡◌, IfOk};
    ghost use Rattle.plan_facts.specs.Plan.{records_of};
    ghost use Rattle.plan_rules.specs.Range.{sizes_of};
    ghost use Rattle.plan_recalc.specs.Facts.{facts_in, sizes_in};

    /// The records of the plan.
    pub fn of(alloc: Global, plan: &Plan) -> Result<Facts, Memory>
        ensures records { IfOk result (λ facts. facts_in facts ≡ records_of plan.now) }
        ensures sizes { IfOk result (λ facts. sizes_in facts ≡ sizes_of plan.now) }
    {
        let mut classes = List::new(alloc);
        for class in 0..plan.classes() {
            classes.push(singles_of(alloc, plan.records(class)?)?)?;
        }
        Ok(Facts { classes })
    }

    /// The records of a class; none where there is no such class.
    pub fn records(&self, class: u8) -> &[Single]
        ensures { result.now ≡ facts_in self.now class }
    {
        match self.classes.get(class as usize) {
            Some(records) => records.as_slice(),
            None => &[],
        }
    }
}

/// Each record with its row.
fn singles_of(alloc: Global, mut records: List<Rec>) -> Result<List<Single>, Memory>
    ensures { IfOk result (λ singles. singles ≡ records) }
{
    let mut singles = List::new(alloc);
    while let Some(record) = records.pop() {
        singles.push(Single::of(alloc, record)?)?;
    }
    singles.as_mut_slice().reverse();
    Ok(singles)
}
