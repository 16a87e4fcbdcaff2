ghost use Rattle.std.specs.Prelude.{◌≡◌, IfOk};
ghost use Rattle.serde_json.specs.View.{view};
ghost use Rattle.plan_facts.specs.Plan.{IsPlan};
ghost use Rattle.plan_facts.specs.PlanFaults.{plan_of};
ghost use Rattle.problem_faults.specs.Refusals.{RefusesFor};
ghost use Rattle.problem_records.specs.Facts.{names_of, raws_of};
ghost use Rattle.problem_records.specs.RecordFaults.{are_too_many, records_fault};

use crate::contents::check_contents;
use crate::faults::named_fault;
use crate::names::names_of;
use crate::raws::raw_lists;
use crate::record::records_of;
use crate::shape::check_shapes;
use plan_facts::{FACT_LIMIT, Names, Plan, Schema};
use problem_faults::ProblemFault;
use serde_json::Value;
use std::alloc::Global;

/// What the facts of a problem say.
#[derive(Drop)]
pub struct Records {
    /// The records of each class. A field for a name holds the name's number.
    pub plan: Plan,
    /// The names of the records, numbered in the order in which the facts list them.
    pub names: Names,
}

/// Whether the facts list more records than a plan may have.
fn has_too_many(schema: &Schema, facts: &Value) -> bool
    ensures { result ≡ are_too_many schema.now (view facts.now) }
{
    let mut left = FACT_LIMIT as usize;
    for n in 0..schema.classes() {
        let Some(class) = schema.class(n) else {
            unreachable!();
        };
        let count = records_of(facts, class).len();
        if count > left {
            return true;
        }
        left -= count;
    }
    false
}

/// The plan and the names of a problem whose member `facts` is this object. The first refusal counts: what is of another
/// shape; more than 100,000 records; record by record an id that stands twice in its class, then a field out of range;
/// last, record by record, a variable that holds no record of its value class.
pub fn read_records(alloc: Global, schema: &Schema, facts: &Value) -> Result<Records, ProblemFault>
    ensures refusal { RefusesFor (records_fault schema.now (view facts.now)) result }
    ensures plan { IfOk result (λ records. records.plan ≡ plan_of schema.now (raws_of schema.now (view facts.now))) }
    ensures names { IfOk result (λ records. records.names ≡ names_of schema.now (view facts.now)) }
    ensures sound { IfOk result (λ records. IsPlan records.plan) }
{
    check_shapes(alloc, schema, facts)?;
    if has_too_many(schema, facts) {
        return Err(ProblemFault::TooManyFacts);
    }
    check_contents(alloc, schema, facts)?;
    let names = names_of(alloc, schema, facts)?;
    let lists = raw_lists(alloc, &names, schema, facts)?;
    match Plan::of(alloc, schema, lists) {
        Ok(plan) => Ok(Records { plan, names }),
        Err(fault) => Err(named_fault(alloc, schema, fault)?),
    }
}
