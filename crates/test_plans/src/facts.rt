ghost use Rattle.std.specs.Prelude.{◌≡◌, None, map, IfOk, IfErr, OnOk};
ghost use Rattle.plan_facts.specs.Plan.{IsPlan};
ghost use Rattle.plan_facts.specs.PlanFaults.{plan_of, plan_fault};
ghost use Rattle.plan_facts.specs.Refusal.{IsRefusal};
ghost use Rattle.test_plans.specs.Facts.{raw_of, raws_of, raw_with};

use plan_facts::{List, Memory, Plan, PlanFault, Raw, Schema};
use std::alloc::Global;

/// A fact as it is kept: its id, and its fields.
#[derive(Clone, Copy, Drop)]
pub enum FactSketch {
    /// A fact of a class without variables.
    Fact(u32, &'static [i64]),
    /// An entity, with what its variables hold.
    Entity(u32, &'static [i64], &'static [Option<u32>]),
    /// An entity that is pinned, with what its variables hold.
    Pinned(u32, &'static [i64], &'static [Option<u32>]),
}

/// The record with this id, these fields and these values.
fn raw_with(
    alloc: Global,
    id: u32,
    fields: &[i64],
    values: &[Option<u32>],
    pinned: bool,
) -> Result<Raw, Memory>
    ensures { IfOk result (λ raw. raw ≡ raw_with id fields.now values.now pinned) }
{
    Ok(Raw {
        id,
        fields: List::from_slice(alloc, fields)?,
        values: List::from_slice(alloc, values)?,
        pinned,
    })
}

/// The record of a sketch.
fn raw(alloc: Global, sketch: &FactSketch) -> Result<Raw, Memory>
    ensures { IfOk result (λ raw. raw ≡ raw_of sketch.now) }
{
    match sketch {
        FactSketch::Fact(id, fields) => raw_with(alloc, *id, fields, &[], false),
        FactSketch::Entity(id, fields, values) => raw_with(alloc, *id, fields, values, false),
        FactSketch::Pinned(id, fields, values) => raw_with(alloc, *id, fields, values, true),
    }
}

/// The records of some sketches.
fn raws(alloc: Global, sketches: &[FactSketch]) -> Result<List<Raw>, Memory>
    ensures { IfOk result (λ raws. raws ≡ map raw_of sketches.now) }
{
    let mut raws = List::new(alloc);
    for sketch in sketches {
        raws.push(raw(alloc, sketch)?)?;
    }
    Ok(raws)
}

/// The records of each class.
fn lists(alloc: Global, classes: &[&[FactSketch]]) -> Result<List<List<Raw>>, Memory>
    ensures { IfOk result (λ lists. lists ≡ raws_of classes.now) }
{
    let mut lists = List::new(alloc);
    for sketches in classes {
        lists.push(raws(alloc, sketches)?)?;
    }
    Ok(lists)
}

/// The plan of these facts, one list for each class of the schema; or the first fault, which [`PlanFault`] orders.
pub fn plan_of(alloc: Global, schema: &Schema, classes: &[&[FactSketch]]) -> Result<Plan, PlanFault>
    ensures plan { IfOk result (λ plan. plan ≡ plan_of schema.now (raws_of classes.now)) }
    ensures ok { OnOk result (plan_fault schema.now (raws_of classes.now) ≡ None) }
    ensures sound { IfOk result IsPlan }
    ensures err { IfErr result (IsRefusal PlanFault.Memory (plan_fault schema.now (raws_of classes.now))) }
{
    Plan::of(alloc, schema, lists(alloc, classes)?)
}
