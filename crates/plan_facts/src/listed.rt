ghost use Rattle.std.specs.Prelude.{◌≡◌, ◌≤◌, ◌<◌, [], None, Some, length, zip, IfOk, OnOk, IfErr, sum_by, MatchOption, All, map, nat_eq, ◌^◌};
ghost use Rattle.std.specs.List.{IsDistinct};
ghost use Rattle.plan_facts.specs.Plan.{ids_in, plan_with, unplaced_of, IsPlan};
ghost use Rattle.plan_facts.specs.First.{first_fault};
ghost use Rattle.plan_facts.specs.Listed.{IsFewOf, is_listed, HasIds, HaveIds};
ghost use Rattle.plan_facts.specs.Limits.{fact_limit};
ghost use Rattle.plan_facts.specs.Refusal.{IsRefusal};
ghost use Rattle.plan_facts.specs.PlanFaults.{record_fault, class_fault, record_values_fault, class_values_fault, classes_fault, all_values_fault, ranges_of, nullables_of, class_with, plan_of, plan_fault};
ghost use Rattle.std.specs.Result.{result_err};

use crate::check::{FACT_LIMIT, ID_LIMIT, LiveFacts, check_fields, check_values};
use crate::fault::PlanFault;
use crate::list::List;
use crate::memory::Memory;
use crate::record::{ClassDef, Raw};
use crate::schema::Schema;
use crate::table::Table;
use std::alloc::Global;
use std::collections::HashSet;

/// The ids of the records of each class, before there is a plan.
#[derive(Drop)]
struct ListedIds {
    classes: Vec<HashSet<u32>>,
}

impl LiveFacts for ListedIds {
    ghost use Rattle.plan_facts.specs.Listed.{IsFewOf, is_listed};

    ghost live = { λ ids class id. is_listed ids.classes.items class id };

    fn is_live(&self, class: u8, id: u32) -> bool {
        match self.classes.get(class as usize) {
            Some(ids) => ids.contains(&id),
            None => false,
        }
    }
}

/// The ids of a class's records, or the first fault of the ids and fields.
fn listed_ids(
    alloc: Global,
    class: u8,
    count: usize,
    raws: &[Raw],
) -> Result<HashSet<u32>, PlanFault>
    requires { count ≤ 16 }
    ensures ids { IfOk result (HasIds raws.now) }
    ensures ok { OnOk result (first_fault (record_fault class count) [] raws.now ≡ None) }
    ensures err { IfErr result (IsRefusal PlanFault.Memory (first_fault (record_fault class count) [] raws.now)) }
{
    let mut ids = HashSet::new(alloc);
    for place in 0..raws.len() {
        let raw = &raws[place];
        let id = raw.id;
        if id < 1 || id > ID_LIMIT || ids.contains(&id) {
            return Err(PlanFault::BadId { class, id });
        }
        check_fields(class, id, count, raw.fields.as_slice())?;
        ids.insert(id)?;
    }
    Ok(ids)
}

/// The ids of the records of all classes, or the first fault of their ids and fields.
fn all_listed_ids(
    alloc: Global,
    schema: &Schema,
    lists: &[List<Raw>],
) -> Result<ListedIds, PlanFault>
    requires { length lists.now ≡ length schema.now }
    ensures ids { IfOk result (λ ids. HaveIds lists.now ids.classes.items) }
    ensures ok { OnOk result (classes_fault schema.now lists.now ≡ None) }
    ensures err { IfErr result (IsRefusal PlanFault.Memory (classes_fault schema.now lists.now)) }
{
    let mut classes = Vec::new(alloc);
    for class in 0..schema.classes() {
        let Some(def) = schema.class(class) else {
            unreachable!();
        };
        let raws = lists[class as usize].as_slice();
        let ids = listed_ids(alloc, class, def.fields.len(), raws)?;
        classes.push(ids)?;
    }
    Ok(ListedIds { classes })
}

/// The first fault of the values of a class's records.
fn check_values_of<L: LiveFacts>(
    facts: &L,
    class: u8,
    ranges: &[u8],
    raws: &[Raw],
) -> Result<(), PlanFault>
    requires { length ranges.now ≤ 2 }
    ensures { result_err result ≡ first_fault (record_values_fault (L.live facts.now) class ranges.now) [] raws.now }
{
    for place in 0..raws.len() {
        let raw = &raws[place];
        check_values(facts, class, raw.id, ranges, raw.values.as_slice())?;
    }
    Ok(())
}

/// The value class of each variable of a class.
fn ranges_of(alloc: Global, def: &ClassDef) -> Result<List<u8>, Memory>
    ensures { IfOk result (λ ranges. ranges ≡ ranges_of def.now) }
{
    let mut ranges = List::new(alloc);
    for var in def.vars.as_slice() {
        ranges.push(var.values)?;
    }
    Ok(ranges)
}

/// Whether each variable of a class may stay null.
fn nullables_of(alloc: Global, def: &ClassDef) -> Result<List<bool>, Memory>
    ensures { IfOk result (λ nullables. nullables ≡ nullables_of def.now) }
{
    let mut nullables = List::new(alloc);
    for var in def.vars.as_slice() {
        nullables.push(var.nullable)?;
    }
    Ok(nullables)
}

/// The first fault of the values of all records.
fn check_all_values<L: LiveFacts>(
    alloc: Global,
    facts: &L,
    schema: &Schema,
    lists: &[List<Raw>],
) -> Result<(), PlanFault>
    requires { length lists.now ≡ length schema.now }
    ensures ok { OnOk result (all_values_fault (L.live facts.now) schema.now lists.now ≡ None) }
    ensures err { IfErr result (IsRefusal PlanFault.Memory (all_values_fault (L.live facts.now) schema.now lists.now)) }
{
    for class in 0..schema.classes() {
        let Some(def) = schema.class(class) else {
            unreachable!();
        };
        let ranges = ranges_of(alloc, def)?;
        let raws = lists[class as usize].as_slice();
        check_values_of(facts, class, ranges.as_slice(), raws)?;
    }
    Ok(())
}

/// How many records there are; none where they are more than 100,000.
fn count_facts(lists: &[List<Raw>]) -> Option<u32>
    ensures { MatchOption result (fact_limit < sum_by length lists.now) (IsFewOf lists.now) }
{
    let mut count = 0;
    for raws in lists {
        if raws.len() > FACT_LIMIT as usize - count {
            return None;
        }
        count += raws.len();
    }
    Some(count as u32)
}

/// How many records there are, or the first fault of the lists.
pub fn check_lists(alloc: Global, schema: &Schema, lists: &[List<Raw>]) -> Result<u32, PlanFault>
    ensures made { IfOk result (λ made. made ≡ sum_by length lists.now) }
    ensures ok { OnOk result (plan_fault schema.now lists.now ≡ None) }
    ensures plan { OnOk result (IsPlan (plan_of schema.now lists.now)) }
    ensures err { IfErr result (IsRefusal PlanFault.Memory (plan_fault schema.now lists.now)) }
{
    if lists.len() != schema.classes() as usize {
        return Err(PlanFault::ClassCount);
    }
    let Some(made) = count_facts(lists) else {
        return Err(PlanFault::TooManyFacts);
    };
    let ids = all_listed_ids(alloc, schema, lists)?;
    check_all_values(alloc, &ids, schema, lists)?;
    Ok(made)
}

/// The tables of all classes.
pub fn make_tables(
    alloc: Global,
    schema: &Schema,
    lists: List<List<Raw>>,
) -> Result<Vec<Table>, Memory>
    requires count { length lists ≡ length schema.now }
    requires distinct { All (λ raws. IsDistinct nat_eq (ids_in raws)) lists }
    ensures { IfOk result (λ tables. tables.items ≡ map (λ pair. class_with pair.0 pair.1) (zip schema.now lists)) }
{
    let mut rest = lists.into_items();
    let mut tables = Vec::new(alloc);
    for class in 0..schema.classes() {
        let Some(def) = schema.class(class) else {
            unreachable!();
        };
        let ranges = ranges_of(alloc, def)?;
        let raws = std::mem::replace(&mut rest[class as usize], List::new(alloc));
        let nullables = nullables_of(alloc, def)?;
        tables.push(Table::of(alloc, def.fields.len(), ranges, nullables, raws)?)?;
    }
    Ok(tables)
}

/// How many values of all records are missing.
pub fn count_all_missing(tables: &[Table]) -> u32
    requires { unplaced_of (plan_with tables.now 0) < 2 ^ 32 }
    ensures { result ≡ unplaced_of (plan_with tables.now 0) }
{
    let mut missing = 0;
    for table in tables {
        missing += table.missing_count();
    }
    missing as u32
}
