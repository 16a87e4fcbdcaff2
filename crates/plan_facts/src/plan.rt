ghost use Rattle.std.specs.Prelude.{◌≡◌, ◌<◌, IsTrue, IsSomeAnd, IfOk, OnOk, IfErr, OnErr, IfNone, ◌≤◌, None, All, MatchOption, List, length, map, zip, option_copied};
ghost use Rattle.plan_facts.specs.Plan.{class_of, no_class, fact_of, is_live, ids_of, next_id_of, unplaced_of, record_of, resolved, held_value, held_values, range_of, records_of, missing_in, is_pinned, is_value_of, IsPlan, IsClassAt, IsFieldNumber};
ghost use Rattle.plan_facts.specs.PlanFaults.{plan_of, plan_fault, add_fault};
ghost use Rattle.plan_facts.specs.Refusal.{IsRefusal};
ghost use Rattle.plan_facts.specs.PlanChanges.{with_value, with_field, with_fact, without_fact, class_let_go};
ghost use Rattle.std.specs.Result.{result_err};
ghost use Rattle.std.specs.Bool.{OnTrue, OnFalse};

use crate::check::{FACT_LIMIT, LiveFacts, check_fields, check_values};
use crate::fault::PlanFault;
use crate::list::List;
use crate::listed::{check_lists, count_all_missing, make_tables};
use crate::memory::Memory;
use crate::record::{Raw, Rec, Value};
use crate::schema::Schema;
use crate::table::{Table, count_missing, one_if_missing};
use std::alloc::Global;
use std::marker::Model;

/// A plan: for each class its live facts, each with its fields and the values of its variables.
#[derive(Drop)]
pub struct Plan {
    alloc: Global,
    tables: Vec<Table>,
    made: u32,
    unplaced: u32,
}

impl Model for Plan {
    ghost use Rattle.std.specs.Prelude.{◌≡◌};
    ghost use Rattle.plan_facts.specs.Plan.{PlanView, plan_with, IsCounted};

    ghost Value = { PlanView };

    ghost view = { λ plan. plan_with plan.tables.items plan.made };

    ghost invariant = { λ plan. IsCounted (plan_with plan.tables.items plan.made) plan.unplaced };
}

/// Makes each variable null that holds the fact of this class with this id.
fn let_go_in(tables: &mut Vec<Table>, class: u8, id: u32)
    requires { All (λ table. All (λ raw. length raw.values ≡ length table.ranges) table.facts) tables.old.items }
    ensures { tables.new.items ≡ map (class_let_go class id) tables.old.items }
{
    for table in tables.iter_mut() {
        table.let_go(class, id);
    }
}

impl LiveFacts for Plan {
    ghost use Rattle.plan_facts.specs.Plan.{is_live};

    ghost live = { λ plan class id. is_live plan class id };

    fn is_live(&self, class: u8, id: u32) -> bool {
        self.raw(class, id).is_some()
    }
}

impl Plan {
    /// The plan of these records, one list for each class; or the first fault, which [`PlanFault`] orders.
    pub fn of(alloc: Global, schema: &Schema, lists: List<List<Raw>>) -> Result<Plan, PlanFault>
        ensures plan { IfOk result (λ plan. plan ≡ plan_of schema.now lists) }
        ensures ok { OnOk result (plan_fault schema.now lists ≡ None) }
        ensures sound { IfOk result IsPlan }
        ensures err { IfErr result (IsRefusal PlanFault.Memory (plan_fault schema.now lists)) }
    {
        let made = check_lists(alloc, schema, lists.as_slice())?;
        let tables = make_tables(alloc, schema, lists)?;
        let unplaced = count_all_missing(&tables);
        Ok(Plan {
            alloc,
            tables,
            made,
            unplaced,
        })
    }

    /// The records of a class; none where there is no such class.
    fn table(&self, class: u8) -> Option<&Table>
        ensures sound { IsPlan self.now }
        ensures missing { IfNone result (length self.now.classes ≤ class) }
        ensures table { MatchOption result (class_of self.now class ≡ no_class) (λ t. IsClassAt self.now class t.now) }
    {
        self.tables.get(class as usize)
    }

    /// The number of classes.
    pub fn classes(&self) -> u8
        ensures classes { result ≡ length self.now.classes }
        ensures sound { IsPlan self.now }
    {
        self.tables.len() as u8
    }

    /// The live facts of a class as they are kept, the ids increasing; none where there is no such class.
    pub fn facts(&self, class: u8) -> &[Raw]
        ensures facts { result.now ≡ (class_of self.now class).facts }
        ensures sound { IsPlan self.now }
    {
        match self.table(class) {
            Some(table) => table.facts(),
            None => &[],
        }
    }

    /// The value class of each variable of a class; none where there is no such class.
    pub fn ranges(&self, class: u8) -> &[u8]
        ensures ranges { result.now ≡ (class_of self.now class).ranges }
        ensures sound { IsPlan self.now }
    {
        match self.table(class) {
            Some(table) => table.ranges(),
            None => &[],
        }
    }

    /// Whether each variable of a class may stay null; none where there is no such class.
    pub fn nullables(&self, class: u8) -> &[bool]
        ensures nullables { result.now ≡ (class_of self.now class).nullables }
        ensures sound { IsPlan self.now }
    {
        match self.table(class) {
            Some(table) => table.nullables(),
            None => &[],
        }
    }

    /// The ids of the live facts of a class, increasing; none where there is no such class.
    pub fn ids(&self, class: u8) -> &[u32]
        ensures ids { result.now ≡ ids_of self.now class }
        ensures sound { IsPlan self.now }
    {
        match self.table(class) {
            Some(table) => table.ids(),
            None => &[],
        }
    }

    /// The live fact of a class with this id, as it is kept; none where there is none.
    pub fn raw(&self, class: u8, id: u32) -> Option<&Raw>
        ensures fact { option_copied result ≡ fact_of self.now class id }
        ensures sound { IsPlan self.now }
    {
        match self.table(class) {
            Some(table) => table.get(id),
            None => None,
        }
    }

    /// Whether there is a live fact of the class with this id that is pinned.
    pub fn pinned(&self, class: u8, id: u32) -> bool
        ensures pinned { result ≡ is_pinned self.now class id }
        ensures sound { IsPlan self.now }
    {
        match self.raw(class, id) {
            Some(raw) => raw.pinned,
            None => false,
        }
    }

    /// How many facts were ever made, at most 100,000.
    pub fn made(&self) -> u32
        ensures made { result ≡ self.now.made }
        ensures sound { IsPlan self.now }
    {
        self.made
    }

    /// The id that the next fact of a class gets: the greatest one ever used in it plus 1.
    pub fn next_id(&self, class: u8) -> u32
        ensures id { result ≡ next_id_of self.now class }
        ensures sound { IsPlan self.now }
    {
        match self.table(class) {
            Some(table) => table.greatest() + 1,
            None => 1,
        }
    }

    /// How many null variables that aren't nullable all entities have, pinned ones too.
    pub fn unplaced(&self) -> u32
        ensures unplaced { result ≡ unplaced_of self.now }
        ensures sound { IsPlan self.now }
    {
        self.unplaced
    }

    /// How many of these values of a fact of a class are missing.
    fn missing(&self, class: u8, values: &[Option<u32>]) -> usize
        ensures { result ≡ missing_in (class_of self.now class).nullables values.now }
    {
        match self.table(class) {
            Some(table) => count_missing(table.nullables(), values),
            None => 0,
        }
    }

    /// What a variable holds, with the fields of the fact.
    fn held(&self, range: u8, value: Option<u32>) -> Result<Option<Value>, Memory>
        ensures { IfOk result (λ held. held ≡ held_value self.now range value) }
    {
        let Some(id) = value else {
            return Ok(None);
        };
        match self.raw(range, id) {
            Some(raw) => Ok(Some(Value {
                id: raw.id,
                fields: raw.fields.copy(self.alloc)?,
            })),
            None => Ok(None),
        }
    }

    /// What the variables with these value classes hold.
    fn planned(&self, ranges: &[u8], values: &[Option<u32>]) -> Result<List<Option<Value>>, Memory>
        requires { length values.now ≡ length ranges.now }
        ensures { IfOk result (λ planned. planned ≡ held_values self.now ranges.now values.now) }
    {
        let mut planned = List::new(self.alloc);
        for var in 0..ranges.len() {
            let held = self.held(ranges[var], values[var])?;
            planned.push(held)?;
        }
        Ok(planned)
    }

    /// A record with the whole value of each of its variables.
    fn resolved(&self, class: u8, ranges: &[u8], raw: &Raw) -> Result<Rec, Memory>
        requires ranges { ranges.now ≡ (class_of self.now class).ranges }
        requires values { length raw.now.values ≡ length ranges.now }
        ensures { IfOk result (λ rec. rec ≡ resolved self.now class raw.now) }
    {
        Ok(Rec {
            class,
            id: raw.id,
            fields: raw.fields.copy(self.alloc)?,
            planned: self.planned(ranges, raw.values.as_slice())?,
        })
    }

    /// The live fact of a class with this id, with the whole value of each of its variables; none where there is none.
    #[tactic(auto, unfolding(crate::specs::Plan::record_of))]
    pub fn resolve(&self, class: u8, id: u32) -> Result<Option<Rec>, Memory>
        ensures fact { IfOk result (λ fact. fact ≡ record_of self.now class id) }
        ensures sound { IsPlan self.now }
    {
        let Some(table) = self.table(class) else {
            return Ok(None);
        };
        match table.get(id) {
            Some(raw) => Ok(Some(self.resolved(class, table.ranges(), raw)?)),
            None => Ok(None),
        }
    }

    /// The resolved records of a class, in the order of their ids; none where there is no such class.
    #[tactic(auto, unfolding(crate::specs::Plan::records_of))]
    pub fn records(&self, class: u8) -> Result<List<Rec>, Memory>
        ensures records { IfOk result (λ records. records ≡ records_of self.now class) }
        ensures sound { IsPlan self.now }
    {
        match self.table(class) {
            Some(table) => self.resolved_all(class, table.ranges(), table.facts()),
            None => Ok(List::new(self.alloc)),
        }
    }

    /// Records of a class, each with the whole value of each of its variables.
    fn resolved_all(&self, class: u8, ranges: &[u8], facts: &[Raw]) -> Result<List<Rec>, Memory>
        requires ranges { ranges.now ≡ (class_of self.now class).ranges }
        requires values { All (λ raw. length raw.values ≡ length ranges.now) facts.now }
        ensures { IfOk result (λ records. records ≡ map (resolved self.now class) facts.now) }
    {
        let mut records = List::new(self.alloc);
        for raw in facts {
            records.push(self.resolved(class, ranges, raw)?)?;
        }
        Ok(records)
    }

    /// Sets one variable of an entity: to null, or to a live fact of its value class.
    #[inline(always)]
    pub fn set(&mut self, class: u8, id: u32, var: u8, value: Option<u32>)
        requires there { IsSomeAnd (fact_of self.old class id) (λ raw. var < length raw.values) }
        requires value { IsTrue (is_value_of self.old (range_of self.old class var) value) }
        ensures now { self.new ≡ with_value self.old class id var value }
        ensures sound { IsPlan self.new }
    {
        let table = &mut self.tables[class as usize];
        let nullable = table.is_nullable(var as usize);
        let held = table.set(id, var as usize, value);
        self.unplaced = self.unplaced + one_if_missing(nullable, value)
            - one_if_missing(nullable, held);
    }

    /// Sets one field of a fact to a number from -10^9 to 10^9.
    pub fn set_field(&mut self, class: u8, id: u32, field: u8, number: i64)
        requires there { IsSomeAnd (fact_of self.old class id) (λ raw. field < length raw.fields) }
        requires number { IsFieldNumber number }
        ensures now { self.new ≡ with_field self.old class id field number }
        ensures sound { IsPlan self.new }
    {
        let table = &mut self.tables[class as usize];
        table.set_field(id, field as usize, number);
    }

    /// The first fault of a new fact of a class, which must be there.
    #[tactic(auto, unfolding(crate::specs::PlanFaults::add_fault))]
    fn check_new(&self, class: u8, fields: &[i64], values: &[Option<u32>]) -> Result<(), PlanFault>
        requires { class < length self.now.classes }
        ensures fault { result_err result ≡ add_fault self.now class fields.now values.now }
        ensures sound { IsPlan self.now }
    {
        if self.made >= FACT_LIMIT {
            return Err(PlanFault::TooManyFacts);
        }
        let id = self.next_id(class);
        let Some(table) = self.table(class) else {
            unreachable!();
        };
        check_fields(class, id, table.fields(), fields)?;
        check_values(self, class, id, table.ranges(), values)?;
        Ok(())
    }

    /// Adds a fact, not pinned, to a class, which must be there, and gives its id, the class's next one; or the first
    /// fault of these: too many facts, a wrong number of fields, a field out of range, a bad value. The plan stays as it
    /// was then.
    pub fn add(
        &mut self,
        class: u8,
        fields: List<i64>,
        values: List<Option<u32>>,
    ) -> Result<u32, PlanFault>
        requires { class < length self.old.classes }
        ensures id { IfOk result (λ id. id ≡ next_id_of self.old class) }
        ensures ok { OnOk result (add_fault self.old class fields values ≡ None) }
        ensures now { OnOk result (self.new ≡ with_fact self.old class fields values) }
        ensures err { IfErr result (IsRefusal PlanFault.Memory (add_fault self.old class fields values)) }
        ensures unchanged { OnErr result (self.new ≡ self.old) }
        ensures sound { IsPlan self.new }
    {
        self.check_new(class, fields.as_slice(), values.as_slice())?;
        let id = self.next_id(class);
        let missing = self.missing(class, values.as_slice()) as u32;
        let pinned = false;
        let table = &mut self.tables[class as usize];
        table.add(Raw {
            id,
            fields,
            values,
            pinned,
        })?;
        self.made += 1;
        self.unplaced += missing;
        Ok(id)
    }

    /// Removes a fact; each variable that held it becomes null. False, with nothing changed, where it isn't live.
    pub fn remove(&mut self, class: u8, id: u32) -> bool
        ensures live { result ≡ is_live self.old class id }
        ensures removed { OnTrue result (self.new ≡ without_fact self.old class id) }
        ensures unchanged { OnFalse result (self.new ≡ self.old) }
        ensures sound { IsPlan self.new }
    {
        if !self.is_live(class, id) {
            return false;
        }
        let table = &mut self.tables[class as usize];
        table.remove(id);
        let_go_in(&mut self.tables, class, id);
        self.unplaced = count_all_missing(&self.tables);
        true
    }

    /// A copy of the plan.
    pub fn copy(&self) -> Result<Plan, Memory>
        ensures copy { IfOk result (λ copy. copy ≡ self.now) }
        ensures sound { IfOk result IsPlan }
    {
        let mut tables = Vec::new(self.alloc);
        for table in &self.tables {
            tables.push(table.copy()?)?;
        }
        Ok(Plan {
            alloc: self.alloc,
            tables,
            made: self.made,
            unplaced: self.unplaced,
        })
    }
}

mod back;
pub mod putting;
mod refill;
