//! Records that are resolved into lent ones, in the memory that those have.

ghost use Rattle.std.specs.Prelude.{◌≡◌, IfOk, OnOk, IsTrue, Some, length};
ghost use Rattle.plan_facts.specs.Plan.{IsPlan, class_of, is_live, held_value, held_values, record_of, resolved, value_of};

use super::Plan;
use crate::list::List;
use crate::memory::Memory;
use crate::record::{Raw, Rec, Value};
use std::alloc::Global;

/// Makes a value that of this fact.
fn refill_value(value: &mut Value, raw: &Raw) -> Result<(), Memory>
    ensures { OnOk result (value.new ≡ value_of raw.now) }
{
    value.id = raw.id;
    value.fields.refill(raw.fields.as_slice())
}

/// The value that this fact is.
fn new_value(alloc: Global, raw: &Raw) -> Result<Value, Memory>
    ensures { IfOk result (λ value. value ≡ value_of raw.now) }
{
    Ok(Value {
        id: raw.id,
        fields: raw.fields.copy(alloc)?,
    })
}

/// Makes a variable hold this fact.
fn refill_held(alloc: Global, held: &mut Option<Value>, raw: &Raw) -> Result<(), Memory>
    ensures { OnOk result (held.new ≡ Some (value_of raw.now)) }
{
    if let Some(value) = held {
        return refill_value(value, raw);
    }
    *held = Some(new_value(alloc, raw)?);
    Ok(())
}

impl Plan {
    /// Makes a variable hold what it holds here, in the memory that it has.
    fn refill_variable(
        &self,
        range: u8,
        value: Option<u32>,
        held: &mut Option<Value>,
    ) -> Result<(), Memory>
        ensures { OnOk result (held.new ≡ held_value self.now range value) }
    {
        let fact = match value {
            Some(id) => self.raw(range, id),
            None => None,
        };
        match fact {
            Some(raw) => refill_held(self.alloc, held, raw),
            None => {
                *held = None;
                Ok(())
            }
        }
    }

    /// Makes as many variables as there are hold what they hold here, in the memory that they have.
    fn refill_planned(
        &self,
        ranges: &[u8],
        values: &[Option<u32>],
        planned: &mut List<Option<Value>>,
    ) -> Result<(), Memory>
        requires values { length values.now ≡ length ranges.now }
        requires planned { length planned.old ≡ length ranges.now }
        ensures { OnOk result (planned.new ≡ held_values self.now ranges.now values.now) }
    {
        let planned = planned.as_mut_slice();
        for var in 0..ranges.len() {
            self.refill_variable(ranges[var], values[var], &mut planned[var])?;
        }
        Ok(())
    }

    /// Makes a record that of this fact, with the whole value of each of its variables.
    fn refill(&self, class: u8, ranges: &[u8], raw: &Raw, into: &mut Rec) -> Result<(), Memory>
        requires ranges { ranges.now ≡ (class_of self.now class).ranges }
        requires values { length raw.now.values ≡ length ranges.now }
        ensures { OnOk result (into.new ≡ resolved self.now class raw.now) }
    {
        into.class = class;
        into.id = raw.id;
        into.fields.refill(raw.fields.as_slice())?;
        if into.planned.len() != ranges.len() {
            into.planned = self.planned(ranges, raw.values.as_slice())?;
            return Ok(());
        }
        self.refill_planned(ranges, raw.values.as_slice(), &mut into.planned)
    }

    /// Makes a lent record the live fact of a class with this id, with the whole value of each of its variables, in the
    /// memory that the record has where that serves. False where there is no such fact; what the record holds then, and
    /// at want of memory, isn't told.
    #[tactic(auto, unfolding(crate::specs::Plan::record_of))]
    pub fn resolve_into(&self, class: u8, id: u32, into: &mut Rec) -> Result<bool, Memory>
        ensures found { IfOk result (λ found. found ≡ is_live self.now class id) }
        ensures record { IfOk result (λ found. IsTrue found → record_of self.now class id ≡ Some into.new) }
        ensures sound { IsPlan self.now }
    {
        let Some(table) = self.table(class) else {
            return Ok(false);
        };
        let Some(raw) = table.get(id) else {
            return Ok(false);
        };
        self.refill(class, table.ranges(), raw, into)?;
        Ok(true)
    }
}
