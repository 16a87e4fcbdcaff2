//! The steps of which making a change consists.

ghost use Rattle.std.specs.Prelude.{◌≡◌, ◌≤◌, ◌<◌, IsTrue, IsSomeAnd, IfOk, OnOk, OnErr, length, map, take};
ghost use Rattle.plan_facts.specs.Limits.{field_limit};
ghost use Rattle.plan_facts.specs.Names.{number_of, with_name};
ghost use Rattle.plan_facts.specs.Plan.{fact_of, range_of};
ghost use Rattle.plan_facts.specs.PlanChanges.{with_fact};
ghost use Rattle.plan_facts.specs.declared.fault.PlanFault.TheVariants as PlanFault;
ghost use Rattle.plan_changes.specs.Named.{value_given};
ghost use Rattle.plan_changes.specs.Performed.{altered, assigned, is_in_range, item_number, number_given, numbered, text_in, texts_in, with_choice, with_item, FitsClass, IsChoice, IsNext, IsThere};

use crate::change::Item;
use crate::named::value_given;
use crate::ready::Ready;
use plan_facts::{List, Memory, Names, Plan, PlanFault};
use std::alloc::Global;

/// Numbers a text, unless it has a number.
fn number_text(names: &mut Names, text: &[u8]) -> Result<(), Memory>
    requires { length (with_name names.old text.now) ≤ field_limit }
    ensures ok { OnOk result (names.new ≡ with_name names.old text.now) }
    ensures err { OnErr result (names.new ≡ names.old) }
{
    match names.find(text) {
        Some(_) => {}
        None => {
            names.number(text)?;
        }
    }
    Ok(())
}

/// Numbers the name that a field gets, if it gets one.
fn number_name(names: &mut Names, item: &Option<Item>) -> Result<(), Memory>
    requires { length (numbered names.old (text_in item.now)) ≤ field_limit }
    ensures ok { OnOk result (names.new ≡ numbered names.old (text_in item.now)) }
    ensures err { OnErr result (names.new ≡ names.old) }
{
    match item {
        Some(Item::Name(text)) => number_text(names, text.as_slice()),
        Some(Item::Num(_)) => Ok(()),
        None => Ok(()),
    }
}

/// Numbers the names that fields get, in the order of the fields. At want of memory some may be numbered.
pub fn number_names(names: &mut Names, items: &[Option<Item>]) -> Result<(), Memory>
    requires { length (numbered names.old (texts_in items.now)) ≤ field_limit }
    ensures ok { OnOk result (names.new ≡ numbered names.old (texts_in items.now)) }
    ensures behind { take (length names.old) names.new ≡ names.old }
{
    for item in items {
        number_name(names, item)?;
    }
    Ok(())
}

/// The number of the text, which is the next one where it has none.
fn number_of(names: &Names, text: &[u8]) -> u32
    ensures { result ≡ number_of names.now text.now }
{
    match names.find(text) {
        Some(number) => number,
        None => names.count(),
    }
}

/// What a field gets: the number, or the number of the name.
fn item_number(names: &Names, item: &Item) -> i64
    ensures { result ≡ item_number names.now item.now }
{
    match item {
        Item::Num(number) => *number,
        Item::Name(text) => i64::from(number_of(names, text.as_slice())),
    }
}

/// What a field of a new fact holds.
fn number_given(names: &Names, item: &Option<Item>) -> i64
    ensures { result ≡ number_given names.now item.now }
{
    match item {
        Some(item) => item_number(names, item),
        None => 0,
    }
}

/// What the fields of a new fact hold.
fn numbers_given(alloc: Global, names: &Names, items: &[Option<Item>]) -> Result<List<i64>, Memory>
    ensures { IfOk result (λ numbers. numbers ≡ map (number_given names.now) items.now) }
{
    let mut numbers = List::new(alloc);
    for item in items {
        numbers.push(number_given(names, item))?;
    }
    Ok(numbers)
}

/// What the variables of a new fact hold.
fn values_given(alloc: Global, values: &[Option<Option<u32>>]) -> Result<List<Option<u32>>, Memory>
    ensures { IfOk result (λ given. given ≡ map value_given values.now) }
{
    let mut given = List::new(alloc);
    for value in values {
        given.push(value_given(*value))?;
    }
    Ok(given)
}

/// Want of memory, which is the one fault that a plan can have where a change may be made.
fn want_of(fault: PlanFault) -> Memory
    requires { fault ≡ PlanFault.Memory }
{
    let _ = fault;
    Memory
}

/// Gives a field of a fact what it gets, if anything.
fn set_item(plan: &mut Plan, names: &Names, class: u8, id: u32, field: u8, item: &Option<Item>)
    requires there { IsSomeAnd (fact_of plan.old class id) (λ raw. field < length raw.fields) }
    requires range { IsTrue (is_in_range item.now) }
    requires few { length names.now ≤ field_limit }
    ensures { plan.new ≡ with_item names.now class id plan.old (field, item.now) }
{
    if let Some(item) = item {
        plan.set_field(class, id, field, item_number(names, item));
    }
}

/// Gives a variable of a fact what it gets, if anything.
fn set_choice(plan: &mut Plan, class: u8, id: u32, var: u8, value: Option<Option<u32>>)
    requires there { IsSomeAnd (fact_of plan.old class id) (λ raw. var < length raw.values) }
    requires value { IsChoice plan.old (range_of plan.old class var) value }
    ensures { plan.new ≡ with_choice class id plan.old (var, value) }
{
    if let Some(value) = value {
        plan.set(class, id, var, value);
    }
}

impl Ready {
    /// Makes the new fact, with the numbers that its names have.
    pub(crate) fn add(&self, plan: &mut Plan, names: &Names) -> Result<(), Memory>
        requires fits { FitsClass self.now plan.old }
        requires next { IsNext self.now plan.old }
        requires few { length names.now ≤ field_limit }
        ensures ok { let fields = map (number_given names.now) self.now.fields in
            let values = map value_given self.now.values in
            OnOk result (plan.new ≡ with_fact plan.old self.now.class fields values) }
        ensures err { OnErr result (plan.new ≡ plan.old) }
    {
        let fields = numbers_given(self.alloc, names, self.fields.as_slice())?;
        let values = values_given(self.alloc, self.values.as_slice())?;
        match plan.add(self.class, fields, values) {
            Ok(_) => Ok(()),
            Err(fault) => Err(want_of(fault)),
        }
    }

    /// Gives each field of the fact what it gets, if anything.
    pub(crate) fn alter(&self, plan: &mut Plan, names: &Names)
        requires fits { FitsClass self.now plan.old }
        requires there { IsThere self.now plan.old }
        requires few { length names.now ≤ field_limit }
        ensures { plan.new ≡ altered names.now self.now.class self.now.id self.now.fields plan.old }
    {
        let items = self.fields.as_slice();
        for place in 0..items.len() {
            set_item(plan, names, self.class, self.id, place as u8, &items[place]);
        }
    }

    /// Gives each variable of the fact what it gets, if anything.
    pub(crate) fn assign(&self, plan: &mut Plan)
        requires fits { FitsClass self.now plan.old }
        requires there { IsThere self.now plan.old }
        ensures { plan.new ≡ assigned self.now.class self.now.id self.now.values plan.old }
    {
        let values = self.values.as_slice();
        for place in 0..values.len() {
            set_choice(plan, self.class, self.id, place as u8, values[place]);
        }
    }
}
