ghost use Rattle.std.specs.Prelude.{◌≡◌, ◌≢◌, if◌then◌else◌, Bool, false, zip, ◌<◌, ◌+◌, ℕ, List, ◌∷◌, [], ◌++◌, length, None, Some, MatchOption, IsSomeAnd, All, slice_index, slice_index_or, slice_set, option_copied, ◌^◌, max, fold, nat_eq, map, is_some, IsTrue, IfOk, OnOk, OnErr, slice_get, ◌-◌};
ghost use Rattle.std.specs.List.{IsDistinct};
ghost use Rattle.plan_facts.specs.Plan.{record_with_id, ids_in, is_missing, missing_in, nulls_in, AreIncreasing, IsPlaceIn, IsPlaceOf};
ghost use Rattle.plan_facts.specs.PlanFaults.{table_of};
ghost use Rattle.plan_facts.specs.PlanChanges.{HasValue, raw_with_value, raw_with_field, with_next, with_record, without_record, let_go, record_let_go, class_let_go};
ghost use Rattle.plan_facts.specs.PlanBack.{record_like, without_last};

use crate::list::List;
use crate::memory::Memory;
use crate::record::Raw;
use std::alloc::Global;
use std::marker::Model;

/// The live records of one class, found by their ids.
#[derive(Drop)]
pub struct Table {
    fields: usize,
    ranges: List<u8>,
    nullables: List<bool>,
    ids: Vec<u32>,
    facts: Vec<Raw>,
    greatest: u32,
}

impl Model for Table {
    ghost use Rattle.std.specs.Prelude.{◌≡◌};
    ghost use Rattle.plan_facts.specs.Plan.{ClassView, view_of, ids_in};

    ghost Value = { ClassView };

    ghost view = { λ table. view_of table.fields table.ranges table.nullables table.facts.items table.greatest };

    ghost invariant = { λ table. table.ids.items ≡ ids_in table.facts.items };
}

/// The place of an id among increasing ids; none where it isn't there. Ids that run from 1 without a gap are found at
/// once.
fn place_of(ids: &[u32], id: u32) -> Option<usize>
    requires { AreIncreasing ids.now }
    ensures { MatchOption result (All (λ other. other ≢ id) ids.now) (IsPlaceIn ids.now id) }
{
    let guess = (id as usize).saturating_sub(1);
    if guess < ids.len() && ids[guess] == id {
        return Some(guess);
    }
    match ids.binary_search(&id) {
        Ok(place) => Some(place),
        Err(_) => None,
    }
}

/// The greatest of some ids, 0 where there are none.
fn greatest_of(ids: &[u32]) -> u32
    ensures { result ≡ fold max 0 ids.now }
{
    let mut greatest = 0;
    for id in ids {
        greatest = (*id).max(greatest);
    }
    greatest
}

/// 1 where the value of a variable that is nullable or not is missing, else 0.
pub fn one_if_missing(nullable: bool, value: Option<u32>) -> u32
    ensures { result ≡ (if is_missing (nullable, value) then 1 else 0) }
{
    if nullable || value.is_some() { 0 } else { 1 }
}

/// How many values are missing, where these variables may stay null.
pub fn count_missing(nullables: &[bool], values: &[Option<u32>]) -> usize
    ensures { result ≡ missing_in nullables.now values.now }
{
    let mut missing = 0;
    for var in 0..nullables.len().min(values.len()) {
        missing += one_if_missing(nullables[var], values[var]) as usize;
    }
    missing
}

/// Sets one variable of a record, and gives what it held.
fn set_value(raw: &mut Raw, var: usize, value: Option<u32>) -> Option<u32>
    requires { var < length raw.old.values }
    ensures held { HasValue var result raw.old }
    ensures now { raw.new ≡ raw_with_value var value raw.old }
{
    std::mem::replace(&mut raw.values.as_mut_slice()[var], value)
}

/// Sets one field of a record.
fn set_number(raw: &mut Raw, field: usize, number: i64)
    requires { field < length raw.old.fields }
    ensures { raw.new ≡ raw_with_field field number raw.old }
{
    raw.fields.as_mut_slice()[field] = number;
}

/// What a variable with this value class holds once the fact of the class with this id is gone.
fn held_after(class: u8, id: u32, range: u8, value: Option<u32>) -> Option<u32>
    ensures { result ≡ let_go class id range value }
{
    match value {
        Some(held) if range == class && held == id => None,
        _ => value,
    }
}

/// Makes each variable of a record null that holds the fact of this class with this id.
fn let_go_one(ranges: &[u8], raw: &mut Raw, class: u8, id: u32)
    requires { length raw.old.values ≡ length ranges.now }
    ensures { raw.new ≡ record_let_go class id ranges.now raw.old }
{
    let values = raw.values.as_mut_slice();
    for var in 0..ranges.len() {
        let held = values[var];
        values[var] = held_after(class, id, ranges[var], held);
    }
}

/// Makes each variable of some records null that holds the fact of this class with this id.
fn let_go_all(ranges: &[u8], facts: &mut Vec<Raw>, class: u8, id: u32)
    requires { All (λ raw. length raw.values ≡ length ranges.now) facts.old.items }
    ensures { facts.new.items ≡ map (record_let_go class id ranges.now) facts.old.items }
{
    for raw in facts.iter_mut() {
        let_go_one(ranges, raw, class, id);
    }
}

impl Table {
    /// A table of records whose ids differ.
    pub fn of(
        alloc: Global,
        fields: usize,
        ranges: List<u8>,
        nullables: List<bool>,
        raws: List<Raw>,
    ) -> Result<Table, Memory>
        requires { IsDistinct nat_eq (ids_in raws) }
        ensures { IfOk result (λ table. table ≡ table_of fields ranges nullables raws) }
    {
        let mut facts = raws.into_items();
        facts.sort_unstable_by_key(|raw| raw.id);
        let ids: Vec<u32> = facts.iter().map(|raw| raw.id).collect(alloc)?;
        let greatest = greatest_of(&ids);
        Ok(Table {
            fields,
            ranges,
            nullables,
            ids,
            facts,
            greatest,
        })
    }

    /// How many values of the records are missing.
    pub fn missing_count(&self) -> usize
        requires { nulls_in self.now.nullables self.now.facts < 2 ^ 32 }
        ensures { result ≡ nulls_in self.now.nullables self.now.facts }
    {
        let nullables = self.nullables.as_slice();
        if nullables.is_empty() {
            return 0;
        }
        let mut missing = 0;
        for raw in &self.facts {
            missing += count_missing(nullables, raw.values.as_slice());
        }
        missing
    }

    /// How many fields a record of the class has.
    pub fn fields(&self) -> usize
        ensures { result ≡ self.now.fields }
    {
        self.fields
    }

    /// The value class of each variable of the class.
    pub fn ranges(&self) -> &[u8]
        ensures { result.now ≡ self.now.ranges }
    {
        self.ranges.as_slice()
    }

    /// Whether each variable of the class may stay null.
    pub fn nullables(&self) -> &[bool]
        ensures { result.now ≡ self.now.nullables }
    {
        self.nullables.as_slice()
    }

    /// Whether this variable of the class may stay null.
    pub fn is_nullable(&self, var: usize) -> bool
        ensures { result ≡ slice_index_or self.now.nullables var false }
    {
        match self.nullables.get(var) {
            Some(nullable) => *nullable,
            None => false,
        }
    }

    /// The live records, the ids increasing.
    pub fn facts(&self) -> &[Raw]
        ensures { result.now ≡ self.now.facts }
    {
        &self.facts
    }

    /// The ids of the live records, increasing.
    pub fn ids(&self) -> &[u32]
        ensures { result.now ≡ ids_in self.now.facts }
    {
        &self.ids
    }

    /// The greatest id ever used, 0 where none was.
    pub fn greatest(&self) -> u32
        ensures { result ≡ self.now.greatest }
    {
        self.greatest
    }

    /// The place of the live record with this id.
    fn place(&self, id: u32) -> Option<usize>
        requires { AreIncreasing (ids_in self.now.facts) }
        ensures { MatchOption result (record_with_id id self.now.facts ≡ None) (IsPlaceOf self.now.facts id) }
    {
        place_of(&self.ids, id)
    }

    /// The live record with this id.
    pub fn get(&self, id: u32) -> Option<&Raw>
        requires { AreIncreasing (ids_in self.now.facts) }
        ensures { option_copied result ≡ record_with_id id self.now.facts }
    {
        match self.place(id) {
            Some(place) => Some(&self.facts[place]),
            None => None,
        }
    }

    /// Sets one variable of the record with this id, and gives what it held.
    pub fn set(&mut self, id: u32, var: usize, value: Option<u32>) -> Option<u32>
        requires increasing { AreIncreasing (ids_in self.old.facts) }
        requires there { IsSomeAnd (record_with_id id self.old.facts) (λ raw. var < length raw.values) }
        ensures held { IsSomeAnd (record_with_id id self.old.facts) (HasValue var result) }
        ensures now { self.new ≡ with_record self.old id (raw_with_value var value) }
    {
        match self.place(id) {
            Some(place) => {
                let raw = &mut self.facts[place];
                set_value(raw, var, value)
            }
            None => unreachable!(),
        }
    }

    /// Sets one field of the record with this id.
    pub fn set_field(&mut self, id: u32, field: usize, number: i64)
        requires increasing { AreIncreasing (ids_in self.old.facts) }
        requires there { IsSomeAnd (record_with_id id self.old.facts) (λ raw. field < length raw.fields) }
        ensures { self.new ≡ with_record self.old id (raw_with_field field number) }
    {
        match self.place(id) {
            Some(place) => {
                let raw = &mut self.facts[place];
                set_number(raw, field, number);
            }
            None => unreachable!(),
        }
    }

    /// Appends a record with a new greatest id. At want of memory the table stays as it was.
    pub fn add(&mut self, raw: Raw) -> Result<(), Memory>
        ensures ok { OnOk result (self.new ≡ with_next self.old raw) }
        ensures err { OnErr result (self.new ≡ self.old) }
    {
        let id = raw.id;
        self.ids.reserve(1)?;
        self.facts.push(raw)?;
        self.ids.push_reserved(id);
        self.greatest = id;
        Ok(())
    }

    /// Takes the record with this id out.
    pub fn remove(&mut self, id: u32)
        requires increasing { AreIncreasing (ids_in self.old.facts) }
        requires there { IsTrue (is_some (record_with_id id self.old.facts)) }
        ensures { self.new ≡ without_record self.old id }
    {
        match self.place(id) {
            Some(place) => {
                self.ids.remove(place);
                self.facts.remove(place);
            }
            None => unreachable!(),
        }
    }

    /// Puts a record in the place of the one with its id, and gives that.
    pub fn replace(&mut self, raw: Raw) -> Raw
        requires increasing { AreIncreasing (ids_in self.old.facts) }
        requires there { IsTrue (is_some (record_with_id raw.id self.old.facts)) }
        ensures was { record_with_id raw.id self.old.facts ≡ Some result }
        ensures now { self.new ≡ with_record self.old raw.id (record_like raw) }
    {
        match self.place(raw.id) {
            Some(place) => {
                let record = &mut self.facts[place];
                std::mem::replace(record, raw)
            }
            None => unreachable!(),
        }
    }

    /// How many values of the last record are missing.
    pub fn last_missing(&self) -> usize
        requires { 0 < length self.now.facts }
        ensures { let last = slice_get self.now.facts (length self.now.facts - 1) in
            IsSomeAnd last (λ raw. result ≡ missing_in self.now.nullables raw.values) }
    {
        let last = &self.facts[self.facts.len() - 1];
        count_missing(self.nullables.as_slice(), last.values.as_slice())
    }

    /// Takes the last record out, as if it had never been made.
    pub fn take_last_back(&mut self)
        requires some { 0 < length self.old.facts }
        requires made { 0 < self.old.greatest }
        ensures { self.new ≡ without_last self.old }
    {
        let rest = self.facts.len() - 1;
        self.ids.truncate(rest);
        self.facts.truncate(rest);
        self.greatest -= 1;
    }

    /// Makes each variable null that holds the fact of this class with this id. Nothing is looked at where no variable
    /// can hold it.
    pub fn let_go(&mut self, class: u8, id: u32)
        requires { All (λ raw. length raw.values ≡ length self.old.ranges) self.old.facts }
        ensures { self.new ≡ class_let_go class id self.old }
    {
        let ranges = self.ranges.as_slice();
        if ranges.contains(&class) {
            let_go_all(ranges, &mut self.facts, class, id);
        }
    }

    /// A copy of the table.
    pub fn copy(&self) -> Result<Table, Memory>
        ensures { IfOk result (λ copy. copy ≡ self.now) }
    {
        let alloc = *self.ids.allocator();
        let mut facts = Vec::new(alloc);
        for raw in &self.facts {
            facts.push(raw.copy(alloc)?)?;
        }
        Ok(Table {
            fields: self.fields,
            ranges: self.ranges.copy(alloc)?,
            nullables: self.nullables.copy(alloc)?,
            ids: Vec::from_slice(alloc, &self.ids)?,
            facts,
            greatest: self.greatest,
        })
    }
}

pub mod putting;
