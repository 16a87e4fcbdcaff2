//! Records of a class that are put back where they were.

ghost use Rattle.std.specs.Prelude.{◌≡◌, ◌++◌, [], ◌<◌, ◌≤◌, false, zip, length, All, IfOk, OnOk, vec_capacity, vec_len};
ghost use Rattle.std.specs.List.{insert, list_any};
ghost use Rattle.plan_facts.specs.Plan.{AreIncreasing, ids_in};
ghost use Rattle.plan_facts.specs.PlanChanges.{with_record};
ghost use Rattle.plan_facts.specs.PlanBack.{holder_of, holders_in, holds, lower_than, record_holds, record_like, with_back, with_records};

use super::Table;
use crate::list::List;
use crate::memory::Memory;
use crate::record::Raw;
use std::alloc::Global;
use std::marker::Model;

/// Room for so many records of a class.
#[derive(Drop)]
pub struct Room {
    ids: Vec<u32>,
    facts: Vec<Raw>,
}

impl Model for Room {
    ghost use Rattle.std.specs.Prelude.{◌≡◌, ℕ, [], vec_capacity};
    ghost use Rattle.plan_facts.specs.PlanBack.{AreEmpty};

    ghost Value = { ℕ };

    ghost view = { λ room. vec_capacity room.facts };

    ghost invariant = { λ room. AreEmpty room.ids.items room.facts.items
        × (vec_capacity room.ids ≡ vec_capacity room.facts) };
}

/// Whether a variable, with this value class, holds the fact of this class with this id.
fn is_held(class: u8, id: u32, range: u8, value: Option<u32>) -> bool
    ensures { result ≡ holds class id range value }
{
    match value {
        Some(held) => range == class && held == id,
        None => false,
    }
}

/// Whether a variable of a record, with these value classes, holds the fact of this class with this id.
fn is_holder(class: u8, id: u32, ranges: &[u8], raw: &Raw) -> bool
    requires { length raw.now.values ≡ length ranges.now }
    ensures { result ≡ record_holds class id ranges.now raw.now }
{
    let values = raw.values.as_slice();
    for var in 0..ranges.len() {
        if is_held(class, id, ranges[var], values[var]) {
            return true;
        }
    }
    false
}

/// Keeps a copy of a record, if it holds the fact of this class with this id.
fn keep_holder(
    alloc: Global,
    held: &mut List<Raw>,
    class: u8,
    id: u32,
    ranges: &[u8],
    raw: &Raw,
) -> Result<(), Memory>
    requires { length raw.now.values ≡ length ranges.now }
    ensures { OnOk result (held.new ≡ held.old ++ holder_of class id ranges.now raw.now) }
{
    if !is_holder(class, id, ranges, raw) {
        return Ok(());
    }
    held.push(raw.copy(alloc)?)?;
    Ok(())
}

/// Moves all ids into room, with one more among them. That takes no memory.
fn insert_id(ids: &mut Vec<u32>, room: Vec<u32>, place: usize, id: u32)
    requires empty { room.items ≡ [] }
    requires room { vec_len ids.old < vec_capacity room }
    requires place { place ≤ vec_len ids.old }
    ensures { ids.new.items ≡ insert ids.old.items place id }
{
    let mut room = room;
    let Ok(()) = room.append(ids) else {
        unreachable!();
    };
    let Ok(()) = room.insert(place, id) else {
        unreachable!();
    };
    *ids = room;
}

/// Moves all records into room, with one more among them. That takes no memory.
fn insert_record(facts: &mut Vec<Raw>, room: Vec<Raw>, place: usize, raw: Raw)
    requires empty { room.items ≡ [] }
    requires room { vec_len facts.old < vec_capacity room }
    requires place { place ≤ vec_len facts.old }
    ensures { facts.new.items ≡ insert facts.old.items place raw }
{
    let mut room = room;
    let Ok(()) = room.append(facts) else {
        unreachable!();
    };
    let Ok(()) = room.insert(place, raw) else {
        unreachable!();
    };
    *facts = room;
}

/// How many ids are lower than this one.
fn count_lower(ids: &[u32], id: u32) -> usize
    ensures { result ≡ lower_than id ids.now }
{
    ids.iter().filter(|other| **other < id).count()
}

/// Puts records in the places of those with their ids.
pub fn put_records(table: &mut Table, records: List<Raw>)
    requires { AreIncreasing (ids_in table.old.facts) }
    ensures { table.new ≡ with_records table.old records }
{
    let mut records = records;
    'records: while let Some(raw) = records.pop() {
        table.put(raw);
    }
}

impl Table {
    /// The records that hold the fact of this class with this id.
    pub fn holders(&self, class: u8, id: u32) -> Result<List<Raw>, Memory>
        requires { All (λ raw. length raw.values ≡ length self.now.ranges) self.now.facts }
        ensures { IfOk result (λ held. held ≡ holders_in class id self.now) }
    {
        let alloc = *self.ids.allocator();
        let mut held = List::new(alloc);
        let ranges = self.ranges.as_slice();
        if !ranges.contains(&class) {
            return Ok(held);
        }
        for raw in &self.facts {
            keep_holder(alloc, &mut held, class, id, ranges, raw)?;
        }
        Ok(held)
    }

    /// Room for as many records as there are.
    pub fn room(&self) -> Result<Room, Memory>
        ensures { IfOk result (λ room. room ≡ length self.now.facts) }
    {
        let alloc = *self.ids.allocator();
        let count = self.facts.len();
        let ids = Vec::with_capacity(alloc, count)?;
        let facts = Vec::with_capacity(alloc, count)?;
        Ok(Room { ids, facts })
    }

    /// Puts a record in the place of the one with its id, if there is one.
    pub fn put(&mut self, raw: Raw)
        requires { AreIncreasing (ids_in self.old.facts) }
        ensures { self.new ≡ with_record self.old raw.id (record_like raw) }
    {
        if self.get(raw.id).is_some() {
            let _was = self.replace(raw);
        }
    }

    /// Puts a record back behind those with lower ids, in the room that there is for it. That takes no memory.
    pub fn put_back(&mut self, raw: Raw, room: Room)
        requires { length self.old.facts < room }
        ensures { self.new ≡ with_back self.old raw }
    {
        let Room { ids, facts } = room;
        let id = raw.id;
        let place = count_lower(&self.ids, id);
        insert_id(&mut self.ids, ids, place, id);
        insert_record(&mut self.facts, facts, place, raw);
    }
}
