//! A fact that is removed, and put back without memory.

ghost use Rattle.std.specs.Prelude.{◌≡◌, ◌≤◌, All, IfOk, IsTrue, length, map};
ghost use Rattle.plan_facts.specs.Plan.{AreIncreasing, IsPlan, PlanView, ids_in, is_live};
ghost use Rattle.plan_facts.specs.PlanBack.{IsRemoved, PutsBack, classes_put, holders_in};

use super::Plan;
use crate::list::List;
use crate::listed::count_all_missing;
use crate::memory::Memory;
use crate::record::Raw;
use crate::table::Table;
use crate::table::putting::{Room, put_records};
use std::alloc::Global;
use std::marker::Model;

/// What puts a fact back once it was removed: its record, the records that hold it, and room for it.
#[derive(Drop)]
pub struct Removal {
    class: u8,
    raw: Raw,
    held: List<List<Raw>>,
    room: Room,
}

impl Model for Removal {
    ghost use Rattle.plan_facts.specs.PlanBack.{RemovalView, removal_view};

    ghost Value = { RemovalView };

    ghost view = { λ removal. removal_view removal.class removal.raw removal.held removal.room };
}

/// The records of each class that hold the fact of this class with this id.
fn all_holders(
    alloc: Global,
    tables: &[Table],
    class: u8,
    id: u32,
) -> Result<List<List<Raw>>, Memory>
    requires { All (λ table. All (λ raw. length raw.values ≡ length table.ranges) table.facts) tables.now }
    ensures { IfOk result (λ held. held ≡ map (holders_in class id) tables.now) }
{
    let mut held = List::new(alloc);
    for table in tables {
        held.push(table.holders(class, id)?)?;
    }
    Ok(held)
}

/// Puts records in the places of those with their ids, a list for each class.
fn put_all(tables: &mut Vec<Table>, held: List<List<Raw>>)
    requires few { length held ≤ length tables.old.items }
    requires increasing { All (λ table. AreIncreasing (ids_in table.facts)) tables.old.items }
    ensures { tables.new.items ≡ classes_put tables.old.items held }
{
    let mut held = held;
    'classes: while let Some(records) = held.pop() {
        put_records(&mut tables[held.len()], records);
    }
}

impl Plan {
    /// What puts a live fact back once it is removed.
    pub fn removal(&self, class: u8, id: u32) -> Result<Removal, Memory>
        requires { IsTrue (is_live self.now class id) }
        ensures puts { IfOk result (λ removal. PutsBack removal self.now class id) }
        ensures sound { IsPlan self.now }
    {
        let Some(raw) = self.raw(class, id) else {
            unreachable!();
        };
        let record = raw.copy(self.alloc)?;
        let held = all_holders(self.alloc, &self.tables, class, id)?;
        let room = self.tables[class as usize].room()?;
        Ok(Removal {
            class,
            raw: record,
            held,
            room,
        })
    }

    /// Puts a fact back that was removed: the plan is as before. That takes no memory.
    pub fn put_back(&mut self, removal: Removal)
        requires { (before : PlanView) × IsRemoved removal before self.old }
        ensures before { (before : PlanView) → IsRemoved removal before self.old → self.new ≡ before }
        ensures sound { IsPlan self.new }
    {
        let Removal {
            class,
            raw,
            held,
            room,
        } = removal;
        put_all(&mut self.tables, held);
        let table = &mut self.tables[class as usize];
        table.put_back(raw, room);
        self.unplaced = count_all_missing(&self.tables);
    }
}
