//! Looks ahead at a node, as one lesson changes.
ghost use Rattle.std.specs.Prelude.{◌≡◌};
ghost use Rattle.trial_bench.specs.Kept.{AreHandedIn};

use crate::clocked::{no_memory, tenths_since};
use crate::kept::KeptNode;
use crate::school::{School, lesson, nothing};
use plan_facts::{Memory, Rec};
use plan_rules::{Book, Kept, Rules, Steps};
use std::alloc::Global;
use std::io;
use std::rt::Clock;
use std::sync::ledger::Ledger;
use std::time::Instant;
use stream_exists::Asked;
use stream_group::GroupAhead;
use stream_heads::{Cell, Cells, CellsDelta, Heads};
use stream_join::JoinAhead;

/// The lessons change in steps of so many, so that one and the next stand far apart.
const STRIDE: u64 = 7919;

/// What looks note, to be lent again, and the change of which they are taken.
struct Noted {
    join: JoinAhead,
    asked: Asked,
    group: GroupAhead,
    none: CellsDelta,
    left: CellsDelta,
    out: CellsDelta,
}

// Written out, so that its owners let go of it by one call.
impl Drop for Noted {
    fn drop(self) {
        let Noted {
            join,
            asked,
            group,
            none,
            left,
            out,
        } = self;
        drop(join);
        drop(asked);
        drop(group);
        drop(none);
        drop(left);
        drop(out);
    }
}

/// Nothing noted yet.
fn none_noted(alloc: Global) -> Noted {
    Noted {
        join: JoinAhead::new(alloc),
        asked: Asked::new(alloc),
        group: GroupAhead::new(alloc),
        none: nothing(alloc),
        left: nothing(alloc),
        out: nothing(alloc),
    }
}

/// How many rows went and came in all, and how long one look took at each change, in tenths of a nanosecond.
#[derive(Drop)]
pub struct Tally {
    pub gone: u64,
    pub come: u64,
    pub times: Vec<u64>,
}

impl Tally {
    /// Nothing yet.
    fn new(alloc: Global) -> Tally {
        Tally {
            gone: 0,
            come: 0,
            times: Vec::new(alloc),
        }
    }

    /// Takes the rows and the time of one more change.
    fn note(&mut self, out: &CellsDelta, tenths: u64) -> Result<(), Memory> {
        self.gone = self.gone.saturating_add(out.gone.len() as u64);
        self.come = self.come.saturating_add(out.come.len() as u64);
        self.times.push(tenths)?;
        Ok(())
    }

    /// The time in the middle, of which as many are shorter as are longer.
    pub fn middle(&mut self) -> u64 {
        self.times.sort_unstable();
        match self.times.get(self.times.len() / 2) {
            Some(time) => *time,
            None => 0,
        }
    }
}

/// Finds what rows of a node go and come by the change.
fn look<B: Book, L: Ledger>(
    node: &KeptNode,
    rules: &Rules<B>,
    heads: &Heads,
    noted: &mut Noted,
    steps: &mut Steps<L>,
) -> Result<(), Memory>
    requires keeps { ⟦<Rules<B> as Kept>⟧.keeps rules.now }
    requires there { AreHandedIn rules.now.numbers node.now }
{
    let (left, none, out) = (&noted.left, &noted.none, &mut noted.out);
    match node {
        KeptNode::Join(join) => {
            join.ahead(rules, heads, left, left, &mut noted.join, out, steps)
        }
        KeptNode::Exists(exists) => {
            exists.ahead(rules, heads, left, none, &mut noted.asked, out, steps)
        }
        KeptNode::Group(group) => { group.ahead(rules, heads, left, out, &mut noted.group, steps) }
    }
}

/// The same so many times, each time anew.
fn look_often<B: Book, L: Ledger>(
    node: &KeptNode,
    rules: &Rules<B>,
    heads: &Heads,
    looks: u64,
    noted: &mut Noted,
    steps: &mut Steps<L>,
) -> Result<(), Memory>
    requires keeps { ⟦<Rules<B> as Kept>⟧.keeps rules.now }
    requires there { AreHandedIn rules.now.numbers node.now }
{
    for _ in 0..looks {
        noted.out.gone.clear();
        noted.out.come.clear();
        look(node, rules, heads, noted, steps)?;
    }
    Ok(())
}

/// How long one look took.
fn time_of_looks<B: Book, L: Ledger>(
    rt: &impl Clock,
    node: &KeptNode,
    rules: &Rules<B>,
    heads: &Heads,
    looks: u64,
    noted: &mut Noted,
    steps: &mut Steps<L>,
) -> io::Result<u64>
    requires keeps { ⟦<Rules<B> as Kept>⟧.keeps rules.now }
    requires there { AreHandedIn rules.now.numbers node.now }
{
    let start = Instant::now(rt)?;
    look_often(node, rules, heads, looks, noted, steps).map_err(|_| no_memory())?;
    tenths_since(rt, start, looks)
}

/// The old row goes, and the record at a place comes.
fn note_change(noted: &mut Noted, old: &Cells, place: u64) -> Result<(), Memory> {
    noted.left.gone.clear();
    noted.left.come.clear();
    noted.left.gone.push(*old)?;
    noted.left.come.push(Cells::of(&[Cell::Place(place)]))?;
    Ok(())
}

/// How long one look took where a record comes in place of an old row. It is let go again.
fn time_of_change<B: Book, L: Ledger>(
    rt: &impl Clock,
    node: &KeptNode,
    rules: &Rules<B>,
    heads: &mut Heads,
    old: &Cells,
    rec: Rec,
    looks: u64,
    noted: &mut Noted,
    steps: &mut Steps<L>,
) -> io::Result<u64>
    requires keeps { ⟦<Rules<B> as Kept>⟧.keeps rules.now }
    requires there { AreHandedIn rules.now.numbers node.now }
{
    let place = heads.add(rec).map_err(|_| no_memory())?;
    note_change(noted, old, place).map_err(|_| no_memory())?;
    let time = time_of_looks(rt, node, rules, heads, looks, noted, steps)?;
    if heads.head(place).is_some() {
        heads.kill(place);
    }
    Ok(time)
}

/// Takes the rows and the time of the change of one lesson, which moves on by one.
fn try_lesson<B: Book, L: Ledger>(
    rt: &impl Clock,
    alloc: Global,
    node: &KeptNode,
    rules: &Rules<B>,
    school: &mut School,
    id: u32,
    looks: u64,
    noted: &mut Noted,
    tally: &mut Tally,
    steps: &mut Steps<L>,
) -> io::Result<()>
    requires keeps { ⟦<Rules<B> as Kept>⟧.keeps rules.now }
    requires there { AreHandedIn rules.now.numbers node.now }
{
    let Some(old) = school.lessons.come.get(id as usize) else {
        return Ok(());
    };
    let rec = lesson(alloc, school.size, id, 1).map_err(|_| no_memory())?;
    let heads = &mut school.heads;
    let time = time_of_change(rt, node, rules, heads, old, rec, looks, noted, steps)?;
    tally.note(&noted.out, time).map_err(|_| no_memory())
}

/// The lesson that changes at a round, of so many.
fn lesson_at(round: u32, size: u32) -> u32 {
    let id = u64::from(round) * STRIDE % u64::from(size.max(1));
    u32::try_from(id).unwrap_or(0)
}

/// The rows and the times of the changes of all lessons of a school, one after the other, at each of which so many looks
/// are taken.
pub fn try_lessons<B: Book, L: Ledger>(
    rt: &impl Clock,
    alloc: Global,
    node: &KeptNode,
    rules: &Rules<B>,
    school: &mut School,
    looks: u64,
    steps: &mut Steps<L>,
) -> io::Result<Tally>
    requires keeps { ⟦<Rules<B> as Kept>⟧.keeps rules.now }
    requires there { AreHandedIn rules.now.numbers node.now }
{
    let mut noted = none_noted(alloc);
    let mut tally = Tally::new(alloc);
    let size = school.size;
    for round in 0..size {
        let id = lesson_at(round, size);
        try_lesson(
            rt, alloc, node, rules, school, id, looks, &mut noted, &mut tally, steps,
        )?;
    }
    Ok(tally)
}
