//! What there is before a change, to be compared with what there is after it.
ghost use Rattle.std.specs.Prelude.{◌≡◌, ◌<◌, ◌≤◌, length};

use plan_facts::{List, Memory, Names, Plan, Raw, same_numbers};
use plan_rules::{Book, Row, Rules};
use plan_scores::PlanScore;
use score_director::Director;
use std::alloc::Global;

/// A director's plan, how many names there are, what the plan is worth, and the rows of each rule.
pub(super) struct Snapshot {
    plan: Plan,
    names: u32,
    score: PlanScore,
    rows: List<List<Row>>,
}

// Written out, so that its owners let go of it by one call.
impl Drop for Snapshot {
    fn drop(self) {
        let Snapshot {
            plan,
            names: _,
            score: _,
            rows,
        } = self;
        drop(plan);
        drop(rows);
    }
}

/// Whether these are the same values, in the same order.
fn same_values(some: &[Option<u32>], others: &[Option<u32>]) -> bool {
    for (one, other) in some.iter().zip(others) {
        if one != other {
            return false;
        }
    }
    some.len() == others.len()
}

/// Whether two facts are kept alike.
fn same_fact(one: &Raw, other: &Raw) -> bool {
    one.id == other.id
        && one.pinned == other.pinned
        && same_numbers(&one.fields, &other.fields)
        && same_values(one.values.as_slice(), other.values.as_slice())
}

/// Whether these are the same facts, in the same order.
fn same_facts(some: &[Raw], others: &[Raw]) -> bool {
    for (one, other) in some.iter().zip(others) {
        if !same_fact(one, other) {
            return false;
        }
    }
    some.len() == others.len()
}

/// Whether two plans have the same facts, and new ones would get the same ids.
fn same_plan(one: &Plan, other: &Plan) -> bool {
    for class in 0..one.classes() {
        if one.next_id(class) != other.next_id(class)
            || !same_facts(one.facts(class), other.facts(class))
        {
            return false;
        }
    }
    one.classes() == other.classes() && one.made() == other.made()
}

/// Whether these are the same rows, in the same order.
fn same_rows(some: &[Row], others: &[Row]) -> bool {
    for (one, other) in some.iter().zip(others) {
        if !one.same(other) {
            return false;
        }
    }
    some.len() == others.len()
}

/// The rows of each of the first so many rules.
fn rows_of<B: Book>(
    alloc: Global,
    director: &Director<B>,
    count: u8,
) -> Result<List<List<Row>>, Memory>
    requires { count ≤ length director.now.rules }
{
    let mut rows = List::new(alloc);
    for rule in 0..count {
        rows.push(director.matches(rule)?)?;
    }
    Ok(rows)
}

/// Whether a rule has these rows.
fn has_rows<B: Book>(director: &Director<B>, rule: u8, wanted: &[Row]) -> Result<bool, Memory>
    requires { rule < length director.now.rules }
{
    let rows = director.matches(rule)?;
    Ok(same_rows(rows.as_slice(), wanted))
}

/// Whether there are so many rules, and each has these rows.
fn have_rows<B: Book>(
    director: &Director<B>,
    count: u8,
    wanted: &[List<Row>],
) -> Result<bool, Memory>
    requires { count ≤ length director.now.rules }
{
    for rule in 0..count {
        let Some(rows) = wanted.get(rule as usize) else {
            return Ok(false);
        };
        if !has_rows(director, rule, rows.as_slice())? {
            return Ok(false);
        }
    }
    Ok(wanted.len() == count as usize)
}

impl Snapshot {
    /// What there is now.
    pub(super) fn of<B: Book>(
        alloc: Global,
        director: &Director<B>,
        rules: &Rules<B>,
        names: &Names,
    ) -> Result<Snapshot, Memory>
        requires own { rules.now.defs ≡ director.now.rules }
    {
        Ok(Snapshot {
            plan: director.plan().copy()?,
            names: names.count(),
            score: director.score(),
            rows: rows_of(alloc, director, rules.count())?,
        })
    }

    /// Whether all is as it was.
    pub(super) fn stays<B: Book>(
        self,
        director: &Director<B>,
        rules: &Rules<B>,
        names: &Names,
    ) -> Result<bool, Memory>
        requires own { rules.now.defs ≡ director.now.rules }
    {
        let same = self.names == names.count()
            && self.score == director.score()
            && same_plan(&self.plan, director.plan());
        let rows = have_rows(director, rules.count(), self.rows.as_slice())?;
        Ok(same && rows)
    }
}
