ghost use Rattle.std.specs.Prelude.{◌≡◌, ◌≤◌, length, take};
ghost use Rattle.std.specs.List.{list_any};
ghost use Rattle.indictments.specs.Indicts.{fact_at, is_fact, is_fact_at};

use crate::tally::Tally;
use plan_facts::{List, Memory};
use plan_rules::{Match, Part, Row};
use plan_scores::Score;
use std::alloc::Global;
use std::collections::HashMap;
use std::marker::Model;

/// For each fact, by class and id, in how many matches it stands, and the sum of their impacts.
#[derive(Drop)]
pub struct Tallies {
    tallies: HashMap<(u8, u32), Tally>,
}

impl Model for Tallies {
    ghost use Rattle.indictments.specs.Tallies.{Entries};

    ghost Value = { Entries };

    ghost view = { λ all. all.tallies.entries };
}

/// The class and the id of the fact at a place of a row; none where a number stands there, or nothing.
fn fact_at(row: &Row, n: usize) -> Option<(u8, u32)>
    ensures { result ≡ fact_at row.now n }
{
    match row.part(n) {
        Some(Part::Fact(rec)) => Some((rec.class, rec.id)),
        Some(Part::Num(_)) => None,
        None => None,
    }
}

/// Whether this fact of a class is the part at a place of a row.
fn is_fact_at(row: &Row, n: usize, class: u8, id: u32) -> bool
    ensures { result ≡ is_fact_at row.now n class id }
{
    match row.part(n) {
        Some(Part::Fact(rec)) => class == rec.class && id == rec.id,
        _ => false,
    }
}

/// Whether this fact of a class is a part of a row before a place.
fn is_before(row: &Row, n: usize, class: u8, id: u32) -> bool
    requires { n ≤ length row.now }
    ensures { result ≡ list_any (is_fact class id) (take n row.now) }
{
    let mut found = false;
    for place in 0..n {
        found |= is_fact_at(row, place, class, id);
    }
    found
}

impl Tallies {
    ghost use Rattle.std.specs.Prelude.{◌≡◌, ◌<◌, ◌∷◌, [], IfOk, OnOk, length};
    ghost use Rattle.indictments.specs.Indicts.{all_of};
    ghost use Rattle.indictments.specs.Tallies.{AddsAt, AddsPart, AreFew, AreTallies, CountsMore, HasRoomAt, HasRoomFor, TakesOne, tally_in};

    /// No match was counted.
    fn new(alloc: Global) -> Tallies
        ensures { AreTallies result [] }
    {
        Tallies {
            tallies: HashMap::new(alloc),
        }
    }

    /// The tally of a fact of a class; that of no match where it stands in none.
    pub fn get(&self, class: u8, id: u32) -> Tally
        ensures { result ≡ tally_in self.now class id }
    {
        match self.tallies.get(&(class, id)) {
            Some(tally) => *tally,
            None => Tally::none(),
        }
    }

    /// Counts one match more for a fact.
    fn add(&mut self, class: u8, id: u32, impact: &Score) -> Result<(), Memory>
        requires { TakesOne (tally_in self.old class id) impact.now }
        ensures { OnOk result (AddsAt self.old class id impact.now self.new) }
    {
        let tally = self.get(class, id).with_one(impact);
        self.tallies.insert((class, id), tally)?;
        Ok(())
    }

    /// Counts a match for the fact at a place of its row, where that doesn't stand before.
    fn add_part(&mut self, one: &Match, n: usize) -> Result<(), Memory>
        requires there { n < length one.now.row }
        requires room { HasRoomAt self.old one.now n }
        ensures { OnOk result (AddsPart self.old one.now n self.new) }
    {
        let Some((class, id)) = fact_at(&one.row, n) else {
            return Ok(());
        };
        if is_before(&one.row, n, class, id) {
            return Ok(());
        }
        self.add(class, id, &one.impact)?;
        Ok(())
    }

    /// Counts one match more, for each fact that is a part of it.
    fn add_match(&mut self, one: &Match) -> Result<(), Memory>
        requires { HasRoomFor self.old (one.now ∷ []) }
        ensures { OnOk result (CountsMore self.old self.new (one.now ∷ [])) }
    {
        for n in 0..one.row.len() {
            self.add_part(one, n)?;
        }
        Ok(())
    }

    /// Counts some matches more.
    fn add_all(&mut self, matches: &[Match]) -> Result<(), Memory>
        requires { HasRoomFor self.old matches.now }
        ensures { OnOk result (CountsMore self.old self.new matches.now) }
    {
        for one in matches {
            self.add_match(one)?;
        }
        Ok(())
    }

    /// The tallies of the matches of all rules. A match in which a fact stands twice counts once for it.
    pub fn of(alloc: Global, matches: &[List<Match>]) -> Result<Tallies, Memory>
        requires { AreFew (all_of matches.now) }
        ensures { IfOk result (λ tallies. AreTallies tallies (all_of matches.now)) }
    {
        let mut tallies = Tallies::new(alloc);
        for of_rule in matches {
            tallies.add_all(of_rule.as_slice())?;
        }
        Ok(tallies)
    }
}
