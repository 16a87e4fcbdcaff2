//! Teams change the plan, the names and the weights.

ghost use Rattle.std.specs.Prelude.{◌≡◌, ◌≤◌, OnOk, false, length};
ghost use Rattle.plan_changes.specs.Fits.{IsOfSchema};
ghost use Rattle.plan_rules.specs.Range.{sizes_of};

use super::{Silent, Trial, are_touched, has_nurses, team_of, try_on_plan};
use crate::worth;
use move_workers::{Kit, Team};
use plan_changes::{Change, Deed, FieldItem, Item, ValueItem};
use plan_facts::{Memory, Names, Text};
use plan_ports::NoGate;
use plan_rules::{Judges, Kept, Rules};
use plan_scores::PlanScore;
use plan_search::Found;
use std::alloc::Global;
use std::test::Fail;
use std::thread::Threads;

/// The most names that there may be before a change.
const MOST_NAMES: u32 = 999_999_984;

/// What a change gives: nothing, the skill of a nurse, the nurse of a shift, or a weight.
#[derive(Clone, Copy, Drop)]
enum Given {
    Nothing,
    Skill(&'static str),
    Nurse(u32),
    Weight(u32),
}

/// A change: its deed, the name of its class or rule, its id and what it gives; and, after it, what the plan is worth at the
/// hard level and how many names there are.
#[derive(Clone, Copy, Drop)]
struct Turn(Deed, &'static str, u32, Given, i64, u32);

use Given::{Nothing, Nurse, Skill, Weight};

// A shift with a nurse counts the rule's weight, at first 1. A nurse who goes is let go by her shifts.
const TURNS: &[Turn] = &[
    Turn(Deed::Remove, "nurse", 3, Nothing, -1, 1),
    Turn(Deed::Add, "nurse", 0, Skill("day"), -1, 2),
    Turn(Deed::Add, "shift", 0, Nurse(2), -2, 2),
    Turn(Deed::Weight, "taken", 0, Weight(5), -10, 2),
];

/// The nurses of the shifts once all turns were taken.
const NURSES: [Option<u32>; 5] = [None, None, Some(1), None, Some(2)];

/// Gives the change what is given; whether it takes it.
fn give(alloc: Global, change: &mut Change, given: Given) -> Result<bool, Memory> {
    match given {
        Nothing => Ok(true),
        Skill(skill) => {
            let name = Text::from_slice(alloc, b"skill")?;
            let item = Item::Name(Text::from_slice(alloc, skill.as_bytes())?);
            change.give_field(FieldItem { name, item })
        }
        Nurse(nurse) => {
            let name = Text::from_slice(alloc, b"nurse")?;
            let value = Some(nurse);
            change.give_value(ValueItem { name, value })
        }
        Weight(weight) => {
            if weight > 1_000_000 {
                return Ok(false);
            }
            change.weight = weight;
            Ok(true)
        }
    }
}

/// The change of a turn, to which nothing is given so far.
fn bare_change(alloc: Global, turn: Turn) -> Result<Change, Memory> {
    let Turn(deed, name, id, _, _, _) = turn;
    let name = Text::from_slice(alloc, name.as_bytes())?;
    let mut change = Change::new(alloc, deed);
    if deed == Deed::Weight {
        change.rule = name;
    } else {
        change.class = name;
    }
    change.id = id;
    Ok(change)
}

/// The change of a turn, if it takes what is given.
fn change_of(alloc: Global, turn: Turn) -> Result<Option<Change>, Memory> {
    let Turn(_, _, _, given, _, _) = turn;
    let mut change = bare_change(alloc, turn)?;
    let taken = give(alloc, &mut change, given)?;
    Ok(if taken { Some(change) } else { None })
}

/// A team makes a change, after which the next one may be made; whether it isn't refused.
fn make(
    team: &mut Team<Silent>,
    kit: &Kit<'_, Silent>,
    names: &mut Names,
    change: &Change,
) -> Result<bool, Memory>
    requires whole { team.old.is_torn ≡ false }
    requires judges { let seen = team.old.worker.director in
        ⟦<Rules<Silent> as Judges>⟧.judges kit.now.rules.now seen.weights (sizes_of seen.plan) }
    requires own { kit.now.rules.now.defs ≡ team.old.worker.director.rules }
    requires schema { IsOfSchema kit.now.schema.now team.old.worker.director.plan }
    ensures whole { OnOk result (team.new.is_torn ≡ false) }
    ensures judges { let seen = team.new.worker.director in
        OnOk result (⟦<Rules<Silent> as Judges>⟧.judges kit.now.rules.now seen.weights (sizes_of seen.plan)) }
    ensures own { OnOk result (kit.now.rules.now.defs ≡ team.new.worker.director.rules) }
    ensures seed { OnOk result (team.new.worker.seed ≡ team.old.worker.seed) }
    ensures schema { OnOk result (IsOfSchema kit.now.schema.now team.new.worker.director.plan) }
{
    if MOST_NAMES < names.count() {
        return Ok(false);
    }
    match team.lead().ready(kit.rules, kit.schema, names, change) {
        Ok(ready) => {
            team.change(kit, names, &ready)?;
            Ok(true)
        }
        Err(_) => Ok(false),
    }
}

/// How many candidates are judged after all turns.
const BATCH: u32 = 16;

/// Whether after a turn the plan is worth what is wanted, and there are as many names.
fn is_turn(turn: Turn, score: PlanScore, names: u32) -> bool {
    let Turn(_, _, _, _, hard, count) = turn;
    score == worth(hard) && names == count
}

/// A team makes the change of a turn, after which the next one may be made; whether it comes to what is wanted.
fn take_turn(
    alloc: Global,
    team: &mut Team<Silent>,
    kit: &Kit<'_, Silent>,
    names: &mut Names,
    turn: Turn,
) -> Result<bool, Memory>
    requires whole { team.old.is_torn ≡ false }
    requires judges { let seen = team.old.worker.director in
        ⟦<Rules<Silent> as Judges>⟧.judges kit.now.rules.now seen.weights (sizes_of seen.plan) }
    requires own { kit.now.rules.now.defs ≡ team.old.worker.director.rules }
    requires schema { IsOfSchema kit.now.schema.now team.old.worker.director.plan }
    ensures whole { OnOk result (team.new.is_torn ≡ false) }
    ensures judges { let seen = team.new.worker.director in
        OnOk result (⟦<Rules<Silent> as Judges>⟧.judges kit.now.rules.now seen.weights (sizes_of seen.plan)) }
    ensures own { OnOk result (kit.now.rules.now.defs ≡ team.new.worker.director.rules) }
    ensures seed { OnOk result (team.new.worker.seed ≡ team.old.worker.seed) }
    ensures schema { OnOk result (IsOfSchema kit.now.schema.now team.new.worker.director.plan) }
{
    let Some(change) = change_of(alloc, turn)? else {
        return Ok(false);
    };
    let made = make(team, kit, names, &change)?;
    Ok(made && is_turn(turn, team.score(), names.count()))
}

/// A team takes some turns; whether each comes to what is wanted.
fn take(
    alloc: Global,
    team: &mut Team<Silent>,
    kit: &Kit<'_, Silent>,
    names: &mut Names,
    turns: &[Turn],
) -> Result<bool, Memory>
    requires whole { team.old.is_torn ≡ false }
    requires judges { let seen = team.old.worker.director in
        ⟦<Rules<Silent> as Judges>⟧.judges kit.now.rules.now seen.weights (sizes_of seen.plan) }
    requires own { kit.now.rules.now.defs ≡ team.old.worker.director.rules }
    requires schema { IsOfSchema kit.now.schema.now team.old.worker.director.plan }
    ensures whole { OnOk result (team.new.is_torn ≡ false) }
    ensures judges { let seen = team.new.worker.director in
        OnOk result (⟦<Rules<Silent> as Judges>⟧.judges kit.now.rules.now seen.weights (sizes_of seen.plan)) }
    ensures own { OnOk result (kit.now.rules.now.defs ≡ team.new.worker.director.rules) }
    ensures seed { OnOk result (team.new.worker.seed ≡ team.old.worker.seed) }
{
    let Some((first, rest)) = turns.split_first() else {
        return Ok(true);
    };
    if !take_turn(alloc, team, kit, names, *first)? {
        return Ok(false);
    }
    take(alloc, team, kit, names, rest)
}

/// Whether, after all turns, the first candidate gives the shift that came the nurse who came.
fn is_last(all: &[Option<Found>]) -> bool {
    match all.first() {
        Some(Some(found)) => {
            found.score == worth(-10) && are_touched(found.touched.as_slice(), 5, None)
        }
        _ => false,
    }
}

/// Names of which the first is that of the nurses' skill.
fn names_of(alloc: Global) -> Result<Names, Fail> {
    let mut names = Names::new(alloc);
    if names.number(b"night")? != 0 {
        return Err("another number".into());
    }
    Ok(names)
}

/// Whether the same was found of a candidate.
fn is_same(one: Option<&Option<Found>>, other: Option<&Option<Found>>) -> bool {
    match (one, other) {
        (Some(Some(one)), Some(Some(other))) => {
            one.score == other.score && one.touched.as_slice() == other.touched.as_slice()
        }
        (Some(None), Some(None)) => true,
        _ => false,
    }
}

/// Whether the lead of a team, to whom a batch of one falls, finds of each of these candidates what was found of it.
fn lead_agrees<T: Threads + Sync>(
    rt: &T,
    team: &mut Team<Silent>,
    kit: &Kit<'_, Silent>,
    all: &[Option<Found>],
) -> Result<bool, Memory>
    requires whole { team.old.is_torn ≡ false }
    requires judges { let seen = team.old.worker.director in
        ⟦<Rules<Silent> as Judges>⟧.judges kit.now.rules.now seen.weights (sizes_of seen.plan) }
    requires own { kit.now.rules.now.defs ≡ team.old.worker.director.rules }
    requires seed { kit.now.seed ≡ team.old.worker.seed }
{
    'alone: for number in 0..BATCH {
        let one = team.judged(rt, kit, &NoGate, 1, number, 1)?;
        if !is_same(one.first(), all.get(number as usize)) {
            return Ok(false);
        }
    }
    Ok(true)
}

/// Whether, after all turns, the shifts have these nurses, and what all workers find of the first candidates is as wanted.
fn ends<T: Threads + Sync>(
    rt: &T,
    team: &mut Team<Silent>,
    kit: &Kit<'_, Silent>,
) -> Result<bool, Memory>
    requires whole { team.old.is_torn ≡ false }
    requires judges { let seen = team.old.worker.director in
        ⟦<Rules<Silent> as Judges>⟧.judges kit.now.rules.now seen.weights (sizes_of seen.plan) }
    requires own { kit.now.rules.now.defs ≡ team.old.worker.director.rules }
    requires seed { kit.now.seed ≡ team.old.worker.seed }
{
    let placed = has_nurses(team.plan(), &NURSES);
    let all = team.judged(rt, kit, &NoGate, 1, 0, BATCH)?;
    let agreed = lead_agrees(rt, team, kit, &all)?;
    Ok(placed && is_last(&all) && agreed)
}

/// Whether a team takes all turns as is wanted.
fn take_all<T: Threads + Sync>(
    rt: &T,
    alloc: Global,
    team: &mut Team<Silent>,
    kit: &Kit<'_, Silent>,
) -> Result<bool, Fail>
    requires whole { team.old.is_torn ≡ false }
    requires judges { let seen = team.old.worker.director in
        ⟦<Rules<Silent> as Judges>⟧.judges kit.now.rules.now seen.weights (sizes_of seen.plan) }
    requires own { kit.now.rules.now.defs ≡ team.old.worker.director.rules }
    requires seed { kit.now.seed ≡ team.old.worker.seed }
    requires schema { IsOfSchema kit.now.schema.now team.old.worker.director.plan }
{
    let mut names = names_of(alloc)?;
    let taken = take(alloc, team, kit, &mut names, TURNS)?;
    let ended = ends(rt, team, kit)?;
    Ok(taken && ended)
}

/// Whether a team of so many workers takes all turns as is wanted, once it has judged so many candidates.
fn try_turns_by<T: Threads + Sync>(
    rt: &T,
    alloc: Global,
    kit: &Kit<'_, Silent>,
    workers: u32,
    before: u32,
) -> Result<bool, Fail>
    requires keeps { ⟦<Rules<Silent> as Kept>⟧.keeps kit.now.rules.now }
    requires workers { (1 ≤ workers) × (workers ≤ 16) }
    requires before { before ≤ 1024 }
{
    let mut team = team_of(alloc, kit, workers)?;
    team.judged(rt, kit, &NoGate, 1, 0, before)?;
    take_all(rt, alloc, &mut team, kit)
}

/// Whether teams of one and of three take all turns as is wanted, the latter also where all of it have worked before.
pub fn try_turns<T: Threads + Sync>(
    rt: &T,
    alloc: Global,
    kit: &Kit<'_, Silent>,
) -> Result<bool, Fail>
    requires { ⟦<Rules<Silent> as Kept>⟧.keeps kit.now.rules.now }
{
    let one = try_turns_by(rt, alloc, kit, 1, 0)?;
    let three = try_turns_by(rt, alloc, kit, 3, 0)?;
    let at_work = try_turns_by(rt, alloc, kit, 3, BATCH)?;
    Ok(one && three && at_work)
}

// Candidate 0 of step 1 gives the third of three pillars the third of four choices, as before the changes; these are nurses
// 1, 2 and 4 and none now, and the pillar is that of the shift that came.
#[test]
fn teams_change(rt: HostRuntime) -> Result<(), Fail> {
    assert!(rt; try_on_plan(&rt, rt.alloc(), Trial::Turns)?);
    Ok(())
}
