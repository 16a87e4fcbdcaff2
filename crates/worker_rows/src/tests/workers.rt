ghost use Rattle.std.specs.Prelude.{◌≡◌, ◌≤◌, IfOk, OnOk, false};
ghost use Rattle.plan_changes.specs.Fits.{IsOfSchema};
ghost use Rattle.plan_rules.specs.Range.{sizes_of};
ghost use Rattle.score_director.specs.View.{at_rest};

mod changes;

use super::gates::HoldingGate;
use crate::worth;
use changes::try_turns;
use move_workers::{Kit, Team, Worker, director_alone};
use plan_facts::{Kind, List, Memory, Plan, Raw, Schema, Text};
use plan_moves::{Edit, Set, Touch};
use plan_ports::NoGate;
use plan_rules::{Book, Head, Judges, Kept, RuleDef, Rules};
use plan_scores::{Level, PlanScore};
use plan_search::Found;
use plan_settings::Selector;
use score_director::Director;
use std::alloc::Global;
use std::test::Fail;
use std::thread::Threads;
use test_plans::FactSketch::{Entity, Fact};
use test_plans::VarSketch::Nullable;
use test_plans::{ClassSketch, FactSketch, plan_of, schema_of};

const SHIFT: u8 = 1;

/// The book of rules that ask no closure.
#[derive(Drop)]
struct Silent;

impl Book for Silent {
    ghost use Rattle.std.specs.Prelude.{pos, false};

    ghost meaning = { record { test_of = λ _ _. false; key_of = λ _ _. pos 0; weight_of = λ _ _. 0 } };
}

/// Nurses with a skill, and shifts with a nurse or without.
const CLASSES: &[ClassSketch] = &[
    ClassSketch("nurse", &[("skill", Kind::Name)], &[]),
    ClassSketch("shift", &[], &[Nullable("nurse", 0)]),
];

/// Nurses 1 to 3, and shifts 1 to 4, of which the first is nurse 3's and the third nurse 1's.
const FACTS: &[&[FactSketch]] = &[
    &[Fact(1, &[0]), Fact(2, &[0]), Fact(3, &[0])],
    &[
        Entity(1, &[], &[Some(3)]),
        Entity(2, &[], &[None]),
        Entity(3, &[], &[Some(1)]),
        Entity(4, &[], &[None]),
    ],
];

/// The classes.
fn schema(alloc: Global) -> Result<Schema, Fail> {
    Ok(schema_of(alloc, CLASSES)?)
}

/// One rule: each shift with a nurse is a penalty of 1.
fn rules_of(alloc: Global, schema: &Schema) -> Result<Rules<Silent>, Fail>
    ensures { IfOk result (λ rules. ⟦<Rules<Silent> as Kept>⟧.keeps rules) }
{
    let mut defs = List::new(alloc);
    defs.push(RuleDef {
        name: Text::from_slice(alloc, b"taken")?,
        level: Level::Hard,
        reward: false,
        weight: 1,
        weigh: None,
        head: Head::ForEach(SHIFT),
        nodes: List::new(alloc),
    })?;
    Ok(Rules::build(
        alloc,
        schema,
        defs,
        List::new(alloc),
        List::new(alloc),
        List::new(alloc),
        List::new(alloc),
    )?)
}

/// How many live facts each class has.
fn sizes_of(alloc: Global, plan: &Plan) -> Result<List<u32>, Memory>
    ensures { IfOk result (λ sizes. sizes ≡ sizes_of plan.now) }
{
    let mut sizes = List::new(alloc);
    for class in 0..plan.classes() {
        sizes.push(plan.ids(class).len() as u32)?;
    }
    Ok(sizes)
}

/// The weight of each rule, 1, where the rules may judge the plan under it.
fn weights_of(alloc: Global, rules: &Rules<Silent>, plan: &Plan) -> Result<List<u32>, Fail>
    requires { ⟦<Rules<Silent> as Kept>⟧.keeps rules.now }
    ensures { IfOk result (λ weights. ⟦<Rules<Silent> as Judges>⟧.judges rules.now weights (sizes_of plan.now)) }
{
    let sizes = sizes_of(alloc, plan)?;
    let weights = List::from_slice(alloc, &[1])?;
    if rules.count() != 1
        || rules
            .range_fault(sizes.as_slice(), weights.as_slice())
            .is_some()
    {
        return Err("out of range".into());
    }
    Ok(weights)
}

/// A plan with nothing unplaced and so many shifts with a nurse.
fn taken(shifts: u32) -> PlanScore {
    worth(-i64::from(shifts))
}

/// What is found of a doable candidate: how many shifts have a nurse after it, the shift that it touches, and the other
/// one where it touches two.
#[derive(Clone, Copy, Drop)]
struct Wanted {
    shifts: u32,
    touched: u32,
    other: Option<u32>,
}

/// Whether a shift is touched.
fn is_shift(touch: &Touch, id: u32) -> bool {
    touch.class == SHIFT && touch.id == id
}

/// Whether a shift is touched, and another one where there is one, in this order, and nothing more.
fn are_touched(touched: &[Touch], id: u32, other: Option<u32>) -> bool {
    match (touched, other) {
        ([touch], None) => is_shift(touch, id),
        ([first, second], Some(other)) => is_shift(first, id) && is_shift(second, other),
        _ => false,
    }
}

/// Whether what was found of a candidate is as wanted, which is nothing where it isn't doable.
fn is_found(found: &Option<Found>, wanted: Option<Wanted>) -> bool {
    match (found, wanted) {
        (Some(found), Some(wanted)) => {
            let touched = found.touched.as_slice();
            found.score == taken(wanted.shifts)
                && are_touched(touched, wanted.touched, wanted.other)
        }
        (None, None) => true,
        _ => false,
    }
}

/// Whether what a worker finds of a candidate of a step is as wanted.
fn finds(
    worker: &mut Worker<Silent>,
    kit: &Kit<'_, Silent>,
    step: u32,
    number: u32,
    wanted: Option<Wanted>,
) -> Result<bool, Memory>
    requires judges { let seen = worker.old.director in
        ⟦<Rules<Silent> as Judges>⟧.judges kit.now.rules.now seen.weights (sizes_of seen.plan) }
    requires own { kit.now.rules.now.defs ≡ worker.old.director.rules }
    requires seed { kit.now.seed ≡ worker.old.seed }
    requires step { 1 ≤ step }
    ensures { worker.new ≡ worker.old }
{
    let found = worker.judge(kit, step, number)?;
    Ok(is_found(&found, wanted))
}

/// Whether a shift has this nurse, or none.
fn has_nurse(shift: &Raw, nurse: Option<u32>) -> bool {
    match (shift.values.as_slice(), nurse) {
        ([Some(value)], Some(nurse)) => *value == nurse,
        ([None], None) => true,
        _ => false,
    }
}

/// Whether the plan has these nurses in its shifts.
fn has_nurses(plan: &Plan, nurses: &[Option<u32>]) -> bool {
    let shifts = plan.facts(SHIFT);
    for (shift, nurse) in shifts.iter().zip(nurses) {
        if !has_nurse(shift, *nurse) {
            return false;
        }
    }
    shifts.len() == nurses.len()
}

/// Whether the worker's plan has these nurses in shifts 1 to 4, and its score.
fn stands(worker: &Worker<Silent>, nurses: [Option<u32>; 4], shifts: u32) -> bool {
    worker.score() == taken(shifts) && has_nurses(worker.plan(), &nurses)
}

fn kit_of<'a>(schema: &'a Schema, rules: &'a Rules<Silent>) -> Kit<'a, Silent>
    ensures rules { result.rules.now ≡ rules.now }
    ensures seed { result.seed ≡ 0 }
{
    Kit {
        rules,
        schema,
        makers: &[],
        selectors: &[Selector::Change, Selector::PillarChange],
        seed: 0,
    }
}

/// A director of the plan, and the weights that it is under.
fn director_of(alloc: Global, kit: &Kit<'_, Silent>) -> Result<(Director<Silent>, List<u32>), Fail>
    requires { ⟦<Rules<Silent> as Kept>⟧.keeps kit.now.rules.now }
    ensures rest { IfOk result (λ made. made.0 ≡ at_rest kit.now.rules.now.defs made.1 made.0.plan) }
    ensures judges { IfOk result (λ made.
        ⟦<Rules<Silent> as Judges>⟧.judges kit.now.rules.now made.1 (sizes_of made.0.plan)) }
    ensures schema { IfOk result (λ made. IsOfSchema kit.now.schema.now made.0.plan) }
{
    let plan = plan_of(alloc, kit.schema, FACTS)?;
    let weights = weights_of(alloc, kit.rules, &plan)?;
    let under = weights.copy(alloc)?;
    let director = director_alone(alloc, kit.rules, plan, weights)?;
    Ok((director, under))
}

/// A worker on the plan.
fn worker_of(alloc: Global, kit: &Kit<'_, Silent>) -> Result<Worker<Silent>, Fail>
    requires { ⟦<Rules<Silent> as Kept>⟧.keeps kit.now.rules.now }
    ensures judges { IfOk result (λ worker. let seen = worker.director in
        ⟦<Rules<Silent> as Judges>⟧.judges kit.now.rules.now seen.weights (sizes_of seen.plan)) }
    ensures own { IfOk result (λ worker. kit.now.rules.now.defs ≡ worker.director.rules) }
    ensures seed { IfOk result (λ worker. kit.now.seed ≡ worker.seed) }
{
    let (director, _) = director_of(alloc, kit)?;
    Ok(Worker::new(alloc, kit, director)?)
}

/// What is found of the first three candidates of the first step.
const FIRST: [Option<Wanted>; 3] = [
    Some(Wanted {
        shifts: 2,
        touched: 3,
        other: None,
    }),
    None,
    Some(Wanted {
        shifts: 4,
        touched: 2,
        other: Some(4),
    }),
];

/// What is found of candidate 9733 of the second step once a pillar was played.
const LATER: Wanted = Wanted {
    shifts: 4,
    touched: 3,
    other: None,
};

/// Whether a worker finds what is known of the candidates of the first step.
fn judges_three(worker: &mut Worker<Silent>, kit: &Kit<'_, Silent>) -> Result<bool, Memory>
    requires judges { let seen = worker.old.director in
        ⟦<Rules<Silent> as Judges>⟧.judges kit.now.rules.now seen.weights (sizes_of seen.plan) }
    requires own { kit.now.rules.now.defs ≡ worker.old.director.rules }
    requires seed { kit.now.seed ≡ worker.old.seed }
    ensures { worker.new ≡ worker.old }
{
    let [first, second, third] = FIRST;
    let one = finds(worker, kit, 1, 0, first)?;
    let other = finds(worker, kit, 1, 1, second)?;
    let last = finds(worker, kit, 1, 2, third)?;
    Ok(one && other && last && stands(worker, [Some(3), None, Some(1), None], 2))
}

/// Whether a set empties a shift.
fn is_emptied(set: &Set, id: u32) -> bool {
    set.class == SHIFT && set.id == id && set.var == 0 && set.value.is_none()
}

/// Whether what takes a played pillar back empties shifts 2 and 4.
fn empties_two(back: &Option<Edit>) -> bool {
    match back {
        Some(back) => match back.sets() {
            [one, other] => is_emptied(one, 2) && is_emptied(other, 4),
            _ => false,
        },
        None => false,
    }
}

/// A worker plays a candidate, after which it may judge and play as before.
fn play(
    worker: &mut Worker<Silent>,
    kit: &Kit<'_, Silent>,
    step: u32,
    number: u32,
) -> Result<Option<Edit>, Memory>
    requires judges { let seen = worker.old.director in
        ⟦<Rules<Silent> as Judges>⟧.judges kit.now.rules.now seen.weights (sizes_of seen.plan) }
    requires own { kit.now.rules.now.defs ≡ worker.old.director.rules }
    requires seed { kit.now.seed ≡ worker.old.seed }
    requires step { 1 ≤ step }
    ensures judges { let seen = worker.new.director in
        ⟦<Rules<Silent> as Judges>⟧.judges kit.now.rules.now seen.weights (sizes_of seen.plan) }
    ensures own { kit.now.rules.now.defs ≡ worker.new.director.rules }
    ensures seed { kit.now.seed ≡ worker.new.seed }
{
    worker.play(kit, step, number)
}

/// Plays a pillar, after which the worker may play as before; whether it stands as is wanted then.
fn plays_pillar(worker: &mut Worker<Silent>, kit: &Kit<'_, Silent>) -> Result<bool, Memory>
    requires judges { let seen = worker.old.director in
        ⟦<Rules<Silent> as Judges>⟧.judges kit.now.rules.now seen.weights (sizes_of seen.plan) }
    requires own { kit.now.rules.now.defs ≡ worker.old.director.rules }
    requires seed { kit.now.seed ≡ worker.old.seed }
    ensures judges { let seen = worker.new.director in
        ⟦<Rules<Silent> as Judges>⟧.judges kit.now.rules.now seen.weights (sizes_of seen.plan) }
    ensures own { kit.now.rules.now.defs ≡ worker.new.director.rules }
    ensures seed { kit.now.seed ≡ worker.new.seed }
{
    let back = play(worker, kit, 1, 2)?;
    Ok(empties_two(&back) && stands(worker, [Some(3), Some(3), Some(1), Some(3)], 4))
}

/// Whether a worker that has played a pillar finds what is left.
fn judges_rest(worker: &mut Worker<Silent>, kit: &Kit<'_, Silent>) -> Result<bool, Memory>
    requires judges { let seen = worker.old.director in
        ⟦<Rules<Silent> as Judges>⟧.judges kit.now.rules.now seen.weights (sizes_of seen.plan) }
    requires own { kit.now.rules.now.defs ≡ worker.old.director.rules }
    requires seed { kit.now.seed ≡ worker.old.seed }
    ensures { worker.new ≡ worker.old }
{
    let same = finds(worker, kit, 1, 2, None)?;
    let other = finds(worker, kit, 2, 9733, Some(LATER))?;
    Ok(same && other)
}

/// Whether a worker that has played a pillar can play another one, and not the first candidate then.
fn plays_rest(worker: &mut Worker<Silent>, kit: &Kit<'_, Silent>) -> Result<bool, Memory>
    requires judges { let seen = worker.old.director in
        ⟦<Rules<Silent> as Judges>⟧.judges kit.now.rules.now seen.weights (sizes_of seen.plan) }
    requires own { kit.now.rules.now.defs ≡ worker.old.director.rules }
    requires seed { kit.now.seed ≡ worker.old.seed }
{
    let other = play(worker, kit, 2, 9733)?.is_some();
    let first = play(worker, kit, 1, 0)?.is_some();
    Ok(other && !first && stands(worker, [Some(3); 4], 4))
}

/// Whether a worker judges and plays as is wanted.
fn judges_and_plays(worker: &mut Worker<Silent>, kit: &Kit<'_, Silent>) -> Result<bool, Memory>
    requires judges { let seen = worker.old.director in
        ⟦<Rules<Silent> as Judges>⟧.judges kit.now.rules.now seen.weights (sizes_of seen.plan) }
    requires own { kit.now.rules.now.defs ≡ worker.old.director.rules }
    requires seed { kit.now.seed ≡ worker.old.seed }
{
    let judged = judges_three(worker, kit)?;
    let played = plays_pillar(worker, kit)?;
    let found = judges_rest(worker, kit)?;
    let rest = plays_rest(worker, kit)?;
    Ok(judged && played && found && rest && worker.director().score() == taken(4))
}

/// Whether the director's plan has four shifts.
fn has_shifts(director: Director<Silent>) -> bool {
    director.plan().facts(SHIFT).len() == 4
}

/// Whether a worker judges and plays, and gives up its director.
fn try_worker(alloc: Global, kit: &Kit<'_, Silent>) -> Result<bool, Fail>
    requires { ⟦<Rules<Silent> as Kept>⟧.keeps kit.now.rules.now }
{
    let mut worker = worker_of(alloc, kit)?;
    let tried = judges_and_plays(&mut worker, kit);
    let left = has_shifts(worker.into_director());
    Ok(tried? && left)
}

// The words are those of plan_draws' tests. Under seed 0 nurse 3 gets, by candidates 0 and 2 of step 1, the third and the
// second of three pillars, and by candidate 9733 of step 2 the second of two; candidate 1 of step 1 gives shift 3 to nurse 1.
#[test]
fn candidates_are_judged_and_played(rt: HostRuntime) -> Result<(), Fail> {
    assert!(rt; try_on_plan(&rt, rt.alloc(), Trial::Worker)?);
    Ok(())
}

/// A team of so many workers on the plan.
fn team_of(alloc: Global, kit: &Kit<'_, Silent>, workers: u32) -> Result<Team<Silent>, Fail>
    requires keeps { ⟦<Rules<Silent> as Kept>⟧.keeps kit.now.rules.now }
    requires workers { (1 ≤ workers) × (workers ≤ 16) }
    ensures judges { IfOk result (λ team. let seen = team.worker.director in
        ⟦<Rules<Silent> as Judges>⟧.judges kit.now.rules.now seen.weights (sizes_of seen.plan)) }
    ensures own { IfOk result (λ team. kit.now.rules.now.defs ≡ team.worker.director.rules) }
    ensures seed { IfOk result (λ team. kit.now.seed ≡ team.worker.seed) }
    ensures whole { IfOk result (λ team. team.is_torn ≡ false) }
    ensures schema { IfOk result (λ team. IsOfSchema kit.now.schema.now team.worker.director.plan) }
{
    let (director, weights) = director_of(alloc, kit)?;
    Ok(Team::new(alloc, kit, director, weights.as_slice(), workers)?)
}

/// Whether what was found of those candidates of a batch that are known is as wanted.
fn are_found(first: u32, all: &[Option<Found>]) -> bool {
    'known: for (wanted, number) in FIRST.iter().zip(0u32..3) {
        if number >= first {
            if let Some(found) = all.get((number - first) as usize) {
                if !is_found(found, *wanted) {
                    return false;
                }
            }
        }
    }
    true
}

/// Whether a team finds what is known of the first three candidates of the first step, by batches of so many numbers.
fn judges_first<T: Threads + Sync>(
    rt: &T,
    team: &mut Team<Silent>,
    kit: &Kit<'_, Silent>,
    buffer: u32,
) -> Result<bool, Fail>
    requires whole { team.old.is_torn ≡ false }
    requires judges { let seen = team.old.worker.director in
        ⟦<Rules<Silent> as Judges>⟧.judges kit.now.rules.now seen.weights (sizes_of seen.plan) }
    requires own { kit.now.rules.now.defs ≡ team.old.worker.director.rules }
    requires seed { kit.now.seed ≡ team.old.worker.seed }
    requires buffer { buffer ≤ 1024 }
{
    'batches: for batch in 0u32..3 {
        let first = batch * buffer;
        let all = team.judged(rt, kit, &NoGate, 1, first, buffer)?;
        if !are_found(first, &all) {
            return Ok(false);
        }
    }
    Ok(true)
}

/// Whether a team of so many workers finds what is known, by batches of so many numbers.
fn try_hands<T: Threads + Sync>(
    rt: &T,
    alloc: Global,
    kit: &Kit<'_, Silent>,
    workers: u32,
    buffer: u32,
) -> Result<bool, Fail>
    requires keeps { ⟦<Rules<Silent> as Kept>⟧.keeps kit.now.rules.now }
    requires workers { (1 ≤ workers) × (workers ≤ 16) }
    requires buffer { buffer ≤ 1024 }
{
    let mut team = team_of(alloc, kit, workers)?;
    judges_first(rt, &mut team, kit, buffer)
}

/// How many workers a team has, and how many numbers a batch.
const HANDS: &[(u32, u32)] = &[
    (1, 1),
    (1, 64),
    (2, 1),
    (2, 3),
    (8, 3),
    (8, 64),
    (16, 1),
    (16, 64),
];

/// Whether teams find what is known, by any workers and batches.
fn try_all_hands<T: Threads + Sync>(
    rt: &T,
    alloc: Global,
    kit: &Kit<'_, Silent>,
) -> Result<bool, Fail>
    requires { ⟦<Rules<Silent> as Kept>⟧.keeps kit.now.rules.now }
{
    'hands: for (workers, buffer) in HANDS {
        let (workers, buffer) = (*workers, *buffer);
        if workers < 1 || 16 < workers || 1024 < buffer {
            return Ok(false);
        }
        if !try_hands(rt, alloc, kit, workers, buffer)? {
            return Ok(false);
        }
    }
    Ok(true)
}

#[test]
fn teams_find_the_same_by_any_workers_and_batches(rt: HostRuntime) -> Result<(), Fail> {
    assert!(rt; try_on_plan(&rt, rt.alloc(), Trial::Hands)?);
    Ok(())
}

/// Whether a gate wasn't late, and was entered once at each of four candidates.
fn was_entered(gate: &HoldingGate) -> bool {
    !gate.is_late()
        && gate.times(0) == 1
        && gate.times(1) == 1
        && gate.times(2) == 1
        && gate.times(3) == 1
}

/// Whether a team judges four candidates at once, while a gate holds some of them until others were entered.
fn judges_held<T: Threads + Sync>(
    rt: &T,
    team: &mut Team<Silent>,
    kit: &Kit<'_, Silent>,
    gate: &HoldingGate,
) -> Result<bool, Fail>
    requires whole { team.old.is_torn ≡ false }
    requires judges { let seen = team.old.worker.director in
        ⟦<Rules<Silent> as Judges>⟧.judges kit.now.rules.now seen.weights (sizes_of seen.plan) }
    requires own { kit.now.rules.now.defs ≡ team.old.worker.director.rules }
    requires seed { kit.now.seed ≡ team.old.worker.seed }
{
    let all = team.judged(rt, kit, gate, 1, 0, 4)?;
    Ok(are_found(0, &all) && was_entered(gate))
}

/// Whether two workers do the same.
fn try_held<T: Threads + Sync>(
    rt: &T,
    alloc: Global,
    kit: &Kit<'_, Silent>,
    gate: &HoldingGate,
) -> Result<bool, Fail>
    requires keeps { ⟦<Rules<Silent> as Kept>⟧.keeps kit.now.rules.now }
{
    let mut team = team_of(alloc, kit, 2)?;
    judges_held(rt, &mut team, kit, gate)
}

/// Whether both of two workers judge, and a free one takes the next number.
fn try_both_gates<T: Threads + Sync>(
    rt: &T,
    alloc: Global,
    kit: &Kit<'_, Silent>,
) -> Result<bool, Fail>
    requires { ⟦<Rules<Silent> as Kept>⟧.keeps kit.now.rules.now }
{
    let both = try_held(rt, alloc, kit, &HoldingGate::new(&[0, 1], &[0, 1]))?;
    let free = try_held(rt, alloc, kit, &HoldingGate::new(&[0], &[1, 2, 3]))?;
    Ok(both && free)
}

#[test]
fn two_workers_judge_at_once(rt: HostRuntime) -> Result<(), Fail> {
    assert!(rt; try_on_plan(&rt, rt.alloc(), Trial::Gates)?);
    Ok(())
}

/// A team plays a pillar, after which it may judge as before.
fn play_for_all(team: &mut Team<Silent>, kit: &Kit<'_, Silent>) -> Result<Option<Edit>, Memory>
    requires whole { team.old.is_torn ≡ false }
    requires judges { let seen = team.old.worker.director in
        ⟦<Rules<Silent> as Judges>⟧.judges kit.now.rules.now seen.weights (sizes_of seen.plan) }
    requires own { kit.now.rules.now.defs ≡ team.old.worker.director.rules }
    requires seed { kit.now.seed ≡ team.old.worker.seed }
    ensures whole { OnOk result (team.new.is_torn ≡ false) }
    ensures judges { let seen = team.new.worker.director in
        OnOk result (⟦<Rules<Silent> as Judges>⟧.judges kit.now.rules.now seen.weights (sizes_of seen.plan)) }
    ensures own { OnOk result (kit.now.rules.now.defs ≡ team.new.worker.director.rules) }
    ensures seed { OnOk result (kit.now.seed ≡ team.new.worker.seed) }
{
    let back = team.play(kit, 1, 2)?;
    Ok(back)
}

/// Whether all that is asked of a team that has played a pillar says so.
fn has_played(team: &Team<Silent>, back: &Option<Edit>) -> bool {
    empties_two(back)
        && team.score() == taken(4)
        && team.lead().score() == taken(4)
        && team.plan().facts(SHIFT).len() == 4
}

/// Whether a team that has played a pillar finds what is known of the middle one of five candidates, whoever judges it.
fn judges_later<T: Threads + Sync>(
    rt: &T,
    team: &mut Team<Silent>,
    kit: &Kit<'_, Silent>,
) -> Result<bool, Memory>
    requires whole { team.old.is_torn ≡ false }
    requires judges { let seen = team.old.worker.director in
        ⟦<Rules<Silent> as Judges>⟧.judges kit.now.rules.now seen.weights (sizes_of seen.plan) }
    requires own { kit.now.rules.now.defs ≡ team.old.worker.director.rules }
    requires seed { kit.now.seed ≡ team.old.worker.seed }
    ensures { team.new ≡ team.old }
{
    let all = team.judged(rt, kit, &NoGate, 2, 9731, 5)?;
    match all.get(2) {
        Some(found) => Ok(is_found(found, Some(LATER))),
        None => Ok(false),
    }
}

/// Whether a team of eight plays, finds what is left then, and gives up a director.
fn try_team<T: Threads + Sync>(rt: &T, alloc: Global, kit: &Kit<'_, Silent>) -> Result<bool, Fail>
    requires { ⟦<Rules<Silent> as Kept>⟧.keeps kit.now.rules.now }
{
    let mut team = team_of(alloc, kit, 8)?;
    let back = play_for_all(&mut team, kit)?;
    let played = has_played(&team, &back);
    let found = judges_later(rt, &mut team, kit)?;
    Ok(played && found && has_shifts(team.into_director()))
}

#[test]
fn teams_play(rt: HostRuntime) -> Result<(), Fail> {
    assert!(rt; try_on_plan(&rt, rt.alloc(), Trial::Team)?);
    Ok(())
}

/// What is tried on the plan.
#[derive(Clone, Copy, Drop)]
enum Trial {
    Worker,
    Hands,
    Gates,
    Team,
    Turns,
}

/// Tries it by this kit; whether all is as wanted.
fn try_by<T: Threads + Sync>(
    rt: &T,
    alloc: Global,
    kit: &Kit<'_, Silent>,
    trial: Trial,
) -> Result<bool, Fail>
    requires { ⟦<Rules<Silent> as Kept>⟧.keeps kit.now.rules.now }
{
    match trial {
        Trial::Worker => try_worker(alloc, kit),
        Trial::Hands => try_all_hands(rt, alloc, kit),
        Trial::Gates => try_both_gates(rt, alloc, kit),
        Trial::Team => try_team(rt, alloc, kit),
        Trial::Turns => try_turns(rt, alloc, kit),
    }
}

/// Tries it on the plan, under the one rule; whether all is as wanted.
fn try_on_plan<T: Threads + Sync>(rt: &T, alloc: Global, trial: Trial) -> Result<bool, Fail> {
    let schema = schema(alloc)?;
    let rules = rules_of(alloc, &schema)?;
    try_by(rt, alloc, &kit_of(&schema, &rules), trial)
}
