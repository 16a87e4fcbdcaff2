//! Candidates: what each selector makes of plans and words.
ghost use Rattle.std.specs.Prelude.{◌≡◌, ◌<◌, ◌≤◌, ◌==◌, ◌^◌, [], ◌∷◌, Some, None, if◌then◌else◌, length, slice_index};
ghost use Rattle.move_selectors.specs.Pool.{IsPoolOf};
ghost use Rattle.plan_moves.specs.Edits.{edit_of};

use super::fixtures::{Planned, make_plan};
use move_selectors::{Pool, candidate};
use plan_facts::{List, Memory, Plan};
use plan_moves::{Edit, MoveMaker, Set, make_by};
use plan_settings::Selector;
use std::alloc::Global;
use std::test::Fail;
use test_plans::FactSketch::{Entity, Fact, Pinned};
use test_plans::VarSketch::{Nullable, Var};
use test_plans::{ClassSketch, FactSketch};

/// The id of an entity, a variable, and the value that it gets.
type Change = (u32, u8, Option<u32>);

/// Eight words, and what the edit that they make changes; or that they make none.
type Case = ([u32; 8], Option<&'static [Change]>);

/// Slots, rooms, and lessons with a slot and a room.
const LESSONS: &[ClassSketch] = &[
    ClassSketch("slot", &[], &[]),
    ClassSketch("room", &[], &[]),
    ClassSketch("lesson", &[], &[Var("slot", 0), Var("room", 1)]),
];

/// Employees, and shifts with a worker.
const SHIFTS: &[ClassSketch] = &[
    ClassSketch("employee", &[], &[]),
    ClassSketch("shift", &[], &[Var("worker", 0)]),
];

/// Employees, and shifts with a worker or none.
const OPEN_SHIFTS: &[ClassSketch] = &[
    ClassSketch("employee", &[], &[]),
    ClassSketch("shift", &[], &[Nullable("worker", 0)]),
];

/// Whether the edit sets just this.
fn has_sets(edit: &Edit, changes: &[Change]) -> bool {
    let sets = edit.sets();
    if sets.len() != changes.len() {
        return false;
    }
    for place in 0..sets.len() {
        let set = &sets[place];
        if (set.id, set.var, set.value) != changes[place] {
            return false;
        }
    }
    true
}

/// Whether the words of a case make what the case says.
fn is_made(
    facts: &Planned,
    pool: &mut Pool,
    selectors: &[Selector],
    makers: &[Box<dyn MoveMaker>],
    case: &Case,
    edit: &mut Edit,
) -> Result<bool, Memory>
    requires selectors { (1 ≤ length selectors.now) × (length selectors.now ≤ 8) }
    requires makers { length makers.now < 2 ^ 32 }
    requires pool { IsPoolOf facts.now.plan pool.old }
    ensures { IsPoolOf facts.now.plan pool.new }
{
    let Planned { schema, plan } = facts;
    let made = candidate(schema, plan, pool, selectors, makers, &case.0, edit)?;
    Ok(made == case.1.is_some() && has_sets(edit, case.1.unwrap_or(&[])))
}

/// Whether the words of each case make what the case says.
fn are_made(
    alloc: Global,
    facts: &Planned,
    pool: &mut Pool,
    selectors: &[Selector],
    makers: &[Box<dyn MoveMaker>],
    cases: &[Case],
) -> Result<bool, Memory>
    requires makers { length makers.now < 2 ^ 32 }
    requires pool { IsPoolOf facts.now.plan pool.old }
{
    if selectors.is_empty() || selectors.len() > 8 {
        return Ok(false);
    }
    let mut edit = Edit::new(alloc);
    for case in cases {
        if !is_made(facts, pool, selectors, makers, case, &mut edit)? {
            return Ok(false);
        }
    }
    Ok(true)
}

/// Whether with a pool of the plan the words of each case make what the case says.
fn makes(
    alloc: Global,
    facts: &Planned,
    selectors: &[Selector],
    makers: &[Box<dyn MoveMaker>],
    cases: &[Case],
) -> Result<bool, Memory>
    requires { length makers.now < 2 ^ 32 }
{
    let mut pool = Pool::of(alloc, &facts.plan)?;
    are_made(alloc, facts, &mut pool, selectors, makers, cases)
}

/// Selectors, and cases that say what they make.
type Suite = (&'static [Selector], &'static [Case]);

/// Classes and facts, and suites that say what selectors make of them.
type Situation = (
    &'static [ClassSketch],
    &'static [&'static [FactSketch]],
    &'static [Suite],
);

/// The place of the first of these suites that isn't so.
fn wrong_suite(alloc: Global, facts: &Planned, suites: &[Suite]) -> Option<usize> {
    for place in 0..suites.len() {
        let (selectors, cases) = suites[place];
        if makes(alloc, facts, selectors, &[], cases) != Ok(true) {
            return Some(place);
        }
    }
    None
}

/// The place of the first of the situation's suites that isn't so.
fn wrong_in(alloc: Global, situation: &Situation) -> Result<Option<usize>, Fail> {
    let facts = make_plan(alloc, situation.0, situation.1)?;
    Ok(wrong_suite(alloc, &facts, situation.2))
}

// The words and edits of these tests are of another program, but for those of pillar swaps, which were made by hand.
const FAR: [u32; 8] = [
    1810801215, 3946927066, 4236919332, 943121706, 4079194633, 1129231419, 2633946611, 373312842,
];

const NEAR: [u32; 8] = [
    1911191026, 103153208, 2761401032, 249672688, 892392466, 785518867, 1746317945, 1932094779,
];

const TWICE: [u32; 8] = [
    1959725, 1734584660, 1651091372, 1676425974, 2293775675, 4183126587, 2306262737, 2130298245,
];

/// Slots, rooms, and lessons of which two have neither.
const COURSE: &[&[FactSketch]] = &[
    &[Fact(1, &[]), Fact(2, &[]), Fact(3, &[])],
    &[Fact(1, &[]), Fact(2, &[]), Fact(3, &[])],
    &[
        Entity(1, &[], &[Some(3), Some(3)]),
        Entity(3, &[], &[None, None]),
        Entity(8, &[], &[Some(1), Some(3)]),
        Entity(20, &[], &[None, None]),
        Entity(31, &[], &[Some(3), Some(2)]),
    ],
];

const CHANGES: &[Case] = &[
    (FAR, Some(&[(31, 1, Some(1))])),
    (NEAR, Some(&[(1, 1, Some(1))])),
    (TWICE, Some(&[(8, 0, Some(2))])),
];

/// Slots, rooms, and lessons of which some have no slot or no room.
const SCHOOL: &[&[FactSketch]] = &[
    &[Fact(26, &[]), Fact(36, &[]), Fact(38, &[])],
    &[Fact(1, &[]), Fact(2, &[]), Fact(3, &[])],
    &[
        Entity(1, &[], &[Some(36), Some(3)]),
        Entity(2, &[], &[Some(36), Some(1)]),
        Entity(3, &[], &[None, Some(2)]),
        Entity(4, &[], &[Some(38), Some(2)]),
        Entity(5, &[], &[None, None]),
        Entity(6, &[], &[None, None]),
        Entity(7, &[], &[Some(38), Some(2)]),
        Entity(8, &[], &[Some(38), Some(2)]),
        Entity(9, &[], &[Some(38), None]),
    ],
];

const SWAPS: &[Case] = &[
    (
        FAR,
        Some(&[
            (2, 0, Some(38)),
            (2, 1, None),
            (9, 0, Some(36)),
            (9, 1, Some(1)),
        ]),
    ),
    (
        NEAR,
        Some(&[
            (1, 0, None),
            (1, 1, None),
            (6, 0, Some(36)),
            (6, 1, Some(3)),
        ]),
    ),
    (TWICE, None),
];

const PILLAR_SWAPS: &[Case] = &[
    (
        FAR,
        Some(&[
            (1, 0, Some(38)),
            (1, 1, Some(2)),
            (4, 0, Some(36)),
            (4, 1, Some(3)),
            (7, 0, Some(36)),
            (7, 1, Some(3)),
            (8, 0, Some(36)),
            (8, 1, Some(3)),
        ]),
    ),
    (
        NEAR,
        Some(&[
            (1, 0, Some(36)),
            (1, 1, Some(1)),
            (2, 0, Some(36)),
            (2, 1, Some(3)),
        ]),
    ),
    (TWICE, None),
];

const BOTH_SWAPS: &[Suite] = &[
    (&[Selector::Swap], SWAPS),
    (&[Selector::PillarSwap], PILLAR_SWAPS),
];

/// Employees, and shifts of which one has no worker.
const WARD: &[&[FactSketch]] = &[
    &[Fact(1, &[]), Fact(2, &[])],
    &[
        Entity(6, &[], &[Some(1)]),
        Entity(10, &[], &[Some(1)]),
        Entity(18, &[], &[Some(1)]),
        Entity(25, &[], &[Some(2)]),
        Entity(32, &[], &[Some(1)]),
        Entity(38, &[], &[None]),
    ],
];

const SWAP_OR_PILLAR: &[Selector] = &[
    Selector::Swap,
    Selector::PillarChange,
    Selector::Swap,
    Selector::PillarChange,
];

/// Words that pick the one or the other.
const PICKS: &[Case] = &[
    (
        [
            1305573385, 3268878615, 2552055323, 98194512, 1714536640, 750721209, 3217129798,
            3372912574,
        ],
        Some(&[(25, 0, Some(1))]),
    ),
    (
        [
            2070992122, 3746977884, 1454116646, 1520110881, 3101997295, 82337386, 344218180,
            2611292624,
        ],
        Some(&[
            (6, 0, Some(2)),
            (10, 0, Some(2)),
            (18, 0, Some(2)),
            (32, 0, Some(2)),
        ]),
    ),
    (
        [
            2814512272, 2074966623, 3967452325, 3176870237, 3183401454, 1782594468, 2144551957,
            3652632160,
        ],
        Some(&[(32, 0, None), (38, 0, Some(1))]),
    ),
];

/// Each selector makes nothing.
const NOTHING: &[Suite] = &[
    (&[Selector::Change], &[(FAR, None)]),
    (&[Selector::Swap], &[(FAR, None)]),
    (&[Selector::PillarChange], &[(FAR, None)]),
    (&[Selector::PillarSwap], &[(FAR, None)]),
    (&[Selector::Own], &[(FAR, None)]),
];

// The words of the first two candidates of the first step under seed 0.
const FIRST: [u32; 8] = [
    0xade0b876, 0x903df1a0, 0xe56a5d40, 0x28bd8653, 0xb819d2bd, 0x1aed8da0, 0xccef36a8, 0xc70d778b,
];

const SECOND: [u32; 8] = [0x7c5941da, 0x8d485751, 0x3fe02477, 0x374ad8b8, 0, 0, 0, 0];

/// Two employees, and two shifts of the first.
const DUTY: &[&[FactSketch]] = &[
    &[Fact(1, &[]), Fact(2, &[])],
    &[Entity(1, &[], &[Some(1)]), Entity(2, &[], &[Some(1)])],
];

/// Two employees, and two shifts of the first, of which the second is pinned.
const HALF_PINNED: &[&[FactSketch]] = &[
    &[Fact(1, &[]), Fact(2, &[])],
    &[Entity(1, &[], &[Some(1)]), Pinned(2, &[], &[Some(1)])],
];

/// What is made where the second shift is pinned: the first alone may move, and is a pillar by itself.
const PINNED: &[Suite] = &[
    (
        &[Selector::Change],
        &[
            (FIRST, Some(&[(1, 0, Some(1))])),
            (SECOND, Some(&[(1, 0, Some(1))])),
        ],
    ),
    (&[Selector::Swap], &[(FIRST, None), (SECOND, None)]),
    (
        &[Selector::PillarChange],
        &[(FIRST, Some(&[(1, 0, Some(2))]))],
    ),
    (&[Selector::PillarSwap], &[(FIRST, None)]),
];

/// Two employees, and shifts of which two have no worker.
const OPEN: &[&[FactSketch]] = &[
    &[Fact(1, &[]), Fact(2, &[])],
    &[
        Entity(1, &[], &[Some(2)]),
        Entity(2, &[], &[None]),
        Entity(3, &[], &[Some(2)]),
        Entity(4, &[], &[None]),
        Entity(5, &[], &[Some(1)]),
    ],
];

/// The greatest word, which picks the last of each list.
const LAST: u32 = u32::MAX;

/// What is made where a worker may stay null: null is the last of three choices, and shifts without a worker are the
/// second of three pillars.
const NULLABLE: &[Suite] = &[
    (
        &[Selector::Change],
        &[
            ([0, 0, 0, LAST, 0, 0, 0, 0], Some(&[(1, 0, None)])),
            ([0, LAST, 0, 0, 0, 0, 0, 0], Some(&[(5, 0, Some(1))])),
        ],
    ),
    (
        &[Selector::PillarChange],
        &[
            (
                [0, 0, 0, 0, LAST, 0, 0, 0],
                Some(&[(1, 0, None), (3, 0, None)]),
            ),
            (
                [0, 0, 1 << 31, 0, 0, 0, 0, 0],
                Some(&[(2, 0, Some(1)), (4, 0, Some(1))]),
            ),
        ],
    ),
    (
        &[Selector::PillarSwap],
        &[
            (
                [0, 0, 0, 1 << 31, 0, 0, 0, 0],
                Some(&[(1, 0, None), (2, 0, Some(2)), (3, 0, None), (4, 0, Some(2))]),
            ),
            (
                [0, 0, LAST, 1 << 31, 0, 0, 0, 0],
                Some(&[(2, 0, Some(1)), (4, 0, Some(1)), (5, 0, None)]),
            ),
            ([0, 0, LAST, LAST, 0, 0, 0, 0], None),
        ],
    ),
];

/// Words that pick the first pillar and its last choice.
const FIRST_PILLAR: [u32; 8] = [0, 0, 0, 0, LAST, 0, 0, 0];

/// Does an edit where it is doable, and forgets the pillars; whether it was done.
fn take(duty: &mut Planned, pool: &mut Pool, edit: &Edit) -> bool
    requires { IsPoolOf duty.old.plan pool.old }
    ensures { IsPoolOf duty.new.plan pool.new }
{
    if !edit.doable(&duty.schema, &duty.plan) {
        return false;
    }
    edit.apply(&mut duty.plan);
    pool.forget_pillars();
    true
}

/// The first pillar is both shifts.
const BOTH: Case = (FIRST_PILLAR, Some(&[(1, 0, Some(2)), (2, 0, Some(2))]));

/// The first pillar is the second shift alone.
const SECOND_ALONE: Case = (FIRST_PILLAR, Some(&[(2, 0, Some(2))]));

/// Whether the first pillar is both shifts, and the second shift alone once the first one has no worker.
fn are_anew(duty: &mut Planned, pool: &mut Pool, edit: &mut Edit) -> Result<bool, Memory>
    requires { IsPoolOf duty.old.plan pool.old }
{
    let selectors = [Selector::PillarChange];
    let both = is_made(duty, pool, &selectors, &[], &BOTH, edit)?;
    edit.fill(&[cleared(1, 0)])?;
    let taken = take(duty, pool, edit);
    let second = is_made(duty, pool, &selectors, &[], &SECOND_ALONE, edit)?;
    Ok(both && taken && second)
}

/// Whether that is so with a pool of the plan.
fn finds_anew(alloc: Global, duty: &mut Planned) -> Result<bool, Memory> {
    let mut pool = Pool::of(alloc, &duty.plan)?;
    let mut edit = Edit::new(alloc);
    are_anew(duty, &mut pool, &mut edit)
}

/// All situations.
const SITUATIONS: &[Situation] = &[
    (LESSONS, COURSE, &[(&[Selector::Change], CHANGES)]),
    (LESSONS, SCHOOL, BOTH_SWAPS),
    (SHIFTS, WARD, &[(SWAP_OR_PILLAR, PICKS)]),
    (SHIFTS, &[&[], &[]], NOTHING),
    (SHIFTS, HALF_PINNED, PINNED),
    (OPEN_SHIFTS, OPEN, NULLABLE),
];

/// The place of the first situation that isn't so.
fn wrong_situation(alloc: Global) -> Result<Option<usize>, Fail> {
    let situations = SITUATIONS;
    for place in 0..situations.len() {
        if wrong_in(alloc, &situations[place])?.is_some() {
            return Ok(Some(place));
        }
    }
    Ok(None)
}

#[test]
fn selectors_make_of_plans_and_words_what_they_should(rt: HostRuntime) -> Result<(), Fail> {
    let wrong = wrong_situation(rt.alloc())?;
    assert!(rt; wrong == None);
    Ok(())
}

#[test]
fn pillars_are_found_anew_after_an_edit(rt: HostRuntime) -> Result<(), Fail> {
    let mut duty = make_plan(rt.alloc(), SHIFTS, DUTY)?;
    assert!(rt; finds_anew(rt.alloc(), &mut duty) == Ok(true));
    Ok(())
}

/// Clears one variable of the fact whose id is the last word; at word 0 it makes nothing.
#[derive(Drop)]
struct Clears {
    var: u8,
}

impl MoveMaker for Clears {
    ghost made = { λ maker _ words. if slice_index words 7 == 0 then None else Some (edit_of (record { class = 1; id = slice_index words 7; var = maker.var; value = None } ∷ [])) };

    fn make(&self, _: &Plan, words: &[u32; 8], into: &mut Edit) -> Result<bool, Memory> {
        let id = words[7];
        if id == 0 {
            return Ok(false);
        }
        into.fill(&[cleared(id, self.var)])?;
        Ok(true)
    }
}

/// Takes a value away.
fn cleared(id: u32, var: u8) -> Set
    ensures { result ≡ record { class = 1; id = id; var = var; value = None } }
{
    Set {
        class: 1,
        id,
        var,
        value: None,
    }
}

/// Words whose second one is the last that picks the first of two makers, or the first that picks the second.
const OWN: &[Case] = &[
    ([9, 2147483647, 0, 0, 0, 0, 0, 6], Some(&[(6, 4, None)])),
    ([9, 2147483648, 0, 0, 0, 0, 0, 7], Some(&[(7, 5, None)])),
];

/// Whether a maker, asked by its box, makes an edit or none.
fn is_asked(maker: &Box<dyn MoveMaker>, plan: &Plan, edit: &mut Edit) -> Result<bool, Memory>
    requires { edit.old ≡ [] }
{
    let none = make_by(maker, plan, &[7, 7, 7, 7, 7, 7, 7, 0], edit)?;
    let empty = edit.sets().is_empty();
    edit.clear();
    let some = make_by(maker, plan, &[0, 0, 0, 0, 0, 0, 0, 7], edit)?;
    Ok(!none && empty && some && edit.sets() == [cleared(7, 4)].as_slice())
}

/// Whether the first of two makers makes an edit or none, and the words pick the one or the other.
fn are_asked(
    alloc: Global,
    facts: &Planned,
    makers: &[Box<dyn MoveMaker>],
) -> Result<bool, Memory> {
    if makers.len() != 2 {
        return Ok(false);
    }
    let mut edit = Edit::new(alloc);
    let asked = is_asked(&makers[0], &facts.plan, &mut edit)?;
    Ok(asked && makes(alloc, facts, &[Selector::Own], makers, OWN)?)
}

/// Whether two makers, which clear variables 4 and 5, are asked so.
fn asks_makers(alloc: Global, facts: &Planned) -> Result<bool, Memory> {
    let mut makers: List<Box<dyn MoveMaker>> = List::new(alloc);
    for var in 4..6 {
        let maker: Box<dyn MoveMaker> = Box::new(alloc, Clears { var })?;
        makers.push(maker)?;
    }
    are_asked(alloc, facts, makers.as_slice())
}

#[test]
fn makers_in_boxes_are_asked_and_picked(rt: HostRuntime) -> Result<(), Fail> {
    let facts = make_plan(rt.alloc(), SHIFTS, &[&[], &[]])?;
    assert!(rt; asks_makers(rt.alloc(), &facts) == Ok(true));
    Ok(())
}
