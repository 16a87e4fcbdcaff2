//! What the tests are made of: a timetable, and changes of it that are read from lines.

ghost use Rattle.std.specs.Prelude.{◌≡◌, IfOk, IfSome};
ghost use Rattle.plan_changes.specs.Fits.{IsOfSchema};
ghost use Rattle.plan_changes.specs.Performed.{MayPerform};

use change_feed::body_of;
use plan_changes::{Body, Change, ChangeFault, LineFault, Ready, prepare};
use plan_facts::{Kind, Memory, Names, Plan, Schema, Text};
use std::alloc::Global;
use test_plans::{ClassSketch, FactSketch, VarSketch, plan_of, schema_of};

/// The timeslots' class.
pub(super) const SLOT: u8 = 0;

/// The rooms' class.
pub(super) const ROOM: u8 = 1;

/// The lessons' class.
pub(super) const LESSON: u8 = 2;

/// The timetable's classes.
const CLASSES: &[ClassSketch] = &[
    ClassSketch(
        "timeslot",
        &[
            ("day", Kind::Number),
            ("start", Kind::Number),
            ("end", Kind::Number),
        ],
        &[],
    ),
    ClassSketch("room", &[("capacity", Kind::Number)], &[]),
    ClassSketch(
        "lesson",
        &[
            ("subject", Kind::Name),
            ("teacher", Kind::Name),
            ("group", Kind::Name),
            ("size", Kind::Number),
        ],
        &[VarSketch::Var("slot", SLOT), VarSketch::Var("room", ROOM)],
    ),
    ClassSketch(
        "block",
        &[("teacher", Kind::Name), ("day", Kind::Number)],
        &[],
    ),
];

/// Two slots; a room; three lessons, of which the last one is pinned.
const FACTS: &[&[FactSketch]] = &[
    &[
        FactSketch::Fact(1, &[1, 480, 540]),
        FactSketch::Fact(2, &[1, 540, 600]),
    ],
    &[FactSketch::Fact(1, &[30])],
    &[
        FactSketch::Entity(1, &[0, 1, 2, 20], &[Some(1), Some(1)]),
        FactSketch::Entity(2, &[3, 1, 4, 20], &[Some(2), Some(1)]),
        FactSketch::Pinned(5, &[3, 1, 4, 20], &[Some(2), None]),
    ],
    &[],
];

/// The names that the facts hold, in the order of their numbers.
const NAMES: &[&str] = &["Maths", "Ada", "9A", "Physics", "9B"];

/// The names of the two rules.
fn rules(alloc: Global) -> Result<[Text; 2], Memory> {
    let conflict = Text::from_slice(alloc, b"room_conflict")?;
    let size = Text::from_slice(alloc, b"room_size")?;
    Ok([conflict, size])
}

/// What a test changes: a plan of a schema, its names, and the weights of two rules.
#[derive(Drop)]
pub(super) struct World {
    pub alloc: Global,
    pub schema: Schema,
    pub plan: Plan,
    pub names: Names,
    pub weights: [u32; 2],
}

/// A plan that has no names, where each rule weighs 1.
pub(super) fn world_of(alloc: Global, schema: Schema, plan: Plan) -> World
    ensures schema { result.schema ≡ schema }
    ensures plan { result.plan ≡ plan }
{
    World {
        alloc,
        schema,
        plan,
        names: Names::new(alloc),
        weights: [1, 1],
    }
}

/// The timetable of this schema.
#[tactic(auto, using(plan_changes::proofs::Schemas::made_schema))]
fn timetable_of(alloc: Global, schema: Schema) -> Option<World>
    ensures { IfSome result (λ world. IsOfSchema world.schema world.plan) }
{
    match plan_of(alloc, &schema, FACTS) {
        Ok(plan) => Some(world_of(alloc, schema, plan)),
        Err(_) => None,
    }
}

/// The timetable, but for its names; none at want of memory.
pub(super) fn timetable(alloc: Global) -> Option<World>
    ensures { IfSome result (λ world. IsOfSchema world.schema world.plan) }
{
    match schema_of(alloc, CLASSES) {
        Ok(schema) => timetable_of(alloc, schema),
        Err(_) => None,
    }
}

/// Numbers the names that the facts of the timetable hold.
pub(super) fn number_names(names: &mut Names) -> Result<(), Memory> {
    for text in NAMES {
        if names.count() < 1000 {
            names.number(text.as_bytes())?;
        }
    }
    Ok(())
}

impl World {
    /// The change, made ready; or its fault.
    fn prepare(&self, change: &Change) -> Result<Ready, ChangeFault>
        ensures may { IsOfSchema self.now.schema self.now.plan
            → IfOk result (λ ready. MayPerform ready self.now.plan 2) }
    {
        let rules = rules(self.alloc)?;
        prepare(
            self.alloc,
            &self.schema,
            &self.plan,
            &self.names,
            &rules,
            change,
        )
    }

    /// What was read, made ready if it is a change that may be made; or its fault.
    fn ready_of(&self, body: &Body) -> Result<Ready, ChangeFault>
        ensures may { IsOfSchema self.now.schema self.now.plan
            → IfOk result (λ ready. MayPerform ready self.now.plan 2) }
    {
        match body {
            Body::Do(change) => self.prepare(change),
            Body::Bad(LineFault::Syntax(spot)) => Err(ChangeFault::Syntax(*spot)),
            _ => Err(ChangeFault::LongLine),
        }
    }

    /// The change of the line, made ready; or its fault.
    pub(super) fn ready(&self, line: &str) -> Result<Ready, ChangeFault>
        ensures may { IsOfSchema self.now.schema self.now.plan
            → IfOk result (λ ready. MayPerform ready self.now.plan 2) }
    {
        let body = body_of(self.alloc, line.as_bytes())?;
        self.ready_of(&body)
    }
}
