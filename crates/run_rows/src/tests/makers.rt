//! Makers of moves that give nothing that can be done: a step has no candidate then.
ghost use Rattle.std.specs.Prelude.{◌≡◌, ◌∷◌, [], IfOk};

use super::harness::{Asked, filled, solved};
use super::silent::{Silent, first_wrong_among};
use plan_facts::{List, Memory, Plan, Text, is_name};
use plan_json::Domain;
use plan_moves::{Edit, MoveMaker, Set};
use plan_rules::{Kept, Rules};
use std::alloc::Global;
use std::sync::Wait;
use std::test::Fail;
use std::thread::Threads;

/// Gives the same sets each time, or never anything.
#[derive(Drop)]
struct Stubborn {
    gives: bool,
    sets: Vec<Set>,
}

impl MoveMaker for Stubborn {
    ghost use Rattle.std.specs.Prelude.{Some, None, if◌then◌else◌};
    ghost use Rattle.plan_moves.specs.Edits.{edit_of};

    ghost made = { λ maker _ _. if maker.gives then Some (edit_of maker.sets.items) else None };

    fn make(&self, _: &Plan, _: &[u32; 8], into: &mut Edit) -> Result<bool, Memory> {
        if !self.gives {
            return Ok(false);
        }
        into.fill(&self.sets)?;
        Ok(true)
    }
}

/// A list of one maker.
fn one_maker(alloc: Global, maker: Box<dyn MoveMaker>) -> Result<Vec<Box<dyn MoveMaker>>, Memory>
    ensures { IfOk result (λ makers. makers.items ≡ maker ∷ []) }
{
    let mut makers = Vec::new(alloc);
    makers.push(maker)?;
    Ok(makers)
}

/// The classes of the timetable, no rule, and one maker.
fn ruleless(alloc: Global, maker: Box<dyn MoveMaker>) -> Result<Domain<Silent>, Fail>
    ensures keeps { IfOk result (λ domain. ⟦<Rules<Silent> as Kept>⟧.keeps domain.rules) }
{
    let name = Text::from_slice(alloc, b"timetable")?;
    if !is_name(name.as_slice()) {
        return Err("no name".into());
    }
    let schema = domain_timetable::schema(alloc)?;
    let rules = Rules::build(
        alloc,
        &schema,
        List::new(alloc),
        List::new(alloc),
        List::new(alloc),
        List::new(alloc),
        List::new(alloc),
    )?;
    let makers = one_maker(alloc, maker)?;
    Ok(Domain::new(name, schema, rules, makers))
}

/// A lesson that is placed, and one that isn't; then a step whose candidates are the maker's.
const ONE_STEP: &str =
    r#"{"format":1,"domain":"timetable","settings":{"steps":1,"selectors":["own"]},"facts":{"timeslot":[<s1>,<s2><R><r1><L>{"id":1,"subject":"Maths","teacher":"Ada","group":"9A","size":20,"slot":2,"room":1},<b><E>"#;

/// The step keeps the plan.
const KEPT: &str = r#"run timetable
leg 0
place lesson#2 slot=1 room=1 <Z>
start <Z>
step 1 none <Z>
best <Z>
lesson#1 slot=2 room=1
lesson#2 slot=1 room=1
end
"#;

/// That step, after which the plan is the same.
fn asked_step(alloc: Global) -> Result<Asked, Memory> {
    let mut asked = solved(alloc, filled(alloc, ONE_STEP)?);
    asked.text = filled(alloc, KEPT)?;
    Ok(asked)
}

/// Whether a step has no candidate where a maker gives these sets, or nothing.
fn leaves_the_plan<T: Threads + Wait + Sync>(
    threads: &T,
    alloc: Global,
    gives: bool,
    sets: &[Set],
) -> Result<bool, Fail> {
    let sets = Vec::from_slice(alloc, sets)?;
    let maker: Box<dyn MoveMaker> = Box::new(alloc, Stubborn { gives, sets })?;
    let domains = [ruleless(alloc, maker)?];
    let asked = [asked_step(alloc)?];
    Ok(first_wrong_among(threads, alloc, &asked, &domains)? == None)
}

/// A set of a lesson that there isn't.
const STRANGER: Set = Set {
    class: 2,
    id: 99,
    var: 0,
    value: Some(1),
};

#[test]
fn a_maker_of_nothing_that_can_be_done_leaves_the_plan(rt: HostRuntime) -> Result<(), Fail> {
    let alloc = rt.alloc();
    assert!(rt; leaves_the_plan(&rt, alloc, true, &[STRANGER])?);
    assert!(rt; leaves_the_plan(&rt, alloc, true, &[])?);
    assert!(rt; leaves_the_plan(&rt, alloc, false, &[])?);
    Ok(())
}
