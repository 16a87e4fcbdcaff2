ghost use Rattle.std.specs.Prelude.{◌≡◌, ◌^◌, ◌<◌, IfOk, length};
ghost use Rattle.move_selectors.specs.Pool.{movable_places};

use crate::links::{Links, find_links, no_links};
use crate::movables::Movables;
use plan_facts::{Memory, Plan, Raw};
use std::alloc::Global;
use std::marker::Model;

/// A class of entities: the places of its movable ones among its facts, and their pillars where these were found.
#[derive(Drop)]
pub struct ClassPool {
    class: u8,
    places: Vec<u32>,
    found: bool,
    links: Links,
}

impl Model for ClassPool {
    ghost use Rattle.move_selectors.specs.Pool.{ClassPoolView};

    ghost Value = { ClassPoolView };

    ghost use Rattle.std.specs.Prelude.{Some, None, if◌then◌else◌};
    ghost use Rattle.move_selectors.specs.Linked.{links_view};

    ghost view = { λ p. record {
      class = p.class;
      places = p.places.items;
      links = if p.found then Some (links_view p.links) else None;
    } };
}

/// The places of the movable ones among some facts.
fn movable_places(alloc: Global, facts: &[Raw]) -> Result<Vec<u32>, Memory>
    requires { length facts.now < 2 ^ 32 }
    ensures { IfOk result (λ places. places.items ≡ movable_places facts.now) }
{
    let mut places = Vec::new(alloc);
    for (place, raw) in facts.iter().enumerate() {
        if !raw.pinned {
            places.push(place as u32)?;
        }
    }
    Ok(places)
}

impl ClassPool {
    ghost use Rattle.std.specs.Prelude.{◌≡◌, None, IfOk, IsSome, OnOk};
    ghost use Rattle.move_selectors.specs.Pool.{IsClassPoolOf};
    ghost use Rattle.move_selectors.specs.Movables.{AreOf, HaveLinks};

    /// The part of a pool that is a plan's class of entities.
    pub fn of(alloc: Global, plan: &Plan, class: u8) -> Result<ClassPool, Memory>
        ensures class { IfOk result (λ part. part.class ≡ class) }
        ensures part { IfOk result (IsClassPoolOf plan.now) }
    {
        let places = movable_places(alloc, plan.facts(class))?;
        Ok(ClassPool {
            class,
            places,
            found: false,
            links: no_links(alloc),
        })
    }

    /// The movable entities of the class, as they are in the plan.
    pub fn movables<'a>(&'a self, plan: &'a Plan) -> Movables<'a>
        requires { IsClassPoolOf plan.now self.now }
        ensures class { result.class ≡ self.now.class }
        ensures of { AreOf plan.now result }
        ensures links { IsSome self.now.links → HaveLinks result }
    {
        Movables {
            class: self.class,
            nullables: plan.nullables(self.class),
            facts: plan.facts(self.class),
            places: &self.places,
            links: &self.links,
        }
    }

    /// Finds the pillars of the class, where they weren't found yet.
    pub fn find_pillars(&mut self, plan: &Plan) -> Result<(), Memory>
        requires { IsClassPoolOf plan.now self.old }
        ensures class { self.new.class ≡ self.old.class }
        ensures part { IsClassPoolOf plan.now self.new }
        ensures found { OnOk result (IsSome self.new.links) }
    {
        if self.found {
            return Ok(());
        }
        let facts = plan.facts(self.class);
        let nullables = plan.nullables(self.class);
        let found = find_links(&mut self.links, facts, &self.places, nullables);
        self.found = found.is_ok();
        found
    }

    /// Forgets the pillars.
    pub fn forget_pillars(&mut self)
        ensures { self.new ≡ record self.old { links = None } }
    {
        self.found = false;
    }
}
