ghost use Rattle.std.specs.Prelude.{◌≡◌, ◌+◌, ◌++◌, OnOk, map, filter};
ghost use Rattle.plan_moves.specs.Entities.{is_movable, touch_of};
ghost use Rattle.move_selectors.specs.Pool.{IsPoolUpTo, without_links};

use crate::class_pool::ClassPool;
use plan_draws::picked_place;
use plan_facts::{List, Memory, Plan, Raw};
use plan_moves::Touch;
use std::alloc::Global;
use std::marker::Model;

/// What the selectors pick from in a plan: its movable entities, and the pillars of a class once a selector asks for them.
///
/// It is made of a plan, and again once facts were added or removed. After an edit of the plan, `forget_pillars` makes
/// it the pool of the new plan: an edit leaves the entities.
#[derive(Drop)]
pub struct Pool {
    entities: List<Touch>,
    classes: Vec<ClassPool>,
}

impl Model for Pool {
    ghost use Rattle.std.specs.Prelude.{◌^◌, ◌<◌, length};
    ghost use Rattle.move_selectors.specs.Pool.{PoolView};

    ghost Value = { PoolView };

    ghost view = { λ p. record { entities = p.entities; classes = p.classes.items } };

    ghost invariant = { λ p. (length p.entities < 2 ^ 32) × (length p.classes.items < 2 ^ 32) };
}

/// Appends the movable ones of these facts.
fn push_movable(entities: &mut List<Touch>, class: u8, facts: &[Raw]) -> Result<(), Memory>
    ensures { OnOk result (entities.new ≡ entities.old ++ map (touch_of class) (filter is_movable facts.now)) }
{
    for raw in facts {
        if !raw.pinned {
            entities.push(Touch { class, id: raw.id })?;
        }
    }
    Ok(())
}

/// Adds a class, where it has variables.
fn add_class(
    alloc: Global,
    plan: &Plan,
    class: u8,
    entities: &mut List<Touch>,
    classes: &mut Vec<ClassPool>,
) -> Result<(), Memory>
    requires { IsPoolUpTo plan.now class entities.old classes.old.items }
    ensures { OnOk result (IsPoolUpTo plan.now (class + 1) entities.new classes.new.items) }
{
    if plan.ranges(class).is_empty() {
        return Ok(());
    }
    let part = ClassPool::of(alloc, plan, class)?;
    push_movable(entities, class, plan.facts(class))?;
    classes.push(part)?;
    Ok(())
}

/// Forgets the pillars of each class.
fn forget_all(classes: &mut Vec<ClassPool>)
    ensures { classes.new.items ≡ map without_links classes.old.items }
{
    for part in classes.iter_mut() {
        part.forget_pillars();
    }
}

impl Pool {
    ghost use Rattle.std.specs.Prelude.{◌≡◌, ◌^◌, ◌<◌, Some, IfOk, IfSome, IsSome, IsSomeAnd, OnOk, length, slice_get};
    ghost use Rattle.plan_draws.specs.Picks.{picked_place};
    ghost use Rattle.move_selectors.specs.Pool.{IsPoolOf, FollowsEdits};

    /// The pool of a plan.
    pub fn of(alloc: Global, plan: &Plan) -> Result<Pool, Memory>
        ensures { IfOk result (IsPoolOf plan.now) }
    {
        let mut entities = List::new(alloc);
        let mut classes = Vec::new(alloc);
        for class in 0..plan.classes() {
            add_class(alloc, plan, class, &mut entities, &mut classes)?;
        }
        Ok(Pool { entities, classes })
    }

    /// Forgets the pillars: after a legal edit of its plan, this is the pool of the new plan then.
    pub fn forget_pillars(&mut self)
        ensures { FollowsEdits self.old self.new }
    {
        forget_all(&mut self.classes);
    }

    /// All movable entities, in entity order.
    pub(crate) fn entities(&self) -> &[Touch]
        ensures entities { result.now ≡ self.now.entities }
        ensures few { length result.now < 2 ^ 32 }
    {
        self.entities.as_slice()
    }

    /// The place of the class of entities that a word picks; none where there is no such class.
    pub(crate) fn picked_class(&self, word: u32) -> Option<usize>
        ensures place { result ≡ picked_place word (length self.now.classes) }
        ensures below { IfSome result (λ place. place < length self.now.classes) }
    {
        picked_place(word, self.classes.len())
    }

    /// The class of entities at this place.
    pub(crate) fn class_at(&self, place: usize) -> &ClassPool
        requires { place < length self.now.classes }
        ensures { slice_get self.now.classes place ≡ Some result.now }
    {
        &self.classes[place]
    }

    /// Finds the pillars of the class of entities at this place, where they weren't found yet.
    pub(crate) fn find_pillars(&mut self, plan: &Plan, place: usize) -> Result<(), Memory>
        requires pool { IsPoolOf plan.now self.old }
        requires place { place < length self.old.classes }
        ensures pool { IsPoolOf plan.now self.new }
        ensures count { length self.new.classes ≡ length self.old.classes }
        ensures found { OnOk result (IsSomeAnd (slice_get self.new.classes place) (λ part. IsSome part.links)) }
    {
        self.classes[place].find_pillars(plan)
    }
}
