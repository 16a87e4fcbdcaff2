ghost use Rattle.std.specs.Prelude.{◌≡◌, ◌<◌, ◌≤◌, ◌-◌, All, true, false, length, drop, slice_index_or, option_copied};
ghost use Rattle.std.specs.Ordering.{is_lt, is_eq};
ghost use Rattle.std.specs.Option.{option_map_or};
ghost use Rattle.plan_moves.specs.Edits.{set_order, entity_of, is_same, IsBefore};

use crate::legal;
use plan_facts::{List, Memory, Plan, Schema};
use std::alloc::Global;
use std::cmp::Ordering;
use std::marker::Model;

/// A variable of an entity, and the id of the value that it is to get, or null.
#[derive(Clone, Copy, Debug, Drop, PartialEq, Eq)]
pub struct Set {
    pub class: u8,
    pub id: u32,
    pub var: u8,
    pub value: Option<u32>,
}

/// An entity that an edit changes.
#[derive(Clone, Copy, Debug, Drop, PartialEq, Eq)]
pub struct Touch {
    pub class: u8,
    pub id: u32,
}

/// A change of a plan's variables: for some variables, each at most once, the value that each is to get.
#[derive(Drop)]
pub struct Edit {
    sets: Vec<Set>,
}

impl Model for Edit {
    ghost use Rattle.std.specs.Prelude.{List};
    ghost use Rattle.plan_moves.specs.declared.edit.Set.{Set};

    ghost Value = { List Set };

    ghost use Rattle.plan_moves.specs.Edits.{AreInOrder};

    ghost view = { λ e. e.sets.items };

    ghost invariant = { λ e. AreInOrder e.sets.items };
}

// Which of two variables comes first: by class, then id, then variable.
#[tactic(auto, unfolding(crate::specs::Edits::set_order))]
fn order_of(one: &Set, other: &Set) -> Ordering
    ensures { result ≡ set_order one.now other.now }
{
    one.class
        .cmp(&other.class)
        .then(one.id.cmp(&other.id).then(one.var.cmp(&other.var)))
}

// The place from which on all sets come after this one. Sets that come in order are placed at once.
fn place_for(sets: &[Set], set: &Set) -> usize
    ensures within { result ≤ length sets.now }
    ensures after { All (IsBefore set.now) (drop result sets.now) }
    ensures before { 0 < result → is_lt (set_order set.now (slice_index_or sets.now (result - 1) set.now)) ≡ false }
{
    let mut place = sets.len();
    while place > 0 && order_of(set, &sets[place - 1]).is_lt() {
        place -= 1;
    }
    place
}

// Whether the variable stands just before this place.
fn is_just_before(sets: &[Set], set: &Set, place: usize) -> bool
    requires { place ≤ length sets.now }
    ensures some { result ≡ true → 0 < place }
    ensures answer { 0 < place → result ≡ is_eq (set_order (slice_index_or sets.now (place - 1) set.now) set.now) }
{
    place > 0 && order_of(&sets[place - 1], set).is_eq()
}

// The entity of a set.
fn entity_of(set: &Set) -> Touch
    ensures { result ≡ entity_of set.now }
{
    Touch {
        class: set.class,
        id: set.id,
    }
}

// Whether a set is there and has this entity.
fn is_of(set: Option<&Set>, touch: Touch) -> bool
    ensures { result ≡ option_map_or (λ other. is_same touch (entity_of other)) (option_copied set.entry) false }
{
    match set {
        Some(set) => touch.class == set.class && touch.id == set.id,
        None => false,
    }
}

impl Edit {
    ghost use Rattle.std.specs.Prelude.{◌≡◌, [], not, if◌then◌else◌, IfOk, OnOk, OnErr};
    ghost use Rattle.std.specs.Prelude.{IsTrue, fold};
    ghost use Rattle.plan_moves.specs.Edits.{AreInOrder, is_set_in, with_set, with_new, edit_of};
    ghost use Rattle.plan_moves.specs.Edits.{is_legal, is_doable, applied, inverse_of, TakesBack};
    ghost use Rattle.plan_moves.specs.Edits.{touched_by, AreTouchesInOrder};

    /// The edit that changes nothing.
    pub fn new(alloc: Global) -> Edit
        ensures { result ≡ [] }
    {
        Edit {
            sets: Vec::new(alloc),
        }
    }

    /// The variables and their values, in the order of class, id and variable, each variable once.
    pub fn sets(&self) -> &[Set]
        ensures sets { result.now ≡ self.now }
        ensures order { AreInOrder self.now }
    {
        &self.sets
    }

    /// Takes all variables out.
    pub fn clear(&mut self)
        ensures { self.new ≡ [] }
    {
        self.sets.clear();
    }

    /// Adds a variable with its value; false, and nothing is added, exactly where that variable is in the edit already.
    pub fn put(&mut self, set: Set) -> Result<bool, Memory>
        ensures answer { IfOk result (λ put. put ≡ not (is_set_in self.old set)) }
        ensures now { IfOk result (λ put. self.new ≡ (if put then with_set self.old set else self.old)) }
        ensures err { OnErr result (self.new ≡ self.old) }
    {
        let place = place_for(&self.sets, &set);
        if is_just_before(&self.sets, &set, place) {
            return Ok(false);
        }
        self.sets.insert(place, set)?;
        Ok(true)
    }

    /// Adds a variable with its value, unless that variable is in the edit already.
    #[tactic(auto, using(crate::proofs::Filled::put_new))]
    #[inline(always)]
    pub fn put_new(&mut self, set: Set) -> Result<(), Memory>
        ensures ok { OnOk result (self.new ≡ with_new self.old set) }
        ensures err { OnErr result (self.new ≡ self.old) }
    {
        let _ = self.put(set)?;
        Ok(())
    }

    /// Adds these sets one after the other, each unless its variable is in the edit already.
    fn put_all(&mut self, sets: &[Set]) -> Result<(), Memory>
        ensures { OnOk result (self.new ≡ fold with_new self.old sets.now) }
    {
        for set in sets {
            self.put_new(*set)?;
        }
        Ok(())
    }

    /// Sets these variables alone; of sets with one variable the first counts. At want of memory nothing is set.
    #[tactic(auto, unfolding(crate::specs::Edits::edit_of), using(crate::proofs::Filled::order_kept))]
    pub fn fill(&mut self, sets: &[Set]) -> Result<(), Memory>
        ensures ok { OnOk result (self.new ≡ edit_of sets.now) }
        ensures in_order { OnOk result (AreInOrder sets.now → self.new ≡ sets.now) }
        ensures err { OnErr result (self.new ≡ []) }
    {
        self.clear();
        let filled = self.put_all(sets);
        if filled.is_err() {
            self.clear();
        }
        filled
    }

    /// Whether the edit is legal and changes some variable.
    #[inline(always)]
    pub fn doable(&self, _: &Schema, plan: &Plan) -> bool
        ensures { result ≡ is_doable plan.now self.now }
    {
        legal::are_legal(plan, &self.sets) && legal::any_changes(plan, &self.sets)
    }

    /// Sets the variables of a plan in which the edit is legal.
    pub fn apply(&self, plan: &mut Plan)
        requires { IsTrue (is_legal plan.old self.now) }
        ensures { plan.new ≡ applied plan.old self.now }
    {
        for set in &self.sets {
            plan.set(set.class, set.id, set.var, set.value);
        }
    }

    /// The edit that takes this legal edit back: the same variables with their present values.
    pub fn inverse(&self, plan: &Plan) -> Result<Edit, Memory>
        requires { IsTrue (is_legal plan.now self.now) }
        ensures back { IfOk result (λ back. back ≡ inverse_of plan.now self.now) }
        ensures takes_back { IfOk result (TakesBack plan.now self.now) }
    {
        let mut sets = Vec::with_capacity(*self.sets.allocator(), self.sets.len())?;
        for set in &self.sets {
            sets.push(Set {
                value: legal::held(plan, set).flatten(),
                ..*set
            })?;
        }
        Ok(Edit { sets })
    }

    /// The entities that the edit sets variables of, each once, in the order of class and id.
    #[inline(always)]
    pub fn touched(&self) -> Result<List<Touch>, Memory>
        ensures touched { IfOk result (λ touches. touches ≡ touched_by self.now) }
        ensures order { IfOk result AreTouchesInOrder }
    {
        let mut touches = List::new(*self.sets.allocator());
        for place in 0..self.sets.len() {
            let touch = entity_of(&self.sets[place]);
            if !is_of(self.sets.get(place + 1), touch) {
                touches.push(touch)?;
            }
        }
        Ok(touches)
    }
}
