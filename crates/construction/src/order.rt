ghost use Rattle.std.specs.Prelude.{◌≡◌, ◌+◌, ◌≤◌, IfOk, IsPermutation, IsSorted, length, map};
ghost use Rattle.plan_search.specs.InOrder.{in_order};
ghost use Rattle.plan_search.specs.Todo.{entity_difficulty, harder_first, todo_by};
ghost use Rattle.plan_search.specs.TodoLaws.{AwaitPlacing};
ghost use Rattle.construction.specs.Order.{calls_of, rank_order, ranked};

use crate::todo::entities_to_place;
use plan_facts::{List, Memory, Plan};
use plan_moves::Touch;
use plan_rules::{Book, Kept, Part, Row, Rules, Steps};
use score_director::Director;
use std::alloc::Global;
use std::cmp::Ordering;
use std::sync::ledger::Ledger;

/// An entity and how difficult it is.
#[derive(Drop)]
pub struct Rank {
    pub entity: Touch,
    pub difficulty: i64,
}

/// Which of two comes first: by class, the more difficult one, by id.
#[tactic(auto, unfolding(crate::specs::Order::rank_order))]
fn order_of(one: &Rank, other: &Rank) -> Ordering
    ensures { result ≡ rank_order one.now other.now }
{
    let harder = other.difficulty.cmp(&one.difficulty);
    let id = one.entity.id.cmp(&other.entity.id);
    one.entity
        .class
        .cmp(&other.entity.class)
        .then(harder.then(id))
}

/// Puts what is to be placed first before the others.
fn sort_ranks(ranks: &mut Vec<Rank>)
    ensures moved { IsPermutation ranks.old.items ranks.new.items }
    ensures sorted { IsSorted rank_order ranks.new.items }
{
    ranks.sort_unstable_by(|one, other| order_of(one, other));
}

/// How difficult an entity is. It asks its class's harder key, where there is one, once.
fn difficulty_of<B: Book, L: Ledger>(
    alloc: Global,
    rules: &Rules<B>,
    plan: &Plan,
    entity: Touch,
    steps: &mut Steps<L>,
) -> Result<i64, Memory>
    requires { ⟦<Rules<B> as Kept>⟧.keeps rules.now }
    ensures value { IfOk result (λ d. d ≡ entity_difficulty B.meaning rules.now.harder plan.now entity) }
    ensures cost { steps.new ≤ steps.old + 1 }
{
    let Some(key) = rules.harder(entity.class) else {
        return Ok(0);
    };
    let Some(rec) = plan.resolve(entity.class, entity.id)? else {
        return Ok(0);
    };
    let mut row = Row::new(alloc);
    row.push(Part::Fact(rec))?;
    Ok(key.call(&row, steps))
}

/// The entities, each with its difficulty.
fn ranks_of<B: Book, L: Ledger>(
    alloc: Global,
    rules: &Rules<B>,
    plan: &Plan,
    entities: &[Touch],
    steps: &mut Steps<L>,
) -> Result<Vec<Rank>, Memory>
    requires { ⟦<Rules<B> as Kept>⟧.keeps rules.now }
    ensures ranks { let difficulty = entity_difficulty B.meaning rules.now.harder plan.now in
        IfOk result (λ ranks. ranks.items ≡ map (ranked difficulty) entities.now) }
    ensures cost { steps.new ≤ steps.old + length entities.now }
{
    let mut ranks = Vec::new(alloc);
    for entity in entities {
        let difficulty = difficulty_of(alloc, rules, plan, *entity, steps)?;
        ranks.push(Rank {
            entity: *entity,
            difficulty,
        })?;
    }
    Ok(ranks)
}

/// The entities alone.
fn entities_of(alloc: Global, ranks: &[Rank]) -> Result<List<Touch>, Memory>
    ensures { IfOk result (λ entities. entities ≡ map (λ rank. rank.entity) ranks.now) }
{
    let mut entities = List::new(alloc);
    for rank in ranks {
        entities.push(rank.entity)?;
    }
    Ok(entities)
}

/// The entities by class, in a class the more difficult ones first, those that are as difficult by id.
fn harder_first<B: Book, L: Ledger>(
    alloc: Global,
    rules: &Rules<B>,
    plan: &Plan,
    entities: &[Touch],
    steps: &mut Steps<L>,
) -> Result<List<Touch>, Memory>
    requires { ⟦<Rules<B> as Kept>⟧.keeps rules.now }
    ensures order { let difficulty = entity_difficulty B.meaning rules.now.harder plan.now in
        IfOk result (λ todo. todo ≡ in_order (harder_first difficulty) entities.now) }
    ensures cost { steps.new ≤ steps.old + length entities.now }
{
    let mut ranks = ranks_of(alloc, rules, plan, entities, steps)?;
    sort_ranks(&mut ranks);
    Ok(entities_of(alloc, &ranks)?)
}

/// What is to be placed of the director's plan: the entities that aren't pinned and have a null variable, in entity
/// order; or where `decreasing` by class, in a class from the greatest difficulty down, those that are as difficult by
/// id. It calls no closure where it isn't decreasing, else at most one for each of them.
pub fn placing_order<B: Book, L: Ledger>(
    alloc: Global,
    director: &Director<B>,
    rules: &Rules<B>,
    decreasing: bool,
    steps: &mut Steps<L>,
) -> Result<List<Touch>, Memory>
    requires { ⟦<Rules<B> as Kept>⟧.keeps rules.now }
    ensures todo { IfOk result (λ todo. todo ≡ todo_by B.meaning rules.now.harder decreasing director.now.plan) }
    ensures awaits { IfOk result (AwaitPlacing director.now.plan) }
    ensures cost { steps.new ≤ steps.old + calls_of decreasing director.now.plan }
{
    let plan = director.plan();
    let entities = entities_to_place(alloc, plan)?;
    if !decreasing {
        return Ok(entities);
    }
    Ok(harder_first(alloc, rules, plan, entities.as_slice(), steps)?)
}
