ghost use Rattle.std.specs.Prelude.{◌≡◌, ◌^◌, ◌<◌, ◌≤◌, List, [], Option, length, map};
ghost use Rattle.plan_moves.specs.declared.edit.Set.{Set};
ghost use Rattle.plan_moves.specs.Made.{Fills};
ghost use Rattle.move_selectors.specs.Candidates.{own_of, selected_of, candidate_of};
ghost use Rattle.move_selectors.specs.Pool.{IsPoolOf};
ghost use Rattle.move_selectors.specs.Puts.{Puts};

use crate::changes::{change, pillar_change};
use crate::pool::Pool;
use crate::swaps::{pillar_swap, swap};
use plan_draws::{picked, picked_place};
use plan_facts::{Memory, Plan, Schema};
use plan_moves::{Edit, MoveMaker, make_by};
use plan_settings::Selector;

/// What the maker that the second word picks makes of the plan and all words.
fn own(
    plan: &Plan,
    makers: &[Box<dyn MoveMaker>],
    words: &[u32; 8],
    into: &mut Edit,
) -> Result<bool, Memory>
    requires makers { length makers.now < 2 ^ 32 }
    requires empty { into.old ≡ [] }
    ensures { Puts result (own_of plan.now (map (λ maker. made maker) makers.now) words.now) into.new }
{
    let Some(place) = picked_place(words[1], makers.len()) else {
        return Ok(false);
    };
    make_by(&makers[place], plan, words, into)
}

/// The edit that a selector makes, or none.
fn selected(
    plan: &Plan,
    pool: &mut Pool,
    selector: Selector,
    makers: &[Box<dyn MoveMaker>],
    words: &[u32; 8],
    into: &mut Edit,
) -> Result<bool, Memory>
    requires makers { length makers.now < 2 ^ 32 }
    requires pool { IsPoolOf plan.now pool.old }
    requires empty { into.old ≡ [] }
    ensures pool { IsPoolOf plan.now pool.new }
    ensures edit { let makes = map (λ maker. made maker) makers.now in
        Puts result (selected_of selector plan.now makes words.now) into.new }
{
    match selector {
        Selector::Change => change(plan, pool, words, into),
        Selector::Swap => swap(plan, pool, words, into),
        Selector::PillarChange => pillar_change(plan, pool, words, into),
        Selector::PillarSwap => pillar_swap(plan, pool, words, into),
        Selector::Own => own(plan, makers, words, into),
    }
}

/// Empties an edit into which nothing was put.
fn settle(put: Result<bool, Memory>, into: &mut Edit) -> Result<bool, Memory>
    ensures { (due : Option (List Set)) → Puts put due into.old → Fills result due into.new }
{
    match put {
        Ok(true) => Ok(true),
        Ok(false) => {
            into.clear();
            Ok(false)
        }
        Err(fault) => {
            into.clear();
            Err(fault)
        }
    }
}

/// Fills an edit with what the words make of a plan, and answers true; or empties it and answers false, where they make
/// none. The first word picks one of 1 to 8 selectors, the others pick what it asks for, from the plan's pool. None is
/// made where a list to pick from is empty, where a swap has one entity or pillar twice, and where a maker makes none.
/// The edit may be one that isn't doable. At want of memory it is emptied.
///
/// The classes and ranges of the schema are also in the plan, which alone is read.
#[tactic(auto, unfolding(crate::specs::Candidates::candidate_of))]
pub fn candidate(
    _: &Schema,
    plan: &Plan,
    pool: &mut Pool,
    selectors: &[Selector],
    makers: &[Box<dyn MoveMaker>],
    words: &[u32; 8],
    into: &mut Edit,
) -> Result<bool, Memory>
    requires selectors { (1 ≤ length selectors.now) × (length selectors.now ≤ 8) }
    requires makers { length makers.now < 2 ^ 32 }
    requires pool { IsPoolOf plan.now pool.old }
    ensures pool { IsPoolOf plan.now pool.new }
    ensures edit { let makes = map (λ maker. made maker) makers.now in
        Fills result (candidate_of plan.now selectors.now makes words.now) into.new }
{
    into.clear();
    let Some(selector) = picked(words[0], selectors) else {
        return Ok(false);
    };
    let put = selected(plan, pool, *selector, makers, words, into);
    settle(put, into)
}
