ghost use Rattle.std.specs.Prelude.{◌≡◌, [], ◌∷◌, length, option_map};
ghost use Rattle.std.specs.Option.{option_and_then};
ghost use Rattle.plan_draws.specs.Picks.{picked};
ghost use Rattle.plan_moves.specs.Entities.{entity_classes};
ghost use Rattle.move_selectors.specs.Candidates.{change_of, pillar_change_in, in_picked_class};
ghost use Rattle.move_selectors.specs.Movables.{AreOf, HaveLinks};
ghost use Rattle.move_selectors.specs.Pool.{IsPoolOf};
ghost use Rattle.move_selectors.specs.Puts.{Puts};

use crate::movables::Movables;
use crate::pillars::{change_members, chosen_set, picked_pillar};
use crate::pool::Pool;
use crate::values::picked_choice;
use plan_draws::picked;
use plan_facts::{Memory, Plan};
use plan_moves::{Edit, Set};

/// The variable of a movable entity that the words pick, with what it is set to.
fn picked_change(plan: &Plan, pool: &Pool, words: &[u32; 8]) -> Option<Set>
    requires { IsPoolOf plan.now pool.now }
    ensures { option_map (λ set. set ∷ []) result ≡ change_of plan.now words.now }
{
    let entity = picked(words[1], pool.entities())?;
    let choice = picked_choice(plan, entity.class, words[2], words[3])?;
    Some(chosen_set(entity.class, choice, entity.id))
}

/// One variable of one movable entity is set to one of its choices.
pub fn change(plan: &Plan, pool: &Pool, words: &[u32; 8], into: &mut Edit) -> Result<bool, Memory>
    requires pool { IsPoolOf plan.now pool.now }
    requires empty { into.old ≡ [] }
    ensures { Puts result (change_of plan.now words.now) into.new }
{
    let Some(set) = picked_change(plan, pool, words) else {
        return Ok(false);
    };
    into.put_new(set)?;
    Ok(true)
}

/// One variable of all members of a pillar of these entities is set to one of its choices.
fn pillar_change_in(
    plan: &Plan,
    movables: &Movables<'_>,
    words: &[u32; 8],
    into: &mut Edit,
) -> Result<bool, Memory>
    requires of { AreOf plan.now movables.now }
    requires links { HaveLinks movables.now }
    requires empty { into.old ≡ [] }
    ensures { Puts result (pillar_change_in plan.now movables.now.class words.now) into.new }
{
    let Some(head) = picked_pillar(movables, words[2]) else {
        return Ok(false);
    };
    let Some(choice) = picked_choice(plan, movables.class, words[3], words[4]) else {
        return Ok(false);
    };
    change_members(movables, head, choice, into)?;
    Ok(true)
}

/// One variable of all members of a pillar is set to one of its choices.
pub fn pillar_change(
    plan: &Plan,
    pool: &mut Pool,
    words: &[u32; 8],
    into: &mut Edit,
) -> Result<bool, Memory>
    requires pool { IsPoolOf plan.now pool.old }
    requires empty { into.old ≡ [] }
    ensures pool { IsPoolOf plan.now pool.new }
    ensures edit { Puts result (in_picked_class pillar_change_in plan.now words.now) into.new }
{
    let Some(place) = pool.picked_class(words[1]) else {
        return Ok(false);
    };
    pool.find_pillars(plan, place)?;
    let movables = pool.class_at(place).movables(plan);
    pillar_change_in(plan, &movables, words, into)
}
