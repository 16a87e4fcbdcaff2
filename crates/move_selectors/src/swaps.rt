ghost use Rattle.std.specs.Prelude.{◌≡◌, ◌≤◌, [], All, length};
ghost use Rattle.move_selectors.specs.Candidates.{exchange_of, swap_among, swap_in, pillar_swap_among, pillar_swap_in, in_picked_class};
ghost use Rattle.move_selectors.specs.Movables.{AreThere, HaveLinks, entities_in};
ghost use Rattle.move_selectors.specs.Pool.{IsPoolOf};
ghost use Rattle.move_selectors.specs.Puts.{Puts};

use crate::movables::{Movables, same_values};
use crate::pillars::{exchange_members, picked_pillar, put_values};
use crate::pool::Pool;
use plan_facts::{Memory, Plan, Raw};
use plan_moves::Edit;

/// Two entities of a class get each other's values; none where they are one.
#[tactic(auto, unfolding(crate::specs::Candidates::exchange_of), using(crate::proofs::SetLists::edit_of_two))]
fn exchange(class: u8, one: &Raw, other: &Raw, into: &mut Edit) -> Result<bool, Memory>
    requires one { length one.now.values ≤ 2 }
    requires other { length other.now.values ≤ 2 }
    requires empty { into.old ≡ [] }
    ensures { Puts result (exchange_of class one.now other.now) into.new }
{
    if one.id == other.id {
        return Ok(false);
    }
    put_values(into, class, one.id, other.values.as_slice())?;
    put_values(into, class, other.id, one.values.as_slice())?;
    Ok(true)
}

/// Two of these entities, each picked by a word, get each other's values.
fn swap_among(movables: &Movables<'_>, words: &[u32; 8], into: &mut Edit) -> Result<bool, Memory>
    requires there { AreThere movables.now }
    requires short { All (λ raw. length raw.values ≤ 2) (entities_in movables.now) }
    requires empty { into.old ≡ [] }
    ensures { Puts result (swap_among movables.now.class (entities_in movables.now) words.now) into.new }
{
    let Some(one) = movables.picked(words[2]) else {
        return Ok(false);
    };
    let Some(other) = movables.picked(words[3]) else {
        return Ok(false);
    };
    exchange(movables.class, one, other, into)
}

/// Two movable entities of a class, each picked by a word, get each other's values.
pub fn swap(plan: &Plan, pool: &Pool, words: &[u32; 8], into: &mut Edit) -> Result<bool, Memory>
    requires pool { IsPoolOf plan.now pool.now }
    requires empty { into.old ≡ [] }
    ensures { Puts result (in_picked_class swap_in plan.now words.now) into.new }
{
    let Some(place) = pool.picked_class(words[1]) else {
        return Ok(false);
    };
    let movables = pool.class_at(place).movables(plan);
    swap_among(&movables, words, into)
}

/// Two pillars of these entities, each picked by a word, get each other's values; none where they are one.
fn pillar_swap_among(
    movables: &Movables<'_>,
    words: &[u32; 8],
    into: &mut Edit,
) -> Result<bool, Memory>
    requires there { AreThere movables.now }
    requires short { All (λ raw. length raw.values ≤ 2) (entities_in movables.now) }
    requires links { HaveLinks movables.now }
    requires empty { into.old ≡ [] }
    ensures { let m = movables.now in
        Puts result (pillar_swap_among m.class m.nullables.now (entities_in m) words.now) into.new }
{
    let Some(one) = picked_pillar(movables, words[2]) else {
        return Ok(false);
    };
    let Some(other) = picked_pillar(movables, words[3]) else {
        return Ok(false);
    };
    if same_values(movables.values(one), movables.values(other)) {
        return Ok(false);
    }
    exchange_members(movables, one, other, into)?;
    Ok(true)
}

/// Two pillars of a class, each picked by a word, get each other's values.
pub fn pillar_swap(
    plan: &Plan,
    pool: &mut Pool,
    words: &[u32; 8],
    into: &mut Edit,
) -> Result<bool, Memory>
    requires pool { IsPoolOf plan.now pool.old }
    requires empty { into.old ≡ [] }
    ensures pool { IsPoolOf plan.now pool.new }
    ensures edit { Puts result (in_picked_class pillar_swap_in plan.now words.now) into.new }
{
    let Some(place) = pool.picked_class(words[1]) else {
        return Ok(false);
    };
    pool.find_pillars(plan, place)?;
    let movables = pool.class_at(place).movables(plan);
    pillar_swap_among(&movables, words, into)
}
