ghost use Rattle.std.specs.Prelude.{◌≡◌, ◌<◌, ◌≤◌, [], true, false, All, OnOk, IfSome, length, option_map, fold};
ghost use Rattle.plan_draws.specs.Picks.{picked};
ghost use Rattle.plan_moves.specs.Edits.{with_new, sets_of};
ghost use Rattle.move_selectors.specs.Pillars.{pillars_of};
ghost use Rattle.move_selectors.specs.Links.{IsHead, IsNext, values_at, is_same_at, is_settled_at};
ghost use Rattle.move_selectors.specs.Movables.{AreThere, HaveLinks, entities_in};
ghost use Rattle.move_selectors.specs.Candidates.{chosen_set, pillar_edit_of};
ghost use Rattle.move_selectors.specs.Exchanged.{exchanged_edit};

use crate::movables::{Movables, same_values};
use crate::values::Choice;
use plan_draws::picked;
use plan_facts::Memory;
use plan_moves::{Edit, Set};

/// The first member of the pillar that a word picks; none where there is no pillar.
pub fn picked_pillar(movables: &Movables<'_>, word: u32) -> Option<usize>
    requires there { AreThere movables.now }
    requires links { HaveLinks movables.now }
    ensures pillar { let entities = entities_in movables.now in
        option_map (values_at entities) result ≡ picked word (pillars_of movables.now.nullables.now entities) }
    ensures head { IfSome result (IsHead movables.now.nullables.now (entities_in movables.now)) }
{
    let head = picked(word, &movables.links.heads)?;
    Some(*head as usize)
}

/// The next member of the pillar of this one; past the end where there is none.
fn next_member(movables: &Movables<'_>, at: usize) -> usize
    requires at { at < length movables.now.places.now }
    requires links { HaveLinks movables.now }
    requires settled { is_settled_at movables.now.nullables.now (entities_in movables.now) at ≡ true }
    ensures { IsNext (entities_in movables.now) at result }
{
    movables.links.next[at] as usize
}

/// The set that gives the chosen variable of an entity what was chosen.
pub fn chosen_set(class: u8, choice: Choice, id: u32) -> Set
    ensures { result ≡ chosen_set class choice id }
{
    Set {
        class,
        id,
        var: choice.var,
        value: choice.value,
    }
}

/// The chosen variable of all members of the pillar that begins here is set to what was chosen.
pub fn change_members(
    movables: &Movables<'_>,
    head: usize,
    choice: Choice,
    into: &mut Edit,
) -> Result<(), Memory>
    requires empty { into.old ≡ [] }
    requires there { AreThere movables.now }
    requires links { HaveLinks movables.now }
    requires head { IsHead movables.now.nullables.now (entities_in movables.now) head }
    ensures { let entities = entities_in movables.now in
        OnOk result (into.new ≡ pillar_edit_of movables.now.class entities (values_at entities head) choice) }
{
    let mut at = head;
    'members: while at < movables.len() {
        into.put_new(chosen_set(movables.class, choice, movables.entity(at).id))?;
        at = next_member(movables, at);
    }
    Ok(())
}

/// Gives an entity these values in its variables.
pub fn put_values(into: &mut Edit, class: u8, id: u32, values: &[Option<u32>]) -> Result<(), Memory>
    requires { length values.now ≤ 2 }
    ensures { OnOk result (into.new ≡ fold with_new into.old (sets_of class id values.now)) }
{
    for (var, value) in values.iter().enumerate() {
        into.put_new(Set {
            class,
            id,
            var: var as u8,
            value: *value,
        })?;
    }
    Ok(())
}

/// The members of the two pillars that begin at these places get each other's values. The pillars are different.
pub fn exchange_members(
    movables: &Movables<'_>,
    one: usize,
    other: usize,
    into: &mut Edit,
) -> Result<(), Memory>
    requires empty { into.old ≡ [] }
    requires there { AreThere movables.now }
    requires links { HaveLinks movables.now }
    requires short { All (λ raw. length raw.values ≤ 2) (entities_in movables.now) }
    requires one { IsHead movables.now.nullables.now (entities_in movables.now) one }
    requires other { IsHead movables.now.nullables.now (entities_in movables.now) other }
    requires apart { is_same_at (entities_in movables.now) one other ≡ false }
    ensures { OnOk result (into.new ≡ exchanged_edit movables.now.class (entities_in movables.now) one other) }
{
    let mut first = one;
    let mut second = other;
    'members: while first < movables.len() || second < movables.len() {
        if first < second {
            let id = movables.entity(first).id;
            put_values(into, movables.class, id, movables.values(other))?;
            first = next_member(movables, first);
        } else {
            let id = movables.entity(second).id;
            put_values(into, movables.class, id, movables.values(one))?;
            second = next_member(movables, second);
        }
    }
    Ok(())
}
