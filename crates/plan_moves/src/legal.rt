ghost use Rattle.std.specs.Prelude.{◌≡◌};
ghost use Rattle.std.specs.List.{list_any};
ghost use Rattle.plan_facts.specs.Plan.{is_value_of, IsPlan};
ghost use Rattle.plan_moves.specs.Edits.{held_by, is_movable_var, is_in_range, is_legal_set, is_legal, is_change};

use crate::edit::Set;
use plan_facts::Plan;

/// What the variable of a set holds now; none where there is no such variable.
pub fn held(plan: &Plan, set: &Set) -> Option<Option<u32>>
    ensures held { result ≡ held_by plan.now set.now.class set.now.id set.now.var }
    ensures sound { IsPlan plan.now }
{
    match plan.raw(set.class, set.id) {
        Some(raw) => raw.values.get(set.var as usize).copied(),
        None => None,
    }
}

/// Whether a value is null or the id of a live fact of the value class.
fn is_value(plan: &Plan, range: u8, value: Option<u32>) -> bool
    ensures { result ≡ is_value_of plan.now range value }
{
    match value {
        Some(id) => plan.raw(range, id).is_some(),
        None => true,
    }
}

/// Whether the variable is there, and its entity isn't pinned.
fn is_movable_var(plan: &Plan, set: &Set) -> bool
    ensures { result ≡ is_movable_var plan.now set.now }
{
    match plan.raw(set.class, set.id) {
        Some(raw) => raw.values.get(set.var as usize).is_some() && !raw.pinned,
        None => false,
    }
}

/// Whether the value is null or live in the variable's range.
fn is_in_range(plan: &Plan, set: &Set) -> bool
    ensures { result ≡ is_in_range plan.now set.now }
{
    match plan.ranges(set.class).get(set.var as usize) {
        Some(range) => is_value(plan, *range, set.value),
        None => false,
    }
}

/// Whether the variable may be set, and to this value.
fn is_legal_one(plan: &Plan, set: &Set) -> bool
    ensures { result ≡ is_legal_set plan.now set.now }
{
    is_movable_var(plan, set) && is_in_range(plan, set)
}

/// Whether the variable is there and holds another value.
fn changes(plan: &Plan, set: &Set) -> bool
    ensures { result ≡ is_change plan.now set.now }
{
    match held(plan, set) {
        Some(held) => held != set.value,
        None => false,
    }
}

/// Whether each set is legal.
pub fn are_legal(plan: &Plan, sets: &[Set]) -> bool
    ensures { result ≡ is_legal plan.now sets.now }
{
    sets.iter().all(|set| is_legal_one(plan, set))
}

/// Whether some variable is there and holds another value.
pub fn any_changes(plan: &Plan, sets: &[Set]) -> bool
    ensures { result ≡ list_any (is_change plan.now) sets.now }
{
    sets.iter().any(|set| changes(plan, set))
}
