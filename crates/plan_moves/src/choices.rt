ghost use Rattle.std.specs.Prelude.{◌≡◌, ◌+◌, ◌<◌, ◌≤◌, Some, length, slice_get};
ghost use Rattle.plan_facts.specs.Plan.{class_of, ids_of, range_of, is_nullable};
ghost use Rattle.plan_facts.specs.Limits.{fact_limit};
ghost use Rattle.plan_moves.specs.Entities.{choices_of};

use plan_facts::Plan;

/// The ids of a variable's range, increasing.
fn range_ids(plan: &Plan, class: u8, var: u8) -> &[u32]
    requires { var < length (class_of plan.now class).ranges }
    ensures ids { result.now ≡ ids_of plan.now (range_of plan.now class var) }
    ensures few { length result.now ≤ fact_limit }
{
    plan.ids(plan.ranges(class)[var as usize])
}

/// Whether a variable may stay null.
fn is_nullable(plan: &Plan, class: u8, var: u8) -> bool
    ensures { result ≡ is_nullable plan.now class var }
{
    plan.nullables(class)
        .get(var as usize)
        .copied()
        .unwrap_or(false)
}

/// How many choices a variable of a class has: the facts of its range, and null where it may stay null.
pub fn choice_count(plan: &Plan, class: u8, var: u8) -> usize
    requires { var < length (class_of plan.now class).ranges }
    ensures count { result ≡ length (choices_of plan.now class var) }
    ensures few { result ≤ fact_limit + 1 }
{
    range_ids(plan, class, var).len() + is_nullable(plan, class, var) as usize
}

/// The choice at this place: an id of the range, the ids increasing, and null after them.
pub fn choice_at(plan: &Plan, class: u8, var: u8, place: usize) -> Option<u32>
    requires there { var < length (class_of plan.now class).ranges }
    requires place { place < length (choices_of plan.now class var) }
    ensures { slice_get (choices_of plan.now class var) place ≡ Some result }
{
    range_ids(plan, class, var).get(place).copied()
}
