ghost use Rattle.std.specs.Prelude.{◌≡◌, ◌++◌, map, filter, IfOk, OnOk, is_none};
ghost use Rattle.std.specs.List.{list_any};
ghost use Rattle.plan_facts.specs.Plan.{IsPlan};
ghost use Rattle.plan_moves.specs.Entities.{touch_of};
ghost use Rattle.plan_search.specs.Todo.{entities_to_place, is_waiting};

use plan_facts::{List, Memory, Plan, Raw};
use plan_moves::Touch;
use std::alloc::Global;

/// Whether one of the values is null.
fn has_null(values: &[Option<u32>]) -> bool
    ensures { result ≡ list_any is_none values.now }
{
    values.iter().any(|value| value.is_none())
}

/// Whether the record isn't pinned and has a null variable.
fn is_waiting(raw: &Raw) -> bool
    ensures { result ≡ is_waiting raw.now }
{
    !raw.pinned && has_null(raw.values.as_slice())
}

/// Appends the entities of a class that are to be placed.
fn push_waiting(facts: &[Raw], class: u8, todo: &mut List<Touch>) -> Result<(), Memory>
    ensures { OnOk result (todo.new ≡ todo.old ++ map (touch_of class) (filter is_waiting facts.now)) }
{
    for raw in facts {
        if is_waiting(raw) {
            todo.push(Touch { class, id: raw.id })?;
        }
    }
    Ok(())
}

/// The entities that are to be placed, in entity order.
pub fn entities_to_place(alloc: Global, plan: &Plan) -> Result<List<Touch>, Memory>
    ensures todo { IfOk result (λ todo. todo ≡ entities_to_place plan.now) }
    ensures sound { IsPlan plan.now }
{
    let mut todo = List::new(alloc);
    for class in 0..plan.classes() {
        if !plan.ranges(class).is_empty() {
            push_waiting(plan.facts(class), class, &mut todo)?;
        }
    }
    Ok(todo)
}
