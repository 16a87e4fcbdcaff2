//! The keys of the records that are about a fact: its own, and those of the records that hold it.

ghost use Rattle.std.specs.Prelude.{◌≡◌, ◌++◌, IfOk, OnOk};
ghost use Rattle.score_director.specs.Holders.{holder_keys_in, is_held, is_holder, keys_about, keys_of_holders};

use plan_facts::{Memory, Plan, Raw};
use plan_moves::Touch;
use std::alloc::Global;

/// Whether a variable with this value class holds a fact.
fn is_held(fact: Touch, range: u8, value: Option<u32>) -> bool
    ensures { result ≡ is_held fact.class fact.id range value }
{
    match value {
        Some(held) => range == fact.class && held == fact.id,
        None => false,
    }
}

/// Whether one of the values of variables, with these value classes, is a fact.
fn is_holder(ranges: &[u8], values: &[Option<u32>], fact: Touch) -> bool
    ensures { result ≡ is_holder fact.class fact.id ranges.now values.now }
{
    for var in 0..ranges.len().min(values.len()) {
        if is_held(fact, ranges[var], values[var]) {
            return true;
        }
    }
    false
}

/// Appends the keys of those of some records of a class, with these value classes, that hold a fact.
fn push_holders_of(
    ranges: &[u8],
    facts: &[Raw],
    class: u8,
    fact: Touch,
    keys: &mut Vec<Touch>,
) -> Result<(), Memory>
    ensures { OnOk result (keys.new.items ≡ keys.old.items ++ keys_of_holders fact class ranges.now facts.now) }
{
    for raw in facts {
        if is_holder(ranges, raw.values.as_slice(), fact) {
            keys.push(Touch { class, id: raw.id })?;
        }
    }
    Ok(())
}

/// Appends the keys of the records of a class that hold a fact. They are looked for only where a variable can hold it.
fn push_holders(plan: &Plan, class: u8, fact: Touch, keys: &mut Vec<Touch>) -> Result<(), Memory>
    ensures { OnOk result (keys.new.items ≡ keys.old.items ++ holder_keys_in plan.now fact class) }
{
    let ranges = plan.ranges(class);
    if !ranges.contains(&fact.class) {
        return Ok(());
    }
    push_holders_of(ranges, plan.facts(class), class, fact, keys)?;
    Ok(())
}

/// The keys of the records that are about a fact: its own, and those of the records that hold it.
pub fn keys_about(alloc: Global, plan: &Plan, fact: Touch) -> Result<Vec<Touch>, Memory>
    ensures { IfOk result (λ keys. keys.items ≡ keys_about plan.now fact) }
{
    let mut keys = Vec::new(alloc);
    keys.push(fact)?;
    for class in 0..plan.classes() {
        push_holders(plan, class, fact, &mut keys)?;
    }
    Ok(keys)
}
