ghost use Rattle.std.specs.Prelude.{◌≡◌, ◌≤◌, ◌<◌, None, IfOk, IfErr, OnOk, length};
ghost use Rattle.plan_facts.specs.Limits.{weight_limit};
ghost use Rattle.plan_facts.specs.Plan.{IsPlan};
ghost use Rattle.plan_facts.specs.Refusal.{IsRefusal};
ghost use Rattle.plan_changes.specs.declared.fault.ChangeFault.TheVariants as ChangeFault;
ghost use Rattle.plan_changes.specs.Fits.{IsOfSchema};
ghost use Rattle.plan_changes.specs.Named.{def_of};
ghost use Rattle.plan_changes.specs.Performed.{MayPerform, MayPerformFact};
ghost use Rattle.plan_changes.specs.Ready.{id_of, ready_fact, ready_fact_of, ready_of, ready_rule_of};
ghost use Rattle.plan_changes.specs.Refused.{change_fault, fact_fault, fact_fault_in, rule_fault};

use crate::change::Change;
use crate::fault::ChangeFault;
use crate::named::{class_named, items_for, rule_named, values_for};
use crate::ready::Ready;
use crate::refused::{check_fact, is_add, is_weight};
use plan_facts::{ClassDef, List, Memory, Names, Plan, Schema, Text};
use std::alloc::Global;

/// The id of the fact that the change is about: where it makes one, the next id of its class.
fn id_of(plan: &Plan, class: u8, change: &Change) -> u32
    ensures id { result ≡ id_of plan.now class change.now }
    ensures sound { IsPlan plan.now }
{
    let next = plan.next_id(class);
    if is_add(change.deed) { next } else { change.id }
}

/// What a change of a fact of this class comes to.
fn ready_fact(
    alloc: Global,
    plan: &Plan,
    class: u8,
    def: &ClassDef,
    change: &Change,
) -> Result<Ready, Memory>
    ensures ready { IfOk result (λ ready. ready ≡ ready_fact plan.now class def.now change.now) }
    ensures sound { OnOk result (IsPlan plan.now) }
{
    Ok(Ready {
        alloc,
        deed: change.deed,
        class,
        id: id_of(plan, class, change),
        fields: items_for(alloc, change.fields.as_slice(), def)?,
        values: values_for(alloc, change.values.as_slice(), def)?,
        rule: 0,
        weight: 0,
    })
}

/// A change of a fact of this class that may be made, or what it is refused for.
fn prepare_fact_in(
    alloc: Global,
    schema: &Schema,
    plan: &Plan,
    class: u8,
    change: &Change,
) -> Result<Ready, ChangeFault>
    requires { class < length schema.now }
    ensures ok { OnOk result (fact_fault_in schema.now plan.now class change.now ≡ None) }
    ensures err { let found = fact_fault_in schema.now plan.now class change.now in
        IfErr result (IsRefusal ChangeFault.Memory found) }
    ensures ready { let def = def_of schema.now class in
        IfOk result (λ ready. ready ≡ ready_fact plan.now class def change.now) }
    ensures may { IsOfSchema schema.now plan.now → IfOk result (λ ready. MayPerformFact ready plan.now) }
{
    let Some(def) = schema.class(class) else {
        unreachable!();
    };
    check_fact(schema, plan, class, def, change)?;
    Ok(ready_fact(alloc, plan, class, def, change)?)
}

/// A change of a fact that may be made, or what it is refused for.
fn prepare_fact(
    alloc: Global,
    schema: &Schema,
    plan: &Plan,
    change: &Change,
) -> Result<Ready, ChangeFault>
    ensures ok { OnOk result (fact_fault schema.now plan.now change.now ≡ None) }
    ensures err { IfErr result (IsRefusal ChangeFault.Memory (fact_fault schema.now plan.now change.now)) }
    ensures ready { IfOk result (λ ready. ready ≡ ready_fact_of schema.now plan.now change.now) }
    ensures may { IsOfSchema schema.now plan.now → IfOk result (λ ready. MayPerformFact ready plan.now) }
{
    match class_named(schema, change.class.as_slice()) {
        Some(class) => prepare_fact_in(alloc, schema, plan, class, change),
        None => Err(ChangeFault::UnknownClass),
    }
}

/// A change of a rule's weight that may be made, or what it is refused for.
fn prepare_rule(alloc: Global, rule_names: &[Text], change: &Change) -> Result<Ready, ChangeFault>
    requires { length rule_names.now ≤ 32 }
    ensures ok { OnOk result (rule_fault rule_names.now change.now ≡ None) }
    ensures err { IfErr result (IsRefusal ChangeFault.Memory (rule_fault rule_names.now change.now)) }
    ensures ready { IfOk result (λ ready. ready ≡ ready_rule_of rule_names.now change.now) }
    ensures within { IfOk result (λ ready. ready.rule < length rule_names.now) }
    ensures weight { IfOk result (λ ready. ready.weight ≤ weight_limit) }
{
    let Some(rule) = rule_named(rule_names, change.rule.as_slice()) else {
        return Err(ChangeFault::UnknownRule);
    };
    Ok(Ready {
        alloc,
        deed: change.deed,
        class: 0,
        id: 0,
        fields: List::new(alloc),
        values: List::new(alloc),
        rule,
        weight: change.weight,
    })
}

/// A change of a plan of this schema, with these names and rules, that may be made; or the first fault, which
/// [`ChangeFault`] orders. That rows and score stay in range isn't looked at here.
#[tactic(auto, unfolding(crate::specs::Refused::change_fault, crate::specs::Ready::ready_of))]
pub fn prepare(
    alloc: Global,
    schema: &Schema,
    plan: &Plan,
    _: &Names,
    rule_names: &[Text],
    change: &Change,
) -> Result<Ready, ChangeFault>
    requires { length rule_names.now ≤ 32 }
    ensures ok { OnOk result (change_fault schema.now plan.now rule_names.now change.now ≡ None) }
    ensures err { let found = change_fault schema.now plan.now rule_names.now change.now in
        IfErr result (IsRefusal ChangeFault.Memory found) }
    ensures ready { IfOk result (λ ready. ready ≡ ready_of schema.now plan.now rule_names.now change.now) }
    ensures weight { IfOk result (λ ready. ready.weight ≤ weight_limit) }

    // The change may be made of a plan of this schema.
    ensures may { IsOfSchema schema.now plan.now
        → IfOk result (λ ready. MayPerform ready plan.now (length rule_names.now)) }
{
    if is_weight(change.deed) {
        prepare_rule(alloc, rule_names, change)
    } else {
        prepare_fact(alloc, schema, plan, change)
    }
}
