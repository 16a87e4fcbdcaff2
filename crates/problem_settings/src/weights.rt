ghost use Rattle.std.specs.Prelude.{◌≡◌, ◌≤◌, Some, All, IfOk, length};
ghost use Rattle.std.specs.List.{list_any};
ghost use Rattle.std.specs.Str.{bytes_eq};
ghost use Rattle.serde_json.specs.View.{view};
ghost use Rattle.json_values.specs.Values.{has_other};
ghost use Rattle.json_values.specs.Views.{view_at};
ghost use Rattle.plan_facts.specs.Limits.{weight_limit};
ghost use Rattle.plan_facts.specs.Refusal.{IsRefusal};
ghost use Rattle.problem_faults.specs.Refusals.{RefusesFor};
ghost use Rattle.problem_settings.specs.Weights.{weight_of, weights_of, unweighed_fault, rules_fault, rule_names, has_unknown_rule, weights_fault};

use json_values::{has_other, member, number_within};
use plan_facts::List;
use plan_rules::{RuleDef, WEIGHT_LIMIT};
use problem_faults::ProblemFault;
use serde_json::Value;
use std::alloc::Global;

/// Reads one weight for each rule, in the rules' order, from a problem's member `weights`, where there is one: an object. A
/// rule that isn't named keeps its own weight. Refuses the first rule whose weight is given and is no whole number from 0 to
/// 1,000,000; then a member that is no rule's name.
pub fn read_weights(
    alloc: Global,
    rules: &[RuleDef],
    weights: Option<&Value>,
) -> Result<List<u32>, ProblemFault>
    ensures refusal { RefusesFor (weights_fault rules.now (view_at weights.entry)) result }
    ensures weights { IfOk result (λ read. read ≡ weights_of rules.now (view_at weights.entry)) }
    ensures each { IfOk result (λ read. length read ≡ length rules.now) }
    ensures in_range { All (λ rule. rule.weight ≤ weight_limit) rules.now → IfOk result (All (λ w. w ≤ weight_limit)) }
{
    let read = rule_weights(alloc, rules, weights)?;
    if has_unknown(rules, weights) {
        return Err(ProblemFault::shape(alloc, &[b"/weights"]));
    }
    Ok(read)
}

/// The weights of the rules, or the fault of the first rule that gets none.
fn rule_weights(
    alloc: Global,
    rules: &[RuleDef],
    weights: Option<&Value>,
) -> Result<List<u32>, ProblemFault>
    ensures refusal { RefusesFor (rules_fault rules.now (view_at weights.entry)) result }
    ensures weights { IfOk result (λ read. read ≡ weights_of rules.now (view_at weights.entry)) }
{
    let mut read = List::new(alloc);
    for rule in rules {
        match weight(rule, weights) {
            Some(weight) => read.push(weight)?,
            None => return Err(unweighed(alloc, rule)),
        }
    }
    Ok(read)
}

/// The fault of a rule that gets no weight.
fn unweighed(alloc: Global, rule: &RuleDef) -> ProblemFault
    ensures { IsRefusal ProblemFault.Memory (Some (unweighed_fault rule.now)) result }
{
    ProblemFault::shape(alloc, &[b"/weights/", rule.name.as_slice()])
}

/// The weight of a rule: the given one, or its own where none is given; none where the given one isn't right.
fn weight(rule: &RuleDef, weights: Option<&Value>) -> Option<u32>
    ensures { result ≡ weight_of (view_at weights.entry) rule.now }
{
    match weights.and_then(|object| member(object, rule.name.as_slice())) {
        Some(value) => number_within(value, 0, WEIGHT_LIMIT),
        None => Some(rule.weight),
    }
}

/// Whether there is a member that is no rule's name.
fn has_unknown(rules: &[RuleDef], weights: Option<&Value>) -> bool
    ensures { result ≡ has_unknown_rule rules.now (view_at weights.entry) }
{
    match weights {
        Some(object) => has_unknown_member(rules, object),
        None => false,
    }
}

/// Whether the object has a member that is no rule's name.
fn has_unknown_member(rules: &[RuleDef], object: &Value) -> bool
    ensures { result ≡ has_other (rule_names rules.now) (view object.now) }
{
    has_other(object, |name| is_name(rules, name))
}

/// Whether one of the rules has the name.
fn is_name(rules: &[RuleDef], name: &[u8]) -> bool
    ensures { result ≡ list_any (λ rule. bytes_eq name.now rule.name) rules.now }
{
    rules.iter().any(|rule| name == rule.name.as_slice())
}
