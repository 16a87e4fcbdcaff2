ghost use Rattle.std.specs.Prelude.{◌≡◌, ◌≤◌, None, OnOk, IfOk, find, length, option_copied, option_map};
ghost use Rattle.plan_rules.specs.Range.{sizes_of};
ghost use Rattle.problem_faults.specs.Refusals.{RefusesFor};
ghost use Rattle.plan_json.specs.Limits.{choice_count, is_wide, range_fault_in, limits_fault, named_range_fault};
ghost use Rattle.plan_rules.specs.Named.{rule_name};
ghost use Rattle.plan_json.specs.Seen.{domain_view};

use crate::domain::Domain;
use plan_facts::{ClassDef, List, Memory, Plan, Schema, Text, VarDef};
use plan_rules::{Book, RangeFault, Rules};
use problem_faults::ProblemFault;
use std::alloc::Global;

/// The most combinations of values that an entity may have to choose from.
const COMBINATION_LIMIT: usize = 65_536;

/// How many choices the variable has: the facts of its range, and null where it may stay null.
fn choice_count(plan: &Plan, var: &VarDef) -> usize
    ensures { result ≡ choice_count plan.now var.now }
{
    let count = plan.ids(var.values).len();
    if var.nullable { count + 1 } else { count }
}

/// Whether an entity of the class, which has at most 2 variables, could take too many combinations of values.
fn is_wide(plan: &Plan, class: &ClassDef) -> bool
    requires { length class.now.vars ≤ 2 }
    ensures { result ≡ is_wide plan.now class.now }
{
    match class.vars.as_slice() {
        [] => false,
        [one] => choice_count(plan, one) > COMBINATION_LIMIT,
        [one, other, ..] => {
            let ones = choice_count(plan, one);
            let others = choice_count(plan, other);
            ones.saturating_mul(others) > COMBINATION_LIMIT
        }
    }
}

/// The first class whose entities could take too many combinations of values.
fn wide_class<'a>(schema: &'a Schema, plan: &Plan) -> Option<&'a ClassDef>
    ensures { option_copied result ≡ find (is_wide plan.now) schema.now }
{
    for n in 0..schema.classes() {
        let Some(class) = schema.class(n) else {
            unreachable!();
        };
        if is_wide(plan, class) {
            return Some(class);
        }
    }
    None
}

/// How many live facts each class has.
fn sizes_of(alloc: Global, plan: &Plan) -> Result<List<u32>, Memory>
    ensures { IfOk result (λ sizes. sizes ≡ sizes_of plan.now) }
{
    let mut sizes = List::new(alloc);
    for class in 0..plan.classes() {
        sizes.push(plan.ids(class).len() as u32)?;
    }
    Ok(sizes)
}

/// The name of a rule.
fn name_of<B: Book>(alloc: Global, rules: &Rules<B>, rule: u8) -> Result<Text, Memory>
    ensures { IfOk result (λ name. name ≡ rule_name rules.now.defs rule) }
{
    match rules.def(rule) {
        Some(rule) => rule.name.copy(alloc),
        None => Ok(Text::new(alloc)),
    }
}

/// The first rule with too many rows, or that the score may be too great.
fn check_range<B: Book>(
    alloc: Global,
    domain: &Domain<B>,
    weights: &List<u32>,
    plan: &Plan,
) -> Result<(), ProblemFault>
    requires { length weights.now ≡ length domain.now.rules.defs }
    ensures { let found = range_fault_in (domain_view domain.now) weights.now plan.now in
        RefusesFor (option_map (named_range_fault domain.now.rules.defs) found) result }
{
    let sizes = sizes_of(alloc, plan)?;
    let rules = &domain.rules;
    match rules.range_fault(sizes.as_slice(), weights.as_slice()) {
        Some(RangeFault::RowsBound { rule }) => Err(ProblemFault::RowsBound {
            rule: name_of(alloc, rules, rule)?,
        }),
        Some(RangeFault::ScoreRange) => Err(ProblemFault::ScoreRange),
        None => Ok(()),
    }
}

/// The first limit that the plan passes: too many combinations of values, too many rows, too great a score.
pub fn check_limits<B: Book>(
    alloc: Global,
    domain: &Domain<B>,
    weights: &List<u32>,
    plan: &Plan,
) -> Result<(), ProblemFault>
    requires { length weights.now ≡ length domain.now.rules.defs }
    ensures refusal { RefusesFor (limits_fault (domain_view domain.now) weights.now plan.now) result }
    ensures range { OnOk result (range_fault_in (domain_view domain.now) weights.now plan.now ≡ None) }
{
    if let Some(class) = wide_class(&domain.schema, plan) {
        return Err(ProblemFault::RangeProduct {
            class: class.name.copy(alloc)?,
        });
    }
    check_range(alloc, domain, weights, plan)
}
