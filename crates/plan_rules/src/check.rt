ghost use Rattle.std.specs.Prelude.{◌≡◌, ◌≤◌, ◌<◌, false, length};
ghost use Rattle.std.specs.List.{list_any};
ghost use Rattle.std.specs.Str.{bytes_eq};
ghost use Rattle.std.specs.Result.{result_err};
ghost use Rattle.plan_facts.specs.First.{fault_where};
ghost use Rattle.plan_rules.specs.Faults.{defs_fault, rule_fault, has_bad_name, unknown_class, are_too_many, has_too_many_joiners, has_bad_key_count, appends_record, lacks_room};
ghost use Rattle.plan_rules.specs.Named.{head_parts, node_joiners, parts_after};

use crate::fault::RuleFault;
use crate::missing::missing_closure;
use crate::places::Numbers;
use crate::rule::{Head, Node, RuleDef};
use plan_facts::is_name;

/// The greatest weight of a rule.
pub const WEIGHT_LIMIT: u32 = 1_000_000;

/// The first fault of rules over so many classes and these closures.
pub fn check_rules(classes: u8, numbers: &Numbers, rules: &[RuleDef]) -> Result<(), RuleFault>
    ensures { result_err result ≡ defs_fault classes numbers.now rules.now }
{
    refuse_where(rules.len() > 32, RuleFault::TooManyRules)?;
    for place in 0..rules.len() {
        check_rule(classes, numbers, &rules[..place], &rules[place])?;
    }
    Ok(())
}

/// The first fault of a rule that stands after these.
fn check_rule(
    classes: u8,
    numbers: &Numbers,
    earlier: &[RuleDef],
    rule: &RuleDef,
) -> Result<(), RuleFault>
    requires { length earlier.now < 32 }
    ensures { result_err result ≡ rule_fault classes numbers.now earlier.now rule.now }
{
    let n = earlier.len() as u8;
    refuse_where(has_bad_name(earlier, rule), RuleFault::BadName { rule: n })?;
    refuse_where(
        rule.weight > WEIGHT_LIMIT,
        RuleFault::WeightRange { rule: n },
    )?;
    refuse_where(rule.nodes.len() > 7, RuleFault::TooManyNodes { rule: n })?;
    if let Some(class) = unknown_class(classes, rule) {
        return Err(RuleFault::UnknownClass { rule: n, class });
    }
    refuse_where(
        has_too_many_joiners(rule),
        RuleFault::TooManyJoiners { rule: n },
    )?;
    refuse_where(
        has_bad_groups(rule.nodes.as_slice()),
        RuleFault::KeyCount { rule: n },
    )?;
    refuse_where(lacks_room(rule), RuleFault::TooManyParts { rule: n })?;
    match missing_closure(numbers, rule) {
        Some(named) => Err(RuleFault::ClosureMissing {
            rule: n,
            kind: named.kind,
            number: named.number,
        }),
        None => Ok(()),
    }
}

/// The fault, where the test holds.
fn refuse_where(test: bool, fault: RuleFault) -> Result<(), RuleFault>
    ensures { result_err result ≡ fault_where test fault }
{
    if test { Err(fault) } else { Ok(()) }
}

/// Whether the name is none that a rule may have, or is that of an earlier rule.
fn has_bad_name(earlier: &[RuleDef], rule: &RuleDef) -> bool
    ensures { result ≡ has_bad_name earlier.now rule.now }
{
    !is_name(rule.name.as_slice()) || is_taken(earlier, rule.name.as_slice())
}

/// Whether one of these rules has the name.
fn is_taken(earlier: &[RuleDef], name: &[u8]) -> bool
    ensures { result ≡ list_any (λ other. bytes_eq name.now other.name) earlier.now }
{
    earlier.iter().any(|other| name == other.name.as_slice())
}

/// The first class that the rule names and that isn't among so many.
fn unknown_class(classes: u8, rule: &RuleDef) -> Option<u8>
    ensures { result ≡ unknown_class classes rule.now }
{
    let class = rule.head.class();
    if class >= classes {
        return Some(class);
    }
    for node in rule.nodes.as_slice() {
        if let Some(class) = node.class()
            && class >= classes
        {
            return Some(class);
        }
    }
    None
}

/// Whether the head or a node has more than 4 joiners.
fn has_too_many_joiners(rule: &RuleDef) -> bool
    ensures { result ≡ has_too_many_joiners rule.now }
{
    rule.head.joiners().len() > 4 || some_has_too_many_joiners(rule.nodes.as_slice())
}

fn some_has_too_many_joiners(nodes: &[Node]) -> bool
    ensures { result ≡ list_any (λ node. are_too_many (node_joiners node)) nodes.now }
{
    nodes.iter().any(|node| node.joiners().len() > 4)
}

/// Whether a group hasn't one or two keys.
fn has_bad_groups(nodes: &[Node]) -> bool
    ensures { result ≡ list_any has_bad_key_count nodes.now }
{
    nodes.iter().any(|node| has_bad_key_count(node))
}

fn has_bad_key_count(node: &Node) -> bool
    ensures { result ≡ has_bad_key_count node.now }
{
    match node {
        Node::GroupBy(keys, _) => keys.len() == 0 || keys.len() > 2,
        _ => false,
    }
}

/// Whether some node appends a record to rows that have 4 parts already.
fn lacks_room(rule: &RuleDef) -> bool
    requires { list_any has_bad_key_count rule.now.nodes ≡ false }
    ensures { result ≡ lacks_room (head_parts rule.now.head) rule.now.nodes }
{
    let mut parts = parts_of_head(&rule.head);
    for node in rule.nodes.as_slice() {
        if appends_record(node) && parts >= 4 {
            return true;
        }
        parts = parts_after(parts, node);
    }
    false
}

/// Whether the node appends a record to its left rows, if only to ask a joiner.
fn appends_record(node: &Node) -> bool
    ensures { result ≡ appends_record node.now }
{
    node.class().is_some()
}

/// How many parts the rows have that a stream begins with.
fn parts_of_head(head: &Head) -> usize
    ensures value { result ≡ head_parts head.now }
    ensures few { result ≤ 2 }
{
    match head {
        Head::Pairs(_, _) => 2,
        _ => 1,
    }
}

/// How many parts the rows after the node have.
fn parts_after(parts: usize, node: &Node) -> usize
    requires parts { parts ≤ 4 }
    requires keys { has_bad_key_count node.now ≡ false }
    ensures { result ≡ parts_after parts node.now }
{
    match node {
        Node::Join(_, _, _) => parts + 1,
        Node::GroupBy(keys, _) => keys.len() + 1,
        _ => parts,
    }
}
