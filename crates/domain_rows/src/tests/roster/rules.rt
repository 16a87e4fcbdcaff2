//! The rules as a table.

use domain_roster::{defs, open_defs};
use plan_facts::List;
use plan_rules::{Collect, Head, Joiner, Node, RuleDef};
use plan_scores::Level;
use std::alloc::{AllocError, Global};
use std::fmt::Write;
use std::test::Fail;

/// The rules of the roster whose shifts may stay open: name, level, sign, stream and match weight. Classes are named by
/// their numbers; tests, keys and weighers by a letter and their numbers.
const OPEN_RULES: [&str; 12] = [
    "skill hard penalize forEach 1 filter T16 by 1",
    "overlap hard penalize pairs 1 K16=K16 K17=K17 K19<K20 K20>K19 by 1",
    "leave hard penalize forEach 1 ifExists 2 K16=K22 K17=K23 by 1",
    "rest hard penalize forEach 1 join 1 K16=K16 K18=K17 T17 by 1",
    "load medium penalize forEach 1 groupBy K16 count join 0 K25=K21 filter T18 by W16",
    "days soft penalize forEach 1 groupBy K16 countDistinct K17 filter T19 by W17",
    "hours soft penalize forEach 1 groupBy K16 sum K24 filter T20 by W18",
    "early soft penalize forEach 1 groupBy K16 K17 min K19 filter T21 by 1",
    "late soft penalize forEach 1 groupBy K16 K17 max K20 filter T22 by 1",
    "idle soft penalize forEach 0 ifNotExists 1 K21=K16 by 1",
    "wish soft reward forEach 1 join 3 K16=K22 K17=K23 by 1",
    "unassigned medium penalize forEachNulls 1 filter T23 by 1",
];

/// Writes joiners behind each other.
fn write_joiners(out: &mut String, joiners: &[Joiner]) -> Result<(), AllocError> {
    for joiner in joiners {
        match joiner {
            Joiner::Equal(one, other) => write!(out, " K{one}=K{other}")?,
            Joiner::Less(one, other) => write!(out, " K{one}<K{other}")?,
            Joiner::LessOrEqual(one, other) => write!(out, " K{one}<=K{other}")?,
            Joiner::Greater(one, other) => write!(out, " K{one}>K{other}")?,
            Joiner::GreaterOrEqual(one, other) => write!(out, " K{one}>=K{other}")?,
            Joiner::Filtering(test) => write!(out, " T{test}")?,
        }
    }
    Ok(())
}

/// Writes what a group collects.
fn write_collect(out: &mut String, collect: &Collect) -> Result<(), AllocError> {
    match collect {
        Collect::Count => write!(out, " count"),
        Collect::CountDistinct(key) => write!(out, " countDistinct K{key}"),
        Collect::Sum(key) => write!(out, " sum K{key}"),
        Collect::Min(key) => write!(out, " min K{key}"),
        Collect::Max(key) => write!(out, " max K{key}"),
    }
}

/// Writes what a rule begins with.
fn write_head(out: &mut String, head: &Head) -> Result<(), AllocError> {
    match head {
        Head::ForEach(class) => write!(out, " forEach {class}")?,
        Head::ForEachNulls(class) => write!(out, " forEachNulls {class}")?,
        Head::Pairs(class, _) => write!(out, " pairs {class}")?,
    }
    write_joiners(out, head.joiners())
}

/// Writes a node.
fn write_node(out: &mut String, node: &Node) -> Result<(), AllocError> {
    match node {
        Node::Filter(test) => write!(out, " filter T{test}")?,
        Node::Join(class, nulls, _) => write!(out, " join {class}{}", with_nulls(*nulls))?,
        Node::IfExists(class, nulls, _) => write!(out, " ifExists {class}{}", with_nulls(*nulls))?,
        Node::IfNotExists(class, nulls, _) => {
            write!(out, " ifNotExists {class}{}", with_nulls(*nulls))?
        }
        Node::GroupBy(keys, collect) => write_group(out, keys, collect)?,
    }
    write_joiners(out, node.joiners())
}

/// Writes a group with its keys.
fn write_group(out: &mut String, keys: &List<u16>, collect: &Collect) -> Result<(), AllocError> {
    write!(out, " groupBy")?;
    for key in keys.as_slice() {
        write!(out, " K{key}")?;
    }
    write_collect(out, collect)
}

/// The words for records with null variables.
fn with_nulls(nulls: bool) -> &'static str {
    if nulls { " with nulls" } else { "" }
}

/// The name of a level.
fn level_name(level: Level) -> &'static str {
    match level {
        Level::Hard => "hard",
        Level::Medium => "medium",
        Level::Soft => "soft",
    }
}

/// Writes a rule as its line of the table.
fn write_rule(line: &mut String, rule: &RuleDef) -> Result<(), AllocError> {
    let name = str::from_utf8(rule.name.as_slice()).unwrap_or("?");
    let sign = if rule.reward { "reward" } else { "penalize" };
    write!(line, "{name} {} {sign}", level_name(rule.level))?;
    write_head(line, &rule.head)?;
    for node in rule.nodes.as_slice() {
        write_node(line, node)?;
    }
    match rule.weigh {
        Some(weigher) => write!(line, " by W{weigher}"),
        None => write!(line, " by {}", rule.weight),
    }
}

/// Whether the rule has weight 1 and this line.
fn has_line(alloc: Global, rule: &RuleDef, wanted: &str) -> Result<bool, AllocError> {
    let mut line = String::new(alloc);
    write_rule(&mut line, rule)?;
    Ok(rule.weight == 1 && line.as_str() == wanted)
}

/// The place of the first rule that has another line, or how many there are where that isn't how many are wanted.
fn wrong_rule(alloc: Global, rules: &[RuleDef], wanted: &[&str]) -> Option<usize> {
    for (place, (rule, wanted)) in rules.iter().zip(wanted).enumerate() {
        if has_line(alloc, rule, wanted) != Ok(true) {
            return Some(place);
        }
    }
    if rules.len() == wanted.len() {
        None
    } else {
        Some(rules.len())
    }
}

#[test]
fn the_rules_are_those_of_the_table(rt: HostRuntime) -> Result<(), Fail> {
    let rules = defs(rt.alloc())?;
    assert!(rt; wrong_rule(rt.alloc(), rules.as_slice(), &OPEN_RULES[..11]) == None);
    Ok(())
}

#[test]
fn the_open_rules_are_those_of_the_table(rt: HostRuntime) -> Result<(), Fail> {
    let rules = open_defs(rt.alloc())?;
    assert!(rt; wrong_rule(rt.alloc(), rules.as_slice(), &OPEN_RULES) == None);
    Ok(())
}
