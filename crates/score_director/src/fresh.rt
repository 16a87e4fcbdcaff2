//! The network of rules without any record.
ghost use Rattle.std.specs.Prelude.{◌≡◌, ◌≤◌, ◌++◌, IfOk, IfSome, IsSome, OnOk, Some, length, map, slice_get};
ghost use Rattle.std.specs.List.{AllZip};
ghost use Rattle.stream_join.specs.Nodes.{head_at, node_at};
ghost use Rattle.score_director.specs.Fresh.{IsFreshRule, fresh_node, head_nodes};
ghost use Rattle.score_director.specs.Rule.{HasPlaces};

use crate::net::Net;
use crate::node::{Kind, NetNode, NodeAhead};
use crate::parts::Parts;
use crate::rule::{RuleAhead, RuleNet};
use head_changes::ClassChange;
use plan_facts::Memory;
use plan_rules::{Book, Head, Node, RuleDef, Rules};
use std::alloc::Global;
use stream_end::{EndAhead, EndNode};
use stream_exists::ExistsNode;
use stream_group::GroupNode;
use stream_heads::Heads;
use stream_join::{FilterNode, JoinNode};

/// The node that a node of a rule is, without rows.
fn node_without_rows<B: Book>(
    alloc: Global,
    rules: &Rules<B>,
    rule: u8,
    place: u8,
    node: &Node,
) -> Result<NetNode, Memory>
    requires is { Some node.now ≡ node_at rules.now.defs rule place }
    ensures { IfOk result (λ made. made ≡ fresh_node node.now) }
{
    match node {
        Node::Filter(_) => Ok(NetNode {
            class: 0,
            nulls: false,
            kind: Kind::Filter(FilterNode::new(alloc, rules, rule, place)),
        }),
        Node::Join(class, nulls, _) => Ok(NetNode {
            class: *class,
            nulls: *nulls,
            kind: Kind::Join(JoinNode::new(alloc, rules, rule, place)?),
        }),
        Node::IfExists(class, nulls, _) | Node::IfNotExists(class, nulls, _) => Ok(NetNode {
            class: *class,
            nulls: *nulls,
            kind: Kind::Exists(ExistsNode::new(alloc, rules, rule, place)?),
        }),
        Node::GroupBy(_, _) => Ok(NetNode {
            class: 0,
            nulls: false,
            kind: Kind::Group(GroupNode::new(alloc, rules, rule, place)?),
        }),
    }
}

/// Appends the join that the head of a rule is, without rows, where it gives pairs.
fn push_head<B: Book>(
    alloc: Global,
    rules: &Rules<B>,
    rule: u8,
    head: &Head,
    nodes: &mut Vec<NetNode>,
) -> Result<(), Memory>
    requires is { Some head.now ≡ head_at rules.now.defs rule }
    ensures { OnOk result (nodes.new.items ≡ nodes.old.items ++ head_nodes head.now) }
{
    if let Head::Pairs(class, _) = head {
        nodes.push(NetNode {
            class: *class,
            nulls: false,
            kind: Kind::Join(JoinNode::pairs(alloc, rules, rule)?),
        })?;
    }
    Ok(())
}

/// Appends what the nodes of a rule are, without rows.
fn push_nodes<B: Book>(
    alloc: Global,
    rules: &Rules<B>,
    rule: u8,
    def: &RuleDef,
    nodes: &mut Vec<NetNode>,
) -> Result<(), Memory>
    requires is { Some def.now ≡ slice_get rules.now.defs rule }
    requires few { length def.now.nodes ≤ 7 }
    ensures { OnOk result (nodes.new.items ≡ nodes.old.items ++ map fresh_node def.now.nodes) }
{
    for place in 0..def.nodes.len() as u8 {
        let Some(node) = def.nodes.get(usize::from(place)) else {
            unreachable!();
        };
        nodes.push(node_without_rows(alloc, rules, rule, place, node)?)?;
    }
    Ok(())
}

/// The nodes and the end of a rule, without rows: the join of a head of pairs stands in front.
fn rule_without_rows<B: Book>(alloc: Global, rules: &Rules<B>, rule: u8) -> Result<RuleNet, Memory>
    requires there { IsSome (slice_get rules.now.defs rule) }
    ensures { IfOk result (λ net. IfSome (slice_get rules.now.defs rule) (λ def. IsFreshRule def net)) }
{
    let Some(def) = rules.def(rule) else {
        unreachable!();
    };
    let mut nodes = Vec::new(alloc);
    push_head(alloc, rules, rule, &def.head, &mut nodes)?;
    push_nodes(alloc, rules, rule, def, &mut nodes)?;
    Ok(RuleNet {
        class: def.head.class(),
        nulls: matches!(&def.head, Head::ForEachNulls(_)),
        nodes,
        end: EndNode::new(alloc, rules, rule),
    })
}

/// The nodes and the ends of all rules, without rows.
fn rules_without_rows<B: Book>(alloc: Global, rules: &Rules<B>) -> Result<Vec<RuleNet>, Memory>
    ensures { IfOk result (λ nets. AllZip IsFreshRule rules.now.defs nets.items) }
{
    let mut nets = Vec::new(alloc);
    for rule in 0..rules.count() {
        nets.push(rule_without_rows(alloc, rules, rule)?)?;
    }
    Ok(nets)
}

/// A place for what is found of each node of a rule, and of its end.
fn places_in(alloc: Global, net: &RuleNet) -> Result<RuleAhead, Memory>
    ensures { IfOk result (HasPlaces net.now) }
{
    let mut nodes = Vec::new(alloc);
    for _ in 0..net.nodes.len() {
        nodes.push(NodeAhead::new(alloc))?;
    }
    Ok(RuleAhead {
        nodes,
        end: EndAhead::new(alloc),
    })
}

/// Such places of all rules.
fn places_of(alloc: Global, nets: &[RuleNet]) -> Result<Vec<RuleAhead>, Memory>
    ensures { IfOk result (λ found. AllZip HasPlaces nets.now found.items) }
{
    let mut found = Vec::new(alloc);
    for net in nets {
        found.push(places_in(alloc, net)?)?;
    }
    Ok(found)
}

/// A change of each class: nothing went, nothing came.
fn no_changes(alloc: Global, classes: u8) -> Result<Vec<ClassChange>, Memory>
    ensures { IfOk result (λ changes. length changes.items ≡ classes) }
{
    let mut changes = Vec::new(alloc);
    for _ in 0..classes {
        changes.push(ClassChange::new(alloc))?;
    }
    Ok(changes)
}

impl Net {
    ghost use Rattle.score_director.specs.Fresh.{IsFreshNet};

    /// The network of rules for records of so many classes, without any record and without an open trial.
    pub fn new<B: Book>(alloc: Global, rules: &Rules<B>, classes: u8) -> Result<Net, Memory>
        requires { length rules.now.schema ≤ classes }
        ensures { IfOk result (IsFreshNet classes rules.now.defs) }
    {
        let nets = rules_without_rows(alloc, rules)?;
        let found = places_of(alloc, &nets)?;
        let changes = no_changes(alloc, classes)?;
        Ok(Net {
            parts: Parts {
                heads: Heads::new(alloc),
                rules: nets,
                changes,
                found,
            },
            torn: false,
        })
    }
}
