//! Rules that a test writes down as constants.
use plan_facts::{List, Memory, Text};
use plan_rules::{Collect, Head, Joiner, Node, RuleDef};
use plan_scores::Level;
use std::alloc::Global;

/// Joiners, at most two.
pub(super) enum Joiners {
    Nothing,
    One(Joiner),
    Two(Joiner, Joiner),
}

/// The list of some joiners.
fn joiners_of(alloc: Global, sketch: &Joiners) -> Result<List<Joiner>, Memory> {
    match sketch {
        Joiners::Nothing => Ok(List::new(alloc)),
        Joiners::One(joiner) => List::from_slice(alloc, &[*joiner]),
        Joiners::Two(first, second) => List::from_slice(alloc, &[*first, *second]),
    }
}

/// The head of a rule, in short.
pub(super) enum HeadSketch {
    ForEach(u8),
    ForEachNulls(u8),
    Pairs(u8, Joiners),
}

/// The head that a sketch is.
fn head_of(alloc: Global, sketch: &HeadSketch) -> Result<Head, Memory> {
    Ok(match sketch {
        HeadSketch::ForEach(class) => Head::ForEach(*class),
        HeadSketch::ForEachNulls(class) => Head::ForEachNulls(*class),
        HeadSketch::Pairs(class, joiners) => Head::Pairs(*class, joiners_of(alloc, joiners)?),
    })
}

/// A node of a rule, in short; groups are by one or two keys.
pub(super) enum NodeSketch {
    Filter(u16),
    Join(u8, bool, Joiners),
    IfExists(u8, bool, Joiners),
    IfNotExists(u8, bool, Joiners),
    GroupBy(u16, Option<u16>, Collect),
}

/// The list of one key or of two.
fn keys_of(alloc: Global, first: u16, second: Option<u16>) -> Result<List<u16>, Memory> {
    match second {
        Some(second) => List::from_slice(alloc, &[first, second]),
        None => List::from_slice(alloc, &[first]),
    }
}

/// The node that a sketch is.
fn node_of(alloc: Global, sketch: &NodeSketch) -> Result<Node, Memory> {
    Ok(match sketch {
        NodeSketch::Filter(test) => Node::Filter(*test),
        NodeSketch::Join(class, nulls, joiners) => {
            Node::Join(*class, *nulls, joiners_of(alloc, joiners)?)
        }
        NodeSketch::IfExists(class, nulls, joiners) => {
            Node::IfExists(*class, *nulls, joiners_of(alloc, joiners)?)
        }
        NodeSketch::IfNotExists(class, nulls, joiners) => {
            Node::IfNotExists(*class, *nulls, joiners_of(alloc, joiners)?)
        }
        NodeSketch::GroupBy(first, second, collect) => {
            Node::GroupBy(keys_of(alloc, *first, *second)?, *collect)
        }
    })
}

/// The list of a node, if there is one.
fn nodes_of(alloc: Global, sketch: &Option<NodeSketch>) -> Result<List<Node>, Memory> {
    let mut nodes = List::new(alloc);
    if let Some(sketch) = sketch {
        nodes.push(node_of(alloc, sketch)?)?;
    }
    Ok(nodes)
}

/// What a match of a rule is worth: its level, whether it is a reward, the weight and the weigher.
#[derive(Drop)]
pub(super) struct Worth {
    pub(super) level: Level,
    pub(super) reward: bool,
    pub(super) weight: u32,
    pub(super) weigh: Option<u16>,
}

/// A rule of at most one node. It would weigh 1 by itself; the weight of its worth is handed in.
pub(super) fn rule_of(
    alloc: Global,
    name: &str,
    worth: &Worth,
    head: &HeadSketch,
    node: &Option<NodeSketch>,
) -> Result<RuleDef, Memory> {
    Ok(RuleDef {
        name: Text::from_slice(alloc, name.as_bytes())?,
        level: worth.level,
        reward: worth.reward,
        weight: 1,
        weigh: worth.weigh,
        head: head_of(alloc, head)?,
        nodes: nodes_of(alloc, node)?,
    })
}
