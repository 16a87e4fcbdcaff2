ghost use Rattle.std.specs.Prelude.{◌≡◌, IfOk};

use crate::rule::{Head, Node, RuleDef};
use plan_facts::{List, Memory};
use std::alloc::Global;

/// A copy of some rules.
pub fn copy_rules(alloc: Global, rules: &[RuleDef]) -> Result<List<RuleDef>, Memory>
    ensures { IfOk result (λ copy. copy ≡ rules.now) }
{
    let mut copies = List::new(alloc);
    for rule in rules {
        copies.push(rule.copy(alloc)?)?;
    }
    Ok(copies)
}

/// A copy of some nodes.
fn copy_nodes(alloc: Global, nodes: &[Node]) -> Result<List<Node>, Memory>
    ensures { IfOk result (λ copy. copy ≡ nodes.now) }
{
    let mut copies = List::new(alloc);
    for node in nodes {
        copies.push(node.copy(alloc)?)?;
    }
    Ok(copies)
}

impl RuleDef {
    /// The same rule again.
    pub fn copy(&self, alloc: Global) -> Result<RuleDef, Memory>
        ensures { IfOk result (λ copy. copy ≡ self.now) }
    {
        Ok(RuleDef {
            name: self.name.copy(alloc)?,
            level: self.level,
            reward: self.reward,
            weight: self.weight,
            weigh: self.weigh,
            head: self.head.copy(alloc)?,
            nodes: copy_nodes(alloc, self.nodes.as_slice())?,
        })
    }
}

impl Head {
    /// The same head again.
    pub fn copy(&self, alloc: Global) -> Result<Head, Memory>
        ensures { IfOk result (λ copy. copy ≡ self.now) }
    {
        match self {
            Head::ForEach(class) => Ok(Head::ForEach(*class)),
            Head::ForEachNulls(class) => Ok(Head::ForEachNulls(*class)),
            Head::Pairs(class, joiners) => Ok(Head::Pairs(*class, joiners.copy(alloc)?)),
        }
    }
}

impl Node {
    /// The same node again.
    pub fn copy(&self, alloc: Global) -> Result<Node, Memory>
        ensures { IfOk result (λ copy. copy ≡ self.now) }
    {
        match self {
            Node::Filter(test) => Ok(Node::Filter(*test)),
            Node::Join(class, nulls, joiners) => Ok(Node::Join(
                *class,
                *nulls,
                joiners.copy(alloc)?,
            )),
            Node::IfExists(class, nulls, joiners) => Ok(Node::IfExists(
                *class,
                *nulls,
                joiners.copy(alloc)?,
            )),
            Node::IfNotExists(class, nulls, joiners) => Ok(Node::IfNotExists(
                *class,
                *nulls,
                joiners.copy(alloc)?,
            )),
            Node::GroupBy(keys, collect) => Ok(Node::GroupBy(keys.copy(alloc)?, *collect)),
        }
    }
}
