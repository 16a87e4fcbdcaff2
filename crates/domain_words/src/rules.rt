ghost use Rattle.std.specs.Prelude.{◌≡◌, [], ◌∷◌, IfOk};
ghost use Rattle.plan_rules.specs.declared.rule.Head.TheVariants.{Pairs};
ghost use Rattle.plan_rules.specs.declared.rule.Node.TheVariants.{Filter, GroupBy};
ghost use Rattle.domain_words.specs.Tables.{penalty, reward, same_key, weighed_penalty};

use plan_facts::{List, Memory, Text};
use plan_rules::{Collect, Head, Joiner, Node, RuleDef};
use plan_scores::Level;
use std::alloc::Global;

/// The joiner that asks for the same key on both sides.
pub fn same_key(key: u16) -> Joiner
    ensures { result ≡ same_key key }
{
    Joiner::Equal(key, key)
}

/// The pairs of a class whose joiners hold.
pub fn pairs(alloc: Global, class: u8, joiners: &[Joiner]) -> Result<Head, Memory>
    ensures { IfOk result (λ head. head ≡ Pairs class joiners.now) }
{
    Ok(Head::Pairs(class, List::from_slice(alloc, joiners)?))
}

/// This node alone.
pub fn one_node(alloc: Global, node: Node) -> Result<List<Node>, Memory>
    ensures { IfOk result (λ nodes. nodes ≡ node ∷ []) }
{
    let mut nodes = List::new(alloc);
    nodes.push(node)?;
    Ok(nodes)
}

/// Groups by these keys, then a test of the groups.
pub fn grouped(
    alloc: Global,
    keys: &[u16],
    collect: Collect,
    test: u16,
) -> Result<List<Node>, Memory>
    ensures { IfOk result (λ nodes. nodes ≡ GroupBy keys.now collect ∷ Filter test ∷ []) }
{
    let mut nodes = one_node(
        alloc,
        Node::GroupBy(List::from_slice(alloc, keys)?, collect),
    )?;
    nodes.push(Node::Filter(test))?;
    Ok(nodes)
}

/// A rule of weight 1 that penalizes each match by 1.
pub fn penalty(
    alloc: Global,
    name: &str,
    level: Level,
    head: Head,
    nodes: List<Node>,
) -> Result<RuleDef, Memory>
    ensures { IfOk result (λ rule. rule ≡ penalty name.now level head nodes) }
{
    Ok(RuleDef {
        name: Text::from_slice(alloc, name.as_bytes())?,
        level,
        reward: false,
        weight: 1,
        weigh: None,
        head,
        nodes,
    })
}

/// A rule of weight 1 that penalizes each match by what the weigher with this number gives.
pub fn weighed_penalty(
    alloc: Global,
    name: &str,
    level: Level,
    weigher: u16,
    head: Head,
    nodes: List<Node>,
) -> Result<RuleDef, Memory>
    ensures { IfOk result (λ rule. rule ≡ weighed_penalty name.now level weigher head nodes) }
{
    let mut rule = penalty(alloc, name, level, head, nodes)?;
    rule.weigh = Some(weigher);
    Ok(rule)
}

/// A rule of weight 1 that rewards each match by 1.
pub fn reward(
    alloc: Global,
    name: &str,
    level: Level,
    head: Head,
    nodes: List<Node>,
) -> Result<RuleDef, Memory>
    ensures { IfOk result (λ rule. rule ≡ reward name.now level head nodes) }
{
    let mut rule = penalty(alloc, name, level, head, nodes)?;
    rule.reward = true;
    Ok(rule)
}
