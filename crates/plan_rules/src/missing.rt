ghost use Rattle.std.specs.Prelude.{◌≡◌, ◌∷◌, [], find, map};
ghost use Rattle.std.specs.List.{flat_map};
ghost use Rattle.plan_rules.specs.Faults.{is_handed_in, is_missing, missing_closure};
ghost use Rattle.plan_rules.specs.Named.{key_named, test_named, joiner_closures, collect_closures, node_closures};

use crate::fault::ClosureKind;
use crate::places::Numbers;
use crate::rule::{Collect, Joiner, Named, Node, RuleDef};

/// The first closure that the rule names and that wasn't handed in.
pub fn missing_closure(numbers: &Numbers, rule: &RuleDef) -> Option<Named>
    ensures { result ≡ missing_closure numbers.now rule.now }
{
    let of_head = missing_of_joiners(numbers, rule.head.joiners());
    let of_nodes = missing_of_nodes(numbers, rule.nodes.as_slice());
    let of_end = match rule.weigh {
        Some(number) => missing(numbers, ClosureKind::Weigh, number),
        None => None,
    };
    of_head.or(of_nodes).or(of_end)
}

/// Whether the closure was handed in.
pub fn is_handed_in(numbers: &Numbers, named: Named) -> bool
    ensures { result ≡ is_handed_in numbers.now named }
{
    match named.kind {
        ClosureKind::Test => numbers.tests.place(named.number).is_some(),
        ClosureKind::Key => numbers.keys.place(named.number).is_some(),
        ClosureKind::Weigh => numbers.weighs.place(named.number).is_some(),
    }
}

/// The closure, where it wasn't handed in.
fn missing(numbers: &Numbers, kind: ClosureKind, number: u16) -> Option<Named>
    ensures { result ≡ find (is_missing numbers.now) (record { kind = kind; number = number } ∷ []) }
{
    let named = Named { kind, number };
    if is_handed_in(numbers, named) {
        None
    } else {
        Some(named)
    }
}

/// The first of two keys that wasn't handed in.
fn missing_of_pair(numbers: &Numbers, one: u16, other: u16) -> Option<Named>
    ensures { result ≡ find (is_missing numbers.now) (key_named one ∷ key_named other ∷ []) }
{
    missing(numbers, ClosureKind::Key, one).or(missing(numbers, ClosureKind::Key, other))
}

/// The first closure of the joiner that wasn't handed in.
fn missing_of_joiner(numbers: &Numbers, joiner: &Joiner) -> Option<Named>
    ensures { result ≡ find (is_missing numbers.now) (joiner_closures joiner.now) }
{
    match *joiner {
        Joiner::Equal(one, other) => missing_of_pair(numbers, one, other),
        Joiner::Less(one, other) => missing_of_pair(numbers, one, other),
        Joiner::LessOrEqual(one, other) => missing_of_pair(numbers, one, other),
        Joiner::Greater(one, other) => missing_of_pair(numbers, one, other),
        Joiner::GreaterOrEqual(one, other) => missing_of_pair(numbers, one, other),
        Joiner::Filtering(test) => missing(numbers, ClosureKind::Test, test),
    }
}

/// The first closure of the joiners that wasn't handed in.
fn missing_of_joiners(numbers: &Numbers, joiners: &[Joiner]) -> Option<Named>
    ensures { result ≡ find (is_missing numbers.now) (flat_map joiner_closures joiners.now) }
{
    for joiner in joiners {
        if let Some(named) = missing_of_joiner(numbers, joiner) {
            return Some(named);
        }
    }
    None
}

/// The first of the keys that wasn't handed in.
fn missing_of_keys(numbers: &Numbers, keys: &[u16]) -> Option<Named>
    ensures { result ≡ find (is_missing numbers.now) (map key_named keys.now) }
{
    for key in keys {
        if let Some(named) = missing(numbers, ClosureKind::Key, *key) {
            return Some(named);
        }
    }
    None
}

/// The closure of the collector, where it wasn't handed in.
fn missing_of_collect(numbers: &Numbers, collect: &Collect) -> Option<Named>
    ensures { result ≡ find (is_missing numbers.now) (collect_closures collect.now) }
{
    match *collect {
        Collect::Count => None,
        Collect::CountDistinct(key) => missing(numbers, ClosureKind::Key, key),
        Collect::Sum(key) => missing(numbers, ClosureKind::Key, key),
        Collect::Min(key) => missing(numbers, ClosureKind::Key, key),
        Collect::Max(key) => missing(numbers, ClosureKind::Key, key),
    }
}

/// The first closure of the node that wasn't handed in.
fn missing_of_node(numbers: &Numbers, node: &Node) -> Option<Named>
    ensures { result ≡ find (is_missing numbers.now) (node_closures node.now) }
{
    match node {
        Node::Filter(test) => missing(numbers, ClosureKind::Test, *test),
        Node::Join(_, _, joiners) => missing_of_joiners(numbers, joiners.as_slice()),
        Node::IfExists(_, _, joiners) => missing_of_joiners(numbers, joiners.as_slice()),
        Node::IfNotExists(_, _, joiners) => missing_of_joiners(numbers, joiners.as_slice()),
        Node::GroupBy(keys, collect) => {
            let of_keys = missing_of_keys(numbers, keys.as_slice());
            of_keys.or(missing_of_collect(numbers, collect))
        }
    }
}

/// The first closure of the nodes that wasn't handed in.
fn missing_of_nodes(numbers: &Numbers, nodes: &[Node]) -> Option<Named>
    ensures { result ≡ find (is_missing numbers.now) (flat_map node_closures nodes.now) }
{
    for node in nodes {
        if let Some(named) = missing_of_node(numbers, node) {
            return Some(named);
        }
    }
    None
}
