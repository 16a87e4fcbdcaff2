ghost use Rattle.std.specs.Prelude.{◌≡◌, ◌*◌, ◌≤◌, ◌<◌, ◌^◌, IfSome, length};
ghost use Rattle.plan_rules.specs.Limits.{row_limit};
ghost use Rattle.plan_rules.specs.Range.{size_of, head_bound, node_bound, rows_bound, range_fault_of};

use crate::fault::RangeFault;
use crate::rule::{Head, Node, RuleDef};

/// As many rows as a stream may have.
const MOST_ROWS: u64 = 1 << 32;

/// As much as the rules may add up to.
const MOST_SCORE: u128 = 1 << 62;

/// The first rule with too many rows, or else too great a score, under these weights and caps, one for each rule.
pub fn first_range_fault(
    sizes: &[u32],
    rules: &[RuleDef],
    weights: &[u32],
    caps: &[u32],
) -> Option<RangeFault>
    requires few { length rules.now ≤ 32 }
    requires weights { length weights.now ≡ length rules.now }
    requires caps { length caps.now ≡ length rules.now }
    ensures { result ≡ range_fault_of sizes.now rules.now weights.now caps.now }
{
    let mut total = 0;
    for place in 0..rules.len() {
        let Some(rows) = rows_of(sizes, &rules[place]) else {
            return Some(RangeFault::RowsBound { rule: place as u8 });
        };
        total += impact_bound(rows, weights[place], caps[place]);
    }
    if total > MOST_SCORE {
        return Some(RangeFault::ScoreRange);
    }
    None
}

/// As much as a rule with so many rows can add up to.
fn impact_bound(rows: u64, weight: u32, cap: u32) -> u128
    requires { rows ≤ row_limit }
    ensures value { result ≡ rows * weight * cap }
    ensures bound { result ≤ 2 ^ 96 }
{
    rows as u128 * weight as u128 * cap as u128
}

/// As many matches as the rule can have; none where one of its streams may have too many rows.
fn rows_of(sizes: &[u32], rule: &RuleDef) -> Option<u64>
    ensures value { result ≡ rows_bound sizes.now rule.now }
    ensures bound { IfSome result (λ rows. rows ≤ row_limit) }
{
    let mut rows = rows_of_head(sizes, &rule.head);
    for node in rule.nodes.as_slice() {
        if rows > MOST_ROWS {
            return None;
        }
        rows = rows_after(sizes, rows, node);
    }
    if rows > MOST_ROWS { None } else { Some(rows) }
}

/// How many live facts a class has.
fn size_of(sizes: &[u32], class: u8) -> u64
    ensures value { result ≡ size_of sizes.now class }
    ensures bound { result < 2 ^ 32 }
{
    match sizes.get(class as usize) {
        Some(size) => *size as u64,
        None => 0,
    }
}

/// As many rows as the head can have.
fn rows_of_head(sizes: &[u32], head: &Head) -> u64
    ensures { result ≡ head_bound sizes.now head.now }
{
    let size = size_of(sizes, head.class());
    match head {
        Head::Pairs(_, _) => size * size.saturating_sub(1) / 2,
        _ => size,
    }
}

/// As many rows as there can be after the node.
fn rows_after(sizes: &[u32], rows: u64, node: &Node) -> u64
    requires { rows ≤ row_limit }
    ensures { result ≡ node_bound sizes.now rows node.now }
{
    match node {
        Node::Join(class, _, _) => rows * size_of(sizes, *class),
        _ => rows,
    }
}
