//! The rules of a school, each with one node, and the closures that they ask.
ghost use Rattle.std.specs.Prelude.{◌≡◌, All, IfOk, IfSome, Some};
ghost use Rattle.plan_rules.specs.Named.{node_closures};
ghost use Rattle.plan_rules.specs.Sound.{IsHandedIn};
ghost use Rattle.stream_join.specs.Nodes.{node_at};

use crate::school::{AWAY, LESSON};
use plan_facts::{List, Memory, Schema, Text};
use plan_rules::{
    Book, Collect, Head, Joiner, Kept, Key, Node, RuleDef, RuleFault, Rules, Test, Weigh,
};
use plan_scores::Level;
use std::alloc::Global;

/// Key n is field n of the record that a row begins with; each test holds of two lessons in different rooms.
#[derive(Drop)]
pub struct Lessons;

impl Book for Lessons {
    ghost use Rattle.trial_bench.specs.School.{school_meaning};

    ghost meaning = { school_meaning };
}

/// The key of the teacher.
pub const BY_TEACHER: u16 = 0;

/// The key of the day.
pub const BY_DAY: u16 = 1;

/// The test of two lessons in different rooms.
pub const ROOMS_DIFFER: u16 = 0;

/// The same teacher on both sides.
const SAME_TEACHER: Joiner = Joiner::Equal(BY_TEACHER, BY_TEACHER);

/// The same day on both sides.
const SAME_DAY: Joiner = Joiner::Equal(BY_DAY, BY_DAY);

/// The names of the rules, in order.
pub const NAMES: &[&str; 5] = &[
    "pairs_by_teacher",
    "pairs_by_teacher_and_day",
    "join_by_teacher_with_a_test",
    "exists_by_teacher_and_day",
    "count_by_teacher_and_day",
];

/// The rule of this name, head and nodes.
fn rule_of(alloc: Global, name: &str, head: Head, nodes: List<Node>) -> Result<RuleDef, Memory> {
    Ok(RuleDef {
        name: Text::from_slice(alloc, name.as_bytes())?,
        level: Level::Hard,
        reward: false,
        weight: 1,
        weigh: None,
        head,
        nodes,
    })
}

/// A rule of pairs of lessons.
fn pair_rule(alloc: Global, name: &str, joiners: &[Joiner]) -> Result<RuleDef, Memory> {
    let head = Head::Pairs(LESSON, List::from_slice(alloc, joiners)?);
    rule_of(alloc, name, head, List::new(alloc))
}

/// A rule of lessons and one node.
fn node_rule(alloc: Global, name: &str, node: Node) -> Result<RuleDef, Memory> {
    let mut nodes = List::new(alloc);
    nodes.push(node)?;
    rule_of(alloc, name, Head::ForEach(LESSON), nodes)
}

/// Lessons with those of the same teacher in other rooms.
fn join(alloc: Global) -> Result<Node, Memory> {
    let joiners = [SAME_TEACHER, Joiner::Filtering(ROOMS_DIFFER)];
    Ok(Node::Join(LESSON, false, List::from_slice(alloc, &joiners)?))
}

/// Lessons on a day on which their teacher is away.
fn exists(alloc: Global) -> Result<Node, Memory> {
    let joiners = [SAME_TEACHER, SAME_DAY];
    Ok(Node::IfExists(AWAY, false, List::from_slice(alloc, &joiners)?))
}

/// How many lessons a teacher has on a day.
fn count(alloc: Global) -> Result<Node, Memory> {
    let keys = List::from_slice(alloc, &[BY_TEACHER, BY_DAY])?;
    Ok(Node::GroupBy(keys, Collect::Count))
}

/// The rules, in order.
fn defs(alloc: Global) -> Result<List<RuleDef>, Memory> {
    let [first, second, third, fourth, fifth] = *NAMES;
    let mut defs = List::new(alloc);
    defs.push(pair_rule(alloc, first, &[SAME_TEACHER])?)?;
    defs.push(pair_rule(alloc, second, &[SAME_TEACHER, SAME_DAY])?)?;
    defs.push(node_rule(alloc, third, join(alloc)?)?)?;
    defs.push(node_rule(alloc, fourth, exists(alloc)?)?)?;
    defs.push(node_rule(alloc, fifth, count(alloc)?)?)?;
    Ok(defs)
}

/// One test, which keeps its word.
fn one_test(alloc: Global, test: Test<Lessons>) -> Result<List<Test<Lessons>>, Memory>
    requires { ⟦<Test<Lessons> as Kept>⟧.keeps test }
    ensures { IfOk result (λ tests. All (λ test. ⟦<Test<Lessons> as Kept>⟧.keeps test) tests) }
{
    let mut tests = List::new(alloc);
    tests.push(test)?;
    Ok(tests)
}

/// Two keys, which keep their word.
fn two_keys(
    alloc: Global,
    one: Key<Lessons>,
    other: Key<Lessons>,
) -> Result<List<Key<Lessons>>, Memory>
    requires one { ⟦<Key<Lessons> as Kept>⟧.keeps one }
    requires other { ⟦<Key<Lessons> as Kept>⟧.keeps other }
    ensures { IfOk result (λ keys. All (λ key. ⟦<Key<Lessons> as Kept>⟧.keeps key) keys) }
{
    let mut keys = List::new(alloc);
    keys.push(one)?;
    keys.push(other)?;
    Ok(keys)
}

/// The rules over the schema of a school, with the closures that they ask, which keep their word.
pub fn rules_of(
    alloc: Global,
    schema: &Schema,
    test: Test<Lessons>,
    teacher: Key<Lessons>,
    day: Key<Lessons>,
    weighers: List<Weigh<Lessons>>,
) -> Result<Rules<Lessons>, RuleFault>
    requires test { ⟦<Test<Lessons> as Kept>⟧.keeps test }
    requires teacher { ⟦<Key<Lessons> as Kept>⟧.keeps teacher }
    requires day { ⟦<Key<Lessons> as Kept>⟧.keeps day }
    requires weighers { All (λ weigher. ⟦<Weigh<Lessons> as Kept>⟧.keeps weigher) weighers }
    ensures { IfOk result (λ rules. ⟦<Rules<Lessons> as Kept>⟧.keeps rules) }
{
    let tests = one_test(alloc, test)?;
    let keys = two_keys(alloc, teacher, day)?;
    let defs = defs(alloc)?;
    Rules::build(alloc, schema, defs, tests, keys, weighers, List::new(alloc))
}

/// The node of a rule, if it has one. Its closures were handed in.
pub fn node_in<B: Book>(rules: &Rules<B>, rule: u8) -> Option<&Node>
    ensures is { IfSome result (λ node. Some node.now ≡ node_at rules.now.defs rule 0) }
    ensures closures { IfSome result (λ node.
        All (IsHandedIn rules.now.numbers) (node_closures node.now)) }
{
    let Some(def) = rules.def(rule) else {
        return None;
    };
    let Some(node) = def.nodes.get(0) else {
        return None;
    };
    Some(node)
}
