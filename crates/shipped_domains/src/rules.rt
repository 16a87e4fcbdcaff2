ghost use Rattle.std.specs.Prelude.{◌≡◌, All, None, IfOk, map};
ghost use Rattle.plan_rules.specs.Closures.{capped, key_numbers, test_numbers, weigher_numbers};
ghost use Rattle.plan_rules.specs.Faults.{rules_fault};
ghost use Rattle.shipped_domains.specs.Handed.{numbers_handed};
ghost use Rattle.shipped_domains.specs.Numbered.{caps_by, weighers_of};

use crate::book::Shipped;
use crate::closures::{Closures, ShippedKey, ShippedTest, ShippedWeigh};
use domain_words::WEIGHT_CAP;
use plan_facts::{List, Memory, Schema};
use plan_rules::{Harder, Kept, Key, RuleDef, RuleFault, Rules, Test, Weigh};
use std::alloc::Global;

/// The tests in their order, which keep their word.
fn tests_of(alloc: Global, from: Vec<ShippedTest>) -> Result<List<Test<Shipped>>, Memory>
    ensures numbers { IfOk result (λ tests. test_numbers tests ≡ map (λ test. test.number) from.items) }
    ensures keep { IfOk result (λ tests. All (λ test. ⟦<Test<Shipped> as Kept>⟧.keeps test) tests) }
{
    let mut tests = List::new(alloc);
    for shipped in from {
        tests.push(Test::new(shipped.number, shipped.body))?;
    }
    Ok(tests)
}

/// The keys in their order, which keep their word.
fn keys_of(alloc: Global, from: Vec<ShippedKey>) -> Result<List<Key<Shipped>>, Memory>
    ensures numbers { IfOk result (λ keys. key_numbers keys ≡ map (λ key. key.number) from.items) }
    ensures keep { IfOk result (λ keys. All (λ key. ⟦<Key<Shipped> as Kept>⟧.keeps key) keys) }
{
    let mut keys = List::new(alloc);
    for shipped in from {
        keys.push(Key::new(shipped.number, shipped.body))?;
    }
    Ok(keys)
}

/// The weighers in their order, which keep their word, each with the greatest weight as its cap.
fn weighs_of(alloc: Global, from: Vec<ShippedWeigh>) -> Result<List<Weigh<Shipped>>, Memory>
    ensures numbers { IfOk result (λ weighs. weigher_numbers weighs ≡ map (λ weigher. weigher.number) from.items) }
    ensures caps { IfOk result (λ weighs. capped weighs ≡ weighers_of (map (λ weigher. weigher.number) from.items)) }
    ensures keep { IfOk result (λ weighs. All (λ weigher. ⟦<Weigh<Shipped> as Kept>⟧.keeps weigher) weighs) }
{
    let mut weighs = List::new(alloc);
    for shipped in from {
        weighs.push(Weigh::new(shipped.number, WEIGHT_CAP, shipped.body))?;
    }
    Ok(weighs)
}

/// The rules of a shipped domain over its schema with these closures and harder keys, where all is accepted.
pub fn shipped_rules_of(
    alloc: Global,
    schema: &Schema,
    defs: List<RuleDef>,
    closures: Closures,
    harder: List<Harder>,
) -> Result<Rules<Shipped>, Memory>
    requires { rules_fault schema.now (numbers_handed closures) defs harder ≡ None }
    ensures schema { IfOk result (λ rules. rules.schema ≡ schema.now) }
    ensures defs { IfOk result (λ rules. rules.defs ≡ defs) }
    ensures harder { IfOk result (λ rules. rules.harder ≡ harder) }
    ensures caps { IfOk result (λ rules. rules.caps ≡ caps_by (numbers_handed closures) defs) }
    ensures keeps { IfOk result (λ rules. ⟦<Rules<Shipped> as Kept>⟧.keeps rules) }
{
    let tests = tests_of(alloc, closures.tests)?;
    let keys = keys_of(alloc, closures.keys)?;
    let weighs = weighs_of(alloc, closures.weighers)?;
    match Rules::build(alloc, schema, defs, tests, keys, weighs, harder) {
        Ok(rules) => Ok(rules),
        Err(RuleFault::Memory) => Err(Memory),
        Err(_) => unreachable!(),
    }
}
