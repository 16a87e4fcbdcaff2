ghost use Rattle.std.specs.Prelude.{◌≡◌, ◌∷◌, [], All, IfOk, IsTrue};
ghost use Rattle.plan_facts.specs.Schema.{is_name};
ghost use Rattle.uses.specs.Classes.{restaurant_classes};
ghost use Rattle.uses.specs.Rules.{restaurant_rules};

use crate::classes::schema;
use crate::rules::{Restaurant, defs};
use plan_facts::{List, Memory, Text};
use plan_json::Domain;
use plan_moves::MoveMaker;
use plan_rules::{Kept, Key, RuleFault, Rules, Test, Weigh};
use std::alloc::Global;

/// The domain `restaurant`, of its three closures, which answer what the book says of their numbers, and its maker; or
/// what its rules are refused for, as a closure under another number.
pub fn restaurant_of(
    alloc: Global,
    test: Test<Restaurant>,
    key: Key<Restaurant>,
    weigher: Weigh<Restaurant>,
    maker: Box<dyn MoveMaker>,
) -> Result<Domain<Restaurant>, RuleFault>
    requires test_keeps { ⟦<Test<Restaurant> as Kept>⟧.keeps test }
    requires key_keeps { ⟦<Key<Restaurant> as Kept>⟧.keeps key }
    requires weigher_keeps { ⟦<Weigh<Restaurant> as Kept>⟧.keeps weigher }
    ensures classes { IfOk result (λ domain. domain.schema ≡ restaurant_classes) }
    ensures rules { IfOk result (λ domain. domain.rules.defs ≡ restaurant_rules) }
    ensures keeps { IfOk result (λ domain. ⟦<Rules<Restaurant> as Kept>⟧.keeps domain.rules) }
    ensures makers { IfOk result (λ domain. domain.makers.items ≡ maker ∷ []) }
{
    let name = named(alloc, b"restaurant")?;
    let schema = schema(alloc)?;
    let defs = defs(alloc)?;
    let tests = one_test(alloc, test)?;
    let keys = one_key(alloc, key)?;
    let weighers = one_weigher(alloc, weigher)?;
    let harder = List::new(alloc);
    let rules = Rules::build(alloc, &schema, defs, tests, keys, weighers, harder)?;
    let makers = one_maker(alloc, maker)?;
    Ok(Domain::new(name, schema, rules, makers))
}

/// The text of a name.
fn named(alloc: Global, name: &[u8]) -> Result<Text, Memory>
    requires { IsTrue (is_name name.now) }
    ensures { IfOk result (λ text. IsTrue (is_name text)) }
{
    let text = Text::from_slice(alloc, name)?;
    Ok(text)
}

/// A list of one test.
fn one_test(alloc: Global, test: Test<Restaurant>) -> Result<List<Test<Restaurant>>, Memory>
    requires { ⟦<Test<Restaurant> as Kept>⟧.keeps test }
    ensures { IfOk result (λ tests. All (λ test. ⟦<Test<Restaurant> as Kept>⟧.keeps test) tests) }
{
    let mut tests = List::new(alloc);
    tests.push(test)?;
    Ok(tests)
}

/// A list of one key.
fn one_key(alloc: Global, key: Key<Restaurant>) -> Result<List<Key<Restaurant>>, Memory>
    requires { ⟦<Key<Restaurant> as Kept>⟧.keeps key }
    ensures { IfOk result (λ keys. All (λ key. ⟦<Key<Restaurant> as Kept>⟧.keeps key) keys) }
{
    let mut keys = List::new(alloc);
    keys.push(key)?;
    Ok(keys)
}

/// A list of one weigher.
fn one_weigher(alloc: Global, weigher: Weigh<Restaurant>) -> Result<List<Weigh<Restaurant>>, Memory>
    requires { ⟦<Weigh<Restaurant> as Kept>⟧.keeps weigher }
    ensures { IfOk result (λ weighers. All (λ weigher. ⟦<Weigh<Restaurant> as Kept>⟧.keeps weigher) weighers) }
{
    let mut weighers = List::new(alloc);
    weighers.push(weigher)?;
    Ok(weighers)
}

/// A list of one maker.
fn one_maker(alloc: Global, maker: Box<dyn MoveMaker>) -> Result<Vec<Box<dyn MoveMaker>>, Memory>
    ensures { IfOk result (λ makers. makers.items ≡ maker ∷ []) }
{
    let mut makers = Vec::new(alloc);
    makers.push(maker)?;
    Ok(makers)
}
