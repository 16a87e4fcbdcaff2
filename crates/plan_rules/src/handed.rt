ghost use Rattle.std.specs.Prelude.{◌≡◌, None, IfOk, IfErr, length, map, option_copied};
ghost use Rattle.plan_rules.specs.Closures.{capped, key_numbers, numbers_of, test_numbers, weigher_numbers, weigher_with};
ghost use Rattle.plan_facts.specs.Refusal.{IsRefusal};
ghost use Rattle.plan_rules.specs.Faults.{closures_fault, rules_fault};
ghost use Rattle.plan_rules.specs.Range.{cap_of};

use crate::check::check_rules;
use crate::closures::{Key, Test, Weigh};
use crate::fault::{ClosureKind, RuleFault};
use crate::harder::check_harder;
use crate::places::{Numbers, Places};
use crate::rule::{Harder, RuleDef};
use plan_facts::{List, Schema, Text};
use std::alloc::Global;

/// The numbers of the closures, where rules and closures are accepted.
pub fn accepted_numbers<B>(
    alloc: Global,
    schema: &Schema,
    defs: &List<RuleDef>,
    tests: &List<Test<B>>,
    keys: &List<Key<B>>,
    weighs: &List<Weigh<B>>,
    harder: &List<Harder>,
) -> Result<Numbers, RuleFault>
    ensures ok { IfOk result (λ numbers. numbers ≡ numbers_of tests.now keys.now weighs.now) }
    ensures accepted { IfOk result (λ numbers. rules_fault schema.now numbers defs.now harder.now ≡ None) }
    ensures err { let numbers = numbers_of tests.now keys.now weighs.now in
        IfErr result (IsRefusal RuleFault.Memory (rules_fault schema.now numbers defs.now harder.now)) }
{
    let numbers = numbers_of(alloc, tests, keys, weighs)?;
    check_rules(schema.classes(), &numbers, defs.as_slice())?;
    check_harder(schema, &numbers, harder.as_slice())?;
    Ok(numbers)
}

/// The numbers of the closures, or the first that has the number of an earlier one of its kind.
fn numbers_of<B>(
    alloc: Global,
    tests: &List<Test<B>>,
    keys: &List<Key<B>>,
    weighs: &List<Weigh<B>>,
) -> Result<Numbers, RuleFault>
    ensures ok { IfOk result (λ numbers. numbers ≡ numbers_of tests.now keys.now weighs.now) }
    ensures distinct { IfOk result (λ numbers. closures_fault numbers ≡ None) }
    ensures err { let numbers = numbers_of tests.now keys.now weighs.now in
        IfErr result (IsRefusal RuleFault.Memory (closures_fault numbers)) }
{
    let of_tests = numbers_of_tests(alloc, tests)?;
    let tests = Places::of(alloc, ClosureKind::Test, of_tests.as_slice())?;
    let of_keys = numbers_of_keys(alloc, keys)?;
    let keys = Places::of(alloc, ClosureKind::Key, of_keys.as_slice())?;
    let of_weighs = numbers_of_weighs(alloc, weighs)?;
    let weighs = Places::of(alloc, ClosureKind::Weigh, of_weighs.as_slice())?;
    Ok(Numbers {
        tests,
        keys,
        weighs,
    })
}

/// The numbers of the tests.
fn numbers_of_tests<B>(alloc: Global, tests: &List<Test<B>>) -> Result<List<u16>, RuleFault>
    ensures ok { IfOk result (λ numbers. numbers ≡ test_numbers tests.now) }
    ensures err { IfErr result (λ fault. fault ≡ RuleFault.Memory) }
{
    let mut numbers = List::new(alloc);
    for test in tests.as_slice() {
        numbers.push(test.number)?;
    }
    Ok(numbers)
}

/// The numbers of the keys.
fn numbers_of_keys<B>(alloc: Global, keys: &List<Key<B>>) -> Result<List<u16>, RuleFault>
    ensures ok { IfOk result (λ numbers. numbers ≡ key_numbers keys.now) }
    ensures err { IfErr result (λ fault. fault ≡ RuleFault.Memory) }
{
    let mut numbers = List::new(alloc);
    for key in keys.as_slice() {
        numbers.push(key.number)?;
    }
    Ok(numbers)
}

/// The numbers of the weighers.
fn numbers_of_weighs<B>(alloc: Global, weighs: &List<Weigh<B>>) -> Result<List<u16>, RuleFault>
    ensures ok { IfOk result (λ numbers. numbers ≡ weigher_numbers weighs.now) }
    ensures err { IfErr result (λ fault. fault ≡ RuleFault.Memory) }
{
    let mut numbers = List::new(alloc);
    for weigher in weighs.as_slice() {
        numbers.push(weigher.number)?;
    }
    Ok(numbers)
}

/// The names of the rules.
pub fn names_of(alloc: Global, defs: &[RuleDef]) -> Result<List<Text>, RuleFault>
    ensures ok { IfOk result (λ names. names ≡ map (λ def. def.name) defs.now) }
    ensures err { IfErr result (λ fault. fault ≡ RuleFault.Memory) }
{
    let mut names = List::new(alloc);
    for def in defs {
        names.push(def.name.copy(alloc)?)?;
    }
    Ok(names)
}

/// The cap of each rule's match weight.
pub fn caps_of<B>(
    alloc: Global,
    defs: &[RuleDef],
    weighs: &List<Weigh<B>>,
    places: &Places,
) -> Result<List<u32>, RuleFault>
    requires { places.now ≡ weigher_numbers weighs.now }
    ensures ok { IfOk result (λ caps. caps ≡ map (cap_of (capped weighs.now)) defs.now) }
    ensures err { IfErr result (λ fault. fault ≡ RuleFault.Memory) }
{
    let mut caps = List::new(alloc);
    for rule in defs {
        caps.push(cap_of(rule, weighs, places))?;
    }
    Ok(caps)
}

/// The cap of the rule's match weight: its weigher's, or 1 where it has none.
fn cap_of<B>(rule: &RuleDef, weighs: &List<Weigh<B>>, places: &Places) -> u32
    requires { places.now ≡ weigher_numbers weighs.now }
    ensures { result ≡ cap_of (capped weighs.now) rule.now }
{
    let Some(number) = rule.weigh else {
        return 1;
    };
    match weigher_at(weighs, places, number) {
        Some(weigher) => weigher.cap,
        None => 1,
    }
}

/// The weigher with this number.
pub fn weigher_at<'a, B>(
    weighs: &'a List<Weigh<B>>,
    places: &Places,
    number: u16,
) -> Option<&'a Weigh<B>>
    requires { places.now ≡ weigher_numbers weighs.now }
    ensures { option_copied result ≡ weigher_with weighs.now number }
{
    match places.place(number) {
        Some(place) => weighs.get(place),
        None => None,
    }
}
