//! The closures that rules of the tests ask, which are boxed in one place.
ghost use Rattle.std.specs.Prelude.{◌≡◌, ◌≤◌, All, IfOk};
ghost use Rattle.plan_rules.specs.Meaning.{IsKeyNumber, KeyAnswers, TestAnswers, WeighAnswers};
ghost use Rattle.search_rows.specs.Asked.{by_ids, key_answer, test_answer, weight_answer};

use super::fixtures::{push_kept, rules_of};
use super::{placing, recalc};
use crate::{id_at, room_at};
use plan_facts::{List, Memory, Schema};
use plan_rules::{
    Book, Harder, Kept, Key, KeyBody, Row, RuleDef, Rules, Test, TestBody, Weigh, WeighBody,
};
use std::alloc::Global;
use std::test::Fail;

/// What closures answer by ids.
#[derive(Drop)]
pub(super) struct Ids;

impl Book for Ids {
    ghost meaning = { by_ids };
}

/// Holds where the ids of a record and its room are more than 3 together.
pub(super) const PAST: u16 = 0;

/// Holds where two records have one room.
pub(super) const SHARED: u16 = 1;

/// Holds where a record has no room.
pub(super) const ROOMLESS: u16 = 2;

/// Holds where the ids of the first two records are more than 3 together; where there is no record, its id counts as 0.
pub(super) const PAST_IDS: u16 = 3;

/// The remainder of the first id by 3.
pub(super) const BY_THREE: u16 = 3;

/// The remainder of the first id by 100.
pub(super) const BY_HUNDRED: u16 = 100;

/// Gives the first id, at most 5.
pub(super) const MOST: u16 = 5;

/// The greatest weight.
const CAP: u32 = 5;

/// The answer of the test with this number.
fn test_answer(number: u16, row: &Row) -> bool
    ensures { result ≡ test_answer number row.now }
{
    match number {
        PAST => 3 < u64::from(id_at(row, 0)) + u64::from(room_at(row, 0)),
        SHARED => room_at(row, 0) == room_at(row, 1),
        ROOMLESS => room_at(row, 0) == 0,
        _ => 3 < u64::from(id_at(row, 0)) + u64::from(id_at(row, 1)),
    }
}

/// The answer of the key with this number.
fn key_answer(number: u16, row: &Row) -> i64
    ensures value { result ≡ key_answer number row.now }
    ensures range { IsKeyNumber result }
{
    let by = if number == BY_THREE { 3 } else { 100 };
    i64::from(id_at(row, 0) % by)
}

/// The answer of the weigher.
fn weight_answer(row: &Row) -> u32
    ensures value { result ≡ weight_answer row.now }
    ensures range { result ≤ 5 }
{
    id_at(row, 0).min(CAP)
}

/// A test that answers what the book says of its number.
#[derive(Drop)]
struct IdTest {
    number: u16,
    body: TestBody,
    ghost callable: { TestBody.IsAlwaysCallable body },
    ghost answers: { TestAnswers (TestBody.post body) (test_answer number) },
}

/// A key that answers what the book says of its number.
#[derive(Drop)]
struct IdKey {
    number: u16,
    body: KeyBody,
    ghost callable: { KeyBody.IsAlwaysCallable body },
    ghost answers: { KeyAnswers (KeyBody.post body) (key_answer number) },
}

/// A weigher that answers what the book says.
#[derive(Drop)]
struct IdWeigh {
    body: WeighBody,
    ghost callable: { WeighBody.IsAlwaysCallable body },
    ghost answers: { WeighAnswers (WeighBody.post body) 5 weight_answer },
}

/// All closures.
#[derive(Drop)]
pub(super) struct Closures {
    tests: Vec<IdTest>,
    keys: Vec<IdKey>,
    weigher: IdWeigh,
}

/// The tests, which keep their word.
fn tests_of(alloc: Global, from: Vec<IdTest>) -> Result<List<Test<Ids>>, Memory>
    ensures { IfOk result (λ tests. All (λ test. ⟦<Test<Ids> as Kept>⟧.keeps test) tests) }
{
    let mut tests = List::new(alloc);
    for one in from {
        push_kept(&mut tests, Test::new(one.number, one.body))?;
    }
    Ok(tests)
}

/// The keys, which keep their word.
fn keys_of(alloc: Global, from: Vec<IdKey>) -> Result<List<Key<Ids>>, Memory>
    ensures { IfOk result (λ keys. All (λ key. ⟦<Key<Ids> as Kept>⟧.keeps key) keys) }
{
    let mut keys = List::new(alloc);
    for one in from {
        push_kept(&mut keys, Key::new(one.number, one.body))?;
    }
    Ok(keys)
}

/// The weigher, which keeps its word.
fn weighers_of(alloc: Global, from: IdWeigh) -> Result<List<Weigh<Ids>>, Memory>
    ensures { IfOk result (λ weighers. All (λ weigher. ⟦<Weigh<Ids> as Kept>⟧.keeps weigher) weighers) }
{
    let mut weighers = List::new(alloc);
    push_kept(&mut weighers, Weigh::new(MOST, CAP, from.body))?;
    Ok(weighers)
}

/// These rules over the schema, with all closures, which keep their word.
pub(super) fn asking_rules(
    alloc: Global,
    schema: &Schema,
    defs: List<RuleDef>,
    closures: Closures,
    harder: List<Harder>,
) -> Result<Rules<Ids>, Fail>
    ensures { IfOk result (λ rules. ⟦<Rules<Ids> as Kept>⟧.keeps rules) }
{
    let tests = tests_of(alloc, closures.tests)?;
    let keys = keys_of(alloc, closures.keys)?;
    let weighers = weighers_of(alloc, closures.weigher)?;
    rules_of(alloc, schema, defs, tests, keys, weighers, harder)
}

/// What is tried with rules that ask the closures.
#[derive(Clone, Copy)]
pub(super) enum Trial {
    /// What a plan is worth.
    Worth,
    /// How plans are placed.
    Placing,
}

/// What goes wrong when it is tried with these closures.
fn wrong_with(
    alloc: Global,
    trial: Trial,
    closures: Closures,
) -> Result<Option<&'static str>, Fail> {
    match trial {
        Trial::Worth => recalc::wrong_worth(alloc, closures),
        Trial::Placing => placing::wrong_placing(alloc, closures),
    }
}

/// Makes the closures, tries it with them, and gives what goes wrong: a function that makes a boxed closure can't hand
/// it out.
pub(super) fn with_closures(alloc: Global, trial: Trial) -> Result<Option<&'static str>, Fail> {
    let mut tests = Vec::new(alloc);
    'tests: for number in [PAST, SHARED, ROOMLESS, PAST_IDS] {
        let body: TestBody = Box::new(alloc, move |row: &Row| -> bool {
            test_answer(number, row)
        })?;
        tests.push(IdTest { number, body })?;
    }
    let mut keys = Vec::new(alloc);
    'keys: for number in [BY_THREE, BY_HUNDRED] {
        let body: KeyBody = Box::new(alloc, move |row: &Row| -> i64 { key_answer(number, row) })?;
        keys.push(IdKey { number, body })?;
    }
    let body: WeighBody = Box::new(alloc, |row: &Row| -> u32 { weight_answer(row) })?;
    let weigher = IdWeigh { body };
    let closures = Closures {
        tests,
        keys,
        weigher,
    };
    wrong_with(alloc, trial, closures)
}
