//! What changes come to.
ghost use Rattle.std.specs.Prelude.{◌≡◌, None, OnOk};
ghost use Rattle.plan_changes.specs.Fits.{IsOfSchema};
ghost use Rattle.plan_rules.specs.Range.{sizes_of};

use plan_changes::{Change, ChangeFault, Ready};
use plan_facts::{Memory, Names, Schema};
use plan_rules::{Book, Judges, Rules, Steps};
use score_director::Director;
use std::sync::ledger::Ledger;

/// The most names that there may be before a change.
const MOST_NAMES: u32 = 999_999_984;

/// What a change comes to: it is made of a fact, by its class and its id, or of a rule, or it is refused.
#[derive(Clone, Copy, Drop)]
pub(super) enum Outcome {
    Fact(u8, u32),
    Rule(u8),
    Refused(ChangeFault),
}

/// What a change that is ready comes to once it is made.
fn made(ready: &Ready) -> Outcome {
    match ready.rule() {
        Some(rule) => Outcome::Rule(rule),
        None => Outcome::Fact(ready.class(), ready.id()),
    }
}

/// Makes a change, unless it is refused, after which the next one may be looked at, and gives what it comes to.
pub(super) fn make<B: Book, L: Ledger>(
    rules: &Rules<B>,
    schema: &Schema,
    names: &mut Names,
    director: &mut Director<B>,
    change: &Change,
    steps: &mut Steps<L>,
) -> Result<Outcome, Memory>
    requires judges { let seen = director.old in
        ⟦<Rules<B> as Judges>⟧.judges rules.now seen.weights (sizes_of seen.plan) }
    requires own { rules.now.defs ≡ director.old.rules }
    requires rest { director.old.base ≡ None }
    requires schema { IsOfSchema schema.now director.old.plan }
    ensures judges { let seen = director.new in
        OnOk result (⟦<Rules<B> as Judges>⟧.judges rules.now seen.weights (sizes_of seen.plan)) }
    ensures own { OnOk result (rules.now.defs ≡ director.new.rules) }
    ensures rest { OnOk result (director.new.base ≡ None) }
    ensures schema { OnOk result (IsOfSchema schema.now director.new.plan) }
{
    if MOST_NAMES < names.count() {
        return Err(Memory);
    }
    match director.ready(rules, schema, names, change) {
        Ok(ready) => {
            director.change(rules, names, &ready, steps)?;
            Ok(made(&ready))
        }
        Err(fault) => Ok(Outcome::Refused(fault)),
    }
}
