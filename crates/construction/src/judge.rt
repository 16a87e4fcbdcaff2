ghost use Rattle.std.specs.Prelude.{◌≡◌, IfOk, IsTrue, OnErr, OnOk};
ghost use Rattle.plan_facts.specs.Plan.{IsPlan};
ghost use Rattle.plan_moves.specs.Edits.{applied, is_legal};
ghost use Rattle.plan_rules.specs.Range.{sizes_of};
ghost use Rattle.score_director.specs.View.{score_seen};
ghost use Rattle.construction.specs.Standing.{IsAtRest, played, score_under};

use plan_facts::{Memory, Schema};
use plan_moves::Edit;
use plan_rules::{Book, Judges, Rules, Steps};
use plan_scores::PlanScore;
use score_director::Director;
use std::sync::ledger::Ledger;

/// The score after an edit that is legal; the present one where it changes nothing. All stays as before.
pub fn score_after<B: Book, L: Ledger>(
    director: &mut Director<B>,
    rules: &Rules<B>,
    schema: &Schema,
    edit: &Edit,
    steps: &mut Steps<L>,
) -> Result<PlanScore, Memory>
    requires judges { ⟦<Rules<B> as Judges>⟧.judges rules.now director.old.weights (sizes_of director.old.plan) }
    requires rest { IsAtRest rules.now.defs director.old }
    requires plan { IsPlan director.old.plan }
    requires legal { IsTrue (is_legal director.old.plan edit.now) }
    ensures score { let score = score_under B.meaning director.old in
        IfOk result (λ after. after ≡ score (applied director.old.plan edit.now)) }
    ensures same { director.new ≡ director.old }
{
    match director.judge(rules, schema, edit, steps)? {
        Some(score) => Ok(score),
        None => Ok(director.score()),
    }
}

/// Makes an edit that is legal, and says what the plan is worth then. At want of memory all is as before.
pub fn play<B: Book, L: Ledger>(
    director: &mut Director<B>,
    rules: &Rules<B>,
    edit: &Edit,
    steps: &mut Steps<L>,
) -> Result<PlanScore, Memory>
    requires judges { ⟦<Rules<B> as Judges>⟧.judges rules.now director.old.weights (sizes_of director.old.plan) }
    requires rest { IsAtRest rules.now.defs director.old }
    requires legal { IsTrue (is_legal director.old.plan edit.now) }
    ensures ok { OnOk result (director.new ≡ played director.old edit.now) }
    ensures score { IfOk result (λ score. score ≡ score_seen B.meaning director.new) }
    ensures err { OnErr result (director.new ≡ director.old) }
{
    let score = director.attempt(rules, edit, steps)?;
    director.keep();
    Ok(score)
}
