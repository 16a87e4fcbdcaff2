ghost use Rattle.std.specs.Prelude.{◌≡◌, ◌∷◌, ◌++◌, [], IfOk, None, OnOk, if◌then◌else◌};
ghost use Rattle.plan_facts.specs.Plan.{PlanView};
ghost use Rattle.plan_rules.specs.Range.{sizes_of};
ghost use Rattle.plan_scores.specs.Order.{is_better_plan};
ghost use Rattle.score_director.specs.View.{at_rest};
ghost use Rattle.plan_session.specs.Toured.{one_more};
ghost use Rattle.plan_session.specs.WayBack.{IsWayBack};

use move_workers::keep_alone;
use plan_facts::{Memory, Plan};
use plan_moves::Edit;
use plan_rules::{Book, Judges, Rules};
use plan_scores::PlanScore;
use score_director::Director;
use std::alloc::Global;

/// The best plan of a leg so far: its score, and the edits that lead back to it from the plan as it is, the last one
/// first. So nothing is copied when a plan is the best. And how many steps of the leg had a winner.
#[derive(Drop)]
pub struct BestSoFar {
    pub score: PlanScore,
    pub back: Vec<Edit>,
    pub wins: u32,
}

impl BestSoFar {
    /// A leg begins, with this score.
    pub fn begin(alloc: Global, score: PlanScore) -> BestSoFar
        ensures score { result.score ≡ score }
        ensures back { result.back.items ≡ [] }
        ensures wins { result.wins ≡ 0 }
    {
        BestSoFar {
            score,
            back: Vec::new(alloc),
            wins: 0,
        }
    }

    /// The plan went on by what this edit takes back, to a plan of this score: one step more had a winner, counted up to the
    /// greatest u32. Answers whether that is the best now.
    pub fn went(&mut self, score: PlanScore, back: Edit) -> Result<bool, Memory>
        ensures is_best { IfOk result (λ is_best. is_best ≡ is_better_plan score self.old.score) }
        ensures score { IfOk result (λ is_best. self.new.score ≡ (if is_best then score else self.old.score)) }
        ensures back { IfOk result (λ is_best.
            self.new.back.items ≡ (if is_best then [] else self.old.back.items ++ back ∷ [])) }
        ensures wins { OnOk result (self.new.wins ≡ one_more self.old.wins) }
    {
        self.wins = self.wins.saturating_add(1);
        if score > self.score {
            self.score = score;
            self.back.clear();
            return Ok(true);
        }
        self.back.push(back)?;
        Ok(false)
    }
}

/// Leads a plan back to the best one, by these edits.
pub fn lead_back(back: Vec<Edit>, plan: &mut Plan)
    requires { (best : PlanView) × IsWayBack best back.items plan.old }
    ensures best { (best : PlanView) → IsWayBack best back.items plan.old → plan.new ≡ best }
    ensures sizes { sizes_of plan.new ≡ sizes_of plan.old }
{
    let mut back = back;
    'edits: while let Some(edit) = back.pop() {
        edit.apply(plan);
    }
}

/// Leads a director back to the best plan, by these edits.
pub fn lead_director<B: Book>(
    rules: &Rules<B>,
    back: Vec<Edit>,
    director: &mut Director<B>,
) -> Result<(), Memory>
    requires judges { ⟦<Rules<B> as Judges>⟧.judges rules.now director.old.weights (sizes_of director.old.plan) }
    requires own { rules.now.defs ≡ director.old.rules }
    requires rest { director.old.base ≡ None }
    requires way { (best : PlanView) × IsWayBack best back.items director.old.plan }
    ensures best { OnOk result ((best : PlanView) → IsWayBack best back.items director.old.plan
        → director.new ≡ at_rest rules.now.defs director.old.weights best) }
    ensures judges { ⟦<Rules<B> as Judges>⟧.judges rules.now director.new.weights (sizes_of director.new.plan) }
    ensures own { rules.now.defs ≡ director.new.rules }
    ensures rest { director.new.base ≡ None }
{
    let mut back = back;
    'edits: while let Some(edit) = back.pop() {
        keep_alone(director, rules, &edit)?;
    }
    Ok(())
}
