use plan_facts::List;
use plan_moves::Touch;
use plan_scores::PlanScore;

/// What was found of a candidate that may be made: the plan's score after it, and the entities that it touches.
#[derive(Drop)]
pub struct Found {
    pub score: PlanScore,
    pub touched: List<Touch>,
}
