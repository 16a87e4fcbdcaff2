use plan_facts::List;
use plan_scores::PlanScore;

/// An entity as it was placed: what its variables hold then, and the plan's score after it.
#[derive(Drop)]
pub struct Placed {
    pub class: u8,
    pub id: u32,
    pub values: List<Option<u32>>,
    pub score: PlanScore,
}
