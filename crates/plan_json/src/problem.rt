use plan_facts::{List, Names, Plan};
use plan_settings::Settings;

/// A problem of a domain: its plan with the names that stand in it, how it is to be searched, and the weight of each
/// rule.
#[derive(Drop)]
pub struct Problem {
    /// The domain's place among those that were handed in.
    pub domain: usize,
    pub plan: Plan,
    pub names: Names,
    pub settings: Settings,
    /// One weight for each rule, from 0 to 1,000,000.
    pub weights: List<u32>,
}
