ghost use Rattle.std.specs.Prelude.{◌<◌, ◌≤◌, ◌^◌, length};

use plan_facts::Schema;
use plan_moves::MoveMaker;
use plan_rules::Rules;
use plan_settings::Selector;

/// What workers judge by, which a search leaves as it is: rules over a schema, fewer than 2^32 makers of moves, 1 to 8
/// selectors, and the seed of the draws.
#[derive(Drop)]
pub struct Kit<'a, B> {
    pub rules: &'a Rules<B>,
    pub schema: &'a Schema,
    pub makers: &'a [Box<dyn MoveMaker>],
    pub selectors: &'a [Selector],
    pub seed: u64,
    pub ghost some: { 1 ≤ length selectors.now },
    pub ghost few: { length selectors.now ≤ 8 },
    pub ghost few_makers: { length makers.now < 2 ^ 32 },
}
