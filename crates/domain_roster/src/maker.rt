use crate::names::SHIFT;
use domain_words::{fact_picked, gives};
use plan_facts::{Memory, Plan};
use plan_moves::{Edit, MoveMaker};

/// The variable of a shift that holds its worker.
const WORKER: u8 = 0;

/// Moves the workers of three shifts on, which the third to the fifth word pick among all shifts: the first gets the
/// second's, the second the third's, the third the first's. Makes nothing where there is no shift or two are one.
#[derive(Drop)]
pub struct Maker;

impl MoveMaker for Maker {
    ghost use Rattle.domain_roster.specs.Moves.{roster_made};

    ghost made = { λ _ plan words. roster_made plan words };

    fn make(&self, plan: &Plan, words: &[u32; 8], into: &mut Edit) -> Result<bool, Memory> {
        let Some(one) = fact_picked(plan, SHIFT, words[2]) else {
            return Ok(false);
        };
        let Some(other) = fact_picked(plan, SHIFT, words[3]) else {
            return Ok(false);
        };
        let Some(third) = fact_picked(plan, SHIFT, words[4]) else {
            return Ok(false);
        };
        if one.id == other.id || one.id == third.id || other.id == third.id {
            return Ok(false);
        }
        let sets = [
            gives(SHIFT, WORKER, one, other),
            gives(SHIFT, WORKER, other, third),
            gives(SHIFT, WORKER, third, one),
        ];
        into.fill(&sets)?;
        Ok(true)
    }
}
