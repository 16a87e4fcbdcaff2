use crate::names::LESSON;
use domain_words::{fact_picked, gives};
use plan_facts::{Memory, Plan};
use plan_moves::{Edit, MoveMaker};

/// The variable of a lesson that holds its slot.
const SLOT: u8 = 0;

/// Lets two lessons, which the third and the fourth word pick among all lessons, exchange their slots; makes nothing
/// where there is no lesson or both are one.
#[derive(Drop)]
pub struct Maker;

impl MoveMaker for Maker {
    ghost use Rattle.domain_timetable.specs.Moves.{timetable_made};

    ghost made = { λ _ plan words. timetable_made plan words };

    fn make(&self, plan: &Plan, words: &[u32; 8], into: &mut Edit) -> Result<bool, Memory> {
        let Some(one) = fact_picked(plan, LESSON, words[2]) else {
            return Ok(false);
        };
        let Some(other) = fact_picked(plan, LESSON, words[3]) else {
            return Ok(false);
        };
        if one.id == other.id {
            return Ok(false);
        }
        let sets = [
            gives(LESSON, SLOT, one, other),
            gives(LESSON, SLOT, other, one),
        ];
        into.fill(&sets)?;
        Ok(true)
    }
}
