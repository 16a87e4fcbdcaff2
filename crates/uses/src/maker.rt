use crate::classes::PARTY;
use domain_words::{fact_picked, gives};
use plan_facts::{Memory, Plan};
use plan_moves::{Edit, MoveMaker};

/// The variable of a party that holds its table.
const TABLE_HELD: u8 = 0;

/// Lets two parties, which the third and the fourth word pick among all parties, exchange their tables; makes nothing
/// where there is no party or both are one.
#[derive(Drop)]
pub struct Maker;

impl MoveMaker for Maker {
    ghost use Rattle.uses.specs.Moves.{tables_exchanged};

    ghost made = { λ _ plan words. tables_exchanged plan words };

    fn make(&self, plan: &Plan, words: &[u32; 8], into: &mut Edit) -> Result<bool, Memory> {
        let Some(one) = fact_picked(plan, PARTY, words[2]) else {
            return Ok(false);
        };
        let Some(other) = fact_picked(plan, PARTY, words[3]) else {
            return Ok(false);
        };
        if one.id == other.id {
            return Ok(false);
        }
        let sets = [
            gives(PARTY, TABLE_HELD, one, other),
            gives(PARTY, TABLE_HELD, other, one),
        ];
        into.fill(&sets)?;
        Ok(true)
    }
}
