ghost use Rattle.std.specs.Prelude.{◌≡◌, ◌≤◌, OnOk, false, map};
ghost use Rattle.plan_draws.specs.Draws.{words};
ghost use Rattle.plan_moves.specs.Made.{Fills};
ghost use Rattle.move_selectors.specs.Candidates.{candidate_of};
ghost use Rattle.move_selectors.specs.Pool.{IsPoolOf};

use crate::kit::Kit;
use move_selectors::{Pool, candidate};
use plan_draws::Draws;
use plan_facts::{Memory, Plan};
use plan_moves::{Edit, MoveMaker};
use std::alloc::Global;

/// What candidates are drawn with: what they pick from, which is stale once facts came or went; their words, and the edit of
/// the last one.
pub struct Hand {
    pub alloc: Global,
    pub pool: Pool,
    pub is_stale: bool,
    pub draws: Draws,
    pub edit: Edit,
}

// Written out, so that its owners let go of it by one call.
impl Drop for Hand {
    fn drop(self) {
        let Hand {
            alloc: _,
            pool,
            is_stale: _,
            draws,
            edit,
        } = self;
        drop(pool);
        drop(draws);
        drop(edit);
    }
}

/// Finds anew what candidates pick from, where that is stale.
fn refresh(hand: &mut Hand, plan: &Plan) -> Result<(), Memory>
    requires { hand.old.is_stale ≡ false → IsPoolOf plan.now hand.old.pool }
    ensures pool { hand.new.is_stale ≡ false → IsPoolOf plan.now hand.new.pool }
    ensures fresh { OnOk result (hand.new.is_stale ≡ false) }
    ensures seed { hand.new.draws ≡ hand.old.draws }
    ensures edit { hand.new.edit ≡ hand.old.edit }
{
    if hand.is_stale {
        hand.pool = Pool::of(hand.alloc, plan)?;
        hand.is_stale = false;
    }
    Ok(())
}

/// Fills the hand's edit with a step's candidate under a number, and answers true; or answers false where none is made.
pub fn draw<B>(
    hand: &mut Hand,
    kit: &Kit<'_, B>,
    plan: &Plan,
    step: u32,
    number: u32,
) -> Result<bool, Memory>
    requires step { 1 ≤ step }
    requires pool { hand.old.is_stale ≡ false → IsPoolOf plan.now hand.old.pool }
    ensures pool { hand.new.is_stale ≡ false → IsPoolOf plan.now hand.new.pool }
    ensures seed { hand.new.draws ≡ hand.old.draws }
    ensures edit { let makes = map (λ maker. made maker) kit.now.makers.now in
        let due = candidate_of plan.now kit.now.selectors.now makes (words hand.old.draws step number) in
        Fills result due hand.new.edit }
{
    hand.edit.clear();
    refresh(hand, plan)?;
    let words = hand.draws.words(step, number);
    candidate(
        kit.schema,
        plan,
        &mut hand.pool,
        kit.selectors,
        kit.makers,
        &words,
        &mut hand.edit,
    )
}
