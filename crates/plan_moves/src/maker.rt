ghost use Rattle.std.specs.Prelude.{◌≡◌, ℕ, List, [], Option};
ghost use Rattle.plan_facts.specs.Plan.{PlanView};
ghost use Rattle.plan_moves.specs.declared.edit.Set.{Set};
ghost use Rattle.plan_moves.specs.Made.{Fills};

use crate::edit::Edit;
use plan_facts::{Memory, Plan};

/// Makes moves of its own. It is lent to all workers, so what it makes depends on nothing but the plan and the words.
pub trait MoveMaker: Drop + Send + Sync {
    /// The edit that the maker makes of a plan and eight words, or none.
    ghost made: { Self → PlanView → List ℕ → Option (List Set) };

    /// Fills the edit, which is empty, and answers true; or leaves it empty and answers false.
    fn make(&self, plan: &Plan, words: &[u32; 8], into: &mut Edit) -> Result<bool, Memory>
        requires { into.old ≡ [] }
        ensures { Fills result (made self.now plan.now words.now) into.new };
}

/// Fills an empty edit with what a maker makes of a plan and eight words, and answers true; or leaves it empty and
/// answers false.
pub fn make_by(
    maker: &Box<dyn MoveMaker>,
    plan: &Plan,
    words: &[u32; 8],
    into: &mut Edit,
) -> Result<bool, Memory>
    requires { into.old ≡ [] }
    ensures { Fills result (made maker.now plan.now words.now) into.new }
{
    maker.make(plan, words, into)
}
