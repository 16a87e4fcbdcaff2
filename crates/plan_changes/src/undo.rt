//! What takes a change of a fact back.

ghost use Rattle.std.specs.Prelude.{◌≡◌, ◌⊎◌, List, IfOk, ℕ, false};
ghost use Rattle.plan_changes.specs.Deeds.{is_weight};
ghost use Rattle.plan_changes.specs.Performed.{FitsClass, IsThere, MayPerformFact, plan_after};
ghost use Rattle.plan_changes.specs.declared.change.Deed.TheVariants as deed;

use crate::change::Deed;
use crate::ready::Ready;
use plan_facts::{Memory, Plan, Raw, Removal};

/// What takes a change of a fact back once it was made: the newest fact of a class goes, as if it had never been made; a
/// record is put back as it was; or a fact that was removed is.
#[derive(Drop)]
pub enum Undo {
    Newest(u8),
    Record(u8, Raw),
    Removed(Removal),
}

impl Undo {
    ghost use Rattle.plan_facts.specs.Plan.{PlanView};
    ghost use Rattle.plan_changes.specs.Undo.{TakesBack};

    /// Takes the change back: the plan is as before it. That takes no memory.
    pub fn take_back(self, plan: &mut Plan)
        requires { (before : PlanView) × TakesBack self before plan.old }
        ensures { (before : PlanView) → TakesBack self before plan.old → plan.new ≡ before }
    {
        match self {
            Undo::Newest(class) => plan.take_back_newest(class),
            Undo::Record(class, raw) => plan.restore(class, raw),
            Undo::Removed(removal) => plan.put_back(removal),
        }
    }
}

impl Ready {
    ghost use Rattle.plan_changes.specs.Undo.{TakesBack};

    /// What takes a change of fields or of variables back once it was made of this plan: the record as it is now.
    fn record_back(&self, plan: &Plan) -> Result<Undo, Memory>
        requires deed { (self.now.deed ≡ deed.Alter) ⊎ (self.now.deed ≡ deed.Assign) }
        requires fits { FitsClass self.now plan.now }
        requires there { IsThere self.now plan.now }
        ensures { (names : List (List ℕ)) →
            IfOk result (λ undo. TakesBack undo plan.now (plan_after self.now names plan.now)) }
    {
        match plan.raw(self.class, self.id) {
            Some(raw) => {
                let record = raw.copy(self.alloc)?;
                Ok(Undo::Record(self.class, record))
            }
            None => unreachable!(),
        }
    }

    /// What takes a new fact back once it was made of this plan.
    fn newest_back(&self, plan: &Plan) -> Undo
        requires deed { self.now.deed ≡ deed.Add }
        requires fits { FitsClass self.now plan.now }
        ensures { (names : List (List ℕ)) → TakesBack result plan.now (plan_after self.now names plan.now) }
    {
        let _classes = plan.classes();
        Undo::Newest(self.class)
    }

    /// What puts the fact back once it was removed of this plan.
    fn removal_back(&self, plan: &Plan) -> Result<Undo, Memory>
        requires deed { self.now.deed ≡ deed.Remove }
        requires there { IsThere self.now plan.now }
        ensures { (names : List (List ℕ)) →
            IfOk result (λ undo. TakesBack undo plan.now (plan_after self.now names plan.now)) }
    {
        let removal = plan.removal(self.class, self.id)?;
        Ok(Undo::Removed(removal))
    }

    /// What takes the change back once it was made of this plan. It is a change of a fact, and may be made.
    pub fn undo(&self, plan: &Plan) -> Result<Undo, Memory>
        requires fact { is_weight self.now.deed ≡ false }
        requires may { MayPerformFact self.now plan.now }
        ensures { (names : List (List ℕ)) →
            IfOk result (λ undo. TakesBack undo plan.now (plan_after self.now names plan.now)) }
    {
        match self.deed {
            Deed::Add => Ok(self.newest_back(plan)),
            Deed::Alter => self.record_back(plan),
            Deed::Assign => self.record_back(plan),
            Deed::Remove => self.removal_back(plan),
            Deed::Weight => unreachable!(),
        }
    }
}
