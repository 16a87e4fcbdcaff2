//! A change that may be made, and what it makes of a plan, its names and the weights of its rules.

ghost use Rattle.std.specs.Prelude.{◌≡◌, ◌≤◌, List, false, Some, None, length, OnOk, OnErr, take, if◌then◌else◌};
ghost use Rattle.plan_facts.specs.Limits.{field_limit};
ghost use Rattle.plan_facts.specs.declared.record.ClassDef.{ClassDef};
ghost use Rattle.plan_changes.specs.Deeds.{is_weight};
ghost use Rattle.plan_changes.specs.Fits.{IsOfSchema};
ghost use Rattle.plan_changes.specs.Performed.{names_after, plan_after, weights_after, HasRoom, MayPerform};

use crate::change::{Deed, Item};
use crate::perform::number_names;
use crate::refused::is_weight;
use plan_facts::{List, Memory, Names, Plan};
use std::alloc::Global;
use std::marker::Model;

/// A change that may be made: its deed, the class and the id of its fact, what each field and each variable of the class
/// gets, if anything; or its rule and its weight.
#[derive(Drop)]
pub struct Ready {
    pub(crate) alloc: Global,
    pub(crate) deed: Deed,
    pub(crate) class: u8,
    pub(crate) id: u32,
    pub(crate) fields: List<Option<Item>>,
    pub(crate) values: List<Option<Option<u32>>>,
    pub(crate) rule: u8,
    pub(crate) weight: u32,
}

impl Model for Ready {
    ghost use Rattle.plan_changes.specs.Ready.{ReadyView, ready_view};

    ghost Value = { ReadyView };

    ghost view = { λ r. ready_view r.deed r.class r.id r.fields r.values r.rule r.weight };
}

impl Ready {
    /// The class of the fact that the change is about, which is no weight change.
    pub fn class(&self) -> u8
        requires { is_weight self.now.deed ≡ false }
        ensures { result ≡ self.now.class }
    {
        self.class
    }

    /// The id of the fact that the change is about, which is no weight change; for a new fact the id that it will have.
    pub fn id(&self) -> u32
        requires { is_weight self.now.deed ≡ false }
        ensures { result ≡ self.now.id }
    {
        self.id
    }

    /// The rule of a weight change; none exactly for the others.
    pub fn rule(&self) -> Option<u8>
        ensures { result ≡ (if is_weight self.now.deed then Some self.now.rule else None) }
    {
        if is_weight(self.deed) {
            Some(self.rule)
        } else {
            None
        }
    }

    /// Makes the change, which may be made; there are at most a thousand million names less 16, or none is new. New names are numbered here and nowhere else, in the order of the fields that
    /// hold them. At want of memory all is as before.
    pub fn perform(
        &self,
        plan: &mut Plan,
        names: &mut Names,
        weights: &mut [u32],
    ) -> Result<(), Memory>
        requires may { MayPerform self.now plan.old (length weights.old) }
        requires room { HasRoom self.now names.old }
        ensures plan { OnOk result (plan.new ≡ plan_after self.now names.old plan.old) }
        ensures names { OnOk result (names.new ≡ names_after self.now names.old) }
        ensures weights { OnOk result (weights.new ≡ weights_after self.now weights.old) }
        ensures schema { (classes : List ClassDef) → IsOfSchema classes plan.old → IsOfSchema classes plan.new }
        ensures plan_stays { OnErr result (plan.new ≡ plan.old) }
        ensures names_stay { OnErr result (names.new ≡ names.old) }
        ensures weights_stay { OnErr result (weights.new ≡ weights.old) }
    {
        let count = names.count();
        match self.perform_numbering(plan, names, weights) {
            Ok(()) => Ok(()),
            Err(Memory) => {
                names.cut(count);
                Err(Memory)
            }
        }
    }

    /// Makes the change. At want of memory plan and weights are as before, and new names may stand behind the old ones.
    #[tactic(auto, unfolding(crate::specs::Performed::plan_after))]
    fn perform_numbering(
        &self,
        plan: &mut Plan,
        names: &mut Names,
        weights: &mut [u32],
    ) -> Result<(), Memory>
        requires may { MayPerform self.now plan.old (length weights.old) }
        requires room { length (names_after self.now names.old) ≤ field_limit }
        ensures plan { OnOk result (plan.new ≡ plan_after self.now names.old plan.old) }
        ensures names { OnOk result (names.new ≡ names_after self.now names.old) }
        ensures weights { OnOk result (weights.new ≡ weights_after self.now weights.old) }
        ensures plan_stays { OnErr result (plan.new ≡ plan.old) }
        ensures weights_stay { OnErr result (weights.new ≡ weights.old) }
        ensures behind { take (length names.old) names.new ≡ names.old }
    {
        match self.deed {
            Deed::Add => {
                number_names(names, self.fields.as_slice())?;
                self.add(plan, names)
            }
            Deed::Remove => {
                let _ = plan.remove(self.class, self.id);
                Ok(())
            }
            Deed::Alter => {
                number_names(names, self.fields.as_slice())?;
                self.alter(plan, names);
                Ok(())
            }
            Deed::Assign => {
                self.assign(plan);
                Ok(())
            }
            Deed::Weight => {
                weights[self.rule as usize] = self.weight;
                Ok(())
            }
        }
    }
}
