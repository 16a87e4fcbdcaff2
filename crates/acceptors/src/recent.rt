ghost use Rattle.std.specs.Prelude.{◌≡◌, ◌≤◌, ◌+◌, ◌%◌, ◌==◌, [], ◌∷◌, if◌then◌else◌};
ghost use Rattle.std.specs.HashMap.{spare};
ghost use Rattle.plan_scores.specs.Best.{better_of};
ghost use Rattle.acceptors.specs.Recent.{AreNoted};

use plan_facts::Memory;
use plan_moves::Touch;
use plan_scores::PlanScore;
use std::alloc::Global;
use std::collections::HashMap;
use std::marker::Model;

/// For each entity that was touched, by class and id, the number of the last step that touched it.
#[derive(Drop)]
pub struct LastSteps {
    steps: HashMap<(u8, u32), u32>,
}

impl Model for LastSteps {
    ghost use Rattle.acceptors.specs.Recent.{Notes};

    ghost Value = { Notes };

    ghost view = { λ last. last.steps.entries };
}

impl LastSteps {
    ghost use Rattle.std.specs.Prelude.{◌≡◌, [], OnOk, OnErr};
    ghost use Rattle.acceptors.specs.Recent.{step_in, AreNoted, AreSame};

    /// Nothing is noted yet.
    pub fn new(alloc: Global) -> LastSteps
        ensures { result ≡ [] }
    {
        LastSteps {
            steps: HashMap::new(alloc),
        }
    }

    /// Forgets all that was noted.
    pub fn clear(&mut self)
        ensures { self.new ≡ [] }
    {
        self.steps.clear();
    }

    /// The last step that touched an entity.
    pub fn step_of(&self, touch: &Touch) -> Option<u32>
        ensures { result ≡ step_in self.now touch.now }
    {
        self.steps.get(&(touch.class, touch.id)).copied()
    }

    /// Notes that a step touched some entities. For want of memory nothing is noted.
    pub fn note(&mut self, touched: &[Touch], step: u32) -> Result<(), Memory>
        ensures ok { OnOk result (AreNoted self.old touched.now step self.new) }
        ensures err { OnErr result (AreSame self.old self.new) }
    {
        self.steps.reserve(touched.len())?;
        for touch in touched {
            note_one(&mut self.steps, touch, step);
        }
        Ok(())
    }
}

/// Notes that a step touched an entity, where there is room to note it.
fn note_one(steps: &mut HashMap<(u8, u32), u32>, touch: &Touch, step: u32)
    requires { 1 ≤ spare steps.old }
    ensures noted { AreNoted steps.old.entries (touch.now ∷ []) step steps.new.entries }
    ensures room { spare steps.old ≤ spare steps.new + 1 }
{
    match steps.insert((touch.class, touch.id), step) {
        Ok(_) => {}
        Err(_) => unreachable!(),
    }
}

/// The better of two scores.
pub fn better_score(best: PlanScore, score: PlanScore) -> PlanScore
    ensures { result ≡ better_of (λ s. s) best score }
{
    if score > best { score } else { best }
}

/// The threshold after a step with this number: every so many steps, as many as the size, it is the step's score.
pub fn next_threshold(step: u32, size: u32, threshold: PlanScore, score: PlanScore) -> PlanScore
    requires { 1 ≤ size }
    ensures { result ≡ (if step % size == 0 then score else threshold) }
{
    if step % size == 0 { score } else { threshold }
}
