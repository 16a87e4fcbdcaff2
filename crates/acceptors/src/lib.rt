//! Acceptors: whether a candidate is accepted, from what the leg has done so far.
#![tactic(auto)]

mod recent;

ghost use Rattle.std.specs.Prelude.{◌≡◌, ◌++◌, ◌∷◌, [], OnOk, OnErr};
ghost use Rattle.plan_settings.specs.declared.setting.AcceptorKind.TheVariants.{Late};
ghost use Rattle.circular_buffer.specs.Buffer.{keep_last};
ghost use Rattle.acceptors.specs.Recent.{AreNoted, AreSame};

use crate::recent::{LastSteps, better_score, next_threshold};
use circular_buffer::HeapCircularBuffer;
use plan_facts::Memory;
use plan_moves::Touch;
use plan_scores::PlanScore;
use plan_settings::AcceptorKind;
use std::alloc::Global;
use std::marker::Model;

/// What is kept of a leg: its last and best scores, and what its kind of acceptance looks back at.
///
/// It stands for a history of the leg: `begin` starts one, and `after` adds a step to it.
#[derive(Drop)]
pub struct Acceptor {
    kind: AcceptorKind,
    size: u32,
    steps: u32,
    start: PlanScore,
    last: PlanScore,
    best: PlanScore,
    threshold: PlanScore,
    late: HeapCircularBuffer<PlanScore>,
    touched: LastSteps,
}

impl Model for Acceptor {
    ghost use Rattle.std.specs.Prelude.{◌≡◌, ◌≤◌};
    ghost use Rattle.plan_settings.specs.declared.setting.AcceptorKind.TheVariants.{Late};
    ghost use Rattle.acceptors.specs.Stands.{Kept};

    ghost Value = { Kept };

    ghost view = { λ a. record {
      kind = a.kind;
      size = a.size;
      steps = a.steps;
      start = a.start;
      last = a.last;
      best = a.best;
      threshold = a.threshold;
      late = a.late.items;
      touched = a.touched;
    } };

    ghost invariant = { λ a. ((1 ≤ a.size) × (a.size ≤ 10000)) × (a.kind ≡ Late → a.late.capacity ≡ a.size) };
}

/// Keeps a step's score among the last ones, where the kind looks back at them.
fn keep_late(kind: AcceptorKind, late: &mut HeapCircularBuffer<PlanScore>, score: PlanScore)
    ensures late { kind ≡ Late → late.new.items ≡ keep_last late.old.capacity (late.old.items ++ score ∷ []) }
    ensures capacity { late.new.capacity ≡ late.old.capacity }
{
    if let AcceptorKind::Late = kind {
        late.push_back(score);
    }
}

/// Notes which entities a step touched, where the kind looks back at them. For want of memory nothing is noted.
fn note_touched(
    kind: AcceptorKind,
    last_steps: &mut LastSteps,
    touched: &[Touch],
    step: u32,
) -> Result<(), Memory>
    ensures ok { OnOk result (kind ≡ AcceptorKind.Tabu → AreNoted last_steps.old touched.now step last_steps.new) }
    ensures err { OnErr result (AreSame last_steps.old last_steps.new) }
{
    match kind {
        AcceptorKind::Tabu => last_steps.note(touched, step),
        AcceptorKind::Hill | AcceptorKind::Late | AcceptorKind::StepCount => Ok(()),
    }
}

impl Acceptor {
    ghost use Rattle.std.specs.Prelude.{◌≡◌, ◌≤◌, ◌+◌, IfOk, OnOk, OnErr};
    ghost use Rattle.std.specs.List.{list_any};
    ghost use Rattle.acceptors.specs.History.{History, begun, last_score, best_score};
    ghost use Rattle.acceptors.specs.Accept.{late_score, is_recent};
    ghost use Rattle.acceptors.specs.Stands.{StandsFor, HasRoom, SameSettings, GoesOn, StandsStill, accepts};

    /// An acceptor of this kind, which looks back as far as the size says, from 1 to 10,000.
    pub fn new(alloc: Global, kind: AcceptorKind, size: u32) -> Result<Acceptor, Memory>
        requires { (1 ≤ size) × (size ≤ 10000) }
        ensures { IfOk result (λ a. (a.kind ≡ kind) × (a.size ≡ size)) }
    {
        let zero = PlanScore {
            unplaced: 0,
            score: plan_scores::Score::zero(),
        };
        let late = match kind {
            AcceptorKind::Late => HeapCircularBuffer::with_capacity(alloc, size as usize)?,
            _ => HeapCircularBuffer::with_capacity(alloc, 0)?,
        };
        Ok(Acceptor {
            kind,
            size,
            steps: 0,
            start: zero,
            last: zero,
            best: zero,
            threshold: zero,
            late,
            touched: LastSteps::new(alloc),
        })
    }

    /// A leg begins with this score.
    pub fn begin(&mut self, start: PlanScore)
        ensures history { StandsFor self.new (begun start) }
        ensures settings { SameSettings self.old self.new }
    {
        self.steps = 0;
        self.start = start;
        self.last = start;
        self.best = start;
        self.threshold = start;
        self.late.clear();
        self.touched.clear();
    }

    /// The last score of the leg; its start score where it has no step yet.
    pub fn last(&self) -> PlanScore
        ensures { (h : History) → StandsFor self.now h → result ≡ last_score h }
    {
        self.last
    }

    /// The greatest of the leg's start score and its steps' scores.
    pub fn best(&self) -> PlanScore
        ensures { (h : History) → StandsFor self.now h → result ≡ best_score h }
    {
        self.best
    }

    /// The score so many steps back as the size says, or the start score.
    fn late_score(&self) -> PlanScore
        requires { self.now.kind ≡ AcceptorKind.Late }
        ensures { (h : History) → StandsFor self.now h → result ≡ late_score self.now.size h }
    {
        if !self.late.is_full() {
            return self.start;
        }
        match self.late.front() {
            Some(score) => *score,
            None => self.start,
        }
    }

    /// Whether one of these entities was touched by one of the last steps.
    fn is_tabu(&self, touched: &[Touch]) -> bool
        requires { self.now.kind ≡ AcceptorKind.Tabu }
        ensures { (h : History) → StandsFor self.now h → result ≡ list_any (is_recent self.now.size h) touched.now }
    {
        for touch in touched {
            if self.is_recent(touch) {
                return true;
            }
        }
        false
    }

    /// Whether the entity was touched by one of the last steps.
    fn is_recent(&self, touch: &Touch) -> bool
        requires { self.now.kind ≡ AcceptorKind.Tabu }
        ensures { (h : History) → StandsFor self.now h → result ≡ is_recent self.now.size h touch.now }
    {
        match self.touched.step_of(touch) {
            Some(step) => self.steps.saturating_sub(self.size) < step,
            None => false,
        }
    }

    /// Whether a candidate of the next step is accepted, which has this score and touches these entities. A leg must
    /// have begun: without a history nothing is said of the answer.
    pub fn accepted(&self, score: &PlanScore, touched: &[Touch]) -> bool
        ensures { (h : History) → StandsFor self.now h → result ≡ accepts self.now h score.now touched.now }
    {
        match self.kind {
            AcceptorKind::Hill => *score >= self.last,
            AcceptorKind::Late => *score >= self.last || *score >= self.late_score(),
            AcceptorKind::StepCount => *score >= self.last || *score >= self.threshold,
            AcceptorKind::Tabu => !self.is_tabu(touched) || *score > self.best,
        }
    }

    /// A step ended with this score; its winner touched these entities, none where it had no winner. For want of memory
    /// the acceptor stands for what it stood for.
    pub fn after(&mut self, score: PlanScore, touched: &[Touch]) -> Result<(), Memory>
        requires { HasRoom self.old }
        ensures history { OnOk result (GoesOn self.old score touched.now self.new) }
        ensures err { OnErr result (StandsStill self.old self.new) }
        ensures counts { OnOk result (self.new.steps ≡ self.old.steps + 1) }
        ensures still { OnErr result (self.new.steps ≡ self.old.steps) }
        ensures settings { SameSettings self.old self.new }
    {
        let step = self.steps + 1;
        note_touched(self.kind, &mut self.touched, touched, step)?;
        keep_late(self.kind, &mut self.late, score);
        self.steps = step;
        self.last = score;
        self.best = better_score(self.best, score);
        self.threshold = next_threshold(step, self.size, self.threshold, score);
        Ok(())
    }
}
