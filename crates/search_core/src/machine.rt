ghost use Rattle.std.specs.Prelude.{◌≡◌, ◌≢◌, ◌<◌, ◌≤◌, ◌+◌, ◌^◌, vec_len};
ghost use Rattle.plan_settings.specs.Settings.{IsInRange};
ghost use Rattle.search_core.specs.declared.machine.Phase.TheVariants.{Idle, Open};
ghost use Rattle.plan_search.specs.Judging.{acceptor_size};

use crate::by_number::ByNumber;
use crate::event::{CoreFault, Event, Reply};
use crate::judging::{acceptor_size, advance, found_of_winner, show_entry};
use acceptors::Acceptor;
use foragers::Forager;
use plan_facts::Memory;
use plan_scores::{PlanScore, Score};
use plan_search::Found;
use plan_settings::Settings;
use std::alloc::Global;

/// How the search stands.
#[derive(Clone, Copy, Debug, PartialEq, Eq)]
enum Phase {
    /// The next boundary is to be cut, or the run is over.
    Idle,
    /// A leg waits to start.
    Waits,
    /// A step is in course.
    Open,
}

/// The search as far as its events tell: which step is in course, what was judged in it, and what the leg's acceptor needs.
pub struct Core {
    settings: Settings,
    buffer: u32,
    acceptor: Acceptor,
    cuts: u32,
    posts: u32,
    chosen: u32,
    phase: Phase,
    asked: u32,
    claims: ByNumber<u32>,
    verdicts: ByNumber<Option<Found>>,
    looked: u32,
    forager: Forager,
    ghost settings_in_range: { IsInRange settings },
    ghost buffer_in_range: { (1 ≤ buffer) × (buffer ≤ 1024) },
    ghost cuts_within: { cuts ≤ settings.steps + 1 },
    ghost chosen_within: { chosen ≤ cuts },
    ghost chosen_behind: { phase ≢ Idle → chosen < cuts },
    ghost asked_within: { asked ≤ settings.select_limit },
    ghost looked_within: { looked ≤ asked },
    ghost looked_open: { phase ≢ Open → looked ≡ 0 },
    ghost acceptor_kind: { acceptor.kind ≡ settings.acceptor },
    ghost acceptor_size: { acceptor.size ≡ acceptor_size settings },
    ghost acceptor_steps: { acceptor.steps ≤ chosen },
}

// Written out, so that its owners let go of it by one call.
impl Drop for Core {
    fn drop(self) {
        let Core {
            settings,
            buffer: _,
            acceptor,
            cuts: _,
            posts: _,
            chosen: _,
            phase: _,
            asked: _,
            claims,
            verdicts,
            looked: _,
            forager,
        } = self;
        drop(settings);
        drop(acceptor);
        drop(claims);
        drop(verdicts);
        drop(forager);
    }
}

impl Core {
    ghost use Rattle.std.specs.Prelude.{IfOk, IfErr, IfNone, OnOk, OnErr, [], None};
    ghost use Rattle.std.specs.Bool.{OnTrue, OnFalse};
    ghost use Rattle.search_core.specs.ByNumber.{value_at};
    ghost use Rattle.search_core.specs.declared.event.Event.TheVariants as event;
    ghost use Rattle.search_core.specs.Desk.{Desk, Terms, after_step, choice_on, claim_fault, cut_fault, first_asked, is_decided, judge_fault, judged_by_one, may_judge, more_count, phase_after, start_fault, step_fault, unjudged, with_more};
    ghost use Rattle.search_core.specs.Keeps.{Answers, GoesOn, HasRoomFor, Keeps, KeepsAfter, KeepsOn, StandsFor, Stays, TakesAny, terms_of};

    /// A core that stands for no events. The buffer says how many candidates a step asks at once: 1 to 1,024.
    pub fn new(alloc: Global, settings: &Settings, buffer: u32) -> Result<Core, Memory>
        requires settings { IsInRange settings.now }
        requires buffer { (1 ≤ buffer) × (buffer ≤ 1024) }
        ensures { IfOk result (λ core. StandsFor (record { settings = settings.now; buffer = buffer }) core []) }
    {
        let mut acceptor = Acceptor::new(alloc, settings.acceptor, acceptor_size(settings))?;
        acceptor.begin(PlanScore {
            unplaced: 0,
            score: Score::zero(),
        });
        Ok(Core {
            settings: settings.copy(alloc)?,
            buffer,
            acceptor,
            cuts: 0,
            posts: 0,
            chosen: 0,
            phase: Phase::Idle,
            asked: buffer.min(settings.select_limit),
            claims: ByNumber::new(alloc),
            verdicts: ByNumber::new(alloc),
            looked: 0,
            forager: Forager::new(),
        })
    }

    /// How many numbers a step asks at first: from 1 to the select limit.
    pub fn first_asked(&self) -> u32
        ensures { result ≡ first_asked (terms_of self.now) }
    {
        self.buffer.min(self.settings.select_limit)
    }

    /// Takes the next event and answers it. Where it is refused, the core stands for what it stood for.
    pub fn on(&mut self, event: Event) -> Result<Reply, CoreFault>
        requires { HasRoomFor self.old event }
        ensures ok { IfOk result (λ reply. GoesOn self.old event reply self.new) }
        ensures err { IfErr result (λ fault. Stays self.old event fault self.new) }
    {
        self.answer(event)
    }

    /// The same at whatever desk is kept.
    fn answer(&mut self, event: Event) -> Result<Reply, CoreFault>
        requires { HasRoomFor self.old event }
        ensures answers { Answers self.old event result self.new }
        ensures terms { terms_of self.new ≡ terms_of self.old }
    {
        match event {
            Event::Post { seat, number } => Ok(self.post(seat, number)),
            Event::Cut { boundary } => self.cut(boundary),
            Event::Start { score } => self.start(score),
            Event::Claim {
                worker,
                step,
                number,
            } => self.claim(worker, step, number),
            Event::Judge {
                worker,
                step,
                number,
                found,
            } => self.judge(worker, step, number, found),
            Event::Choose { step } => self.choose(step),
        }
    }

    fn post(&mut self, seat: u32, number: u32) -> Reply
        requires { self.old.posts + 1 < 2 ^ 32 }
        ensures ok { TakesAny self.old (event.Post seat number) result self.new }
        ensures terms { terms_of self.new ≡ terms_of self.old }
    {
        self.posts += 1;
        Reply::Noted
    }

    /// Why a Cut isn't taken.
    fn cut_fault(&self, boundary: u32) -> Option<CoreFault>
        ensures fault { (d : Desk) → Keeps self.now d → result ≡ cut_fault (terms_of self.now) d boundary }
        ensures none { IfNone result (boundary ≡ self.now.cuts) }
        ensures within { IfNone result (self.now.cuts ≤ self.now.settings.steps) }
        ensures idle { IfNone result (self.now.phase ≡ Phase.Idle) }
    {
        if boundary != self.cuts || self.settings.steps < self.cuts {
            return Some(CoreFault::BadBoundary(self.cuts));
        }
        match self.phase {
            Phase::Waits => Some(CoreFault::NoLeg),
            Phase::Open => Some(CoreFault::BadStep(self.cuts)),
            Phase::Idle => None,
        }
    }

    /// How the search stands after so many Cuts: the next step is in course, up to the step limit.
    fn phase_after(&self, cuts: u32) -> Phase
        ensures { result ≡ phase_after (terms_of self.now) cuts }
    {
        if cuts <= self.settings.steps {
            Phase::Open
        } else {
            Phase::Idle
        }
    }

    fn cut(&mut self, boundary: u32) -> Result<Reply, CoreFault>
        ensures answers { Answers self.old (event.Cut boundary) result self.new }
        ensures terms { terms_of self.new ≡ terms_of self.old }
    {
        if let Some(fault) = self.cut_fault(boundary) {
            return Err(fault);
        }
        let posts = self.posts;
        self.cuts += 1;
        self.posts = 0;
        if boundary == 0 || 0 < posts {
            self.phase = Phase::Waits;
            return Ok(Reply::Leg(posts));
        }
        self.phase = self.phase_after(self.cuts);
        Ok(Reply::Noted)
    }

    fn start(&mut self, score: PlanScore) -> Result<Reply, CoreFault>
        ensures answers { Answers self.old (event.Start score) result self.new }
        ensures terms { terms_of self.new ≡ terms_of self.old }
    {
        match self.phase {
            Phase::Waits => {}
            Phase::Idle | Phase::Open => return Err(CoreFault::NoLeg),
        }
        self.acceptor.begin(score);
        self.phase = self.phase_after(self.cuts);
        Ok(Reply::Noted)
    }

    /// Why an event of a step isn't taken, whatever it says of the step.
    fn step_fault(&self, step: u32) -> Option<CoreFault>
        ensures fault { (d : Desk) → Keeps self.now d → result ≡ step_fault d step }
        ensures open { IfNone result (self.now.phase ≡ Phase.Open) }
    {
        if self.cuts == 0 {
            return Some(CoreFault::NoLeg);
        }
        match self.phase {
            Phase::Waits => Some(CoreFault::NoLeg),
            Phase::Idle => Some(CoreFault::BadStep(self.chosen + 1)),
            Phase::Open => {
                if step == self.chosen + 1 {
                    None
                } else {
                    Some(CoreFault::BadStep(self.chosen + 1))
                }
            }
        }
    }

    /// Why a Claim isn't taken.
    fn claim_fault(&self, step: u32, number: u32) -> Option<CoreFault>
        ensures { (d : Desk) → Keeps self.now d → result ≡ claim_fault d step number }
    {
        if let Some(fault) = self.step_fault(step) {
            return Some(fault);
        }
        match self.claims.get(number) {
            Some(_) => Some(CoreFault::Taken(number)),
            None => None,
        }
    }

    fn claim(&mut self, worker: u32, step: u32, number: u32) -> Result<Reply, CoreFault>
        ensures answers { Answers self.old (event.Claim worker step number) result self.new }
        ensures terms { terms_of self.new ≡ terms_of self.old }
    {
        if let Some(fault) = self.claim_fault(step, number) {
            return Err(fault);
        }
        self.claims.put(number, worker)?;
        Ok(Reply::Noted)
    }

    /// Whether the worker claimed a number that isn't judged.
    fn may_judge(&self, worker: u32, number: u32) -> bool
        ensures may { (d : Desk) → Keeps self.now d → result ≡ may_judge d worker number }
        ensures new { OnTrue result (value_at self.now.verdicts number ≡ None) }
    {
        match self.claims.get(number) {
            Some(claimer) => *claimer == worker && self.verdicts.get(number).is_none(),
            None => false,
        }
    }

    /// Why a Judge isn't taken.
    fn judge_fault(&self, worker: u32, step: u32, number: u32) -> Option<CoreFault>
        ensures fault { (d : Desk) → Keeps self.now d → result ≡ judge_fault d worker step number }
        ensures new { IfNone result (value_at self.now.verdicts number ≡ None) }
    {
        if let Some(fault) = self.step_fault(step) {
            return Some(fault);
        }
        if self.may_judge(worker, number) {
            None
        } else {
            Some(CoreFault::NotClaimed(number))
        }
    }

    fn judge(
        &mut self,
        worker: u32,
        step: u32,
        number: u32,
        found: Option<Found>,
    ) -> Result<Reply, CoreFault>
        ensures answers { Answers self.old (event.Judge worker step number found) result self.new }
        ensures terms { terms_of self.new ≡ terms_of self.old }
    {
        if let Some(fault) = self.judge_fault(worker, step, number) {
            return Err(fault);
        }
        self.verdicts.put(number, found)?;
        Ok(Reply::Noted)
    }

    /// Notes that worker 0 claimed a number that wasn't judged, and what it found of it: what a Claim and a Judge of it that have
    /// no fault leave.
    pub(crate) fn note_found(&mut self, number: u32, found: Option<Found>) -> Result<(), Memory>
        requires { value_at self.old.verdicts number ≡ None }
        ensures ok { OnOk result (KeepsAfter self.old (λ _ d. judged_by_one d number found) self.new) }
        ensures terms { terms_of self.new ≡ terms_of self.old }
    {
        self.claims.put(number, 0)?;
        self.verdicts.put(number, found)?;
        Ok(())
    }

    /// Looks at the next asked number, if it is judged: its entry, if it has one, joins the others.
    fn look_at_next(&mut self) -> bool
        requires open { self.old.phase ≡ Phase.Open }
        requires more { self.old.looked < self.old.asked }
        ensures keeps { KeepsOn self.old self.new }
        ensures judged { OnTrue result (self.new.looked ≡ self.old.looked + 1) }
        ensures unjudged { OnFalse result (value_at self.new.verdicts self.new.looked ≡ None) }
        ensures stays { OnFalse result (self.new.looked ≡ self.old.looked) }
        ensures asked { self.new.asked ≡ self.old.asked }
        ensures phase { self.new.phase ≡ self.old.phase }
        ensures terms { terms_of self.new ≡ terms_of self.old }
    {
        let Some(verdict) = self.verdicts.get(self.looked) else {
            return false;
        };
        show_entry(
            &mut self.forager,
            &self.settings,
            &self.acceptor,
            self.looked,
            verdict,
        );
        self.looked += 1;
        true
    }

    /// Looks at the asked numbers in order as far as they are judged: the first one that isn't, if any.
    fn look(&mut self) -> Option<u32>
        requires { self.old.phase ≡ Phase.Open }
        ensures keeps { KeepsOn self.old self.new }
        ensures unjudged { (d : Desk) → Keeps self.new d → result ≡ unjudged d }
        ensures all { IfNone result (self.new.looked ≡ self.new.asked) }
        ensures phase { self.new.phase ≡ self.old.phase }
        ensures terms { terms_of self.new ≡ terms_of self.old }
    {
        'numbers: while self.looked < self.asked {
            if !self.look_at_next() {
                return Some(self.looked);
            }
        }
        None
    }

    /// Whether the asked numbers, which are all looked at, decide the step.
    fn is_decided(&self) -> bool
        requires { self.now.looked ≡ self.now.asked }
        ensures { (d : Desk) → Keeps self.now d → result ≡ is_decided (terms_of self.now) d }
    {
        self.forager.is_done() || self.asked == self.settings.select_limit
    }

    /// The number of the winner among the asked numbers, which are all looked at.
    fn winner(&self) -> Option<u32>
        requires { self.now.looked ≡ self.now.asked }
        ensures { (d : Desk) → Keeps self.now d → result ≡ choice_on (terms_of self.now) d }
    {
        self.forager.winner()
    }

    /// The step ends with this winner, if any.
    fn end_step(&mut self, winner: Option<u32>) -> Result<(), Memory>
        requires { self.old.phase ≡ Phase.Open }
        ensures ok { OnOk result (KeepsAfter self.old (λ t d. after_step t d winner) self.new) }
        ensures err { OnErr result (KeepsOn self.old self.new) }
        ensures terms { terms_of self.new ≡ terms_of self.old }
    {
        let asked = self.first_asked();
        let found = found_of_winner(&self.verdicts, winner);
        advance(&mut self.acceptor, found)?;
        self.phase = Phase::Idle;
        self.chosen += 1;
        self.asked = asked;
        self.claims.clear();
        self.verdicts.clear();
        self.looked = 0;
        self.forager = Forager::new();
        Ok(())
    }

    /// Asks more numbers.
    fn ask_more(&mut self) -> Reply
        requires { self.old.phase ≡ Phase.Open }
        ensures more { (d : Desk) → Keeps self.old d → result ≡ Reply.More d.asked (more_count (terms_of self.old) d) }
        ensures keeps { KeepsAfter self.old with_more self.new }
        ensures terms { terms_of self.new ≡ terms_of self.old }
    {
        let first = self.asked;
        let count = self.buffer.min(self.settings.select_limit - first);
        self.asked += count;
        Reply::More { first, count }
    }

    fn choose(&mut self, step: u32) -> Result<Reply, CoreFault>
        ensures answers { Answers self.old (event.Choose step) result self.new }
        ensures terms { terms_of self.new ≡ terms_of self.old }
    {
        if let Some(fault) = self.step_fault(step) {
            return Err(fault);
        }
        if let Some(number) = self.look() {
            return Err(CoreFault::Unjudged(number));
        }
        if self.is_decided() {
            let winner = self.winner();
            self.end_step(winner)?;
            return Ok(Reply::Chosen(winner));
        }
        Ok(self.ask_more())
    }
}
