use plan_facts::Memory;
use plan_scores::PlanScore;
use plan_search::Found;

/// What happens in a search. Boundary k is the place between step k and step k + 1.
#[derive(Drop)]
pub enum Event {
    /// A seat wrote a line under a number of its own.
    Post {
        seat: u32,
        number: u32,
    },
    /// A boundary was cut: what was posted since the last Cut belongs to it.
    Cut {
        boundary: u32,
    },
    /// The leg that waits is placed, and starts with this score.
    Start {
        score: PlanScore,
    },
    /// A worker drew a candidate's number in a step.
    Claim {
        worker: u32,
        step: u32,
        number: u32,
    },
    /// A worker judged a candidate that it drew: what it found; none where the candidate can't be made.
    Judge {
        worker: u32,
        step: u32,
        number: u32,
        found: Option<Found>,
    },
    /// A step is to be decided.
    Choose {
        step: u32,
    },
}

/// What an event is answered by.
#[derive(Clone, Copy, Debug, PartialEq, Eq)]
pub enum Reply {
    /// It was taken, and nothing is to be said.
    Noted,
    /// The Cut begins a leg, and so many lines were posted since the Cut before it.
    Leg(u32),
    /// The numbers judged so far don't decide the step: so many more are asked, from the first one on.
    More { first: u32, count: u32 },
    /// The step is decided: the number of the candidate that wins it, if any.
    Chosen(Option<u32>),
}

/// Why an event isn't taken. It then changes nothing.
#[derive(Clone, Copy, Debug, PartialEq, Eq)]
pub enum CoreFault {
    /// Want of memory.
    Memory,
    /// A Cut at another boundary than this one, which comes next, or past the last boundary of the run.
    BadBoundary(u32),
    /// No leg was begun yet, one waits to start, or none waits.
    NoLeg,
    /// A step that isn't in course: this one is or comes next.
    BadStep(u32),
    /// This number was claimed before in the step.
    Taken(u32),
    /// The worker didn't claim this number in the step, or it was judged before.
    NotClaimed(u32),
    /// This is the lowest asked number that isn't judged.
    Unjudged(u32),
}

impl From<Memory> for CoreFault {
    ghost use Rattle.std.specs.Prelude.{◌≡◌};
    ghost use Rattle.search_core.specs.declared.event.CoreFault.TheVariants.{Memory};

    ghost from_gives = { λ _ fault. fault ≡ Memory };

    fn from(_: Memory) -> Self {
        CoreFault::Memory
    }
}
