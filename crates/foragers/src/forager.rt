ghost use Rattle.std.specs.Prelude.{◌≡◌, ◌≤◌, ◌++◌, ◌∷◌, [], ◌+◌, ◌<◌, ◌^◌, ◌&&◌, List, count_by, nat_le, option_map};
ghost use Rattle.foragers.specs.declared.Seen.{Seen};
ghost use Rattle.foragers.specs.Forage.{Limits, is_accepted, is_ended, limits_of, winning_number};
ghost use Rattle.foragers.specs.Forages.{Forages};

use crate::{Seen, better, is_picked_early};
use plan_scores::PlanScore;
use plan_settings::Early;

/// Looks at the judged candidates of a step one by one, in the order of their numbers, as far as the step sees them. What
/// ends the step is given at each look, and stays the same for all of them.
#[derive(Clone, Copy, Debug)]
pub struct Forager {
    accepted: u32,
    done: bool,
    winner: Option<Seen>,
}

/// How many candidates are accepted with this one.
fn counted(accepted: u32, entry: &Seen) -> u32
    ensures { accepted + 1 < 2 ^ 32 → result ≡ accepted + count_by is_accepted (entry.now ∷ []) }
{
    if entry.accepted {
        accepted.saturating_add(1)
    } else {
        accepted
    }
}

/// Whether the candidate is the last that the limit of accepted ones lets in.
fn is_full(entry: &Seen, accepted: u32, limit: u32) -> bool
    ensures { result ≡ (entry.now.accepted && nat_le limit accepted) }
{
    entry.accepted && limit <= accepted
}

impl Forager {
    /// A forager that has looked at nothing.
    pub fn new() -> Forager
        ensures { (limits : Limits) → 1 ≤ limits.accepted → Forages limits [] result }
    {
        Forager {
            accepted: 0,
            done: false,
            winner: None,
        }
    }

    /// Looks at the next candidate, where the step isn't ended.
    pub fn see(&mut self, entry: Seen, limit: u32, early: Early, best: &PlanScore, last: &PlanScore)
        ensures { let limits = limits_of limit early best.now last.now in
            (entries : List Seen) → Forages limits entries self.old
            → Forages limits (entries ++ entry ∷ []) self.new }
    {
        if self.done {
            return;
        }
        let accepted = counted(self.accepted, &entry);
        let is_full = is_full(&entry, accepted, limit);
        *self = Forager {
            accepted,
            done: is_full | is_picked_early(early, best, last, &entry),
            winner: better(self.winner, entry),
        };
    }

    /// Whether a limit or an early pick ended the step, so that further candidates change nothing.
    pub fn is_done(&self) -> bool
        ensures { (limits : Limits) (entries : List Seen) → Forages limits entries self.now
            → result ≡ is_ended limits entries }
    {
        self.done
    }

    /// The number of the winner so far; none where no candidate that was looked at is accepted.
    pub fn winner(&self) -> Option<u32>
        ensures { (limits : Limits) (entries : List Seen) → Forages limits entries self.now
            → result ≡ winning_number limits entries }
    {
        self.winner.map(|entry| entry.number)
    }
}
