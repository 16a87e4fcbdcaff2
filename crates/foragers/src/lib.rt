//! Foraging: how many of a step's judged candidates are looked at, and which of them wins.
#![tactic(auto)]

ghost use Rattle.std.specs.Prelude.{◌≡◌, ◌≤◌, Some, length, option_map, if◌then◌else◌};
ghost use Rattle.plan_scores.specs.Best.{or_better};
ghost use Rattle.foragers.specs.Forage.{limits_of, seen_of, is_ended, winning_number, number_of, score_of, is_picked_early};

mod forager;

pub use forager::Forager;
use plan_scores::PlanScore;
use plan_settings::Early;

/// A judged candidate: its number, the score after it, and whether it is accepted.
#[derive(Clone, Copy, Debug, PartialEq, Eq)]
pub struct Seen {
    pub number: u32,
    pub score: PlanScore,
    pub accepted: bool,
}

/// What a step makes of its judged candidates.
#[derive(Clone, Copy, Debug, PartialEq, Eq)]
pub struct Pick {
    /// How many candidates were looked at.
    pub seen: u32,
    /// Whether a limit or an early pick ended the step, so that further candidates would change nothing.
    pub done: bool,
    /// The number of the winner; none where no candidate that was looked at is accepted.
    pub winner: Option<u32>,
}

/// Whether an accepted candidate ends the step at once.
fn is_picked_early(early: Early, best: &PlanScore, last: &PlanScore, entry: &Seen) -> bool
    ensures { result ≡ is_picked_early (limits_of 0 early best.now last.now) entry.now }
{
    match early {
        Early::Never => false,
        Early::Best => entry.accepted && entry.score > *best,
        Early::Last => entry.accepted && entry.score > *last,
    }
}

/// The winner so far, or the next candidate where that is accepted and better.
fn better(best: Option<Seen>, next: Seen) -> Option<Seen>
    ensures { result ≡ (if next.accepted then Some (or_better score_of best next) else best) }
{
    match best {
        None => if next.accepted { Some(next) } else { None },
        Some(winner) => {
            if next.accepted && next.score > winner.score {
                Some(next)
            } else {
                Some(winner)
            }
        }
    }
}

/// Looks at the judged candidates in order until the limit of accepted ones is reached or an early pick is met, and
/// picks the accepted one with the greatest score, the first of equals. There are at most 10,000 candidates.
pub fn forage(judged: &[Seen], limit: u32, early: Early, best: &PlanScore, last: &PlanScore) -> Pick
    requires { length judged.now ≤ 10000 }
    ensures seen { result.seen ≡ length (seen_of (limits_of limit early best.now last.now) judged.now) }
    ensures done { result.done ≡ is_ended (limits_of limit early best.now last.now) judged.now }
    ensures winner { result.winner ≡ winning_number (limits_of limit early best.now last.now) judged.now }
{
    let mut accepted = 0;
    let mut winner: Option<Seen> = None;
    let mut seen = 0;
    'entries: while seen < judged.len() {
        let entry = judged[seen];
        seen += 1;
        winner = better(winner, entry);
        if entry.accepted {
            accepted += 1;
            if limit <= accepted {
                return picked(seen, true, winner);
            }
        }
        if is_picked_early(early, best, last, &entry) {
            return picked(seen, true, winner);
        }
    }
    picked(seen, false, winner)
}

fn picked(seen: usize, done: bool, winner: Option<Seen>) -> Pick
    requires { seen ≤ 10000 }
    ensures { result ≡ record { seen = seen; done = done; winner = option_map number_of winner } }
{
    Pick {
        seen: seen as u32,
        done,
        winner: winner.map(|entry| entry.number),
    }
}
