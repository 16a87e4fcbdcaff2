ghost use Rattle.std.specs.Prelude.{◌≡◌, ◌+◌, OnOk, OnErr, option_copied};
ghost use Rattle.std.specs.Option.{option_and_then};
ghost use Rattle.acceptors.specs.Stands.{HasRoom, SameSettings, StandsStill};
ghost use Rattle.plan_search.specs.Judging.{acceptor_size};
ghost use Rattle.search_core.specs.ByNumber.{value_at};
ghost use Rattle.search_core.specs.Desk.{found_in};
ghost use Rattle.search_core.specs.Judged.{GoesOnBy, IsEntry, LooksOn};

use crate::by_number::ByNumber;
use acceptors::Acceptor;
use foragers::{Forager, Seen};
use plan_facts::Memory;
use plan_search::Found;
use plan_settings::{AcceptorKind, Settings};

/// How many steps back the acceptor looks; hill climbing doesn't look back.
pub fn acceptor_size(settings: &Settings) -> u32
    ensures { result ≡ acceptor_size settings.now }
{
    match settings.acceptor {
        AcceptorKind::Hill => 1,
        AcceptorKind::Late => settings.late_size,
        AcceptorKind::Tabu => settings.tabu_size,
        AcceptorKind::StepCount => settings.step_count_size,
    }
}

/// What was found of a winner, if there is one.
pub fn found_of_winner(verdicts: &ByNumber<Option<Found>>, winner: Option<u32>) -> Option<&Found>
    ensures { option_copied result ≡ option_and_then (found_in (value_at verdicts.now)) winner }
{
    match verdicts.get(winner?)? {
        Some(found) => Some(found),
        None => None,
    }
}

/// The acceptor after a step, by what was found of its winner, if it has one.
pub fn advance(acceptor: &mut Acceptor, found: Option<&Found>) -> Result<(), Memory>
    requires { HasRoom acceptor.old }
    ensures history { OnOk result (GoesOnBy acceptor.old (option_copied found.entry) acceptor.new) }
    ensures err { OnErr result (StandsStill acceptor.old acceptor.new) }
    ensures counts { OnOk result (acceptor.new.steps ≡ acceptor.old.steps + 1) }
    ensures still { OnErr result (acceptor.new.steps ≡ acceptor.old.steps) }
    ensures settings { SameSettings acceptor.old acceptor.new }
{
    match found {
        Some(found) => acceptor.after(found.score, found.touched.as_slice()),
        None => {
            let last = acceptor.last();
            acceptor.after(last, &[])
        }
    }
}

/// The entry of a candidate that can be made.
fn entry_of(acceptor: &Acceptor, number: u32, found: &Found) -> Seen
    ensures { IsEntry acceptor.now number found.now result }
{
    Seen {
        number,
        score: found.score,
        accepted: acceptor.accepted(&found.score, found.touched.as_slice()),
    }
}

/// Shows a forager the entry of a candidate that was judged, where the candidate can be made.
pub fn show_entry(
    forager: &mut Forager,
    settings: &Settings,
    acceptor: &Acceptor,
    number: u32,
    verdict: &Option<Found>,
)
    ensures { LooksOn acceptor.now settings.now number verdict.now forager.old forager.new }
{
    if let Some(found) = verdict {
        forager.see(
            entry_of(acceptor, number, found),
            settings.accepted_limit,
            settings.pick_early,
            &acceptor.best(),
            &acceptor.last(),
        );
    }
}
