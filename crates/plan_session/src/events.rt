ghost use Rattle.std.specs.Prelude.{◌≡◌, ◌≤◌, ◌+◌, ◌<◌, ◌^◌, [], IfOk, OnOk, suc, true};
ghost use Rattle.plan_scores.specs.declared.plan_score.PlanScore.{PlanScore};
ghost use Rattle.plan_search.specs.Posed.{Posed, state_score};
ghost use Rattle.plan_settings.specs.Settings.{IsInRange};
ghost use Rattle.search_core.specs.declared.event.Event.TheVariants.{Cut, Start};
ghost use Rattle.search_core.specs.Desk.{begins_leg};
ghost use Rattle.search_core.specs.Keeps.{HasNoFault, terms_of};
ghost use Rattle.plan_session.specs.Begun.{BeginsLeg};
ghost use Rattle.plan_session.specs.Course.{BareLeg, IsDecider, IsEnded, IsEndedAfter, IsQuiet, TakesEvent};

use plan_facts::Memory;
use plan_scores::PlanScore;
use plan_settings::Settings;
use search_core::{Core, Event, take};
use std::alloc::Global;

/// Cuts a boundary that is due.
pub fn cut(core: &mut Core, boundary: u32) -> Result<(), Memory>
    requires { HasNoFault core.old (Cut boundary) }
    ensures { OnOk result (TakesEvent core.old (Cut boundary) core.new) }
{
    take(core, Event::Cut { boundary })?;
    Ok(())
}

/// A core that asks up to so many candidates at once, and whose first leg starts with this score.
pub fn start_core(
    alloc: Global,
    settings: &Settings,
    asked: u32,
    score: PlanScore,
) -> Result<Core, Memory>
    requires in_range { IsInRange settings.now }
    requires asked { (1 ≤ asked) × (asked ≤ 1024) }
    ensures { IfOk result (BeginsLeg settings.now asked score) }
{
    let mut core = Core::new(alloc, settings, asked)?;
    cut(&mut core, 0)?;
    take(&mut core, Event::Start { score })?;
    Ok(core)
}

/// A core that asks up to so many candidates at once, on which boundary 0 is to be cut.
pub fn new_core(alloc: Global, settings: &Settings, asked: u32) -> Result<Core, Memory>
    requires in_range { IsInRange settings.now }
    requires asked { (1 ≤ asked) × (asked ≤ 1024) }
    ensures ended { IfOk result (λ core. IsEnded core 0) }
    ensures terms { IfOk result (λ core. terms_of core ≡ record { settings = settings.now; buffer = asked }) }
{
    Core::new(alloc, settings, asked)
}

/// Tells the core that a line was posted, where so many were since the last cut.
fn post_one(core: &mut Core, boundary: u32, number: u32) -> Result<(), Memory>
    requires ended { IsEndedAfter core.old boundary number }
    requires few { number + 1 < 2 ^ 32 }
    ensures ended { OnOk result (IsEndedAfter core.new boundary (number + 1)) }
    ensures terms { OnOk result (terms_of core.new ≡ terms_of core.old) }
{
    take(core, Event::Post { seat: 0, number })?;
    Ok(())
}

/// Tells the core that so many lines were posted since the last cut.
fn post_all(core: &mut Core, boundary: u32, count: u32) -> Result<(), Memory>
    requires ended { IsEnded core.old boundary }
    ensures ended { OnOk result (IsEndedAfter core.new boundary count) }
    ensures terms { OnOk result (terms_of core.new ≡ terms_of core.old) }
{
    'posts: for number in 0..count {
        post_one(core, boundary, number)?;
    }
    Ok(())
}

/// Begins a leg at a boundary: so many lines were posted, the boundary is cut, and the leg starts with this score.
pub fn begin_leg(core: &mut Core, boundary: u32, posts: u32, score: PlanScore) -> Result<(), Memory>
    requires ended { IsEnded core.old boundary }
    requires within { boundary ≤ (terms_of core.old).settings.steps }
    requires begins { begins_leg boundary posts ≡ true }
    ensures terms { OnOk result (terms_of core.new ≡ terms_of core.old) }
    ensures quiet { OnOk result (IsQuiet core.new) }
    ensures decides { OnOk result ((posed : Posed) (leg : BareLeg) → (terms_of core.old).settings ≡ posed.settings
        → leg.steps ≡ [] → score ≡ state_score posed leg.start → IsDecider posed (suc boundary) leg core.new) }
{
    post_all(core, boundary, posts)?;
    cut(core, boundary)?;
    take(core, Event::Start { score })?;
    Ok(())
}
