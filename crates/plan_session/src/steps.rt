ghost use Rattle.std.specs.Prelude.{◌≡◌, ◌≤◌, ◌<◌, ◌+◌, [], ℕ, suc, IfOk, OnOk, false, length, map};
ghost use Rattle.plan_ports.specs.Outside.{SinkState};
ghost use Rattle.plan_rules.specs.Range.{sizes_of};
ghost use Rattle.plan_search.specs.Posed.{Posed};
ghost use Rattle.plan_search.specs.Quiet.{lines_after};
ghost use Rattle.plan_search.specs.RunLines.{text_of};
ghost use Rattle.search_core.specs.Keeps.{terms_of};
ghost use Rattle.plan_session.specs.Course.{BareLeg, HasPrinted, IsAfter, IsAt, IsEnded, IsInCourse, IsMade, IsQuiet, IsReady, Plays, SameTerms, WentOn, gone_on, line_in, step_text, winner_in};
ghost use Rattle.plan_session.specs.declared.best.BestSoFar.{BestSoFar};
ghost use Rattle.move_workers.specs.Judging.{WorkerView};
ghost use Rattle.plan_session.specs.Printing.{Prints};
ghost use Rattle.plan_session.specs.Writes.{IsReportOf};

use crate::best::BestSoFar;
use crate::deciding::choose;
use crate::events::cut;
use crate::fault::PrintFault;
use crate::printing::print_line;
use crate::report::Report;
use move_workers::{Kit, Team};
use plan_facts::Memory;
use plan_moves::MoveMaker as Maker;
use plan_ports::{Gate, Sink};
use plan_reports::Line;
use plan_rules::{Book, Judges, Rules};
use search_core::Core;
use std::thread::Threads;

/// Plays the winner of a step, if there is one. Answers whether the plan is the best of the leg then.
fn play<B: Book>(
    kit: &Kit<'_, B>,
    team: &mut Team<B>,
    best: &mut BestSoFar,
    step: u32,
    winner: Option<u32>,
) -> Result<bool, Memory>
    requires whole { team.old.is_torn ≡ false }
    requires judges { let seen = team.old.worker.director in
        ⟦<Rules<B> as Judges>⟧.judges kit.now.rules.now seen.weights (sizes_of seen.plan) }
    requires own { kit.now.rules.now.defs ≡ team.old.worker.director.rules }
    requires seed { kit.now.seed ≡ team.old.worker.seed }
    requires step { 1 ≤ step }
    ensures same { OnOk result (SameTerms team.old.worker team.new.worker) }
    ensures whole { OnOk result (team.new.is_torn ≡ false) }
    ensures went_on { let makes = map (λ m. (⟦<dyn Maker as Maker>⟧ m.vtable).made m.value) kit.now.makers.now in
        IfOk result (λ is_best. (posed : Posed) (leg : BareLeg) → length leg.steps < step
        → Plays B.meaning kit.now.seed kit.now.selectors.now makes posed → IsAt posed leg team.old.worker best.old
        → winner ≡ winner_in posed step leg → WentOn posed step leg team.new.worker best.new is_best) }
{
    let Some(number) = winner else {
        return Ok(false);
    };
    let Some(back) = team.play(kit, step, number)? else {
        return Ok(false);
    };
    best.went(team.score(), back)
}

/// Makes a step: judges its candidates and plays the winner. Answers its line. The boundary behind it is to be cut then.
pub fn make_step<T: Threads + Sync, B: Book, G: Gate + Sync>(
    rt: &T,
    kit: &Kit<'_, B>,
    gate: &G,
    core: &mut Core,
    team: &mut Team<B>,
    best: &mut BestSoFar,
    step: u32,
) -> Result<Line, Memory>
    requires whole { team.old.is_torn ≡ false }
    requires judges { let seen = team.old.worker.director in
        ⟦<Rules<B> as Judges>⟧.judges kit.now.rules.now seen.weights (sizes_of seen.plan) }
    requires own { kit.now.rules.now.defs ≡ team.old.worker.director.rules }
    requires seed { kit.now.seed ≡ team.old.worker.seed }
    requires step { 1 ≤ step }
    requires ready { IsReady core.old step }
    requires quiet { IsQuiet core.old }
    ensures ended { OnOk result (IsEnded core.new step) }
    ensures terms { OnOk result (terms_of core.new ≡ terms_of core.old) }
    ensures same { OnOk result (SameTerms team.old.worker team.new.worker) }
    ensures whole { OnOk result (team.new.is_torn ≡ false) }
    ensures line { let makes = map (λ m. (⟦<dyn Maker as Maker>⟧ m.vtable).made m.value) kit.now.makers.now in
        IfOk result (λ line. (posed : Posed) (leg : BareLeg) → step ≤ posed.settings.steps
        → Plays B.meaning kit.now.seed kit.now.selectors.now makes posed
        → IsInCourse core.old team.old.worker best.old posed step leg → line ≡ line_in posed step leg) }
    ensures made { let makes = map (λ m. (⟦<dyn Maker as Maker>⟧ m.vtable).made m.value) kit.now.makers.now in
        OnOk result ((posed : Posed) (leg : BareLeg) → step ≤ posed.settings.steps
        → Plays B.meaning kit.now.seed kit.now.selectors.now makes posed
        → IsInCourse core.old team.old.worker best.old posed step leg
        → IsMade core.new team.new.worker best.new posed step (gone_on posed step leg)) }
{
    let winner = choose(rt, kit, gate, core, team, step)?;
    let is_best = play(kit, team, best, step, winner)?;
    Ok(Line::Step {
        step,
        winner,
        score: team.score(),
        is_best,
    })
}

/// Cuts the boundary behind a step, at which nothing was posted.
pub fn pass(core: &mut Core, step: u32) -> Result<(), Memory>
    requires step { 1 ≤ step }
    requires within { step ≤ (terms_of core.old).settings.steps }
    requires ended { IsEnded core.old step }
    ensures ready { OnOk result (step < (terms_of core.old).settings.steps → IsReady core.new (step + 1)) }
    ensures quiet { OnOk result (IsQuiet core.new) }
    ensures terms { OnOk result (terms_of core.new ≡ terms_of core.old) }
    ensures goes_on { OnOk result ((posed : Posed) (leg : BareLeg) (worker : WorkerView) (best : BestSoFar)
        → step ≤ posed.settings.steps → IsMade core.old worker best posed step leg
        → IsInCourse core.new worker best posed (suc step) leg) }
{
    cut(core, step)?;
    Ok(())
}

/// Does a step, at whose end nothing is posted, and prints its line.
fn do_step<T: Threads + Sync, B: Book, K: Sink, G: Gate + Sync>(
    rt: &T,
    report: &Report<'_>,
    kit: &Kit<'_, B>,
    gate: &G,
    core: &mut Core,
    team: &mut Team<B>,
    best: &mut BestSoFar,
    step: u32,
    buffer: &mut Vec<u8>,
    out: &mut K,
) -> Result<(), PrintFault>
    requires whole { team.old.is_torn ≡ false }
    requires judges { let seen = team.old.worker.director in
        ⟦<Rules<B> as Judges>⟧.judges kit.now.rules.now seen.weights (sizes_of seen.plan) }
    requires own { kit.now.rules.now.defs ≡ team.old.worker.director.rules }
    requires seed { kit.now.seed ≡ team.old.worker.seed }
    requires step { 1 ≤ step }
    requires within { step ≤ (terms_of core.old).settings.steps }
    requires ready { IsReady core.old step }
    requires quiet { IsQuiet core.old }
    requires empty { buffer.old.items ≡ [] }
    ensures emptied { OnOk result (buffer.new.items ≡ []) }
    ensures ready { OnOk result (step < (terms_of core.old).settings.steps → IsReady core.new (step + 1)) }
    ensures quiet { OnOk result (IsQuiet core.new) }
    ensures terms { OnOk result (terms_of core.new ≡ terms_of core.old) }
    ensures same { OnOk result (SameTerms team.old.worker team.new.worker) }
    ensures whole { OnOk result (team.new.is_torn ≡ false) }
    ensures prints { let makes = map (λ m. (⟦<dyn Maker as Maker>⟧ m.vtable).made m.value) kit.now.makers.now in
        (posed : Posed) (leg : BareLeg) → step ≤ posed.settings.steps → IsReportOf posed report.now
        → Plays B.meaning kit.now.seed kit.now.selectors.now makes posed
        → IsInCourse core.old team.old.worker best.old posed step leg
        → Prints result (step_text posed step leg) (K.state out.old) (K.state out.new) }
    ensures went_on { let makes = map (λ m. (⟦<dyn Maker as Maker>⟧ m.vtable).made m.value) kit.now.makers.now in
        OnOk result ((posed : Posed) (leg : BareLeg) → step ≤ posed.settings.steps
        → Plays B.meaning kit.now.seed kit.now.selectors.now makes posed
        → IsInCourse core.old team.old.worker best.old posed step leg
        → IsInCourse core.new team.new.worker best.new posed (suc step) (gone_on posed step leg)) }
{
    let line = make_step(rt, kit, gate, core, team, best, step)?;
    pass(core, step)?;
    print_line(report, &line, buffer, out)
}

/// Does all steps of a search that is in course before its first one, and prints their lines.
pub fn do_steps<T: Threads + Sync, B: Book, K: Sink, G: Gate + Sync>(
    rt: &T,
    report: &Report<'_>,
    kit: &Kit<'_, B>,
    gate: &G,
    core: &mut Core,
    team: &mut Team<B>,
    best: &mut BestSoFar,
    steps: u32,
    buffer: &mut Vec<u8>,
    out: &mut K,
) -> Result<(), PrintFault>
    requires whole { team.old.is_torn ≡ false }
    requires judges { let seen = team.old.worker.director in
        ⟦<Rules<B> as Judges>⟧.judges kit.now.rules.now seen.weights (sizes_of seen.plan) }
    requires own { kit.now.rules.now.defs ≡ team.old.worker.director.rules }
    requires seed { kit.now.seed ≡ team.old.worker.seed }
    requires steps { steps ≡ (terms_of core.old).settings.steps }
    requires ready { 0 < steps → IsReady core.old 1 }
    requires quiet { IsQuiet core.old }
    requires empty { buffer.old.items ≡ [] }
    ensures emptied { OnOk result (buffer.new.items ≡ []) }
    ensures same { OnOk result (SameTerms team.old.worker team.new.worker) }
    ensures whole { OnOk result (team.new.is_torn ≡ false) }
    ensures prints { let makes = map (λ m. (⟦<dyn Maker as Maker>⟧ m.vtable).made m.value) kit.now.makers.now in
        (posed : Posed) (start : SinkState) → steps ≡ posed.settings.steps → IsReportOf posed report.now
        → Plays B.meaning kit.now.seed kit.now.selectors.now makes posed
        → IsAfter core.old team.old.worker best.old posed 0
        → HasPrinted posed 0 start (K.state out.old)
        → Prints result (text_of posed (lines_after posed steps)) start (K.state out.new) }
    ensures went_on { let makes = map (λ m. (⟦<dyn Maker as Maker>⟧ m.vtable).made m.value) kit.now.makers.now in
        OnOk result ((posed : Posed) → steps ≡ posed.settings.steps
        → Plays B.meaning kit.now.seed kit.now.selectors.now makes posed
        → IsAfter core.old team.old.worker best.old posed 0
        → IsAfter core.new team.new.worker best.new posed steps) }
{
    'steps: for step in 0..steps {
        do_step(
            rt,
            report,
            kit,
            gate,
            core,
            team,
            best,
            step + 1,
            buffer,
            out,
        )?;
    }
    Ok(())
}
