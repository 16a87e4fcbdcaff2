ghost use Rattle.std.specs.Prelude.{◌≡◌, ◌∷◌, [], IfOk, length, map};
ghost use Rattle.plan_facts.specs.Plan.{PlanView};
ghost use Rattle.plan_json.specs.Accepted.{problem_view};
ghost use Rattle.plan_json.specs.Seen.{domain_view};
ghost use Rattle.plan_reports.specs.declared.line.Line.TheVariants as line;
ghost use Rattle.plan_rules.specs.Range.{sizes_of};
ghost use Rattle.plan_settings.specs.Settings.{IsInRange};
ghost use Rattle.plan_words.specs.Command.{AreHands};
ghost use Rattle.plan_session.specs.Posed.{posed_in};
ghost use Rattle.plan_session.specs.Searched.{HasSearched};
ghost use Rattle.plan_session.specs.Toured.{fact_count, tour_text};
ghost use Rattle.plan_session.specs.Writes.{Writes};

use crate::fault::PrintFault;
use crate::nowhere::Nowhere;
use crate::report::Report;
use crate::searching::{Hands, Searched, begin, search};
use plan_facts::{Memory, Plan};
use plan_json::{Domain, Problem};
use plan_moves::MoveMaker as Maker;
use plan_ports::Gate;
use plan_reports::Line;
use plan_rules::{Book, Judges, Rules};
use std::alloc::Global;
use std::thread::Threads;

/// How many live facts a plan has.
fn fact_count(plan: &Plan) -> u32
    ensures { result ≡ fact_count plan.now }
{
    let mut count: u32 = 0;
    for class in 0..plan.classes() {
        count += plan.facts(class).len() as u32;
    }
    count
}

/// Searches a problem as `solve` does, and prints the run nowhere.
fn search_unseen<T: Threads + Sync, B: Book, G: Gate + Sync>(
    rt: &T,
    alloc: Global,
    gate: &G,
    domain: &Domain<B>,
    problem: Problem,
    hands: Hands,
) -> Result<Searched, PrintFault>
    requires judges { ⟦<Rules<B> as Judges>⟧.judges domain.now.rules problem.weights (sizes_of problem.plan) }
    requires in_range { IsInRange problem.settings }
    requires hands { AreHands hands.workers hands.buffer }
    ensures { let makes = map (λ m. (⟦<dyn Maker as Maker>⟧ m.vtable).made m.value) domain.now.makers.items in
        let posed = posed_in B.meaning makes (domain_view domain.now) (problem_view problem) in
        IfOk result (HasSearched posed problem.settings.steps) }
{
    let Problem {
        plan,
        settings,
        weights,
        ..
    } = problem;
    let under = weights.copy(alloc)?;
    let mut buffer = Vec::new(alloc);
    let mut out = Nowhere;
    let (director, core) = begin(
        alloc,
        domain,
        &settings,
        hands.asked(),
        plan,
        weights,
        &mut buffer,
        &mut out,
    )?;
    search(
        rt,
        alloc,
        gate,
        domain,
        &settings,
        hands.workers,
        director,
        under.as_slice(),
        core,
        &mut buffer,
        &mut out,
    )
}

/// Appends the lines that sum up a search of so many steps in one leg.
fn write_tour(
    report: &Report<'_>,
    number: u32,
    size: u32,
    steps: u32,
    searched: &Searched,
    out: &mut Vec<u8>,
) -> Result<(), Memory>
    ensures { Writes report.now result out.old.items out.new.items
        (line.Tour number size ∷ line.Facts (fact_count searched.now.best) ∷ line.Legs 1 ∷ line.Steps steps
        ∷ line.Wins searched.now.wins ∷ line.Best searched.now.score ∷ line.End ∷ []) }
{
    let lines = [
        Line::Tour { number, size },
        Line::Facts(fact_count(&searched.best)),
        Line::Legs(1),
        Line::Steps(steps),
        Line::Wins(searched.wins),
        Line::Best(searched.score),
        Line::End,
    ];
    report.lines(&lines, out)
}

/// What `tour` prints of a generated problem, by its number and size: how many live facts, legs, steps and steps with a winner
/// the run had that `solve` prints, and its best score.
pub fn tour_text<T: Threads + Sync, B: Book, G: Gate + Sync>(
    rt: &T,
    alloc: Global,
    gate: &G,
    number: u32,
    size: u32,
    hands: Hands,
    domain: &Domain<B>,
    problem: Problem,
) -> Result<Vec<u8>, Memory>
    requires judges { ⟦<Rules<B> as Judges>⟧.judges domain.now.rules problem.weights (sizes_of problem.plan) }
    requires in_range { IsInRange problem.settings }
    requires hands { AreHands hands.workers hands.buffer }
    ensures { let makes = map (λ m. (⟦<dyn Maker as Maker>⟧ m.vtable).made m.value) domain.now.makers.items in
        let posed = posed_in B.meaning makes (domain_view domain.now) (problem_view problem) in
        IfOk result (λ text. text.items ≡ tour_text number size posed) }
{
    let steps = problem.settings.steps;

    // A sink that keeps nothing never fails, so memory was wanting.
    let Ok(searched) = search_unseen(rt, alloc, gate, domain, problem, hands) else {
        return Err(Memory);
    };
    let report = Report {
        schema: &domain.schema,
        rules: domain.rules.defs.as_slice(),
    };
    let mut out = Vec::new(alloc);
    write_tour(&report, number, size, steps, &searched, &mut out)?;
    Ok(out)
}
