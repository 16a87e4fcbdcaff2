ghost use Rattle.std.specs.Prelude.{◌≡◌, ◌≤◌, ◌∷◌, ◌++◌, [], List, IfOk, None, OnOk, length, map};
ghost use Rattle.plan_rules.specs.Range.{sizes_of};
ghost use Rattle.plan_rules.specs.Totals.{whole_score};
ghost use Rattle.plan_settings.specs.Settings.{IsInRange};
ghost use Rattle.plan_words.specs.Command.{AreHands};
ghost use Rattle.plan_json.specs.Accepted.{problem_view};
ghost use Rattle.plan_json.specs.Seen.{domain_view};
ghost use Rattle.plan_reports.specs.declared.line.Line.TheVariants as line;
ghost use Rattle.plan_search.specs.Placing.{placing_of};
ghost use Rattle.plan_search.specs.Posed.{Posed, is_decreasing};
ghost use Rattle.plan_search.specs.Quiet.{lines_after};
ghost use Rattle.plan_search.specs.RunLines.{best_lines, placing_lines, solve_text, text_of};
ghost use Rattle.plan_search.specs.Todo.{todo_by};
ghost use Rattle.construction.specs.Placed.{course_of};
ghost use Rattle.score_director.specs.View.{at_rest, score_seen};
ghost use Rattle.move_selectors.specs.Candidates.{Made};
ghost use Rattle.plan_session.specs.Begun.{BeginsLeg, IsBegun, IsOrigin, IsPosedBy, best_text, leg_opening, opening_of, run_line_of};
ghost use Rattle.plan_ports.specs.Outside.{SinkState};
ghost use Rattle.plan_session.specs.Course.{HasPrinted};
ghost use Rattle.plan_session.specs.Posed.{posed_in};
ghost use Rattle.plan_session.specs.Printing.{Prints};
ghost use Rattle.plan_session.specs.Searched.{HasSearched};
ghost use Rattle.plan_session.specs.Writes.{Writes};

use crate::best::{BestSoFar, lead_back};
use crate::events::start_core;
use crate::fault::PrintFault;
use crate::printing::{print, print_line};
use crate::report::Report;
use crate::steps::do_steps;
use construction::{Course, order_alone, place_alone};
use move_workers::{Kit, Team, director_alone};
use plan_facts::{List, Memory, Plan};
use plan_json::{Domain, Problem};
use plan_moves::MoveMaker as Maker;
use plan_ports::{Gate, Sink};
use plan_recalc::Totals;
use plan_reports::Line;
use plan_rules::{Book, Judges, Rules};
use plan_scores::PlanScore;
use plan_settings::{Construction, Settings};
use score_director::{Director, totals_by_network};
use search_core::Core;
use std::alloc::Global;
use std::thread::Threads;

/// By how many workers a problem is solved, 1 to 16, and how many candidates they judge at once, 1 to 1,024.
#[derive(Clone, Copy, Debug, PartialEq, Eq)]
pub struct Hands {
    pub workers: u32,
    pub buffer: u32,
}

impl Hands {
    ghost use Rattle.std.specs.Prelude.{◌≤◌};
    ghost use Rattle.plan_words.specs.Command.{AreHands};

    /// How many candidates are asked at once. One worker alone is asked one by one: what a step doesn't come to would be
    /// judged in vain. The text is the same for all numbers.
    pub fn asked(&self) -> u32
        requires { AreHands self.now.workers self.now.buffer }
        ensures { (1 ≤ result) × (result ≤ 1024) }
    {
        if self.workers == 1 { 1 } else { self.buffer }
    }
}

/// What a search came to: its best plan and the score of that, and how many steps had a winner.
#[derive(Drop)]
pub struct Searched {
    pub best: Plan,
    pub score: PlanScore,
    pub wins: u32,
}

/// Whether harder entities are placed first.
fn is_decreasing(construction: Construction) -> bool
    ensures { result ≡ is_decreasing construction }
{
    match construction {
        Construction::FirstFit => false,
        Construction::Decreasing => true,
    }
}

/// Places what is null in a director's plan. Answers the course of the placing.
pub fn place_on<B: Book>(
    alloc: Global,
    domain: &Domain<B>,
    settings: &Settings,
    director: &mut Director<B>,
) -> Result<Course, Memory>
    requires judges { let seen = director.old in
        ⟦<Rules<B> as Judges>⟧.judges domain.now.rules seen.weights (sizes_of seen.plan) }
    requires own { domain.now.rules.defs ≡ director.old.rules }
    requires rest { director.old.base ≡ None }
    ensures rest { OnOk result (director.new ≡ at_rest domain.now.rules.defs director.old.weights director.new.plan) }
    ensures course { let score = whole_score B.meaning domain.now.rules.defs director.old.weights in
        let decreasing = is_decreasing settings.now.construction in
        let todo = todo_by B.meaning domain.now.rules.harder decreasing director.old.plan in
        IfOk result (λ course. course_of course director.new.plan ≡ placing_of score director.old.plan todo) }
    ensures sizes { sizes_of director.new.plan ≡ sizes_of director.old.plan }
{
    let rules = &domain.rules;
    let decreasing = is_decreasing(settings.construction);
    let todo = order_alone(alloc, director, rules, decreasing)?;
    let course = place_alone(alloc, director, rules, &domain.schema, todo.as_slice())?;
    Ok(course)
}

/// A director of the plan, placed, and the course of the placing.
fn place_plan<B: Book>(
    alloc: Global,
    domain: &Domain<B>,
    settings: &Settings,
    plan: Plan,
    weights: List<u32>,
) -> Result<(Director<B>, Course), Memory>
    requires judges { ⟦<Rules<B> as Judges>⟧.judges domain.now.rules weights (sizes_of plan) }
    ensures rest { IfOk result (λ done. done.0 ≡ at_rest domain.now.rules.defs weights done.0.plan) }
    ensures course { let score = whole_score B.meaning domain.now.rules.defs weights in
        let todo = todo_by B.meaning domain.now.rules.harder (is_decreasing settings.now.construction) plan in
        IfOk result (λ done. course_of done.1 done.0.plan ≡ placing_of score plan todo) }
    ensures sizes { IfOk result (λ done. sizes_of done.0.plan ≡ sizes_of plan) }
{
    let mut director = director_alone(alloc, &domain.rules, plan, weights)?;
    let course = place_on(alloc, domain, settings, &mut director)?;
    Ok((director, course))
}

/// Appends the line of a leg's boundary, and those that say what became of the lines that it took.
fn write_taken(
    report: &Report<'_>,
    boundary: u32,
    told: &[Line],
    out: &mut Vec<u8>,
) -> Result<(), Memory>
    ensures { Writes report.now result out.old.items out.new.items (line.Leg boundary ∷ told.now) }
{
    report.line(&Line::Leg { boundary }, out)?;
    report.lines(told, out)
}

/// Appends the lines of a placing and of the start score behind it.
fn write_placing(
    alloc: Global,
    report: &Report<'_>,
    course: &Course,
    start: PlanScore,
    out: &mut Vec<u8>,
) -> Result<(), Memory>
    ensures { Writes report.now result out.old.items out.new.items
        (placing_lines course.now.placed course.now.stuck ++ line.Start start ∷ []) }
{
    report.placed(alloc, course.placed.as_slice(), out)?;
    report.stuck(course.stuck, out)?;
    report.line(&Line::Start(start), out)
}

/// Appends the lines of a leg up to its start score: what became of the lines that it took, and its placing.
fn write_opening(
    alloc: Global,
    report: &Report<'_>,
    boundary: u32,
    told: &[Line],
    course: &Course,
    start: PlanScore,
    out: &mut Vec<u8>,
) -> Result<(), Memory>
    ensures { Writes report.now result out.old.items out.new.items
        (leg_opening boundary told.now course.now start) }
{
    write_taken(report, boundary, told, out)?;
    write_placing(alloc, report, course, start, out)
}

/// Prints the first line of a run.
pub fn print_run<B: Book, K: Sink>(
    alloc: Global,
    domain: &Domain<B>,
    buffer: &mut Vec<u8>,
    out: &mut K,
) -> Result<(), PrintFault>
    requires empty { buffer.old.items ≡ [] }
    ensures emptied { OnOk result (buffer.new.items ≡ []) }
    ensures prints { let text = run_line_of (domain_view domain.now) in
        Prints result text (K.state out.old) (K.state out.new) }
{
    let report = Report {
        schema: &domain.schema,
        rules: domain.rules.defs.as_slice(),
    };
    let name = domain.name.copy(alloc)?;
    print_line(&report, &Line::Run { domain: name }, buffer, out)
}

/// Prints the lines of a leg up to its start score: what became of the lines that it took, and its placing.
pub fn print_opening<B: Book, K: Sink>(
    alloc: Global,
    domain: &Domain<B>,
    boundary: u32,
    told: &[Line],
    course: &Course,
    start: PlanScore,
    buffer: &mut Vec<u8>,
    out: &mut K,
) -> Result<(), PrintFault>
    requires empty { buffer.old.items ≡ [] }
    ensures emptied { OnOk result (buffer.new.items ≡ []) }
    ensures prints { let text = opening_of (domain_view domain.now) boundary told.now course.now start in
        Prints result text (K.state out.old) (K.state out.new) }
{
    let report = Report {
        schema: &domain.schema,
        rules: domain.rules.defs.as_slice(),
    };
    write_opening(alloc, &report, boundary, told, course, start, buffer)?;
    print(buffer, out)
}

/// Places the plan, and starts the core with the score of the placed plan.
fn place_and_start<B: Book>(
    alloc: Global,
    domain: &Domain<B>,
    settings: &Settings,
    asked: u32,
    plan: Plan,
    weights: List<u32>,
) -> Result<(Director<B>, Course, Core), Memory>
    requires judges { ⟦<Rules<B> as Judges>⟧.judges domain.now.rules weights (sizes_of plan) }
    requires in_range { IsInRange settings.now }
    requires asked { (1 ≤ asked) × (asked ≤ 1024) }
    ensures rest { IfOk result (λ done. done.0 ≡ at_rest domain.now.rules.defs weights done.0.plan) }
    ensures course { let score = whole_score B.meaning domain.now.rules.defs weights in
        let todo = todo_by B.meaning domain.now.rules.harder (is_decreasing settings.now.construction) plan in
        IfOk result (λ done. course_of done.1 done.0.plan ≡ placing_of score plan todo) }
    ensures core { IfOk result (λ done. BeginsLeg settings.now asked (score_seen B.meaning done.0) done.2) }
    ensures sizes { IfOk result (λ done. sizes_of done.0.plan ≡ sizes_of plan) }
{
    let (director, course) = place_plan(alloc, domain, settings, plan, weights)?;
    let core = start_core(alloc, settings, asked, director.score())?;
    Ok((director, course, core))
}

/// Places the plan and prints the lines of the run up to its start score. Gives the director of the placed plan, and the core
/// before its first step.
pub fn begin<B: Book, K: Sink>(
    alloc: Global,
    domain: &Domain<B>,
    settings: &Settings,
    asked: u32,
    plan: Plan,
    weights: List<u32>,
    buffer: &mut Vec<u8>,
    out: &mut K,
) -> Result<(Director<B>, Core), PrintFault>
    requires judges { ⟦<Rules<B> as Judges>⟧.judges domain.now.rules weights (sizes_of plan) }
    requires in_range { IsInRange settings.now }
    requires asked { (1 ≤ asked) × (asked ≤ 1024) }
    requires empty { buffer.old.items ≡ [] }
    ensures emptied { OnOk result (buffer.new.items ≡ []) }
    ensures prints { (makers : List Made) (posed : Posed)
        → IsPosedBy B.meaning makers (domain_view domain.now) settings.now posed → IsOrigin plan weights posed
        → Prints result (text_of posed (lines_after posed 0)) (K.state out.old) (K.state out.new) }
    ensures begun { IfOk result (λ begun. (makers : List Made) (posed : Posed)
        → IsPosedBy B.meaning makers (domain_view domain.now) settings.now posed
        → IsOrigin plan weights posed → IsBegun posed begun.0 begun.1) }
    ensures sizes { IfOk result (λ begun. sizes_of begun.0.plan ≡ sizes_of plan) }
{
    print_run(alloc, domain, buffer, out)?;
    let (director, course, core) = place_and_start(alloc, domain, settings, asked, plan, weights)?;
    print_opening(
        alloc,
        domain,
        0,
        &[],
        &course,
        director.score(),
        buffer,
        out,
    )?;
    Ok((director, core))
}

/// Appends the lines of a best plan: its score, its entities, its rules with their matches.
fn write_best(
    alloc: Global,
    report: &Report<'_>,
    plan: &Plan,
    totals: &Totals,
    out: &mut Vec<u8>,
) -> Result<(), Memory>
    requires { length totals.now.matches ≤ 32 }
    ensures { Writes report.now result out.old.items out.new.items
        (best_lines totals.now.score plan.now totals.now.matches) }
{
    report.line(&Line::Best(totals.score), out)?;
    report.entities(alloc, plan, out)?;
    report.rules(totals, out)?;
    report.line(&Line::End, out)
}

/// Prints the lines of a best plan.
pub fn print_best<B: Book, K: Sink>(
    alloc: Global,
    domain: &Domain<B>,
    plan: &Plan,
    weights: &[u32],
    buffer: &mut Vec<u8>,
    out: &mut K,
) -> Result<(), PrintFault>
    requires judges { ⟦<Rules<B> as Judges>⟧.judges domain.now.rules weights.now (sizes_of plan.now) }
    requires empty { buffer.old.items ≡ [] }
    ensures { let text = best_text B.meaning (domain_view domain.now) plan.now weights.now in
        Prints result text (K.state out.old) (K.state out.new) }
{
    let totals = totals_by_network(alloc, &domain.rules, plan, weights)?;
    let report = Report {
        schema: &domain.schema,
        rules: domain.rules.defs.as_slice(),
    };
    write_best(alloc, &report, plan, &totals, buffer)?;
    print(buffer, out)
}

/// Does all steps from a placed plan by a team of so many workers, and prints their lines.
pub fn search<T: Threads + Sync, B: Book, K: Sink, G: Gate + Sync>(
    rt: &T,
    alloc: Global,
    gate: &G,
    domain: &Domain<B>,
    settings: &Settings,
    workers: u32,
    director: Director<B>,
    weights: &[u32],
    core: Core,
    buffer: &mut Vec<u8>,
    out: &mut K,
) -> Result<Searched, PrintFault>
    requires judges { ⟦<Rules<B> as Judges>⟧.judges domain.now.rules director.weights (sizes_of director.plan) }
    requires in_range { IsInRange settings.now }
    requires workers { (1 ≤ workers) × (workers ≤ 16) }
    requires weights { director.weights ≡ weights.now }
    requires begun { let makes = map (λ m. (⟦<dyn Maker as Maker>⟧ m.vtable).made m.value) domain.now.makers.items in
        (posed : Posed) × IsPosedBy B.meaning makes (domain_view domain.now) settings.now posed
        × IsBegun posed director core }
    requires empty { buffer.old.items ≡ [] }
    ensures emptied { OnOk result (buffer.new.items ≡ []) }
    ensures prints { let makes = map (λ m. (⟦<dyn Maker as Maker>⟧ m.vtable).made m.value) domain.now.makers.items in
        (posed : Posed) (start : SinkState)
        → IsPosedBy B.meaning makes (domain_view domain.now) settings.now posed
        → IsBegun posed director core → HasPrinted posed 0 start (K.state out.old)
        → Prints result (text_of posed (lines_after posed settings.now.steps)) start (K.state out.new) }
    ensures searched { let makes = map (λ m. (⟦<dyn Maker as Maker>⟧ m.vtable).made m.value) domain.now.makers.items in
        IfOk result (λ searched. (posed : Posed)
        → IsPosedBy B.meaning makes (domain_view domain.now) settings.now posed
        → IsBegun posed director core → HasSearched posed settings.now.steps searched) }
    ensures sizes { IfOk result (λ searched. sizes_of searched.best ≡ sizes_of director.plan) }
{
    let report = Report {
        schema: &domain.schema,
        rules: domain.rules.defs.as_slice(),
    };
    let kit = Kit {
        rules: &domain.rules,
        schema: &domain.schema,
        makers: &domain.makers,
        selectors: settings.selectors.as_slice(),
        seed: settings.seed,
    };
    let score = director.score();
    let mut team = Team::new(alloc, &kit, director, weights, workers)?;
    let mut core = core;
    let mut best = BestSoFar::begin(alloc, score);
    do_steps(
        rt,
        &report,
        &kit,
        gate,
        &mut core,
        &mut team,
        &mut best,
        settings.steps,
        buffer,
        out,
    )?;
    let BestSoFar { score, back, wins } = best;
    let mut plan = team.into_director().into_plan();
    lead_back(back, &mut plan);
    Ok(Searched {
        best: plan,
        score,
        wins,
    })
}

/// Prints what `solve` prints of a problem, line by line: the placing of its plan, each step of the search, and the best
/// plan. Where memory or the sink fails a front of it was printed. So many workers judge up to so many candidates at once;
/// the text is the same for all numbers of them.
pub fn solve<T: Threads + Sync, B: Book, K: Sink, G: Gate + Sync>(
    rt: &T,
    alloc: Global,
    gate: &G,
    domain: &Domain<B>,
    problem: Problem,
    hands: Hands,
    out: &mut K,
) -> Result<(), PrintFault>
    requires judges { ⟦<Rules<B> as Judges>⟧.judges domain.now.rules problem.weights (sizes_of problem.plan) }
    requires in_range { IsInRange problem.settings }
    requires hands { AreHands hands.workers hands.buffer }
    ensures { let makes = map (λ m. (⟦<dyn Maker as Maker>⟧ m.vtable).made m.value) domain.now.makers.items in
        let posed = posed_in B.meaning makes (domain_view domain.now) (problem_view problem) in
        Prints result (solve_text posed) (K.state out.old) (K.state out.new) }
{
    let Problem {
        plan,
        settings,
        weights,
        ..
    } = problem;
    let under = weights.copy(alloc)?;
    let mut buffer = Vec::new(alloc);
    let (director, core) = begin(
        alloc,
        domain,
        &settings,
        hands.asked(),
        plan,
        weights,
        &mut buffer,
        out,
    )?;
    let searched = search(
        rt,
        alloc,
        gate,
        domain,
        &settings,
        hands.workers,
        director,
        under.as_slice(),
        core,
        &mut buffer,
        out,
    )?;
    print_best(
        alloc,
        domain,
        &searched.best,
        under.as_slice(),
        &mut buffer,
        out,
    )
}
