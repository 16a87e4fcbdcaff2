ghost use Rattle.std.specs.Prelude.{◌≡◌, ◌≤◌, [], ℕ, IfOk, List, None, OnOk, All, false, length, map, suc, true};
ghost use Rattle.change_feed.specs.Feeds.{is_stop};
ghost use Rattle.feed_lines.specs.Limits.{most_lines};
ghost use Rattle.live_lines.specs.Taking.{Took, searched, taken_at};
ghost use Rattle.move_selectors.specs.Candidates.{Made};
ghost use Rattle.plan_changes.specs.Fits.{IsOfSchema};
ghost use Rattle.plan_json.specs.Seen.{domain_view};
ghost use Rattle.plan_rules.specs.Range.{sizes_of};
ghost use Rattle.plan_search.specs.Posed.{Posed};
ghost use Rattle.plan_settings.specs.Settings.{IsInRange};
ghost use Rattle.search_core.specs.Desk.{begins_leg};
ghost use Rattle.search_core.specs.Keeps.{terms_of};
ghost use Rattle.plan_words.specs.Command.{AreHands};
ghost use Rattle.plan_session.specs.Begun.{IsPosedBy};
ghost use Rattle.plan_session.specs.Course.{BareLeg, IsEnded, IsQuiet, best_in, gone_on, step_text};
ghost use Rattle.plan_session.specs.Fed.{bare};
ghost use Rattle.plan_session.specs.Live.{IsLive, IsLiveMade, IsOpened, leg_begun, leg_behind, next_leg, next_text, opening_text, text_behind};
ghost use Rattle.plan_session.specs.Printing.{Prints};
ghost use Rattle.plan_session.specs.Replayed.{feed_of};

use crate::best::{BestSoFar, lead_director};
use crate::events::{begin_leg, new_core};
use crate::fault::PrintFault;
use crate::printing::print_line;
use crate::report::Report;
use crate::searching::{Hands, place_on, print_opening};
use crate::steps::{make_step, pass};
use live_lines::take_alone;
use move_workers::{Kit, Team, director_alone};
use plan_changes::Post;
use plan_facts::{List, Memory, Names, Plan};
use plan_json::Domain;
use plan_moves::MoveMaker as Maker;
use plan_ports::{Gate, Sink};
use plan_reports::Line;
use plan_rules::{Book, Judges, Rules};
use plan_settings::Settings;
use score_director::Director;
use search_core::Core;
use std::alloc::Global;
use std::thread::Threads;

/// The most names that a plan has before it takes lines: there is room for 16 more of each of 4,096 lines. No problem has
/// nearly as many.
const MOST_NAMES: u32 = 999_000_000;

/// What a run begins with: the plan as read, the names that stand in it, and the weights of rules.
#[derive(Drop)]
pub struct Origin {
    pub plan: Plan,
    pub names: Names,
    pub weights: List<u32>,
}

/// A run in course: the core, the team of so many workers on the state of the newest leg, the best of that leg, and the names
/// that stand in its plan.
#[derive(Drop)]
pub struct Running<B: Book> {
    pub core: Core,
    pub workers: u32,
    pub team: Team<B>,
    pub best: BestSoFar,
    pub names: Names,
}

/// Takes lines of a feed on a director at a boundary, and gives the lines that say what became of them.
fn take_posts<B: Book>(
    alloc: Global,
    domain: &Domain<B>,
    boundary: u32,
    posts: &[Post],
    director: &mut Director<B>,
    names: &mut Names,
) -> Result<Vec<Line>, Memory>
    requires judges { let seen = director.old in
        ⟦<Rules<B> as Judges>⟧.judges domain.now.rules seen.weights (sizes_of seen.plan) }
    requires own { domain.now.rules.defs ≡ director.old.rules }
    requires rest { director.old.base ≡ None }
    requires schema { IsOfSchema domain.now.schema director.old.plan }
    requires few { length posts.now ≤ most_lines }
    requires lines { All (λ post. is_stop post.body ≡ false) posts.now }
    ensures took { let before = searched director.old names.old in
        let after = searched director.new names.new in
        let lines = taken_at boundary posts.now in
        IfOk result (λ told. Took (feed_of (domain_view domain.now)) lines before after [] told.items) }
    ensures judges { let seen = director.new in
        OnOk result (⟦<Rules<B> as Judges>⟧.judges domain.now.rules seen.weights (sizes_of seen.plan)) }
    ensures own { OnOk result (domain.now.rules.defs ≡ director.new.rules) }
    ensures rest { OnOk result (director.new.base ≡ None) }
    ensures schema { OnOk result (IsOfSchema domain.now.schema director.new.plan) }
{
    if names.count() > MOST_NAMES {
        return Err(Memory);
    }
    let mut told = Vec::new(alloc);
    take_alone(
        director,
        &domain.rules,
        &domain.schema,
        names,
        posts,
        boundary,
        &mut told,
    )?;
    Ok(told)
}

/// Begins a leg at a boundary: takes lines of a feed on a director, places what is null, and has the core begin. Prints the
/// lines of the leg up to its start score.
fn open_leg<B: Book, K: Sink>(
    alloc: Global,
    domain: &Domain<B>,
    settings: &Settings,
    boundary: u32,
    posts: &[Post],
    director: &mut Director<B>,
    names: &mut Names,
    core: &mut Core,
    buffer: &mut Vec<u8>,
    out: &mut K,
) -> Result<(), PrintFault>
    requires judges { let seen = director.old in
        ⟦<Rules<B> as Judges>⟧.judges domain.now.rules seen.weights (sizes_of seen.plan) }
    requires own { domain.now.rules.defs ≡ director.old.rules }
    requires rest { director.old.base ≡ None }
    requires schema { IsOfSchema domain.now.schema director.old.plan }
    requires few { length posts.now ≤ most_lines }
    requires lines { All (λ post. is_stop post.body ≡ false) posts.now }
    requires ended { IsEnded core.old boundary }
    requires terms { (terms_of core.old).settings ≡ settings.now }
    requires within { boundary ≤ settings.now.steps }
    requires begins { begins_leg boundary (length posts.now) ≡ true }
    requires empty { buffer.old.items ≡ [] }
    ensures emptied { OnOk result (buffer.new.items ≡ []) }
    ensures prints { (makers : List Made) (posed : Posed)
        → IsPosedBy B.meaning makers (domain_view domain.now) settings.now posed
        → let state = searched director.old names.old in
        let lines = taken_at boundary posts.now in
        let text = opening_text (feed_of (domain_view domain.now)) posed boundary lines state in
        Prints result text (K.state out.old) (K.state out.new) }
    ensures opened { OnOk result ((makers : List Made) (posed : Posed)
        → IsPosedBy B.meaning makers (domain_view domain.now) settings.now posed
        → let state = searched director.old names.old in
        let lines = taken_at boundary posts.now in
        let leg = leg_begun (feed_of (domain_view domain.now)) posed boundary lines state in
        IsOpened core.new director.new names.new posed boundary (bare leg)) }
    ensures judges { let seen = director.new in
        OnOk result (⟦<Rules<B> as Judges>⟧.judges domain.now.rules seen.weights (sizes_of seen.plan)) }
    ensures own { OnOk result (domain.now.rules.defs ≡ director.new.rules) }
    ensures rest { OnOk result (director.new.base ≡ None) }
    ensures terms { OnOk result (terms_of core.new ≡ terms_of core.old) }
    ensures quiet { OnOk result (IsQuiet core.new) }
{
    let told = take_posts(alloc, domain, boundary, posts, director, names)?;
    let course = place_on(alloc, domain, settings, director)?;
    let start = director.score();
    begin_leg(core, boundary, posts.len() as u32, start)?;
    print_opening(alloc, domain, boundary, &told, &course, start, buffer, out)
}

/// A run in course before the first step of a leg that begins, with so many workers on its director's plan.
fn run_from<B: Book>(
    alloc: Global,
    domain: &Domain<B>,
    settings: &Settings,
    workers: u32,
    core: Core,
    director: Director<B>,
    names: Names,
) -> Result<Running<B>, Memory>
    requires workers { (1 ≤ workers) × (workers ≤ 16) }
    requires in_range { IsInRange settings.now }
    requires judges { ⟦<Rules<B> as Judges>⟧.judges domain.now.rules director.weights (sizes_of director.plan) }
    requires own { domain.now.rules.defs ≡ director.rules }
    requires rest { director.base ≡ None }
    ensures core { IfOk result (λ running. running.core ≡ core) }
    ensures workers { IfOk result (λ running. running.workers ≡ workers) }
    ensures director { IfOk result (λ running. running.team.worker.director ≡ director) }
    ensures whole { IfOk result (λ running. running.team.is_torn ≡ false) }
    ensures live { IfOk result (λ running. (makers : List Made) (posed : Posed) (k : ℕ) (leg : BareLeg)
        → IsPosedBy B.meaning makers (domain_view domain.now) settings.now posed
        → leg.steps ≡ [] → IsOpened core director names posed k leg
        → IsLive running.core running.team.worker running.best running.names posed (suc k) leg) }
{
    let kit = Kit {
        rules: &domain.rules,
        schema: &domain.schema,
        makers: &domain.makers,
        selectors: settings.selectors.as_slice(),
        seed: settings.seed,
    };
    let best = BestSoFar::begin(alloc, director.score());
    let weights = List::from_slice(alloc, director.weights())?;
    let team = Team::new(alloc, &kit, director, weights.as_slice(), workers)?;
    Ok(Running {
        core,
        workers,
        team,
        best,
        names,
    })
}

/// Begins the first leg of a run, which takes lines of a feed on the plan as read, with its names and weights. So many workers
/// are on it then.
pub fn first_leg<B: Book, K: Sink>(
    alloc: Global,
    domain: &Domain<B>,
    settings: &Settings,
    hands: Hands,
    plan: Plan,
    names: Names,
    weights: List<u32>,
    posts: &[Post],
    buffer: &mut Vec<u8>,
    out: &mut K,
) -> Result<Running<B>, PrintFault>
    requires judges { ⟦<Rules<B> as Judges>⟧.judges domain.now.rules weights (sizes_of plan) }
    requires in_range { IsInRange settings.now }
    requires hands { AreHands hands.workers hands.buffer }
    requires schema { IsOfSchema domain.now.schema plan }
    requires few { length posts.now ≤ most_lines }
    requires lines { All (λ post. is_stop post.body ≡ false) posts.now }
    requires empty { buffer.old.items ≡ [] }
    ensures emptied { OnOk result (buffer.new.items ≡ []) }
    ensures prints { (makers : List Made) (posed : Posed)
        → IsPosedBy B.meaning makers (domain_view domain.now) settings.now posed
        → record { plan = plan; names = names; weights = weights } ≡ posed.origin
        → let text = opening_text (feed_of (domain_view domain.now)) posed 0 (taken_at 0 posts.now) posed.origin in
        Prints result text (K.state out.old) (K.state out.new) }
    ensures live { IfOk result (λ running. (makers : List Made) (posed : Posed)
        → IsPosedBy B.meaning makers (domain_view domain.now) settings.now posed
        → record { plan = plan; names = names; weights = weights } ≡ posed.origin
        → let leg = leg_begun (feed_of (domain_view domain.now)) posed 0 (taken_at 0 posts.now) posed.origin in
        IsLive running.core running.team.worker running.best running.names posed 1 (bare leg)) }
    ensures judges { IfOk result (λ running. let seen = running.team.worker.director in
        ⟦<Rules<B> as Judges>⟧.judges domain.now.rules seen.weights (sizes_of seen.plan)) }
    ensures whole { IfOk result (λ running. running.team.is_torn ≡ false) }
    ensures quiet { IfOk result (λ running. IsQuiet running.core) }
    ensures workers { IfOk result (λ running. running.workers ≡ hands.workers) }
{
    let mut director = director_alone(alloc, &domain.rules, plan, weights)?;
    let mut names = names;
    let mut core = new_core(alloc, settings, hands.asked())?;
    open_leg(
        alloc,
        domain,
        settings,
        0,
        posts,
        &mut director,
        &mut names,
        &mut core,
        buffer,
        out,
    )?;
    let running = run_from(
        alloc,
        domain,
        settings,
        hands.workers,
        core,
        director,
        names,
    )?;
    Ok(running)
}

/// Goes over to the leg that begins at a boundary: it takes lines of a feed on the best plan so far.
fn begin_next<B: Book, K: Sink>(
    alloc: Global,
    domain: &Domain<B>,
    settings: &Settings,
    running: Running<B>,
    boundary: u32,
    posts: &[Post],
    buffer: &mut Vec<u8>,
    out: &mut K,
) -> Result<Running<B>, PrintFault>
    requires workers { (1 ≤ running.workers) × (running.workers ≤ 16) }
    requires in_range { IsInRange settings.now }
    requires whole { running.team.is_torn ≡ false }
    requires judges { let seen = running.team.worker.director in
        ⟦<Rules<B> as Judges>⟧.judges domain.now.rules seen.weights (sizes_of seen.plan) }
    requires made { (makers : List Made) × (posed : Posed) × (leg : BareLeg)
        × IsPosedBy B.meaning makers (domain_view domain.now) settings.now posed
        × IsLiveMade running.core running.team.worker running.best running.names posed boundary leg }
    requires within { boundary ≤ settings.now.steps }
    requires some { 1 ≤ length posts.now }
    requires few { length posts.now ≤ most_lines }
    requires lines { All (λ post. is_stop post.body ≡ false) posts.now }
    requires empty { buffer.old.items ≡ [] }
    ensures emptied { OnOk result (buffer.new.items ≡ []) }
    ensures prints { (makers : List Made) (posed : Posed) (leg : BareLeg)
        → IsPosedBy B.meaning makers (domain_view domain.now) settings.now posed
        → IsLiveMade running.core running.team.worker running.best running.names posed boundary leg
        → let lines = taken_at boundary posts.now in
        let text = opening_text (feed_of (domain_view domain.now)) posed boundary lines (best_in posed leg) in
        Prints result text (K.state out.old) (K.state out.new) }
    ensures live { IfOk result (λ next. (makers : List Made) (posed : Posed) (leg : BareLeg)
        → IsPosedBy B.meaning makers (domain_view domain.now) settings.now posed
        → IsLiveMade running.core running.team.worker running.best running.names posed boundary leg
        → let lines = taken_at boundary posts.now in
        let begun = leg_begun (feed_of (domain_view domain.now)) posed boundary lines (best_in posed leg) in
        IsLive next.core next.team.worker next.best next.names posed (suc boundary) (bare begun)) }
    ensures judges { IfOk result (λ next. let seen = next.team.worker.director in
        ⟦<Rules<B> as Judges>⟧.judges domain.now.rules seen.weights (sizes_of seen.plan)) }
    ensures whole { IfOk result (λ next. next.team.is_torn ≡ false) }
    ensures quiet { IfOk result (λ next. IsQuiet next.core) }
    ensures workers { IfOk result (λ next. next.workers ≡ running.workers) }
{
    let Running {
        mut core,
        workers,
        team,
        best,
        mut names,
    } = running;
    let mut director = team.into_director();
    lead_director(&domain.rules, best.back, &mut director)?;
    open_leg(
        alloc,
        domain,
        settings,
        boundary,
        posts,
        &mut director,
        &mut names,
        &mut core,
        buffer,
        out,
    )?;
    let next = run_from(alloc, domain, settings, workers, core, director, names)?;
    Ok(next)
}

/// Cuts the boundary behind a step that was made: a leg begins there where it takes lines of a feed.
pub fn cross<B: Book, K: Sink>(
    alloc: Global,
    domain: &Domain<B>,
    settings: &Settings,
    running: Running<B>,
    boundary: u32,
    posts: &[Post],
    buffer: &mut Vec<u8>,
    out: &mut K,
) -> Result<Running<B>, PrintFault>
    requires workers { (1 ≤ running.workers) × (running.workers ≤ 16) }
    requires in_range { IsInRange settings.now }
    requires whole { running.team.is_torn ≡ false }
    requires judges { let seen = running.team.worker.director in
        ⟦<Rules<B> as Judges>⟧.judges domain.now.rules seen.weights (sizes_of seen.plan) }
    requires made { (makers : List Made) × (posed : Posed) × (leg : BareLeg)
        × IsPosedBy B.meaning makers (domain_view domain.now) settings.now posed
        × IsLiveMade running.core running.team.worker running.best running.names posed boundary leg }
    requires step { 1 ≤ boundary }
    requires within { boundary ≤ settings.now.steps }
    requires few { length posts.now ≤ most_lines }
    requires lines { All (λ post. is_stop post.body ≡ false) posts.now }
    requires empty { buffer.old.items ≡ [] }
    ensures emptied { OnOk result (buffer.new.items ≡ []) }
    ensures prints { (makers : List Made) (posed : Posed) (leg : BareLeg)
        → IsPosedBy B.meaning makers (domain_view domain.now) settings.now posed
        → IsLiveMade running.core running.team.worker running.best running.names posed boundary leg
        → let text = text_behind (feed_of (domain_view domain.now)) posed boundary (taken_at boundary posts.now) leg in
        Prints result text (K.state out.old) (K.state out.new) }
    ensures live { IfOk result (λ next. (makers : List Made) (posed : Posed) (leg : BareLeg)
        → IsPosedBy B.meaning makers (domain_view domain.now) settings.now posed
        → IsLiveMade running.core running.team.worker running.best running.names posed boundary leg
        → let lines = taken_at boundary posts.now in
        let behind = leg_behind (feed_of (domain_view domain.now)) posed boundary lines leg in
        IsLive next.core next.team.worker next.best next.names posed (suc boundary) behind) }
    ensures judges { IfOk result (λ next. let seen = next.team.worker.director in
        ⟦<Rules<B> as Judges>⟧.judges domain.now.rules seen.weights (sizes_of seen.plan)) }
    ensures whole { IfOk result (λ next. next.team.is_torn ≡ false) }
    ensures quiet { IfOk result (λ next. IsQuiet next.core) }
    ensures workers { IfOk result (λ next. next.workers ≡ running.workers) }
{
    if !posts.is_empty() {
        return begin_next(
            alloc, domain, settings, running, boundary, posts, buffer, out,
        );
    }
    let mut running = running;
    pass(&mut running.core, boundary)?;
    Ok(running)
}

/// Does the step under a number, and prints its line. The boundary behind it is to be cut then.
pub fn advance<T: Threads + Sync, B: Book, K: Sink, G: Gate + Sync>(
    rt: &T,
    gate: &G,
    domain: &Domain<B>,
    settings: &Settings,
    running: Running<B>,
    step: u32,
    buffer: &mut Vec<u8>,
    out: &mut K,
) -> Result<Running<B>, PrintFault>
    requires whole { running.team.is_torn ≡ false }
    requires quiet { IsQuiet running.core }
    requires judges { let seen = running.team.worker.director in
        ⟦<Rules<B> as Judges>⟧.judges domain.now.rules seen.weights (sizes_of seen.plan) }
    requires live { let makes = map (λ m. (⟦<dyn Maker as Maker>⟧ m.vtable).made m.value) domain.now.makers.items in
        (posed : Posed) × (leg : BareLeg)
        × IsPosedBy B.meaning makes (domain_view domain.now) settings.now posed
        × IsLive running.core running.team.worker running.best running.names posed step leg }
    requires step { 1 ≤ step }
    requires within { step ≤ settings.now.steps }
    requires empty { buffer.old.items ≡ [] }
    ensures emptied { OnOk result (buffer.new.items ≡ []) }
    ensures prints { let makes = map (λ m. (⟦<dyn Maker as Maker>⟧ m.vtable).made m.value) domain.now.makers.items in
        (posed : Posed) (leg : BareLeg)
        → IsPosedBy B.meaning makes (domain_view domain.now) settings.now posed
        → IsLive running.core running.team.worker running.best running.names posed step leg
        → Prints result (step_text posed step leg) (K.state out.old) (K.state out.new) }
    ensures made { let makes = map (λ m. (⟦<dyn Maker as Maker>⟧ m.vtable).made m.value) domain.now.makers.items in
        IfOk result (λ next. (posed : Posed) (leg : BareLeg)
        → IsPosedBy B.meaning makes (domain_view domain.now) settings.now posed
        → IsLive running.core running.team.worker running.best running.names posed step leg
        → IsLiveMade next.core next.team.worker next.best next.names posed step (gone_on posed step leg)) }
    ensures judges { IfOk result (λ next. let seen = next.team.worker.director in
        ⟦<Rules<B> as Judges>⟧.judges domain.now.rules seen.weights (sizes_of seen.plan)) }
    ensures whole { IfOk result (λ next. next.team.is_torn ≡ false) }
    ensures workers { IfOk result (λ next. next.workers ≡ running.workers) }
{
    let kit = Kit {
        rules: &domain.rules,
        schema: &domain.schema,
        makers: &domain.makers,
        selectors: settings.selectors.as_slice(),
        seed: settings.seed,
    };
    let report = Report {
        schema: &domain.schema,
        rules: domain.rules.defs.as_slice(),
    };
    let mut running = running;
    let line = make_step(
        rt,
        &kit,
        gate,
        &mut running.core,
        &mut running.team,
        &mut running.best,
        step,
    )?;
    print_line(&report, &line, buffer, out)?;
    Ok(running)
}

/// Does the step under a number, and prints its line; then cuts the boundary behind it, where a leg begins if it takes lines of
/// a feed.
pub fn go_on<T: Threads + Sync, B: Book, K: Sink, G: Gate + Sync>(
    rt: &T,
    alloc: Global,
    gate: &G,
    domain: &Domain<B>,
    settings: &Settings,
    running: Running<B>,
    step: u32,
    posts: &[Post],
    buffer: &mut Vec<u8>,
    out: &mut K,
) -> Result<Running<B>, PrintFault>
    requires workers { (1 ≤ running.workers) × (running.workers ≤ 16) }
    requires in_range { IsInRange settings.now }
    requires whole { running.team.is_torn ≡ false }
    requires quiet { IsQuiet running.core }
    requires judges { let seen = running.team.worker.director in
        ⟦<Rules<B> as Judges>⟧.judges domain.now.rules seen.weights (sizes_of seen.plan) }
    requires live { let makes = map (λ m. (⟦<dyn Maker as Maker>⟧ m.vtable).made m.value) domain.now.makers.items in
        (posed : Posed) × (leg : BareLeg)
        × IsPosedBy B.meaning makes (domain_view domain.now) settings.now posed
        × IsLive running.core running.team.worker running.best running.names posed step leg }
    requires step { 1 ≤ step }
    requires within { step ≤ settings.now.steps }
    requires few { length posts.now ≤ most_lines }
    requires lines { All (λ post. is_stop post.body ≡ false) posts.now }
    requires empty { buffer.old.items ≡ [] }
    ensures emptied { OnOk result (buffer.new.items ≡ []) }
    ensures prints { let makes = map (λ m. (⟦<dyn Maker as Maker>⟧ m.vtable).made m.value) domain.now.makers.items in
        (posed : Posed) (leg : BareLeg)
        → IsPosedBy B.meaning makes (domain_view domain.now) settings.now posed
        → IsLive running.core running.team.worker running.best running.names posed step leg
        → let text = next_text (feed_of (domain_view domain.now)) posed step (taken_at step posts.now) leg in
        Prints result text (K.state out.old) (K.state out.new) }
    ensures live { let makes = map (λ m. (⟦<dyn Maker as Maker>⟧ m.vtable).made m.value) domain.now.makers.items in
        IfOk result (λ next. (posed : Posed) (leg : BareLeg)
        → IsPosedBy B.meaning makes (domain_view domain.now) settings.now posed
        → IsLive running.core running.team.worker running.best running.names posed step leg
        → let behind = next_leg (feed_of (domain_view domain.now)) posed step (taken_at step posts.now) leg in
        IsLive next.core next.team.worker next.best next.names posed (suc step) behind) }
    ensures judges { IfOk result (λ next. let seen = next.team.worker.director in
        ⟦<Rules<B> as Judges>⟧.judges domain.now.rules seen.weights (sizes_of seen.plan)) }
    ensures whole { IfOk result (λ next. next.team.is_torn ≡ false) }
    ensures quiet { IfOk result (λ next. IsQuiet next.core) }
    ensures workers { IfOk result (λ next. next.workers ≡ running.workers) }
{
    let running = advance(rt, gate, domain, settings, running, step, buffer, out)?;
    cross(alloc, domain, settings, running, step, posts, buffer, out)
}
