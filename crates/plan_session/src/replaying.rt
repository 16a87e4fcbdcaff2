ghost use Rattle.std.specs.Prelude.{◌≡◌, ◌≤◌, ◌-◌, ◌∷◌, [], ℕ, IfOk, List, OnOk, All, drop, false, length, map, suc, take};
ghost use Rattle.std.specs.List.Sorted.{IsNonDecreasing};
ghost use Rattle.change_feed.specs.Feeds.{is_stop};
ghost use Rattle.feed_lines.specs.Limits.{most_lines};
ghost use Rattle.live_lines.specs.Reading.{AreLines};
ghost use Rattle.live_lines.specs.Taking.{taken_at};
ghost use Rattle.move_selectors.specs.Candidates.{Made};
ghost use Rattle.plan_changes.specs.Fits.{IsOfSchema};
ghost use Rattle.plan_json.specs.Accepted.{problem_view};
ghost use Rattle.plan_json.specs.Seen.{domain_view};
ghost use Rattle.plan_reports.specs.declared.line.Line.TheVariants as line;
ghost use Rattle.plan_rules.specs.Range.{sizes_of};
ghost use Rattle.plan_search.specs.Posed.{Posed};
ghost use Rattle.plan_search.specs.RunLines.{best_lines_of, opening_lines, text_of};
ghost use Rattle.plan_settings.specs.Settings.{IsInRange};
ghost use Rattle.plan_session.specs.Begun.{IsPosedBy};
ghost use Rattle.plan_session.specs.Course.{BareLeg, IsQuiet, best_in};
ghost use Rattle.plan_session.specs.Fed.{bare};
ghost use Rattle.plan_session.specs.Live.{IsLive, leg_begun};
ghost use Rattle.plan_session.specs.Posed.{posed_in};
ghost use Rattle.plan_session.specs.Printing.{Prints};
ghost use Rattle.plan_session.specs.Replayed.{IsPlaceAt, feed_of, grounds_of, replay_text};

use crate::best::lead_back;
use crate::fault::PrintFault;
use crate::legs::{Running, first_leg, go_on};
use crate::searching::{Hands, print_best, print_run};
use plan_changes::Post;
use plan_facts::{List, Names, Plan};
use plan_json::{Domain, Problem};
use plan_moves::MoveMaker as Maker;
use plan_ports::{Gate, Sink};
use plan_rules::{Book, Judges, Rules};
use plan_settings::Settings;
use std::alloc::Global;
use std::thread::Threads;

/// One worker alone.
const ALONE: Hands = Hands {
    workers: 1,
    buffer: 1,
};

/// Behind the lines from a place on that are taken at a boundary.
fn end_of(bounds: &[u32], from: usize, boundary: u32) -> usize
    requires rising { IsNonDecreasing bounds.now }
    requires from { IsPlaceAt bounds.now boundary from }
    ensures end { IsPlaceAt bounds.now (suc boundary) result }
    ensures later { from ≤ result }
{
    let mut end = from;
    'lines: while end < bounds.len() && bounds[end] == boundary {
        end += 1;
    }
    end
}

/// The lines of a feed from one place to another.
fn between(posts: &[Post], from: usize, end: usize) -> &[Post]
    requires { (from ≤ end) × (end ≤ length posts.now) }
    ensures { result.now ≡ take (end - from) (drop from posts.now) }
{
    &posts[from..end]
}

/// Prints the first line of a run, and begins its first leg: it takes lines of a feed on the plan as read, with its names and
/// weights.
fn begin_run<B: Book, K: Sink>(
    alloc: Global,
    domain: &Domain<B>,
    settings: &Settings,
    plan: Plan,
    names: Names,
    weights: List<u32>,
    posts: &[Post],
    buffer: &mut Vec<u8>,
    out: &mut K,
) -> Result<Running<B>, PrintFault>
    requires judges { ⟦<Rules<B> as Judges>⟧.judges domain.now.rules weights (sizes_of plan) }
    requires in_range { IsInRange settings.now }
    requires schema { IsOfSchema domain.now.schema plan }
    requires few { length posts.now ≤ most_lines }
    requires lines { All (λ post. is_stop post.body ≡ false) posts.now }
    requires empty { buffer.old.items ≡ [] }
    ensures emptied { OnOk result (buffer.new.items ≡ []) }
    ensures prints { (makers : List Made) (posed : Posed)
        → IsPosedBy B.meaning makers (domain_view domain.now) settings.now posed
        → record { plan = plan; names = names; weights = weights } ≡ posed.origin
        → let feed = feed_of (domain_view domain.now) in
        let leg = leg_begun feed posed 0 (taken_at 0 posts.now) posed.origin in
        let text = text_of posed (line.Run posed.name ∷ opening_lines feed posed leg) in
        Prints result text (K.state out.old) (K.state out.new) }
    ensures live { IfOk result (λ running. (makers : List Made) (posed : Posed)
        → IsPosedBy B.meaning makers (domain_view domain.now) settings.now posed
        → record { plan = plan; names = names; weights = weights } ≡ posed.origin
        → let leg = leg_begun (feed_of (domain_view domain.now)) posed 0 (taken_at 0 posts.now) posed.origin in
        IsLive running.core running.team.worker running.best running.names posed 1 (bare leg)) }
    ensures judges { IfOk result (λ running. let seen = running.team.worker.director in
        ⟦<Rules<B> as Judges>⟧.judges domain.now.rules seen.weights (sizes_of seen.plan)) }
    ensures whole { IfOk result (λ running. running.team.is_torn ≡ false) }
    ensures quiet { IfOk result (λ running. IsQuiet running.core) }
    ensures workers { IfOk result (λ running. running.workers ≡ 1) }
{
    print_run(alloc, domain, buffer, out)?;
    first_leg(
        alloc, domain, settings, ALONE, plan, names, weights, posts, buffer, out,
    )
}

/// Prints the best plan of a run that is at its end.
pub fn print_end<B: Book, K: Sink>(
    alloc: Global,
    domain: &Domain<B>,
    running: Running<B>,
    buffer: &mut Vec<u8>,
    out: &mut K,
) -> Result<(), PrintFault>
    requires whole { running.team.is_torn ≡ false }
    requires judges { let seen = running.team.worker.director in
        ⟦<Rules<B> as Judges>⟧.judges domain.now.rules seen.weights (sizes_of seen.plan) }
    requires live { (posed : Posed) × (k : ℕ) × (leg : BareLeg)
        × IsLive running.core running.team.worker running.best running.names posed k leg }
    requires empty { buffer.old.items ≡ [] }
    ensures { (makers : List Made) (settings : Settings) (posed : Posed) (k : ℕ) (leg : BareLeg)
        → IsPosedBy B.meaning makers (domain_view domain.now) settings posed
        → IsLive running.core running.team.worker running.best running.names posed k leg
        → Prints result (text_of posed (best_lines_of posed (best_in posed leg))) (K.state out.old) (K.state out.new) }
{
    let director = running.team.into_director();
    let weights = List::from_slice(alloc, director.weights())?;
    let mut plan = director.into_plan();
    lead_back(running.best.back, &mut plan);
    print_best(alloc, domain, &plan, weights.as_slice(), buffer, out)
}

/// Prints what `replay` prints of a problem, line by line: each line of the feed is taken at the boundary that is named for it.
/// Where memory or the sink fails a front of it was printed.
pub fn replay<T: Threads + Sync, B: Book, K: Sink, G: Gate + Sync>(
    rt: &T,
    alloc: Global,
    gate: &G,
    domain: &Domain<B>,
    problem: Problem,
    posts: &[Post],
    bounds: &[u32],
    out: &mut K,
) -> Result<(), PrintFault>
    requires judges { ⟦<Rules<B> as Judges>⟧.judges domain.now.rules problem.weights (sizes_of problem.plan) }
    requires in_range { IsInRange problem.settings }
    requires schema { IsOfSchema domain.now.schema problem.plan }
    requires lines { AreLines posts.now }
    requires each { length bounds.now ≡ length posts.now }
    requires rising { IsNonDecreasing bounds.now }
    ensures { let makes = map (λ m. (⟦<dyn Maker as Maker>⟧ m.vtable).made m.value) domain.now.makers.items in
        let posed = posed_in B.meaning makes (domain_view domain.now) (problem_view problem) in
        let text = replay_text (grounds_of (domain_view domain.now)) posts.now bounds.now posed in
        Prints result text (K.state out.old) (K.state out.new) }
{
    let Problem {
        plan,
        names,
        settings,
        weights,
        ..
    } = problem;
    let mut buffer = Vec::new(alloc);
    let mut at = end_of(bounds, 0, 0);
    let first = between(posts, 0, at);
    let mut running = begin_run(
        alloc,
        domain,
        &settings,
        plan,
        names,
        weights,
        first,
        &mut buffer,
        out,
    )?;
    'steps: for step in 0..settings.steps {
        let end = end_of(bounds, at, step + 1);
        let taken = between(posts, at, end);
        running = go_on(
            rt,
            alloc,
            gate,
            domain,
            &settings,
            running,
            step + 1,
            taken,
            &mut buffer,
            out,
        )?;
        at = end;
    }
    print_end(alloc, domain, running, &mut buffer, out)
}
