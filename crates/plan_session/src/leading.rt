//! The half of a live run that searches: it cuts the boundaries of its inbox, takes the lines that were posted, and does a step
//! behind each.

ghost use Rattle.std.specs.Prelude.{◌≡◌, ◌≤◌, ◌<◌, ◌+◌, ◌-◌, ◌∷◌, ◌++◌, [], ℕ, All, Any, IfErr, IfNone, IfOk, IfSome, IsErrOf, List, OnErr, OnOk, false, length, map, suc};
ghost use mathlib.Core.List.{IsPrefix};
ghost use Rattle.change_feed.specs.Feeds.{is_stop};
ghost use Rattle.change_inbox.specs.Entries.{posts_in, shuts_in};
ghost use Rattle.change_inbox.specs.Seats.{own_of};
ghost use Rattle.live_lines.specs.Taking.{Taken};
ghost use Rattle.live_posts.specs.Cuts.{posts_taken, take_at, taken_by};
ghost use Rattle.feed_lines.specs.Limits.{most_lines};
ghost use Rattle.move_selectors.specs.Candidates.{Made};
ghost use Rattle.plan_changes.specs.Fits.{IsOfSchema};
ghost use Rattle.plan_changes.specs.declared.line.Body.TheVariants as body;
ghost use Rattle.plan_json.specs.Seen.{domain_view};
ghost use Rattle.plan_ports.specs.Outside.{LaterSink, SinkFails, SinkState, Wrote, WroteFront};
ghost use Rattle.plan_rules.specs.Range.{sizes_of};
ghost use Rattle.plan_search.specs.Posed.{Posed};
ghost use Rattle.plan_settings.specs.Settings.{IsInRange};
ghost use Rattle.plan_words.specs.Command.{AreHands};
ghost use Rattle.plan_session.specs.Begun.{IsPosedBy};
ghost use Rattle.plan_session.specs.Course.{BareLeg, IsQuiet};
ghost use Rattle.plan_session.specs.LiveRuns.{AreInOrder, ForCuts, ForFirstCuts, HasNamed, HasNoStop, TookItsStop};
ghost use Rattle.plan_session.specs.Fed.{bare, fed_text};
ghost use Rattle.plan_session.specs.Live.{IsLive, IsLiveMade, leg_begun, leg_behind, made_leg, opening_text, text_behind, text_made};
ghost use Rattle.plan_session.specs.Origins.{origin_state};
ghost use Rattle.plan_session.specs.Replayed.{feed_of};

use crate::legs::{Origin, Running, advance, cross, first_leg};
use crate::live_fault::LiveFault;
use crate::searching::Hands;
use change_inbox::Inbox;
use live_posts::Cutter;
use plan_changes::{Body, Post, StopCause};
use plan_facts::List;
use plan_json::Domain;
use plan_moves::MoveMaker as Maker;
use plan_ports::{Gate, Place, Sink};
use plan_rules::{Book, Judges, Rules};
use plan_settings::Settings;
use std::alloc::Global;
use std::sync::Wait;
use std::thread::Threads;

/// The most lines of a feed.
const MOST_LINES: usize = 4_096;

/// The cause of the first stop among posts; none where there is no stop.
fn stop_in(posts: &[Post]) -> Option<StopCause>
    ensures none { IfNone result (All (λ post. is_stop post.body ≡ false) posts.now) }
    ensures some { IfSome result (λ cause. Any (λ post. post.body ≡ body.Stop cause) posts.now) }
{
    'posts: for post in posts {
        if let Body::Stop(cause) = &post.body {
            return Some(*cause);
        }
    }
    None
}

/// Cuts a boundary, and takes the lines that were posted since the cut before it. Where a stop is among them they aren't taken.
fn cut_lines<W: Wait, G: Gate>(
    rt: &W,
    gate: &G,
    inbox: &Inbox<Post>,
    cutter: &mut Cutter<Post>,
    boundary: u32,
) -> Result<List<Post>, LiveFault>
    requires own { cutter.old.inbox ≡ inbox.now }
    requires last { cutter.old.number + 1 ≡ inbox.now.limits.seats }
    requires room { length (taken_by cutter.old) < inbox.now.limits.cuts }
    ensures took { (posts : List Post) × (taken_by cutter.new ≡ taken_by cutter.old ++ take_at boundary posts ∷ [])
        × IfOk result (λ lines. lines ≡ posts) }
    ensures few { IfOk result (λ lines. length lines ≤ most_lines) }
    ensures lines { IfOk result (λ lines. All (λ post. is_stop post.body ≡ false) lines) }
    ensures stopped { TookItsStop result (taken_by cutter.new) }
    ensures unwritten { IsErrOf result LiveFault.Write → ⊥ }
    ensures all { IsPrefix (posts_in cutter.old.seen) (posts_taken (taken_by cutter.new)) }
    ensures shuts { shuts_in (own_of cutter.new) ≡ shuts_in (own_of cutter.old) }
    ensures seat { (cutter.new.inbox ≡ inbox.now) × (cutter.new.number ≡ cutter.old.number) }
{
    gate.enter(Place::Boundary(boundary));
    let posts = cutter.cut(rt, inbox, boundary)?;
    if let Some(cause) = stop_in(posts.as_slice()) {
        return Err(LiveFault::Stopped(cause));
    }
    if posts.len() > MOST_LINES {
        return Err(LiveFault::Memory);
    }
    Ok(posts)
}

/// Cuts the first boundary, and begins the first leg, which takes lines of a feed.
pub fn begin_live<W: Wait, B: Book, K: Sink, G: Gate>(
    rt: &W,
    alloc: Global,
    gate: &G,
    domain: &Domain<B>,
    settings: &Settings,
    hands: Hands,
    origin: Origin,
    inbox: &Inbox<Post>,
    cutter: &mut Cutter<Post>,
    buffer: &mut Vec<u8>,
    out: &mut K,
) -> Result<Running<B>, LiveFault>
    requires judges { ⟦<Rules<B> as Judges>⟧.judges domain.now.rules origin.weights (sizes_of origin.plan) }
    requires in_range { IsInRange settings.now }
    requires hands { AreHands hands.workers hands.buffer }
    requires schema { IsOfSchema domain.now.schema origin.plan }
    requires own { cutter.old.inbox ≡ inbox.now }
    requires last { cutter.old.number + 1 ≡ inbox.now.limits.seats }
    requires room { 1 ≤ inbox.now.limits.cuts }
    requires fresh { taken_by cutter.old ≡ [] }
    requires empty { buffer.old.items ≡ [] }
    ensures emptied { OnOk result (buffer.new.items ≡ []) }
    ensures cut { (posts : List Post) × (taken_by cutter.new ≡ take_at 0 posts ∷ []) }
    ensures no_stop { OnOk result (HasNoStop (taken_by cutter.new)) }
    ensures stopped { TookItsStop result (taken_by cutter.new) }
    ensures failed { IsErrOf result LiveFault.Write → SinkFails (K.state out.old) (K.state out.new) }
    ensures later { LaterSink (K.state out.old) (K.state out.new) }
    ensures printed { OnOk result (ForCuts (taken_by cutter.new) (λ takes. (makers : List Made) (posed : Posed)
        → IsPosedBy B.meaning makers (domain_view domain.now) settings.now posed
        → origin_state origin ≡ posed.origin
        → let text = opening_text (feed_of (domain_view domain.now)) posed 0 (takes 0) posed.origin in
        Wrote text (K.state out.old) (K.state out.new))) }
    ensures broken { OnErr result (ForFirstCuts 0 (taken_by cutter.new) (λ takes. (makers : List Made) (posed : Posed)
        → IsPosedBy B.meaning makers (domain_view domain.now) settings.now posed
        → origin_state origin ≡ posed.origin
        → let text = opening_text (feed_of (domain_view domain.now)) posed 0 (takes 0) posed.origin in
        WroteFront text (K.state out.old) (K.state out.new))) }
    ensures live { IfOk result (λ running. ForCuts (taken_by cutter.new) (λ takes. (makers : List Made) (posed : Posed)
        → IsPosedBy B.meaning makers (domain_view domain.now) settings.now posed
        → origin_state origin ≡ posed.origin
        → let leg = leg_begun (feed_of (domain_view domain.now)) posed 0 (takes 0) posed.origin in
        IsLive running.core running.team.worker running.best running.names posed 1 (bare leg))) }
    ensures judges { IfOk result (λ running. let seen = running.team.worker.director in
        ⟦<Rules<B> as Judges>⟧.judges domain.now.rules seen.weights (sizes_of seen.plan)) }
    ensures whole { IfOk result (λ running. running.team.is_torn ≡ false) }
    ensures quiet { IfOk result (λ running. IsQuiet running.core) }
    ensures workers { IfOk result (λ running. running.workers ≡ hands.workers) }
    ensures all { IsPrefix (posts_in cutter.old.seen) (posts_taken (taken_by cutter.new)) }
    ensures shuts { shuts_in (own_of cutter.new) ≡ shuts_in (own_of cutter.old) }
    ensures seat { (cutter.new.inbox ≡ inbox.now) × (cutter.new.number ≡ cutter.old.number) }
{
    let posts = cut_lines(rt, gate, inbox, cutter, 0)?;
    let Origin {
        plan,
        names,
        weights,
    } = origin;
    let running = first_leg(
        alloc,
        domain,
        settings,
        hands,
        plan,
        names,
        weights,
        posts.as_slice(),
        buffer,
        out,
    )?;
    Ok(running)
}

/// Cuts the boundary behind a step, and begins a leg there if lines of a feed were posted since the cut before it.
pub fn cut_live<W: Wait, B: Book, K: Sink, G: Gate>(
    rt: &W,
    alloc: Global,
    gate: &G,
    domain: &Domain<B>,
    settings: &Settings,
    running: Running<B>,
    boundary: u32,
    inbox: &Inbox<Post>,
    cutter: &mut Cutter<Post>,
    buffer: &mut Vec<u8>,
    out: &mut K,
) -> Result<Running<B>, LiveFault>
    requires workers { (1 ≤ running.workers) × (running.workers ≤ 16) }
    requires in_range { IsInRange settings.now }
    requires whole { running.team.is_torn ≡ false }
    requires judges { let seen = running.team.worker.director in
        ⟦<Rules<B> as Judges>⟧.judges domain.now.rules seen.weights (sizes_of seen.plan) }
    requires made { (makers : List Made) × (posed : Posed) × (leg : BareLeg)
        × IsPosedBy B.meaning makers (domain_view domain.now) settings.now posed
        × IsLiveMade running.core running.team.worker running.best running.names posed boundary leg }
    requires step { 1 ≤ boundary }
    requires within { boundary ≤ settings.now.steps }
    requires own { cutter.old.inbox ≡ inbox.now }
    requires last { cutter.old.number + 1 ≡ inbox.now.limits.seats }
    requires room { boundary < inbox.now.limits.cuts }
    requires cuts { length (taken_by cutter.old) ≡ boundary }
    requires no_stop { HasNoStop (taken_by cutter.old) }
    requires empty { buffer.old.items ≡ [] }
    ensures emptied { OnOk result (buffer.new.items ≡ []) }
    ensures cut { (posts : List Post) × (taken_by cutter.new ≡ taken_by cutter.old ++ take_at boundary posts ∷ []) }
    ensures no_stop { OnOk result (HasNoStop (taken_by cutter.new)) }
    ensures stopped { TookItsStop result (taken_by cutter.new) }
    ensures failed { IsErrOf result LiveFault.Write → SinkFails (K.state out.old) (K.state out.new) }
    ensures later { LaterSink (K.state out.old) (K.state out.new) }
    ensures printed { OnOk result (ForCuts (taken_by cutter.new) (λ takes.
        (makers : List Made) (posed : Posed) (leg : BareLeg)
        → IsPosedBy B.meaning makers (domain_view domain.now) settings.now posed
        → IsLiveMade running.core running.team.worker running.best running.names posed boundary leg
        → let text = text_behind (feed_of (domain_view domain.now)) posed boundary (takes boundary) leg in
        Wrote text (K.state out.old) (K.state out.new))) }
    ensures broken { OnErr result (ForFirstCuts boundary (taken_by cutter.new) (λ takes.
        (makers : List Made) (posed : Posed) (leg : BareLeg)
        → IsPosedBy B.meaning makers (domain_view domain.now) settings.now posed
        → IsLiveMade running.core running.team.worker running.best running.names posed boundary leg
        → let text = text_behind (feed_of (domain_view domain.now)) posed boundary (takes boundary) leg in
        WroteFront text (K.state out.old) (K.state out.new))) }
    ensures live { IfOk result (λ next. ForCuts (taken_by cutter.new) (λ takes.
        (makers : List Made) (posed : Posed) (leg : BareLeg)
        → IsPosedBy B.meaning makers (domain_view domain.now) settings.now posed
        → IsLiveMade running.core running.team.worker running.best running.names posed boundary leg
        → let behind = leg_behind (feed_of (domain_view domain.now)) posed boundary (takes boundary) leg in
        IsLive next.core next.team.worker next.best next.names posed (suc boundary) behind)) }
    ensures judges { IfOk result (λ next. let seen = next.team.worker.director in
        ⟦<Rules<B> as Judges>⟧.judges domain.now.rules seen.weights (sizes_of seen.plan)) }
    ensures whole { IfOk result (λ next. next.team.is_torn ≡ false) }
    ensures quiet { IfOk result (λ next. IsQuiet next.core) }
    ensures workers { IfOk result (λ next. next.workers ≡ running.workers) }
    ensures all { IsPrefix (posts_in cutter.old.seen) (posts_taken (taken_by cutter.new)) }
    ensures shuts { shuts_in (own_of cutter.new) ≡ shuts_in (own_of cutter.old) }
    ensures seat { (cutter.new.inbox ≡ inbox.now) × (cutter.new.number ≡ cutter.old.number) }
{
    let posts = cut_lines(rt, gate, inbox, cutter, boundary)?;
    let next = cross(
        alloc,
        domain,
        settings,
        running,
        boundary,
        posts.as_slice(),
        buffer,
        out,
    )?;
    Ok(next)
}

/// Begins the search behind the first boundary's cut, and does all steps but for the cut behind the last one: cuts the boundary
/// behind each, where a leg begins if lines of a feed were posted.
pub fn lead<T: Threads + Wait + Sync, B: Book, K: Sink, G: Gate + Sync>(
    rt: &T,
    alloc: Global,
    gate: &G,
    domain: &Domain<B>,
    settings: &Settings,
    hands: Hands,
    origin: Origin,
    inbox: &Inbox<Post>,
    cutter: &mut Cutter<Post>,
    out: &mut K,
) -> Result<Running<B>, LiveFault>
    requires judges { ⟦<Rules<B> as Judges>⟧.judges domain.now.rules origin.weights (sizes_of origin.plan) }
    requires in_range { IsInRange settings.now }
    requires hands { AreHands hands.workers hands.buffer }
    requires schema { IsOfSchema domain.now.schema origin.plan }
    requires some { 1 ≤ settings.now.steps }
    requires own { cutter.old.inbox ≡ inbox.now }
    requires last { cutter.old.number + 1 ≡ inbox.now.limits.seats }
    requires room { settings.now.steps < inbox.now.limits.cuts }
    requires fresh { taken_by cutter.old ≡ [] }
    ensures few { length (taken_by cutter.new) ≤ settings.now.steps }
    ensures all { OnOk result (length (taken_by cutter.new) ≡ settings.now.steps) }
    ensures in_order { AreInOrder (taken_by cutter.new) }
    ensures no_stop { OnOk result (HasNoStop (taken_by cutter.new)) }
    ensures stopped { TookItsStop result (taken_by cutter.new) }
    ensures failed { IsErrOf result LiveFault.Write → SinkFails (K.state out.old) (K.state out.new) }
    ensures later { LaterSink (K.state out.old) (K.state out.new) }
    ensures printed { let makes = map (λ m. (⟦<dyn Maker as Maker>⟧ m.vtable).made m.value) domain.now.makers.items in
        OnOk result (ForCuts (taken_by cutter.new) (λ takes. (posed : Posed) (start : SinkState)
        → IsPosedBy B.meaning makes (domain_view domain.now) settings.now posed
        → origin_state origin ≡ posed.origin
        → HasNamed posed start (K.state out.old)
        → let text = text_made (feed_of (domain_view domain.now)) posed takes (settings.now.steps - 1) in
        Wrote text start (K.state out.new))) }
    ensures broken { let makes = map (λ m. (⟦<dyn Maker as Maker>⟧ m.vtable).made m.value) domain.now.makers.items in
        OnErr result (ForFirstCuts 0 (taken_by cutter.new) (λ takes. (posed : Posed) (start : SinkState)
        → IsPosedBy B.meaning makes (domain_view domain.now) settings.now posed
        → origin_state origin ≡ posed.origin
        → HasNamed posed start (K.state out.old)
        → WroteFront (fed_text (feed_of (domain_view domain.now)) posed takes) start (K.state out.new))) }
    ensures made { let makes = map (λ m. (⟦<dyn Maker as Maker>⟧ m.vtable).made m.value) domain.now.makers.items in
        IfOk result (λ running. ForCuts (taken_by cutter.new) (λ takes. (posed : Posed)
        → IsPosedBy B.meaning makes (domain_view domain.now) settings.now posed
        → origin_state origin ≡ posed.origin
        → let leg = made_leg (feed_of (domain_view domain.now)) posed takes (settings.now.steps - 1) in
        IsLiveMade running.core running.team.worker running.best running.names posed settings.now.steps leg)) }
    ensures judges { IfOk result (λ running. let seen = running.team.worker.director in
        ⟦<Rules<B> as Judges>⟧.judges domain.now.rules seen.weights (sizes_of seen.plan)) }
    ensures whole { IfOk result (λ running. running.team.is_torn ≡ false) }
    ensures workers { IfOk result (λ running. running.workers ≡ hands.workers) }
    ensures shuts { shuts_in (own_of cutter.new) ≡ shuts_in (own_of cutter.old) }
    ensures seat { (cutter.new.inbox ≡ inbox.now) × (cutter.new.number ≡ cutter.old.number) }
{
    let mut buffer = Vec::new(alloc);
    let mut running = begin_live(
        rt,
        alloc,
        gate,
        domain,
        settings,
        hands,
        origin,
        inbox,
        cutter,
        &mut buffer,
        out,
    )?;
    let last = settings.steps;
    'steps: for step in 1..last {
        running = advance(rt, gate, domain, settings, running, step, &mut buffer, out)?;
        running = cut_live(
            rt,
            alloc,
            gate,
            domain,
            settings,
            running,
            step,
            inbox,
            cutter,
            &mut buffer,
            out,
        )?;
    }
    let made = advance(rt, gate, domain, settings, running, last, &mut buffer, out)?;
    Ok(made)
}
