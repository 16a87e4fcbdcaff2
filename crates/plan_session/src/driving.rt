//! A live run: one half posts the lines of a feed as they come, the other searches and takes them at its boundaries.

ghost use Rattle.std.specs.Prelude.{All, ◌≡◌, ◌≤◌, ◌<◌, ◌+◌, ◌-◌, [], List, IfErr, IfOk, IfSome, IsErrOf, IsSome, OnErr, OnOk, false, length, map};
ghost use mathlib.Core.List.{IsPrefix};
ghost use Rattle.change_inbox.specs.Entries.{posts_in, shuts_in};
ghost use Rattle.change_inbox.specs.Seats.{fresh_seat, own_of};
ghost use Rattle.live_posts.specs.Cuts.{posts_taken, taken_by};
ghost use Rattle.move_selectors.specs.Candidates.{Made};
ghost use Rattle.plan_changes.specs.Fits.{IsOfSchema};
ghost use Rattle.plan_json.specs.Accepted.{problem_view};
ghost use Rattle.plan_json.specs.Seen.{domain_view};
ghost use Rattle.plan_ports.specs.Outside.{LaterSink, LaterSource, SinkState, Wrote};
ghost use Rattle.plan_rules.specs.Meaning.{KeyAnswers, TestAnswers, WeighAnswers};
ghost use Rattle.plan_rules.specs.Range.{MayJudge, sizes_of};
ghost use Rattle.plan_search.specs.Posed.{Posed};
ghost use Rattle.plan_settings.specs.Settings.{IsInRange};
ghost use Rattle.plan_words.specs.Command.{AreHands};
ghost use Rattle.plan_session.specs.Begun.{IsPosedBy};
ghost use Rattle.plan_session.specs.Course.{BareLeg};
ghost use Rattle.plan_session.specs.Live.{IsLiveMade, made_leg, text_made};
ghost use Rattle.plan_session.specs.LiveFaults.{shuts_for, status_of_end};
ghost use Rattle.plan_session.specs.LiveRuns.{AreInOrder, Drove, EndsLive, ForCuts, HasFed, HasLed, HasNamed, HasNoStop, HasSteps};
ghost use Rattle.plan_session.specs.Origins.{origin_state};
ghost use Rattle.plan_session.specs.Posed.{posed_at, posed_in};
ghost use Rattle.plan_session.specs.Replayed.{feed_of, grounds_of};

use crate::leading::{begin_live, cut_live, lead};
use crate::legs::{Origin, Running};
use crate::live_fault::LiveFault;
use crate::replaying::print_end;
use crate::searching::{Hands, print_run};
use crate::status::Status;
use change_inbox::{Inbox, Journal, Seat};
use live_posts::{Cutter, Fed, close_run, feed_all, open_run};
use plan_changes::{Post, StopCause};
use plan_json::{Domain, Problem};
use plan_moves::MoveMaker as Maker;
use plan_ports::{Gate, Sink, Source};
use plan_rules::{Book, Judges, KeyBody, Rules, TestBody, WeighBody};
use plan_settings::Settings;
use std::alloc::Global;
use std::marker::PhantomData;
use std::sync::Wait;
use std::thread::{Threads, join_mut};

/// The most posts of a run: the most lines of a feed, and a stop.
const MOST_POSTS: u32 = 4_097;

/// How a live run ended, and its journal: what was posted and at which boundaries it was taken. There is none only where memory
/// was wanting.
#[derive(Drop)]
pub struct Driven {
    pub status: Status,
    pub journal: Option<Journal<Post>>,
}

/// The status of a live run that ended so.
fn status_of_end(ended: Result<(), LiveFault>) -> Status
    ensures { result ≡ status_of_end ended }
{
    match ended {
        Ok(()) => Status::Ok,
        Err(LiveFault::Memory) => Status::Memory,
        Err(LiveFault::Write) => Status::Write,
        Err(LiveFault::Stopped(StopCause::Memory)) => Status::Memory,
        Err(LiveFault::Stopped(StopCause::ReadFault)) => Status::Feed,
        Err(LiveFault::Stopped(StopCause::Overrun)) => Status::FeedTooLong,
    }
}

/// The types of the rules' closures. What is asked of a half in a thread of its own has to name them.
type Bodies = PhantomData<(TestBody, KeyBody, WeighBody)>;

/// Has the other half end where this one ended early: shuts the inbox, unless the feed has stopped by itself.
fn give_up<W: Wait>(rt: &W, inbox: &Inbox<Post>, cutter: &mut Cutter<Post>, fault: LiveFault)
    requires own { cutter.old.inbox ≡ inbox.now }
    requires once { shuts_in (own_of cutter.old) ≡ 0 }
    ensures took { taken_by cutter.new ≡ taken_by cutter.old }
    ensures shuts { shuts_in (own_of cutter.new) ≡ shuts_for fault }
    ensures seat { (cutter.new.inbox ≡ inbox.now) × (cutter.new.number ≡ cutter.old.number) }
{
    match fault {
        LiveFault::Stopped(_) => {}
        LiveFault::Memory => cutter.shut(rt, inbox),
        LiveFault::Write => cutter.shut(rt, inbox),
    }
}

/// The half that searches. Where it ends early, and not for a stop of the feed, it shuts the inbox, so that the other half ends.
fn lead_half<T: Threads + Wait + Sync, B: Book, K: Sink, G: Gate + Sync>(
    rt: &T,
    alloc: Global,
    gate: &G,
    domain: &Domain<B>,
    settings: &Settings,
    hands: Hands,
    origin: &mut Option<Origin>,
    inbox: &Inbox<Post>,
    cutter: &mut Cutter<Post>,
    out: &mut K,
    _bodies: Bodies,
) -> Result<Running<B>, LiveFault>
    requires given { IsSome origin.old }
    requires judges { IfSome origin.old (λ origin.
        ⟦<Rules<B> as Judges>⟧.judges domain.now.rules origin.weights (sizes_of origin.plan)) }
    requires schema { IfSome origin.old (λ origin. IsOfSchema domain.now.schema origin.plan) }
    requires in_range { IsInRange settings.now }
    requires hands { AreHands hands.workers hands.buffer }
    requires some { 1 ≤ settings.now.steps }
    requires room { settings.now.steps < inbox.now.limits.cuts }
    requires seats { inbox.now.limits.seats ≡ 2 }
    requires fresh { cutter.old ≡ fresh_seat inbox.now 1 }
    ensures led { let makes = map (λ m. (⟦<dyn Maker as Maker>⟧ m.vtable).made m.value) domain.now.makers.items in
        IfSome origin.old (λ origin.
        let posed = posed_at B.meaning makes (domain_view domain.now) settings.now (origin_state origin) in
        let by = grounds_of (domain_view domain.now) in
        HasLed by posed (taken_by cutter.new) (K.state out.old) (K.state out.new) result) }
    ensures steps { let makes = map (λ m. (⟦<dyn Maker as Maker>⟧ m.vtable).made m.value) domain.now.makers.items in
        IfSome origin.old (λ origin. IfOk result (λ running.
        let posed = posed_at B.meaning makes (domain_view domain.now) settings.now (origin_state origin) in
        let by = grounds_of (domain_view domain.now) in
        HasSteps by posed (taken_by cutter.new) running.core running.team.worker running.best running.names)) }
    ensures judges { IfOk result (λ running. let seen = running.team.worker.director in
        ⟦<Rules<B> as Judges>⟧.judges domain.now.rules seen.weights (sizes_of seen.plan)) }
    ensures whole { IfOk result (λ running. running.team.is_torn ≡ false) }
    ensures workers { IfOk result (λ running. running.workers ≡ hands.workers) }
    ensures unshut { OnOk result (shuts_in (own_of cutter.new) ≡ 0) }
    ensures shuts { IfErr result (λ fault. shuts_in (own_of cutter.new) ≡ shuts_for fault) }
    ensures seat { (cutter.new.inbox ≡ inbox.now) × (cutter.new.number ≡ cutter.old.number) }
{
    let Some(origin) = origin.take() else {
        unreachable!();
    };
    match lead(
        rt, alloc, gate, domain, settings, hands, origin, inbox, cutter, out,
    ) {
        Ok(running) => Ok(running),
        Err(fault) => {
            give_up(rt, inbox, cutter, fault);
            Err(fault)
        }
    }
}

/// Cuts the last boundary, and prints the end of the text.
fn end_live<W: Wait, B: Book, K: Sink, G: Gate>(
    rt: &W,
    alloc: Global,
    gate: &G,
    domain: &Domain<B>,
    settings: &Settings,
    running: Running<B>,
    inbox: &Inbox<Post>,
    cutter: &mut Cutter<Post>,
    out: &mut K,
) -> Result<(), LiveFault>
    requires workers { (1 ≤ running.workers) × (running.workers ≤ 16) }
    requires in_range { IsInRange settings.now }
    requires whole { running.team.is_torn ≡ false }
    requires judges { let seen = running.team.worker.director in
        ⟦<Rules<B> as Judges>⟧.judges domain.now.rules seen.weights (sizes_of seen.plan) }
    requires made { (makers : List Made) × (posed : Posed) × (leg : BareLeg)
        × IsPosedBy B.meaning makers (domain_view domain.now) settings.now posed
        × IsLiveMade running.core running.team.worker running.best running.names posed settings.now.steps leg }
    requires some { 1 ≤ settings.now.steps }
    requires own { cutter.old.inbox ≡ inbox.now }
    requires last { cutter.old.number + 1 ≡ inbox.now.limits.seats }
    requires room { settings.now.steps < inbox.now.limits.cuts }
    requires cuts { length (taken_by cutter.old) ≡ settings.now.steps }
    requires no_stop { HasNoStop (taken_by cutter.old) }
    requires in_order { AreInOrder (taken_by cutter.old) }
    ensures ended { (makers : List Made) (posed : Posed) (start : SinkState)
        → IsPosedBy B.meaning makers (domain_view domain.now) settings.now posed
        → ForCuts (taken_by cutter.old) (λ takes.
        let leg = made_leg (feed_of (domain_view domain.now)) posed takes (settings.now.steps - 1) in
        let text = text_made (feed_of (domain_view domain.now)) posed takes (settings.now.steps - 1) in
        Wrote text start (K.state out.old)
        × IsLiveMade running.core running.team.worker running.best running.names posed settings.now.steps leg)
        → LaterSink start (K.state out.old)
        → let by = grounds_of (domain_view domain.now) in
        EndsLive by posed (taken_by cutter.new) start (K.state out.new) result }
    ensures later { LaterSink (K.state out.old) (K.state out.new) }
    ensures all { IsPrefix (posts_in cutter.old.seen) (posts_taken (taken_by cutter.new)) }
    ensures shuts { shuts_in (own_of cutter.new) ≡ shuts_in (own_of cutter.old) }
    ensures seat { (cutter.new.inbox ≡ inbox.now) × (cutter.new.number ≡ cutter.old.number) }
{
    let mut buffer = Vec::new(alloc);
    let running = cut_live(
        rt,
        alloc,
        gate,
        domain,
        settings,
        running,
        settings.steps,
        inbox,
        cutter,
        &mut buffer,
        out,
    )?;
    print_end(alloc, domain, running, &mut buffer, out)?;
    Ok(())
}

/// Does a run of no steps: its one boundary takes the whole feed.
fn run_at_once<W: Wait, B: Book, K: Sink, G: Gate>(
    rt: &W,
    alloc: Global,
    gate: &G,
    domain: &Domain<B>,
    settings: &Settings,
    hands: Hands,
    origin: Origin,
    inbox: &Inbox<Post>,
    cutter: &mut Cutter<Post>,
    out: &mut K,
) -> Result<(), LiveFault>
    requires judges { ⟦<Rules<B> as Judges>⟧.judges domain.now.rules origin.weights (sizes_of origin.plan) }
    requires in_range { IsInRange settings.now }
    requires hands { AreHands hands.workers hands.buffer }
    requires schema { IsOfSchema domain.now.schema origin.plan }
    requires none { settings.now.steps ≡ 0 }
    requires own { cutter.old.inbox ≡ inbox.now }
    requires last { cutter.old.number + 1 ≡ inbox.now.limits.seats }
    requires room { 1 ≤ inbox.now.limits.cuts }
    requires fresh { taken_by cutter.old ≡ [] }
    ensures ended { (makers : List Made) (posed : Posed) (start : SinkState)
        → IsPosedBy B.meaning makers (domain_view domain.now) settings.now posed
        → origin_state origin ≡ posed.origin → HasNamed posed start (K.state out.old)
        → let by = grounds_of (domain_view domain.now) in
        EndsLive by posed (taken_by cutter.new) start (K.state out.new) result }
    ensures later { LaterSink (K.state out.old) (K.state out.new) }
    ensures all { IsPrefix (posts_in cutter.old.seen) (posts_taken (taken_by cutter.new)) }
    ensures shuts { shuts_in (own_of cutter.new) ≡ shuts_in (own_of cutter.old) }
    ensures seat { (cutter.new.inbox ≡ inbox.now) × (cutter.new.number ≡ cutter.old.number) }
{
    let mut buffer = Vec::new(alloc);
    let running = begin_live(
        rt,
        alloc,
        gate,
        domain,
        settings,
        hands,
        origin,
        inbox,
        cutter,
        &mut buffer,
        out,
    )?;
    print_end(alloc, domain, running, &mut buffer, out)?;
    Ok(())
}

/// Both halves, each in a thread of its own where one can be made.
fn halves<T: Threads + Wait + Sync, B: Book, R: Source + Send, K: Sink + Send, G: Gate + Sync>(
    rt: &T,
    alloc: Global,
    gate: &G,
    domain: &Domain<B>,
    settings: &Settings,
    hands: Hands,
    origin: &mut Option<Origin>,
    inbox: &Inbox<Post>,
    feeder: &mut Seat<Post>,
    cutter: &mut Cutter<Post>,
    feed: &mut R,
    out: &mut K,
    bodies: Bodies,
) -> (Fed, Result<Running<B>, LiveFault>)
    requires tests { All (λ test. TestAnswers (TestBody.post test.body) (B.meaning.test_of test.number))
        domain.now.rules.tests }
    requires keys { All (λ key. KeyAnswers (KeyBody.post key.body) (B.meaning.key_of key.number))
        domain.now.rules.keys }
    requires weighs { All (λ w. WeighAnswers (WeighBody.post w.body) w.cap (B.meaning.weight_of w.number))
        domain.now.rules.weighs }
    requires given { IsSome origin.old }
    requires may { IfSome origin.old (λ origin.
        MayJudge domain.now.rules.defs domain.now.rules.caps origin.weights (sizes_of origin.plan)) }
    requires schema { IfSome origin.old (λ origin. IsOfSchema domain.now.schema origin.plan) }
    requires in_range { IsInRange settings.now }
    requires hands { AreHands hands.workers hands.buffer }
    requires some { 1 ≤ settings.now.steps }
    requires room { settings.now.steps < inbox.now.limits.cuts }
    requires seats { inbox.now.limits.seats ≡ 2 }
    requires fresh { cutter.old ≡ fresh_seat inbox.now 1 }
    requires feeder { feeder.old ≡ fresh_seat inbox.now 0 }
    ensures fed { HasFed result.0 feeder.new (R.state feed.old) (R.state feed.new) }
    ensures feeder { (feeder.new.inbox ≡ inbox.now) × (feeder.new.number ≡ feeder.old.number) }
    ensures led { let makes = map (λ m. (⟦<dyn Maker as Maker>⟧ m.vtable).made m.value) domain.now.makers.items in
        IfSome origin.old (λ origin.
        let posed = posed_at B.meaning makes (domain_view domain.now) settings.now (origin_state origin) in
        let by = grounds_of (domain_view domain.now) in
        HasLed by posed (taken_by cutter.new) (K.state out.old) (K.state out.new) result.1) }
    ensures steps { let makes = map (λ m. (⟦<dyn Maker as Maker>⟧ m.vtable).made m.value) domain.now.makers.items in
        IfSome origin.old (λ origin. IfOk result.1 (λ running.
        let posed = posed_at B.meaning makes (domain_view domain.now) settings.now (origin_state origin) in
        let by = grounds_of (domain_view domain.now) in
        HasSteps by posed (taken_by cutter.new) running.core running.team.worker running.best running.names)) }
    ensures judges { IfOk result.1 (λ running. let seen = running.team.worker.director in
        ⟦<Rules<B> as Judges>⟧.judges domain.now.rules seen.weights (sizes_of seen.plan)) }
    ensures whole { IfOk result.1 (λ running. running.team.is_torn ≡ false) }
    ensures workers { IfOk result.1 (λ running. running.workers ≡ hands.workers) }
    ensures unshut { OnOk result.1 (shuts_in (own_of cutter.new) ≡ 0) }
    ensures seat { (cutter.new.inbox ≡ inbox.now) × (cutter.new.number ≡ cutter.old.number) }
{
    join_mut(
        rt,
        &mut || feed_all(rt, alloc, inbox, feeder, feed, gate),
        &mut ||
            requires tests { All (λ test. TestAnswers (TestBody.post test.body) (B.meaning.test_of test.number))
                domain.now.rules.tests }
            requires keys { All (λ key. KeyAnswers (KeyBody.post key.body) (B.meaning.key_of key.number))
                domain.now.rules.keys }
            requires weighs { All (λ w. WeighAnswers (WeighBody.post w.body) w.cap (B.meaning.weight_of w.number))
                domain.now.rules.weighs }
            requires given { IsSome origin.now }
            requires may { IfSome origin.now (λ origin.
                MayJudge domain.now.rules.defs domain.now.rules.caps origin.weights (sizes_of origin.plan)) }
            requires schema { IfSome origin.now (λ origin. IsOfSchema domain.now.schema origin.plan) }
            requires in_range { IsInRange settings.now }
            requires hands { AreHands hands.workers hands.buffer }
            requires some { 1 ≤ settings.now.steps }
            requires room { settings.now.steps < inbox.now.limits.cuts }
            requires seats { inbox.now.limits.seats ≡ 2 }
            requires fresh { cutter.now ≡ fresh_seat inbox.now 1 }
            ensures led { let makes = map (λ m. made (m.vtable, m.value)) domain.entry.now.makers.items in
                IfSome origin.entry.now (λ origin. let view = domain_view domain.entry.now in
                let posed = posed_at B.meaning makes view settings.entry.now (origin_state origin) in
                let by = grounds_of view in
                HasLed by posed (taken_by cutter.exit.now) (K.state out.entry.now) (K.state out.exit.now) result) }
            ensures steps { let makes = map (λ m. made (m.vtable, m.value)) domain.entry.now.makers.items in
                IfSome origin.entry.now (λ origin. IfOk result (λ running.
                let view = domain_view domain.entry.now in
                let posed = posed_at B.meaning makes view settings.entry.now (origin_state origin) in
                let by = grounds_of view in let cuts = taken_by cutter.exit.now in
                HasSteps by posed cuts running.core running.team.worker running.best running.names)) }
            ensures may { IfOk result (λ running. let seen = running.team.worker.director in
                let rules = domain.entry.now.rules in
                MayJudge rules.defs rules.caps seen.weights (sizes_of seen.plan)) }
            ensures whole { IfOk result (λ running. running.team.is_torn ≡ false) }
            ensures workers { IfOk result (λ running. running.workers ≡ hands.workers) }
            ensures unshut { OnOk result (shuts_in (own_of cutter.exit.now) ≡ 0) }
            ensures seat { let seat = cutter.exit.now in
                (seat.inbox ≡ inbox.entry.now) × (seat.number ≡ cutter.entry.now.number) }
        {
            lead_half(
                rt, alloc, gate, domain, settings, hands, origin, inbox, cutter, out, bodies,
            )
        },
    )
}

/// Feeds and searches at once, and then cuts the last boundary, which takes what is left of the feed.
fn run_both<T: Threads + Wait + Sync, B: Book, R: Source + Send, K: Sink + Send, G: Gate + Sync>(
    rt: &T,
    alloc: Global,
    gate: &G,
    domain: &Domain<B>,
    settings: &Settings,
    hands: Hands,
    origin: Origin,
    inbox: &Inbox<Post>,
    feeder: &mut Seat<Post>,
    cutter: &mut Cutter<Post>,
    feed: &mut R,
    out: &mut K,
) -> (Fed, Result<(), LiveFault>)
    requires judges { ⟦<Rules<B> as Judges>⟧.judges domain.now.rules origin.weights (sizes_of origin.plan) }
    requires in_range { IsInRange settings.now }
    requires hands { AreHands hands.workers hands.buffer }
    requires schema { IsOfSchema domain.now.schema origin.plan }
    requires some { 1 ≤ settings.now.steps }
    requires room { settings.now.steps < inbox.now.limits.cuts }
    requires seats { inbox.now.limits.seats ≡ 2 }
    requires feeder { feeder.old ≡ fresh_seat inbox.now 0 }
    requires cutter { cutter.old ≡ fresh_seat inbox.now 1 }
    ensures fed { HasFed result.0 feeder.new (R.state feed.old) (R.state feed.new) }
    ensures ended { let makes = map (λ m. (⟦<dyn Maker as Maker>⟧ m.vtable).made m.value) domain.now.makers.items in
        (posed : Posed) (start : SinkState)
        → IsPosedBy B.meaning makes (domain_view domain.now) settings.now posed
        → origin_state origin ≡ posed.origin → HasNamed posed start (K.state out.old)
        → let by = grounds_of (domain_view domain.now) in
        EndsLive by posed (taken_by cutter.new) start (K.state out.new) result.1 }
    ensures later { LaterSink (K.state out.old) (K.state out.new) }
    ensures all { OnOk result.1 (IsPrefix (posts_in feeder.new.seen) (posts_taken (taken_by cutter.new))) }
    ensures unshut { OnOk result.1 (shuts_in (own_of cutter.new) ≡ 0) }
    ensures feeder { (feeder.new.inbox ≡ inbox.now) × (feeder.new.number ≡ 0) }
    ensures cutter { (cutter.new.inbox ≡ inbox.now) × (cutter.new.number ≡ 1) }
{
    let mut origin = Some(origin);
    let (fed, led) = halves(
        rt,
        alloc,
        gate,
        domain,
        settings,
        hands,
        &mut origin,
        inbox,
        feeder,
        cutter,
        feed,
        out,
        PhantomData,
    );
    cutter.meet(inbox, feeder);
    let running = match led {
        Ok(running) => running,
        Err(fault) => return (fed, Err(fault)),
    };
    let ended = end_live(
        rt, alloc, gate, domain, settings, running, inbox, cutter, out,
    );
    (fed, ended)
}

/// Does a live run behind its first line.
fn run_live<T: Threads + Wait + Sync, B: Book, R: Source + Send, K: Sink + Send, G: Gate + Sync>(
    rt: &T,
    alloc: Global,
    gate: &G,
    domain: &Domain<B>,
    settings: &Settings,
    hands: Hands,
    origin: Origin,
    inbox: &Inbox<Post>,
    feeder: &mut Seat<Post>,
    cutter: &mut Cutter<Post>,
    feed: &mut R,
    out: &mut K,
) -> (Fed, Result<(), LiveFault>)
    requires judges { ⟦<Rules<B> as Judges>⟧.judges domain.now.rules origin.weights (sizes_of origin.plan) }
    requires in_range { IsInRange settings.now }
    requires hands { AreHands hands.workers hands.buffer }
    requires schema { IsOfSchema domain.now.schema origin.plan }
    requires room { settings.now.steps < inbox.now.limits.cuts }
    requires seats { inbox.now.limits.seats ≡ 2 }
    requires feeder { feeder.old ≡ fresh_seat inbox.now 0 }
    requires cutter { cutter.old ≡ fresh_seat inbox.now 1 }
    ensures fed { HasFed result.0 feeder.new (R.state feed.old) (R.state feed.new) }
    ensures ended { let makes = map (λ m. (⟦<dyn Maker as Maker>⟧ m.vtable).made m.value) domain.now.makers.items in
        (posed : Posed) (start : SinkState)
        → IsPosedBy B.meaning makes (domain_view domain.now) settings.now posed
        → origin_state origin ≡ posed.origin → HasNamed posed start (K.state out.old)
        → let by = grounds_of (domain_view domain.now) in
        EndsLive by posed (taken_by cutter.new) start (K.state out.new) result.1 }
    ensures later { LaterSink (K.state out.old) (K.state out.new) }
    ensures all { OnOk result.1 (IsPrefix (posts_in feeder.new.seen) (posts_taken (taken_by cutter.new))) }
    ensures unshut { OnOk result.1 (shuts_in (own_of cutter.new) ≡ 0) }
    ensures feeder { (feeder.new.inbox ≡ inbox.now) × (feeder.new.number ≡ 0) }
    ensures cutter { (cutter.new.inbox ≡ inbox.now) × (cutter.new.number ≡ 1) }
{
    if settings.steps > 0 {
        return run_both(
            rt, alloc, gate, domain, settings, hands, origin, inbox, feeder, cutter, feed, out,
        );
    }
    let fed = feed_all(rt, alloc, inbox, feeder, feed, gate);
    cutter.meet(inbox, feeder);
    let ended = run_at_once(
        rt, alloc, gate, domain, settings, hands, origin, inbox, cutter, out,
    );
    (fed, ended)
}

/// Searches a problem while its feed comes: so many workers judge, and each boundary takes the lines that were posted since the
/// one before. Prints the run line by line. What it prints is the text of the search by one thread whose boundaries take these
/// lines, or a front of it where memory, the sink or the feed failed, or where the feed has too many lines or bytes.
pub fn drive<T: Threads + Wait + Sync, B: Book, R: Source + Send, K: Sink + Send, G: Gate + Sync>(
    rt: &T,
    alloc: Global,
    domain: &Domain<B>,
    problem: Problem,
    hands: Hands,
    feed: &mut R,
    out: &mut K,
    gate: &G,
) -> Driven
    requires judges { ⟦<Rules<B> as Judges>⟧.judges domain.now.rules problem.weights (sizes_of problem.plan) }
    requires in_range { IsInRange problem.settings }
    requires schema { IsOfSchema domain.now.schema problem.plan }
    requires hands { AreHands hands.workers hands.buffer }
    ensures drove { let makes = map (λ m. (⟦<dyn Maker as Maker>⟧ m.vtable).made m.value) domain.now.makers.items in
        let posed = posed_in B.meaning makes (domain_view domain.now) (problem_view problem) in
        Drove (grounds_of (domain_view domain.now)) posed result.journal (R.state feed.old) (R.state feed.new)
        (K.state out.old) (K.state out.new) result.status }
    ensures feed { LaterSource (R.state feed.old) (R.state feed.new) }
    ensures later { LaterSink (K.state out.old) (K.state out.new) }
{
    let Problem {
        plan,
        names,
        settings,
        weights,
        ..
    } = problem;
    let origin = Origin {
        plan,
        names,
        weights,
    };
    let Ok((inbox, mut feeder, mut cutter)) = open_run(alloc, MOST_POSTS, settings.steps + 1) else {
        return Driven {
            status: Status::Memory,
            journal: None,
        };
    };
    let mut buffer = Vec::new(alloc);
    if let Err(fault) = print_run(alloc, domain, &mut buffer, out) {
        return Driven {
            status: status_of_end(Err(LiveFault::from(fault))),
            journal: Some(close_run(inbox, feeder, cutter)),
        };
    }
    let (_, ended) = run_live(
        rt,
        alloc,
        gate,
        domain,
        &settings,
        hands,
        origin,
        &inbox,
        &mut feeder,
        &mut cutter,
        feed,
        out,
    );
    let journal = close_run(inbox, feeder, cutter);
    Driven {
        status: status_of_end(ended),
        journal: Some(journal),
    }
}
