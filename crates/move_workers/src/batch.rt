ghost use Rattle.std.specs.Prelude.{◌≡◌, ◌+◌, ◌^◌, ◌<◌, ◌≤◌, ◌∷◌, ◌++◌, ℕ, [], All, IfOk, None, Option, false, true, length, map, replicate, slice_index_or, vec_capacity, vec_len};
ghost use Rattle.std.specs.List.{range_with_len};
ghost use Rattle.claim_board.specs.Boards.{BoardView, fresh_pass};
ghost use Rattle.plan_rules.specs.Meaning.{KeyAnswers, TestAnswers, WeighAnswers};
ghost use Rattle.plan_rules.specs.Range.{sizes_of};
ghost use Rattle.plan_search.specs.declared.found.Found.{Found};
ghost use Rattle.move_workers.specs.declared.job.Job.{Job};
ghost use Rattle.move_workers.specs.Jobs.{AreBelow, IsDone, IsGathered, IsIdle, IsReady, IsWorked, found_from, placed};
ghost use Rattle.move_workers.specs.Judging.{WorkerView, found_in};
ghost use Rattle.move_workers.specs.Teams.{AreAll};

use crate::follower::Follower;
use crate::job::{Job, Share, Verdict, judge_at, work};
use crate::kit::Kit;
use crate::worker::Worker;
use claim_board::{Board, Pass};
use plan_facts::{List, Memory};
use plan_moves::MoveMaker;
use plan_ports::Gate;
use plan_rules::{Book, Judges, Kept, KeyBody, Rules, TestBody, WeighBody};
use plan_search::Found;
use side_by_side::each_beside;
use std::alloc::Global;
use std::marker::PhantomData;
use std::thread::Threads;

/// As many empty slots.
fn empty_slots(alloc: Global, count: u32) -> Result<Vec<Option<Found>>, Memory>
    ensures slots { IfOk result (λ slots. slots.items ≡ replicate count None) }
    ensures len { IfOk result (λ slots. vec_len slots ≡ count) }
{
    let mut slots = Vec::with_capacity(alloc, count as usize)?;
    'slots: for _ in 0..count {
        slots.push(None)?;
    }
    Ok(slots)
}

/// A share with nothing found yet.
fn share_of(alloc: Global, pass: Pass) -> Share
    ensures { (board : BoardView) → pass ≡ fresh_pass board → IsIdle board result }
{
    Share {
        pass,
        verdicts: Vec::new(alloc),
        is_short: false,
    }
}

/// A job for each pass, with a follower.
fn deal<B: Book>(
    alloc: Global,
    workers: &mut Vec<Follower<B>>,
    mut passes: List<Pass>,
    jobs: &mut Vec<Job<Follower<B>>>,
)
    requires some { length passes ≤ vec_len workers.old }
    requires room { (vec_len jobs.old ≡ 0) × (length passes ≤ vec_capacity jobs.old) }
    ensures jobs { vec_len jobs.new ≡ length passes }
    ensures left { vec_len workers.new + length passes ≡ vec_len workers.old }
    ensures room { vec_capacity workers.new ≡ vec_capacity workers.old }
    ensures alike { (worker : WorkerView) → AreAll worker workers.old.items → AreAll worker workers.new.items }
    ensures dealt { (worker : WorkerView) → AreAll worker workers.old.items
        → All (λ job. job.worker ≡ worker) jobs.new.items }
    ensures idle { (board : BoardView) → AreAll (fresh_pass board) passes
        → All (λ job. IsIdle board job.share) jobs.new.items }
{
    'passes: while let Some(pass) = passes.pop() {
        let Some(worker) = workers.pop() else {
            unreachable!()
        };
        let share = share_of(alloc, pass);
        jobs.push_reserved(Job { worker, share });
    }
}

/// What the workers share while they judge a batch: a step's candidates, from a first number on, one for each number of a board.
#[derive(Drop)]
struct Batch<'a, 'k, B, G> {
    kit: &'a Kit<'k, B>,
    gate: &'a G,
    board: &'a Board,
    step: u32,
    first: u32,
}

/// The types of the rules' closures. What is asked of a job in a thread of its own has to name them.
type Bodies = PhantomData<(TestBody, KeyBody, WeighBody)>;

/// Works a job of a batch.
fn work_one<B: Book, G: Gate>(
    job: &mut Job<Follower<B>>,
    batch: &Batch<'_, '_, B, G>,
    _bodies: Bodies,
)
    requires judges { let seen = job.old.worker.director in
        ⟦<Rules<B> as Judges>⟧.judges batch.now.kit.now.rules.now seen.weights (sizes_of seen.plan) }
    requires own { batch.now.kit.now.rules.now.defs ≡ job.old.worker.director.rules }
    requires seed { batch.now.kit.now.seed ≡ job.old.worker.seed }
    requires step { 1 ≤ batch.now.step }
    requires fits { batch.now.first + batch.now.board.now.limit < 2 ^ 32 }
    requires idle { IsIdle batch.now.board.now job.old.share }
    ensures { let makes = map (λ maker. made maker) batch.now.kit.now.makers.now in
        let kit = batch.now.kit.now in
        let found = found_in B.meaning kit.seed kit.selectors.now makes batch.now.step job.old.worker in
        IsDone batch.now.board.now job.old.worker (found_from found batch.now.first) job.new }
{
    job.worker.work(
        &mut job.share,
        batch.kit,
        batch.gate,
        batch.board,
        batch.step,
        batch.first,
    );
}

/// The lead works on its own share of a batch.
fn work_own<B: Book, G: Gate>(
    lead: &mut Worker<B>,
    share: &mut Share,
    batch: &Batch<'_, '_, B, G>,
    _bodies: Bodies,
)
    requires judges { let seen = lead.old.director in
        ⟦<Rules<B> as Judges>⟧.judges batch.now.kit.now.rules.now seen.weights (sizes_of seen.plan) }
    requires own { batch.now.kit.now.rules.now.defs ≡ lead.old.director.rules }
    requires seed { batch.now.kit.now.seed ≡ lead.old.seed }
    requires step { 1 ≤ batch.now.step }
    requires fits { batch.now.first + batch.now.board.now.limit < 2 ^ 32 }
    requires idle { IsIdle batch.now.board.now share.old }
    ensures worked { let makes = map (λ maker. made maker) batch.now.kit.now.makers.now in
        let kit = batch.now.kit.now in
        let found = found_in B.meaning kit.seed kit.selectors.now makes batch.now.step lead.old in
        IsWorked batch.now.board.now (found_from found batch.now.first) share.new }
    ensures same { lead.new ≡ lead.old }
{
    work(
        lead,
        share,
        batch.kit,
        batch.gate,
        batch.board,
        batch.step,
        batch.first,
    );
}

/// Each job is worked, in a thread of its own where one can be made, and the lead works on its share meanwhile.
fn run_each<T: Threads + Sync, B: Book, G: Gate + Sync>(
    rt: &T,
    batch: &Batch<'_, '_, B, G>,
    jobs: &mut [Job<Follower<B>>],
    lead: &mut Worker<B>,
    share: &mut Share,
    bodies: Bodies,
)
    requires tests { All (λ test. TestAnswers (TestBody.post test.body) (B.meaning.test_of test.number))
        batch.now.kit.now.rules.now.tests }
    requires keys { All (λ key. KeyAnswers (KeyBody.post key.body) (B.meaning.key_of key.number))
        batch.now.kit.now.rules.now.keys }
    requires weighs { All (λ w. WeighAnswers (WeighBody.post w.body) w.cap (B.meaning.weight_of w.number))
        batch.now.kit.now.rules.now.weighs }
    requires ready { let kit = batch.now.kit.now in let rules = kit.rules.now in
        All (λ job. IsReady batch.now.board.now rules.defs rules.caps kit.seed job.worker job.share) jobs.old }
    requires lead_ready { let kit = batch.now.kit.now in let rules = kit.rules.now in
        IsReady batch.now.board.now rules.defs rules.caps kit.seed lead.old share.old }
    requires step { 1 ≤ batch.now.step }
    requires fits { batch.now.first + batch.now.board.now.limit < 2 ^ 32 }
    ensures done { let makes = map (λ maker. made maker) batch.now.kit.now.makers.now in
        let found = found_in B.meaning batch.now.kit.now.seed batch.now.kit.now.selectors.now makes batch.now.step in
        (i : ℕ) (d : Job WorkerView) → i < length jobs.old → let worker = (slice_index_or jobs.old i d).worker in
        IsDone batch.now.board.now worker (found_from (found worker) batch.now.first) (slice_index_or jobs.new i d) }
    ensures worked { let makes = map (λ maker. made maker) batch.now.kit.now.makers.now in
        let found = found_in B.meaning batch.now.kit.now.seed batch.now.kit.now.selectors.now makes batch.now.step in
        IsWorked batch.now.board.now (found_from (found lead.old) batch.now.first) share.new }
    ensures same { lead.new ≡ lead.old }
{
    let mut own = ||
        requires tests { All (λ test. TestAnswers (TestBody.post test.body) (B.meaning.test_of test.number))
            batch.now.kit.now.rules.now.tests }
        requires keys { All (λ key. KeyAnswers (KeyBody.post key.body) (B.meaning.key_of key.number))
            batch.now.kit.now.rules.now.keys }
        requires weighs { All (λ w. WeighAnswers (WeighBody.post w.body) w.cap (B.meaning.weight_of w.number))
            batch.now.kit.now.rules.now.weighs }
        requires ready { let kit = batch.now.kit.now in let rules = kit.rules.now in
            IsReady batch.now.board.now rules.defs rules.caps kit.seed lead.now share.now }
        requires at { (1 ≤ batch.now.step) × (batch.now.first + batch.now.board.now.limit < 2 ^ 32) }
        ensures worked { let batch = batch.entry.now in
            let makes = map (λ maker. made maker) batch.kit.now.makers.now in
            let found = found_in B.meaning batch.kit.now.seed batch.kit.now.selectors.now makes batch.step in
            IsWorked batch.board.now (found_from (found lead.entry.now) batch.first) share.exit.now }
        ensures same { lead.exit.now ≡ lead.entry.now }
    {
        work_own(lead, share, batch, bodies);
    };
    each_beside(
        rt,
        jobs,
        &|_place: usize, job: &mut Job<Follower<B>>|
            requires tests { All (λ test. TestAnswers (TestBody.post test.body) (B.meaning.test_of test.number))
                batch.now.kit.now.rules.now.tests }
            requires keys { All (λ key. KeyAnswers (KeyBody.post key.body) (B.meaning.key_of key.number))
                batch.now.kit.now.rules.now.keys }
            requires weighs { All (λ w. WeighAnswers (WeighBody.post w.body) w.cap (B.meaning.weight_of w.number))
                batch.now.kit.now.rules.now.weighs }
            requires ready { let kit = batch.now.kit.now in let rules = kit.rules.now in
                IsReady batch.now.board.now rules.defs rules.caps kit.seed job.old.worker job.old.share }
            requires at { (1 ≤ batch.now.step) × (batch.now.first + batch.now.board.now.limit < 2 ^ 32) }
            ensures { let batch = batch.entry.now in
                let makes = map (λ maker. made maker) batch.kit.now.makers.now in
                let found = found_in B.meaning batch.kit.now.seed batch.kit.now.selectors.now makes batch.step in
                IsDone batch.board.now job.old.worker (found_from (found job.old.worker) batch.first) job.new }
        {
            work_one(job, batch, bodies);
        },
        &mut own,
    );
}

/// The same of a whole list.
fn run_jobs<T: Threads + Sync, B: Book, G: Gate + Sync>(
    rt: &T,
    batch: &Batch<'_, '_, B, G>,
    jobs: &mut Vec<Job<Follower<B>>>,
    lead: &mut Worker<B>,
    share: &mut Share,
)
    requires keeps { ⟦<Rules<B> as Kept>⟧.keeps batch.now.kit.now.rules.now }
    requires ready { let kit = batch.now.kit.now in let rules = kit.rules.now in
        All (λ job. IsReady batch.now.board.now rules.defs rules.caps kit.seed job.worker job.share) jobs.old.items }
    requires lead_ready { let kit = batch.now.kit.now in let rules = kit.rules.now in
        IsReady batch.now.board.now rules.defs rules.caps kit.seed lead.old share.old }
    requires step { 1 ≤ batch.now.step }
    requires fits { batch.now.first + batch.now.board.now.limit < 2 ^ 32 }
    ensures done { let makes = map (λ maker. made maker) batch.now.kit.now.makers.now in
        let found = found_in B.meaning batch.now.kit.now.seed batch.now.kit.now.selectors.now makes batch.now.step in
        (worker : WorkerView) → All (λ job. job.worker ≡ worker) jobs.old.items
        → All (IsDone batch.now.board.now worker (found_from (found worker) batch.now.first)) jobs.new.items }
    ensures worked { let makes = map (λ maker. made maker) batch.now.kit.now.makers.now in
        let found = found_in B.meaning batch.now.kit.now.seed batch.now.kit.now.selectors.now makes batch.now.step in
        IsWorked batch.now.board.now (found_from (found lead.old) batch.now.first) share.new }
    ensures same { lead.new ≡ lead.old }
    ensures len { vec_len jobs.new ≡ vec_len jobs.old }
{
    run_each(rt, batch, jobs.as_mut_slice(), lead, share, PhantomData);
}

/// Puts what was found into a slot.
fn fill(slot: &mut Option<Found>, found: Option<Found>)
    ensures { slot.new ≡ found }
{
    *slot = found;
}

/// Puts what was found into the slots.
fn place(slots: &mut [Option<Found>], verdicts: Vec<Verdict>)
    requires { AreBelow (length slots.old) verdicts.items }
    ensures { slots.new ≡ placed slots.old verdicts.items }
{
    'verdicts: for verdict in verdicts {
        fill(&mut slots[verdict.place as usize], verdict.found);
    }
}

/// The same of a whole list.
fn place_in(slots: &mut Vec<Option<Found>>, verdicts: Vec<Verdict>)
    requires { AreBelow (vec_len slots.old) verdicts.items }
    ensures slots { slots.new.items ≡ placed slots.old.items verdicts.items }
    ensures len { vec_len slots.new ≡ vec_len slots.old }
{
    place(slots.as_mut_slice(), verdicts);
}

/// Takes a share: its pass goes back, and what was found into its slots. False where memory was wanting.
fn take_share(share: Share, passes: &mut List<Pass>, slots: &mut Vec<Option<Found>>) -> bool
    requires below { AreBelow (vec_len slots.old) share.verdicts.items }
    ensures len { vec_len slots.new ≡ vec_len slots.old }
    ensures passes { result ≡ true → passes.new ≡ passes.old ++ share.pass ∷ [] }
    ensures whole { result ≡ true → share.is_short ≡ false }
    ensures slots { result ≡ true → slots.new.items ≡ placed slots.old.items share.verdicts.items }
{
    let Share {
        pass,
        verdicts,
        is_short,
    } = share;
    if is_short {
        return false;
    }
    place_in(slots, verdicts);
    passes.push(pass).is_ok()
}

/// Takes all jobs apart: their workers go back, and so do their shares. False where memory was wanting.
fn gather<B: Book>(
    mut jobs: Vec<Job<Follower<B>>>,
    workers: &mut Vec<Follower<B>>,
    passes: &mut List<Pass>,
    slots: &mut Vec<Option<Found>>,
) -> bool
    requires room { vec_len workers.old + vec_len jobs ≤ vec_capacity workers.old }
    requires below { All (λ job. AreBelow (vec_len slots.old) job.share.verdicts.items) jobs.items }
    ensures workers { vec_len workers.new ≡ vec_len workers.old + vec_len jobs }
    ensures alike { (worker : WorkerView) → AreAll worker workers.old.items
        → All (λ job. job.worker ≡ worker) jobs.items → AreAll worker workers.new.items }
    ensures len { vec_len slots.new ≡ vec_len slots.old }
    ensures passes { result ≡ true → length passes.new ≡ length passes.old + vec_len jobs }
    ensures gathered { result ≡ true → (board : BoardView) (worker : WorkerView) (found : ℕ → Option Found)
        → IsGathered board found passes.old slots.old.items → All (IsDone board worker found) jobs.items
        → IsGathered board found passes.new slots.new.items }
{
    let mut is_whole = true;
    'jobs: while let Some(job) = jobs.pop() {
        let Job { worker, share } = job;
        workers.push_reserved(worker);
        let taken = take_share(share, passes, slots);
        if !taken {
            is_whole = false;
        }
    }
    is_whole
}

/// What is found of so many candidates, by as many workers at once as there are hands: the lead, and some of the others.
fn judged_at_once<T: Threads + Sync, B: Book, G: Gate + Sync>(
    rt: &T,
    alloc: Global,
    kit: &Kit<'_, B>,
    gate: &G,
    lead: &mut Worker<B>,
    others: &mut Vec<Follower<B>>,
    hands: u32,
    step: u32,
    first: u32,
    count: u32,
) -> Result<Vec<Option<Found>>, Memory>
    requires hands { (1 ≤ hands) × (hands ≤ 16) × (hands ≤ vec_len others.old + 1) }
    requires alike { AreAll lead.old others.old.items }
    requires judges { let seen = lead.old.director in
        ⟦<Rules<B> as Judges>⟧.judges kit.now.rules.now seen.weights (sizes_of seen.plan) }
    requires own { kit.now.rules.now.defs ≡ lead.old.director.rules }
    requires seed { kit.now.seed ≡ lead.old.seed }
    requires step { 1 ≤ step }
    requires fits { first + count < 2 ^ 32 }
    ensures found { let makes = map (λ maker. made maker) kit.now.makers.now in
        let found = found_in B.meaning kit.now.seed kit.now.selectors.now makes step lead.old in
        IfOk result (λ all. all.items ≡ map found (range_with_len first count)) }
    ensures same { lead.new ≡ lead.old }
    ensures len { vec_len others.new ≡ vec_len others.old }
    ensures alike { AreAll lead.old others.new.items }
{
    let mut slots = empty_slots(alloc, count)?;
    let mut jobs = Vec::with_capacity(alloc, hands as usize)?;
    let mut returned = List::new(alloc);
    let (board, mut passes) = Board::new(alloc, count, hands)?;
    let Some(pass) = passes.pop() else {
        unreachable!()
    };
    let mut share = share_of(alloc, pass);
    deal(alloc, others, passes, &mut jobs);
    let batch = Batch {
        kit,
        gate,
        board: &board,
        step,
        first,
    };
    run_jobs(rt, &batch, &mut jobs, lead, &mut share);
    let is_taken = take_share(share, &mut returned, &mut slots);
    let is_whole = gather(jobs, others, &mut returned, &mut slots);
    if !is_taken || !is_whole {
        return Err(Memory);
    }
    board.close(returned);
    Ok(slots)
}

/// What a worker finds of so many candidates from the first number on, in order, in the thread that calls. No thread is started
/// and no board is made. It stays as it was.
fn judged_in_turn<B: Book, G: Gate>(
    alloc: Global,
    kit: &Kit<'_, B>,
    gate: &G,
    worker: &mut Worker<B>,
    step: u32,
    first: u32,
    count: u32,
) -> Result<Vec<Option<Found>>, Memory>
    requires judges { let seen = worker.old.director in
        ⟦<Rules<B> as Judges>⟧.judges kit.now.rules.now seen.weights (sizes_of seen.plan) }
    requires own { kit.now.rules.now.defs ≡ worker.old.director.rules }
    requires seed { kit.now.seed ≡ worker.old.seed }
    requires step { 1 ≤ step }
    requires fits { first + count < 2 ^ 32 }
    ensures found { let makes = map (λ maker. made maker) kit.now.makers.now in
        let found = found_in B.meaning kit.now.seed kit.now.selectors.now makes step worker.old in
        IfOk result (λ all. all.items ≡ map found (range_with_len first count)) }
    ensures same { worker.new ≡ worker.old }
{
    let mut all = Vec::with_capacity(alloc, count as usize)?;
    'numbers: for n in 0..count {
        let found = judge_at(worker, kit, gate, step, first + n)?;
        all.push(found)?;
    }
    Ok(all)
}

/// What is found of so many candidates from the first number on, in order, by as many workers as there are candidates for. The
/// workers stay as they were. Where one worker is enough, the lead judges all of them in turn in the thread that calls.
pub fn judged_by<T: Threads + Sync, B: Book, G: Gate + Sync>(
    rt: &T,
    alloc: Global,
    kit: &Kit<'_, B>,
    gate: &G,
    lead: &mut Worker<B>,
    others: &mut Vec<Follower<B>>,
    step: u32,
    first: u32,
    count: u32,
) -> Result<Vec<Option<Found>>, Memory>
    requires others { vec_len others.old ≤ 15 }
    requires alike { AreAll lead.old others.old.items }
    requires judges { let seen = lead.old.director in
        ⟦<Rules<B> as Judges>⟧.judges kit.now.rules.now seen.weights (sizes_of seen.plan) }
    requires own { kit.now.rules.now.defs ≡ lead.old.director.rules }
    requires seed { kit.now.seed ≡ lead.old.seed }
    requires step { 1 ≤ step }
    requires fits { first + count < 2 ^ 32 }
    ensures found { let makes = map (λ maker. made maker) kit.now.makers.now in
        let found = found_in B.meaning kit.now.seed kit.now.selectors.now makes step lead.old in
        IfOk result (λ all. all.items ≡ map found (range_with_len first count)) }
    ensures same { lead.new ≡ lead.old }
    ensures len { vec_len others.new ≡ vec_len others.old }
    ensures alike { AreAll lead.old others.new.items }
{
    let hands = count.min(others.len() as u32 + 1);
    if hands <= 1 {
        return judged_in_turn(alloc, kit, gate, lead, step, first, count);
    }
    judged_at_once(
        rt, alloc, kit, gate, lead, others, hands, step, first, count,
    )
}
