ghost use Rattle.std.specs.Prelude.{◌≡◌, ◌<◌, All, IfOk, None, OnOk};
ghost use Rattle.plan_changes.specs.Fits.{IsOfSchema};
ghost use Rattle.plan_json.specs.Seen.{FitsItsDomain, IsAcceptedBy};
ghost use Rattle.plan_rules.specs.Range.{sizes_of};
ghost use Rattle.score_director.specs.View.{at_rest};

mod cases;
mod changes;
mod feeds;
mod lines;
mod made;
mod outcome;
mod ranges;
mod rows;
mod snapshot;

use cases::{CASES, Case, Seen};
use plan_facts::{List, Memory, Plan, Schema};
use plan_json::{Domain, Problem, read_problem};
use plan_moves::{Edit, Set};
use plan_rules::{Judges, Kept, Match, Rules, Steps};
use plan_scores::PlanScore;
use rows::{OnlyRow, is_only_match, is_only_row};
use score_director::{Director, totals_by_network};
use shipped_domains::{Act, Shipped, with_shipped_domains};
use std::alloc::Global;
use std::marker::Brand;
use std::sync::ledger::{Blank, Ledger};
use std::test::Fail;

/// Whether the rule at a place has the wanted row alone, or none where none is wanted.
fn has_only_row(
    director: &Director<Shipped>,
    rules: &Rules<Shipped>,
    wanted: OnlyRow,
) -> Result<bool, Memory>
    requires own { rules.now.defs ≡ director.now.rules }
{
    let OnlyRow(rule, row) = wanted;
    if rules.count() <= rule {
        return Ok(false);
    }
    let rows = director.matches(rule)?;
    Ok(is_only_row(rows.as_slice(), row))
}

/// Whether the rules have these rows alone.
fn have_rows(all: &[List<Match>], wanted: &[OnlyRow]) -> bool {
    for OnlyRow(rule, row) in wanted {
        let Some(matches) = all.get(*rule as usize) else {
            return false;
        };
        if !is_only_match(matches.as_slice(), *row) {
            return false;
        }
    }
    true
}

/// What the plan is worth, where no variable is null.
fn placed_score(seen: &Seen) -> PlanScore {
    PlanScore {
        unplaced: 0,
        score: seen.score,
    }
}

/// Whether the director sees this.
fn sees(director: &Director<Shipped>, rules: &Rules<Shipped>, seen: &Seen) -> Result<bool, Memory>
    requires own { rules.now.defs ≡ director.now.rules }
{
    for wanted in seen.rows {
        if !has_only_row(director, rules, *wanted)? {
            return Ok(false);
        }
    }
    Ok(director.score() == placed_score(seen))
}

/// The edit that sets one variable.
fn edit_of(alloc: Global, set: Set) -> Result<Edit, Memory> {
    let mut edit = Edit::new(alloc);
    edit.put_new(set)?;
    Ok(edit)
}

/// Whether the moves of a case that aren't doable are judged to give nothing.
fn are_idle<L: Ledger>(
    alloc: Global,
    domain: &Domain<Shipped>,
    director: &mut Director<Shipped>,
    idle: &[Set],
    steps: &mut Steps<L>,
) -> Result<bool, Memory>
    requires judges { let seen = director.old in
        ⟦<Rules<Shipped> as Judges>⟧.judges domain.now.rules seen.weights (sizes_of seen.plan) }
    requires own { domain.now.rules.defs ≡ director.old.rules }
    requires rest { director.old.base ≡ None }
    ensures { director.new ≡ director.old }
{
    for set in idle {
        let edit = edit_of(alloc, *set)?;
        let score = director.judge(&domain.rules, &domain.schema, &edit, steps)?;
        if score.is_some() {
            return Ok(false);
        }
    }
    Ok(true)
}

/// Whether the doable edit of a case is judged to give what was worked by hand.
fn is_judged<L: Ledger>(
    domain: &Domain<Shipped>,
    director: &mut Director<Shipped>,
    edit: &Edit,
    case: &Case,
    steps: &mut Steps<L>,
) -> Result<bool, Memory>
    requires judges { let seen = director.old in
        ⟦<Rules<Shipped> as Judges>⟧.judges domain.now.rules seen.weights (sizes_of seen.plan) }
    requires own { domain.now.rules.defs ≡ director.old.rules }
    requires rest { director.old.base ≡ None }
    ensures { director.new ≡ director.old }
{
    match director.judge(&domain.rules, &domain.schema, edit, steps)? {
        Some(score) => Ok(score == placed_score(&case.after)),
        None => Ok(false),
    }
}

/// Whether an attempt gives what was worked by hand, and leaves what was seen before once it is taken back.
fn is_undone<L: Ledger>(
    domain: &Domain<Shipped>,
    director: &mut Director<Shipped>,
    edit: &Edit,
    case: &Case,
    steps: &mut Steps<L>,
) -> Result<bool, Memory>
    requires judges { let seen = director.old in
        ⟦<Rules<Shipped> as Judges>⟧.judges domain.now.rules seen.weights (sizes_of seen.plan) }
    requires own { domain.now.rules.defs ≡ director.old.rules }
    requires rest { director.old.base ≡ None }
    ensures { OnOk result (director.new ≡ director.old) }
{
    if !edit.doable(&domain.schema, director.plan()) {
        return Ok(false);
    }
    let score = director.attempt(&domain.rules, edit, steps)?;
    let tried = sees(director, &domain.rules, &case.after)?;
    director.undo();
    let stays = sees(director, &domain.rules, &case.before)?;
    Ok(tried && stays && score == placed_score(&case.after))
}

/// Whether an attempt that is kept gives what was worked by hand, and stays.
fn is_kept<L: Ledger>(
    domain: &Domain<Shipped>,
    director: &mut Director<Shipped>,
    edit: &Edit,
    case: &Case,
    steps: &mut Steps<L>,
) -> Result<bool, Memory>
    requires judges { let seen = director.old in
        ⟦<Rules<Shipped> as Judges>⟧.judges domain.now.rules seen.weights (sizes_of seen.plan) }
    requires own { domain.now.rules.defs ≡ director.old.rules }
    requires rest { director.old.base ≡ None }
{
    if !edit.doable(&domain.schema, director.plan()) {
        return Ok(false);
    }
    let score = director.attempt(&domain.rules, edit, steps)?;
    director.keep();
    let stays = sees(director, &domain.rules, &case.after)?;
    Ok(stays && score == placed_score(&case.after))
}

/// Whether the variable holds this value in the plan.
fn is_held(plan: &Plan, set: &Set) -> bool {
    match plan.raw(set.class, set.id) {
        Some(raw) => raw.values.get(set.var as usize) == Some(&set.value),
        None => false,
    }
}

/// Whether a director of the plan of a case judges as was worked by hand, and all that is seen stays.
fn judges_all<L: Ledger>(
    alloc: Global,
    domain: &Domain<Shipped>,
    director: &mut Director<Shipped>,
    edit: &Edit,
    case: &Case,
    steps: &mut Steps<L>,
) -> Result<bool, Memory>
    requires judges { let seen = director.old in
        ⟦<Rules<Shipped> as Judges>⟧.judges domain.now.rules seen.weights (sizes_of seen.plan) }
    requires own { domain.now.rules.defs ≡ director.old.rules }
    requires rest { director.old.base ≡ None }
    ensures { director.new ≡ director.old }
{
    let judged = is_judged(domain, director, edit, case, steps)?;
    let idle = are_idle(alloc, domain, director, case.idle, steps)?;
    let stays = sees(director, &domain.rules, &case.before)?;
    Ok(judged && idle && stays)
}

/// Whether a director of the plan of a case does all that directors do as was worked by hand.
fn directs<L: Ledger>(
    alloc: Global,
    domain: &Domain<Shipped>,
    director: &mut Director<Shipped>,
    case: &Case,
    steps: &mut Steps<L>,
) -> Result<bool, Memory>
    requires judges { let seen = director.old in
        ⟦<Rules<Shipped> as Judges>⟧.judges domain.now.rules seen.weights (sizes_of seen.plan) }
    requires own { domain.now.rules.defs ≡ director.old.rules }
    requires rest { director.old.base ≡ None }
{
    let edit = edit_of(alloc, case.doable)?;
    let seen = sees(director, &domain.rules, &case.before)?;
    let judged = judges_all(alloc, domain, director, &edit, case, steps)?;
    let undone = is_undone(domain, director, &edit, case, steps)?;
    let kept = is_kept(domain, director, &edit, case, steps)?;
    Ok(seen && judged && undone && kept)
}

/// A director of the plan of a problem.
fn director_of<L: Ledger>(
    alloc: Global,
    rules: &Rules<Shipped>,
    problem: Problem,
    steps: &mut Steps<L>,
) -> Result<Director<Shipped>, Memory>
    requires { ⟦<Rules<Shipped> as Judges>⟧.judges rules.now problem.weights (sizes_of problem.plan) }
    ensures { IfOk result (λ director. director ≡ at_rest rules.now.defs problem.weights problem.plan) }
{
    Director::new(alloc, rules, problem.plan, problem.weights, steps)
}

/// Whether all that the plan of a case is worth, found at once, is what was worked by hand.
fn has_totals(
    alloc: Global,
    rules: &Rules<Shipped>,
    problem: &Problem,
    seen: &Seen,
) -> Result<bool, Memory>
    requires { let p = problem.now in
        ⟦<Rules<Shipped> as Judges>⟧.judges rules.now p.weights (sizes_of p.plan) }
{
    let totals = totals_by_network(alloc, rules, &problem.plan, problem.weights.as_slice())?;
    Ok(totals.score == placed_score(seen) && have_rows(totals.matches.as_slice(), seen.rows))
}

/// Whether a director of the plan of a case does what was worked by hand, and its edit stays in the plan.
fn is_worked<L: Ledger>(
    alloc: Global,
    domain: &Domain<Shipped>,
    problem: Problem,
    case: &Case,
    blank: Blank,
) -> Result<bool, Memory>
    requires name { blank.name ≡ L.name }
    requires parts { blank.parts ≡ L.parts }
    requires some { 0 < L.parts }
    requires judges { ⟦<Rules<Shipped> as Judges>⟧.judges domain.now.rules problem.weights (sizes_of problem.plan) }
{
    let mut steps: Steps<L> = Steps::new(blank);
    let mut director = director_of(alloc, &domain.rules, problem, &mut steps)?;
    let directed = directs(alloc, domain, &mut director, case, &mut steps);
    let held = is_held(&director.into_plan(), &case.doable);
    Ok(directed? && held)
}

/// The domain of a problem that was accepted, and whose plan is of the domain's schema.
fn domain_of<'a>(domains: &'a [Domain<Shipped>], problem: &Problem) -> &'a Domain<Shipped>
    requires keeps { All (λ domain. ⟦<Rules<Shipped> as Kept>⟧.keeps domain.rules) domains.now }
    requires accepted { IsAcceptedBy domains.now problem.now }
    requires fits { FitsItsDomain domains.now problem.now }
    ensures judges { let p = problem.now in
        ⟦<Rules<Shipped> as Judges>⟧.judges result.now.rules p.weights (sizes_of p.plan) }
    ensures schema { IsOfSchema result.now.schema problem.now.plan }
{
    &domains[problem.domain]
}

/// Reads the problem of a case; whether directors do with it what was worked by hand.
fn try_case(alloc: Global, domains: &[Domain<Shipped>], case: &Case) -> Result<bool, Fail>
    requires keeps { All (λ domain. ⟦<Rules<Shipped> as Kept>⟧.keeps domain.rules) domains.now }
{
    let problem = read_problem(alloc, case.problem.as_bytes(), domains)?;
    let domain = domain_of(domains, &problem);
    let found = has_totals(alloc, &domain.rules, &problem, &case.before);
    let worked = is_worked::<Brand>(alloc, domain, problem, case, Blank::new(1));
    Ok(found? && worked?)
}

/// Tries the cases in the domains that come with the solver, and gives the name of the first that goes wrong.
#[derive(Drop)]
struct Trial {
    alloc: Global,
}

impl Act for Trial {
    type Answer = Result<Option<&'static str>, Fail>;

    ghost is_ready = { λ _. Unit };

    ghost answers = { λ _ _ _. Unit };

    fn act(self, domains: &[Domain<Shipped>]) -> Result<Option<&'static str>, Fail> {
        for case in CASES {
            if !try_case(self.alloc, domains, case)? {
                return Ok(Some(case.name));
            }
        }
        Ok(None)
    }
}

#[test]
fn directors_do_what_was_worked_by_hand(rt: HostRuntime) -> Result<(), Fail> {
    let alloc = rt.alloc();
    let wrong = with_shipped_domains(alloc, Trial { alloc })??;
    assert!(rt; wrong.is_none(), "{wrong:?}");
    Ok(())
}
