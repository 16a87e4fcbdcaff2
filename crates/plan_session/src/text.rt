ghost use Rattle.std.specs.Prelude.{◌≡◌, IfOk, map};
ghost use Rattle.plan_json.specs.Accepted.{problem_view};
ghost use Rattle.plan_json.specs.Seen.{domain_view};
ghost use Rattle.plan_rules.specs.Range.{sizes_of};
ghost use Rattle.plan_search.specs.RunLines.{score_text};
ghost use Rattle.plan_session.specs.Posed.{posed_in};

use crate::report::Report;
use plan_facts::Memory;
use plan_json::{Domain, Problem};
use plan_moves::MoveMaker as Maker;
use plan_reports::Line;
use plan_rules::{Book, Judges, Rules};
use score_director::totals_by_network;
use std::alloc::Global;

/// What `score` prints of a problem: the score of its plan as read, and what each rule adds to it.
pub fn score_text<B: Book>(
    alloc: Global,
    domain: &Domain<B>,
    problem: &Problem,
) -> Result<Vec<u8>, Memory>
    requires { ⟦<Rules<B> as Judges>⟧.judges domain.now.rules problem.now.weights (sizes_of problem.now.plan) }
    ensures { let makes = map (λ m. (⟦<dyn Maker as Maker>⟧ m.vtable).made m.value) domain.now.makers.items in
        let posed = posed_in B.meaning makes (domain_view domain.now) (problem_view problem.now) in
        IfOk result (λ text. text.items ≡ score_text posed) }
{
    let totals = totals_by_network(
        alloc,
        &domain.rules,
        &problem.plan,
        problem.weights.as_slice(),
    )?;
    let report = Report {
        schema: &domain.schema,
        rules: domain.rules.defs.as_slice(),
    };
    let mut out = Vec::new(alloc);
    report.line(&Line::Total(totals.score), &mut out)?;
    report.sums(&totals, &mut out)?;
    report.line(&Line::End, &mut out)?;
    Ok(out)
}
