ghost use Rattle.std.specs.Prelude.{◌≡◌, ◌≤◌, List, IfOk, filter, length, map};
ghost use Rattle.plan_json.specs.Accepted.{problem_view};
ghost use Rattle.plan_json.specs.Seen.{domain_view};
ghost use Rattle.plan_rules.specs.declared.row.Match.{Match};
ghost use Rattle.plan_rules.specs.Range.{sizes_of};
ghost use Rattle.indictments.specs.Indicts.{all_of, is_indicted, named};
ghost use Rattle.indictments.specs.Tallies.{AreFew, AreTallies, tally_in};
ghost use Rattle.plan_session.specs.Explained.{explain_lines, explain_text, indict_line, indict_lines, tally_lines};
ghost use Rattle.plan_session.specs.Posed.{posed_in};
ghost use Rattle.plan_session.specs.Writes.{Writes};

use crate::report::Report;
use indictments::Tallies;
use plan_facts::{Memory, Plan, Raw};
use plan_json::{Domain, Problem};
use plan_moves::MoveMaker as Maker;
use plan_recalc::Totals;
use plan_reports::Line;
use plan_rules::{Book, Judges, Rules};
use score_director::totals_by_network;
use std::alloc::Global;

/// Appends the line of a fact of a class, if it is a part of some match.
fn write_indict(
    report: &Report<'_>,
    tallies: &Tallies,
    class: u8,
    raw: &Raw,
    out: &mut Vec<u8>,
) -> Result<(), Memory>
    ensures { Writes report.now result out.old.items out.new.items
        (tally_lines class raw.now.id (tally_in tallies.now class raw.now.id)) }
{
    let tally = tallies.get(class, raw.id);
    if tally.count == 0 {
        return Ok(());
    }
    let line = Line::Indict {
        class,
        id: raw.id,
        count: tally.count,
        impact: tally.impact,
    };
    report.line(&line, out)
}

/// Appends a line for each fact of a class that is a part of some match.
fn write_class(
    report: &Report<'_>,
    tallies: &Tallies,
    class: u8,
    facts: &[Raw],
    out: &mut Vec<u8>,
) -> Result<(), Memory>
    ensures { (matches : List Match) → AreTallies tallies.now matches
        → Writes report.now result out.old.items out.new.items
        (map (indict_line matches) (filter (is_indicted matches) (map (named class) facts.now))) }
{
    for raw in facts {
        write_indict(report, tallies, class, raw, out)?;
    }
    Ok(())
}

/// Appends a line for each fact of a plan that is a part of some match.
fn write_indicts(
    report: &Report<'_>,
    tallies: &Tallies,
    plan: &Plan,
    out: &mut Vec<u8>,
) -> Result<(), Memory>
    ensures { (matches : List Match) → AreTallies tallies.now matches
        → Writes report.now result out.old.items out.new.items (indict_lines matches plan.now) }
{
    for class in 0..plan.classes() {
        write_class(report, tallies, class, plan.facts(class), out)?;
    }
    Ok(())
}

/// Appends the lines that explain a plan.
fn write_explained(
    alloc: Global,
    report: &Report<'_>,
    plan: &Plan,
    totals: &Totals,
    out: &mut Vec<u8>,
) -> Result<(), Memory>
    requires rules { length totals.now.matches ≤ 32 }
    requires few { AreFew (all_of totals.now.matches) }
    ensures { Writes report.now result out.old.items out.new.items
        (explain_lines totals.now.score plan.now totals.now.matches) }
{
    let tallies = Tallies::of(alloc, totals.matches.as_slice())?;
    report.line(&Line::Total(totals.score), out)?;
    report.rules(totals, out)?;
    write_indicts(report, &tallies, plan, out)?;
    report.line(&Line::End, out)?;
    Ok(())
}

/// What `explain` prints of a problem: the score of its plan as read, each rule with its matches, and for each fact that is a
/// part of some match in how many it stands and what these add up to.
pub fn explain_text<B: Book>(
    alloc: Global,
    domain: &Domain<B>,
    problem: &Problem,
) -> Result<Vec<u8>, Memory>
    requires { ⟦<Rules<B> as Judges>⟧.judges domain.now.rules problem.now.weights (sizes_of problem.now.plan) }
    ensures { let makes = map (λ m. (⟦<dyn Maker as Maker>⟧ m.vtable).made m.value) domain.now.makers.items in
        let posed = posed_in B.meaning makes (domain_view domain.now) (problem_view problem.now) in
        IfOk result (λ text. text.items ≡ explain_text posed) }
{
    let totals = totals_by_network(
        alloc,
        &domain.rules,
        &problem.plan,
        problem.weights.as_slice(),
    )?;
    let report = Report {
        schema: &domain.schema,
        rules: domain.rules.defs.as_slice(),
    };
    let mut out = Vec::new(alloc);
    write_explained(alloc, &report, &problem.plan, &totals, &mut out)?;
    Ok(out)
}
