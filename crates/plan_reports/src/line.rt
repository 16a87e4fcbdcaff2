ghost use Rattle.std.specs.Prelude.{◌++◌, codes, decimal};
ghost use Rattle.plan_facts.specs.Append.{Appends};
ghost use Rattle.plan_reports.specs.Facts.{fact_text};
ghost use Rattle.plan_reports.specs.Lines.{counted_text, entity_text, indict_text, line_text, match_text, place_text, scored_text, step_end, step_text, sum_text, tour_text, winner_text};
ghost use Rattle.plan_reports.specs.Puts.{Puts};

use crate::change::{put_applied, put_applied_rule, put_refused};
use crate::parts::{
    put, put_entity, put_fact, put_number, put_plan_score, put_row, put_score, rule_name,
};
use plan_changes::ChangeFault;
use plan_facts::{List, Memory, Schema, Text};
use plan_rules::{Row, RuleDef};
use plan_scores::{PlanScore, Score};

/// A printed line. Classes and rules are named by their numbers.
#[derive(Drop)]
pub enum Line {
    /// The first line of a run.
    Run {
        domain: Text,
    },
    /// A leg begins at a boundary.
    Leg {
        boundary: u32,
    },
    /// A change of a fact was made: the number of its line in the feed, the boundary, and the fact.
    Applied {
        line: u32,
        boundary: u32,
        class: u8,
        id: u32,
    },
    /// A change of a rule's weight was made.
    AppliedRule {
        line: u32,
        boundary: u32,
        rule: u8,
    },
    /// A change was refused, for another fault than want of memory, which has no words.
    Refused {
        line: u32,
        boundary: u32,
        fault: ChangeFault,
    },
    /// An entity was placed: what each of its variables holds, and the score after it.
    Place {
        class: u8,
        id: u32,
        values: List<Option<u32>>,
        score: PlanScore,
    },
    /// Placing stopped at an entity, since a null variable of it has no value to choose.
    Stuck {
        class: u8,
        id: u32,
    },
    /// The leg's score after placing.
    Start(PlanScore),
    /// A step was done: the number of the candidate that won it, if any, the score after it, and whether that is better
    /// than all of the leg before.
    Step {
        step: u32,
        winner: Option<u32>,
        score: PlanScore,
        is_best: bool,
    },
    /// The score of the best plan.
    Best(PlanScore),
    /// An entity of the best plan.
    Entity {
        class: u8,
        id: u32,
        values: List<Option<u32>>,
    },
    /// A rule: how many matches it has, and the sum of their impacts.
    Rule {
        rule: u8,
        count: u64,
        impact: Score,
    },
    /// A match of the rule before it.
    Match {
        impact: Score,
        row: Row,
    },
    /// The last line.
    End,
    /// The score of a plan as it was read.
    Total(PlanScore),
    /// A fact that is a part of matches: in how many it stands, and the sum of their impacts.
    Indict {
        class: u8,
        id: u32,
        count: u64,
        impact: Score,
    },
    /// The first line of a tour: the number and the size of the problem that was generated for it.
    Tour {
        number: u32,
        size: u32,
    },
    /// How many live facts a tour ended with.
    Facts(u32),
    /// How many legs a tour had.
    Legs(u32),
    /// How many steps a tour did.
    Steps(u32),
    /// How many steps of a tour had a winner.
    Wins(u32),
}

/// Appends a word, a text and the end of the line.
fn put_named(out: &mut Vec<u8>, word: &[u8], text: &[u8]) -> Result<(), Memory>
    ensures { Puts result out.old.items out.new.items (word.now ++ text.now ++ codes "\n") }
{
    put(out, word)?;
    put(out, text)?;
    put(out, b"\n")
}

/// Appends a word, a plan's score and the end of the line.
fn put_scored(out: &mut Vec<u8>, word: &[u8], score: &PlanScore) -> Result<(), Memory>
    ensures { Puts result out.old.items out.new.items (scored_text word.now score.now) }
{
    put(out, word)?;
    put_plan_score(out, score)?;
    put(out, b"\n")
}

/// Appends the line of a leg.
fn put_leg(out: &mut Vec<u8>, boundary: u32) -> Result<(), Memory>
    ensures { Puts result out.old.items out.new.items (codes "leg " ++ decimal boundary ++ codes "\n") }
{
    put(out, b"leg ")?;
    put_number(out, u64::from(boundary))?;
    put(out, b"\n")
}

/// Appends the line of the entity at which placing stopped.
fn put_stuck(out: &mut Vec<u8>, schema: &Schema, class: u8, id: u32) -> Result<(), Memory>
    ensures { Puts result out.old.items out.new.items (codes "stuck " ++ fact_text schema.now class id ++ codes "\n") }
{
    put(out, b"stuck ")?;
    put_fact(out, schema, class, id)?;
    put(out, b"\n")
}

/// Appends the line of an entity that was placed.
fn put_place(
    out: &mut Vec<u8>,
    schema: &Schema,
    class: u8,
    id: u32,
    values: &[Option<u32>],
    score: &PlanScore,
) -> Result<(), Memory>
    ensures { Puts result out.old.items out.new.items (place_text schema.now class id values.now score.now) }
{
    put(out, b"place ")?;
    put_entity(out, schema, class, id, values)?;
    put_scored(out, b" ", score)
}

/// Appends what won a step: a candidate's number, or none.
fn put_winner(out: &mut Vec<u8>, winner: Option<u32>) -> Result<(), Memory>
    ensures { Puts result out.old.items out.new.items (winner_text winner) }
{
    match winner {
        Some(number) => {
            put(out, b"candidate ")?;
            put_number(out, u64::from(number))
        }
        None => put(out, b"none"),
    }
}

/// Appends the end of a step's line, which says whether its winner is the best of the leg so far.
fn put_step_end(out: &mut Vec<u8>, winner: Option<u32>, is_best: bool) -> Result<(), Memory>
    ensures { Puts result out.old.items out.new.items (step_end winner is_best) }
{
    if winner.is_some() && is_best {
        put(out, b" best\n")
    } else {
        put(out, b"\n")
    }
}

/// Appends the line of a step.
fn put_step(
    out: &mut Vec<u8>,
    step: u32,
    winner: Option<u32>,
    score: &PlanScore,
    is_best: bool,
) -> Result<(), Memory>
    ensures { Puts result out.old.items out.new.items (step_text step winner score.now is_best) }
{
    put(out, b"step ")?;
    put_number(out, u64::from(step))?;
    put(out, b" ")?;
    put_winner(out, winner)?;
    put(out, b" ")?;
    put_plan_score(out, score)?;
    put_step_end(out, winner, is_best)
}

/// Appends the line of an entity of the best plan.
fn put_best_entity(
    out: &mut Vec<u8>,
    schema: &Schema,
    class: u8,
    id: u32,
    values: &[Option<u32>],
) -> Result<(), Memory>
    ensures { Puts result out.old.items out.new.items (entity_text schema.now class id values.now ++ codes "\n") }
{
    put_entity(out, schema, class, id, values)?;
    put(out, b"\n")
}

/// Appends the line of a rule.
fn put_rule(out: &mut Vec<u8>, name: &[u8], count: u64, impact: &Score) -> Result<(), Memory>
    ensures { Puts result out.old.items out.new.items (sum_text name.now count impact.now) }
{
    put(out, b"rule ")?;
    put(out, name)?;
    put(out, b" ")?;
    put_number(out, count)?;
    put(out, b" ")?;
    put_score(out, impact)?;
    put(out, b"\n")
}

/// Appends the line of a match.
fn put_match(out: &mut Vec<u8>, schema: &Schema, impact: &Score, row: &Row) -> Result<(), Memory>
    ensures { Puts result out.old.items out.new.items (match_text schema.now impact.now row.now) }
{
    put(out, b"match ")?;
    put_score(out, impact)?;
    put_row(out, schema, row)?;
    put(out, b"\n")
}

/// Appends the line of a fact that is a part of matches.
fn put_indict(
    out: &mut Vec<u8>,
    schema: &Schema,
    class: u8,
    id: u32,
    count: u64,
    impact: &Score,
) -> Result<(), Memory>
    ensures { Puts result out.old.items out.new.items (indict_text schema.now class id count impact.now) }
{
    put(out, b"indict ")?;
    put_fact(out, schema, class, id)?;
    put(out, b" ")?;
    put_number(out, count)?;
    put(out, b" ")?;
    put_score(out, impact)?;
    put(out, b"\n")
}

/// Appends the first line of a tour.
fn put_tour(out: &mut Vec<u8>, number: u32, size: u32) -> Result<(), Memory>
    ensures { Puts result out.old.items out.new.items (tour_text number size) }
{
    put(out, b"tour ")?;
    put_number(out, u64::from(number))?;
    put(out, b" ")?;
    put_number(out, u64::from(size))?;
    put(out, b"\n")
}

/// Appends a word, a count and the end of the line.
fn put_counted(out: &mut Vec<u8>, word: &[u8], count: u32) -> Result<(), Memory>
    ensures { Puts result out.old.items out.new.items (counted_text word.now count) }
{
    put(out, word)?;
    put_number(out, u64::from(count))?;
    put(out, b"\n")
}

/// Appends the text of a line.
fn put_line(
    schema: &Schema,
    rules: &[RuleDef],
    line: &Line,
    out: &mut Vec<u8>,
) -> Result<(), Memory>
    ensures { Puts result out.old.items out.new.items (line_text schema.now rules.now line.now) }
{
    match line {
        Line::Run { domain } => put_named(out, b"run ", domain.as_slice()),
        Line::Leg { boundary } => put_leg(out, *boundary),
        Line::Applied {
            line,
            boundary,
            class,
            id,
        } => put_applied(out, schema, *line, *boundary, *class, *id),
        Line::AppliedRule {
            line,
            boundary,
            rule,
        } => put_applied_rule(out, rules, *line, *boundary, *rule),
        Line::Refused {
            line,
            boundary,
            fault,
        } => put_refused(out, schema, rules, *line, *boundary, *fault),
        Line::Place {
            class,
            id,
            values,
            score,
        } => put_place(out, schema, *class, *id, values.as_slice(), score),
        Line::Stuck { class, id } => put_stuck(out, schema, *class, *id),
        Line::Start(score) => put_scored(out, b"start ", score),
        Line::Step {
            step,
            winner,
            score,
            is_best,
        } => put_step(out, *step, *winner, score, *is_best),
        Line::Best(score) => put_scored(out, b"best ", score),
        Line::Entity { class, id, values } => {
            put_best_entity(out, schema, *class, *id, values.as_slice())
        }
        Line::Rule {
            rule,
            count,
            impact,
        } => put_rule(out, rule_name(rules, *rule), *count, impact),
        Line::Match { impact, row } => put_match(out, schema, impact, row),
        Line::End => put(out, b"end\n"),
        Line::Total(score) => put_scored(out, b"score ", score),
        Line::Indict {
            class,
            id,
            count,
            impact,
        } => put_indict(out, schema, *class, *id, *count, impact),
        Line::Tour { number, size } => put_tour(out, *number, *size),
        Line::Facts(count) => put_counted(out, b"facts ", *count),
        Line::Legs(count) => put_counted(out, b"legs ", *count),
        Line::Steps(count) => put_counted(out, b"steps ", *count),
        Line::Wins(count) => put_counted(out, b"won ", *count),
    }
}

/// Appends the text of a line. For want of memory nothing is appended.
pub fn write_line(
    schema: &Schema,
    rules: &[RuleDef],
    line: &Line,
    out: &mut Vec<u8>,
) -> Result<(), Memory>
    ensures { Appends result out.old.items out.new.items (line_text schema.now rules.now line.now) }
{
    let mut text = Vec::new(*out.allocator());
    put_line(schema, rules, line, &mut text)?;
    out.append(&mut text)?;
    Ok(())
}
