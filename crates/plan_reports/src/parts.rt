ghost use Rattle.std.specs.Prelude.{◌≡◌, decimal};
ghost use Rattle.plan_reports.specs.Puts.{Puts};
ghost use Rattle.plan_rules.specs.Named.{rule_name};
ghost use Rattle.plan_reports.specs.Facts.{class_name, fact_text};
ghost use Rattle.plan_reports.specs.Lines.{variables_of, value_text, variable_text, variables_text, part_text, row_text, entity_text};
ghost use Rattle.plan_scores.specs.Text.{score_text, plan_score_text};

use itoa::Buffer;
use plan_facts::{Memory, Schema, VarDef};
use plan_rules::{Part, Row, RuleDef};
use plan_scores::{PlanScore, Score};

/// Appends a text.
pub fn put(out: &mut Vec<u8>, text: &[u8]) -> Result<(), Memory>
    ensures { Puts result out.old.items out.new.items text.now }
{
    out.extend_from_slice(text)?;
    Ok(())
}

/// Appends a whole number in plain decimal.
pub fn put_number(out: &mut Vec<u8>, number: u64) -> Result<(), Memory>
    ensures { Puts result out.old.items out.new.items (decimal number) }
{
    put(out, Buffer::new().format(number).as_bytes())
}

/// Appends a score.
pub fn put_score(out: &mut Vec<u8>, score: &Score) -> Result<(), Memory>
    ensures { Puts result out.old.items out.new.items (score_text score.now) }
{
    score.write_text(out).map_err(|_| Memory)
}

/// Appends a plan's score.
pub fn put_plan_score(out: &mut Vec<u8>, score: &PlanScore) -> Result<(), Memory>
    ensures { Puts result out.old.items out.new.items (plan_score_text score.now) }
{
    score.write_text(out).map_err(|_| Memory)
}

/// The name of a class; no bytes where there is no such class.
pub fn class_name(schema: &Schema, class: u8) -> &[u8]
    ensures { result.now ≡ class_name schema.now class }
{
    match schema.class(class) {
        Some(class) => class.name.as_slice(),
        None => b"",
    }
}

/// The variables of a class; none where there is no such class.
fn variables(schema: &Schema, class: u8) -> &[VarDef]
    ensures { result.now ≡ variables_of schema.now class }
{
    match schema.class(class) {
        Some(class) => class.vars.as_slice(),
        None => &[],
    }
}

/// The name of a rule; no bytes where there is no such rule.
pub fn rule_name(rules: &[RuleDef], rule: u8) -> &[u8]
    ensures { result.now ≡ rule_name rules.now rule }
{
    match rules.get(rule as usize) {
        Some(rule) => rule.name.as_slice(),
        None => b"",
    }
}

/// Appends a fact: its class and id.
pub fn put_fact(out: &mut Vec<u8>, schema: &Schema, class: u8, id: u32) -> Result<(), Memory>
    ensures { Puts result out.old.items out.new.items (fact_text schema.now class id) }
{
    put(out, class_name(schema, class))?;
    put(out, b"#")?;
    put_number(out, u64::from(id))
}

/// Appends the id of a value, or a dash for null.
fn put_value(out: &mut Vec<u8>, value: Option<u32>) -> Result<(), Memory>
    ensures { Puts result out.old.items out.new.items (value_text value) }
{
    match value {
        Some(id) => put_number(out, u64::from(id)),
        None => put(out, b"-"),
    }
}

/// Appends a variable and its value after a space.
fn put_variable(out: &mut Vec<u8>, var: &VarDef, value: Option<u32>) -> Result<(), Memory>
    ensures { Puts result out.old.items out.new.items (variable_text var.now value) }
{
    put(out, b" ")?;
    put(out, var.name.as_slice())?;
    put(out, b"=")?;
    put_value(out, value)
}

/// Appends variables with their values.
fn put_variables(out: &mut Vec<u8>, vars: &[VarDef], values: &[Option<u32>]) -> Result<(), Memory>
    ensures { Puts result out.old.items out.new.items (variables_text vars.now values.now) }
{
    let [var, other_vars @ ..] = vars else {
        return Ok(());
    };
    let [value, other_values @ ..] = values else {
        return Ok(());
    };
    put_variable(out, var, *value)?;
    put_variables(out, other_vars, other_values)
}

/// Appends an entity with the value of each variable.
pub fn put_entity(
    out: &mut Vec<u8>,
    schema: &Schema,
    class: u8,
    id: u32,
    values: &[Option<u32>],
) -> Result<(), Memory>
    ensures { Puts result out.old.items out.new.items (entity_text schema.now class id values.now) }
{
    put_fact(out, schema, class, id)?;
    put_variables(out, variables(schema, class), values)
}

/// Appends a part of a row.
fn put_part(out: &mut Vec<u8>, schema: &Schema, part: &Part) -> Result<(), Memory>
    ensures { Puts result out.old.items out.new.items (part_text schema.now part.now) }
{
    match part {
        Part::Fact(rec) => put_fact(out, schema, rec.class, rec.id),
        Part::Num(number) => put(out, Buffer::new().format(*number).as_bytes()),
    }
}

/// Appends the parts of a row, each after a space.
pub fn put_row(out: &mut Vec<u8>, schema: &Schema, row: &Row) -> Result<(), Memory>
    ensures { Puts result out.old.items out.new.items (row_text schema.now row.now) }
{
    for n in 0..row.len() {
        let Some(part) = row.part(n) else {
            unreachable!();
        };
        put(out, b" ")?;
        put_part(out, schema, part)?;
    }
    Ok(())
}
