//! The lines of changes.

ghost use Rattle.std.specs.Prelude.{◌≡◌, ◌++◌, codes};
ghost use Rattle.plan_reports.specs.ChangeLines.{applied_rule_text, applied_text, change_text, fault_words, refused_text, rule_text, spot_word};
ghost use Rattle.plan_reports.specs.Puts.{Puts};

use crate::parts::{class_name, put, put_fact, put_number, rule_name};
use plan_changes::{ChangeFault, Spot};
use plan_facts::{Memory, Schema};
use plan_rules::RuleDef;

/// What is wrong with a line that should be a change, in one word.
fn spot_word(spot: Spot) -> &'static [u8]
    ensures { result.now ≡ spot_word spot }
{
    match spot {
        Spot::Json => b"json",
        Spot::Object => b"object",
        Spot::Do => b"do",
        Spot::Class => b"class",
        Spot::Id => b"id",
        Spot::Fields => b"fields",
        Spot::Values => b"values",
        Spot::Rule => b"rule",
        Spot::Weight => b"weight",
        Spot::Member => b"member",
    }
}

/// Appends what is wrong with a line that should be a change.
fn put_spot(out: &mut Vec<u8>, spot: Spot) -> Result<(), Memory>
    ensures { Puts result out.old.items out.new.items (codes "syntax " ++ spot_word spot) }
{
    put(out, b"syntax ")?;
    put(out, spot_word(spot))
}

/// Appends a word and a name.
fn put_name(out: &mut Vec<u8>, word: &[u8], name: &[u8]) -> Result<(), Memory>
    ensures { Puts result out.old.items out.new.items (word.now ++ name.now) }
{
    put(out, word)?;
    put(out, name)
}

/// Appends a rule by its name.
fn put_rule(out: &mut Vec<u8>, rules: &[RuleDef], rule: u8) -> Result<(), Memory>
    ensures { Puts result out.old.items out.new.items (rule_text rules.now rule) }
{
    put_name(out, b"rule ", rule_name(rules, rule))
}

/// Appends why a change is refused; want of memory has no words.
fn put_fault(
    out: &mut Vec<u8>,
    schema: &Schema,
    rules: &[RuleDef],
    fault: ChangeFault,
) -> Result<(), Memory>
    ensures { Puts result out.old.items out.new.items (fault_words schema.now rules.now fault) }
{
    match fault {
        ChangeFault::Memory => put(out, b""),
        ChangeFault::Syntax(spot) => put_spot(out, spot),
        ChangeFault::LongLine => put(out, b"long_line"),
        ChangeFault::UnknownClass => put(out, b"unknown_class"),
        ChangeFault::NoSuchFact { id: _ } => put(out, b"no_such_fact"),
        ChangeFault::BadField => put(out, b"bad_field"),
        ChangeFault::BadValue => put(out, b"bad_value"),
        ChangeFault::TooManyFacts => put(out, b"too_many_facts"),
        ChangeFault::RangeProduct { class } => {
            put_name(out, b"range_product ", class_name(schema, class))
        }
        ChangeFault::RowsBound { rule } => put_name(out, b"rows_bound ", rule_name(rules, rule)),
        ChangeFault::ScoreRange => put(out, b"score_range"),
        ChangeFault::UnknownRule => put(out, b"unknown_rule"),
    }
}

/// Appends the beginning of a change's line: the number of its line in the feed, and the boundary.
fn put_change(out: &mut Vec<u8>, line: u32, boundary: u32) -> Result<(), Memory>
    ensures { Puts result out.old.items out.new.items (change_text line boundary) }
{
    put(out, b"change ")?;
    put_number(out, u64::from(line))?;
    put(out, b" ")?;
    put_number(out, u64::from(boundary))
}

/// Appends the line of a change of a fact that was made.
pub fn put_applied(
    out: &mut Vec<u8>,
    schema: &Schema,
    line: u32,
    boundary: u32,
    class: u8,
    id: u32,
) -> Result<(), Memory>
    ensures { Puts result out.old.items out.new.items (applied_text schema.now line boundary class id) }
{
    put_change(out, line, boundary)?;
    put(out, b" applied ")?;
    put_fact(out, schema, class, id)?;
    put(out, b"\n")
}

/// Appends the line of a change of a rule's weight that was made.
pub fn put_applied_rule(
    out: &mut Vec<u8>,
    rules: &[RuleDef],
    line: u32,
    boundary: u32,
    rule: u8,
) -> Result<(), Memory>
    ensures { Puts result out.old.items out.new.items (applied_rule_text rules.now line boundary rule) }
{
    put_change(out, line, boundary)?;
    put(out, b" applied ")?;
    put_rule(out, rules, rule)?;
    put(out, b"\n")
}

/// Appends the line of a change that was refused.
pub fn put_refused(
    out: &mut Vec<u8>,
    schema: &Schema,
    rules: &[RuleDef],
    line: u32,
    boundary: u32,
    fault: ChangeFault,
) -> Result<(), Memory>
    ensures { Puts result out.old.items out.new.items (refused_text schema.now rules.now line boundary fault) }
{
    put_change(out, line, boundary)?;
    put(out, b" refused ")?;
    put_fault(out, schema, rules, fault)?;
    put(out, b"\n")
}
