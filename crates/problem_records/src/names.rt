ghost use Rattle.std.specs.Prelude.{◌≡◌, ◌≤◌, ◌<◌, ◌+◌, ◌*◌, length, map, IfOk, OnOk};
ghost use Rattle.serde_json.specs.View.{view};
ghost use Rattle.plan_facts.specs.Limits.{fact_limit, field_limit};
ghost use Rattle.plan_facts.specs.Schema.{HasFewMembers};
ghost use Rattle.problem_records.specs.Facts.{field_texts, record_texts, list_texts, numbered, names_of};
ghost use Rattle.problem_records.specs.RecordFaults.{count_of};

use crate::record::{records_of, text_in};
use plan_facts::{ClassDef, FieldDef, Kind, Memory, Names, Schema};
use serde_json::Value;
use std::alloc::Global;

/// Numbers the name that the field of the record holds, if it holds one.
fn number_field(names: &mut Names, entry: &Value, field: &FieldDef) -> Result<(), Memory>
    requires { length names.old < field_limit }
    ensures names { OnOk result (names.new ≡ numbered names.old (field_texts (view entry.now) field.now)) }
    ensures few { OnOk result (length names.new ≤ length names.old + 1) }
{
    match field.kind {
        Kind::Number => {}
        Kind::Name => {
            names.number(text_in(entry, field.name.as_slice()))?;
        }
    }
    Ok(())
}

/// Numbers the names of a record of the class.
fn number_record(names: &mut Names, class: &ClassDef, entry: &Value) -> Result<(), Memory>
    requires room { length names.old + 16 ≤ 16 * fact_limit }
    requires members { HasFewMembers class.now }
    ensures names { OnOk result (names.new ≡ numbered names.old (record_texts class.now (view entry.now))) }
    ensures few { OnOk result (length names.new ≤ length names.old + 16) }
{
    for field in class.fields.as_slice() {
        number_field(names, entry, field)?;
    }
    Ok(())
}

/// Numbers the names of some records of the class.
fn number_class(names: &mut Names, class: &ClassDef, entries: &[Value]) -> Result<(), Memory>
    requires room { length names.old + 16 * length entries.now ≤ 16 * fact_limit }
    requires members { HasFewMembers class.now }
    ensures names { OnOk result (names.new ≡ numbered names.old (list_texts class.now (map view entries.now))) }
    ensures few { OnOk result (length names.new ≤ length names.old + 16 * length entries.now) }
{
    for entry in entries {
        number_record(names, class, entry)?;
    }
    Ok(())
}

/// The names that the facts use, numbered in the order of first sight: class by class, records as they are listed,
/// fields in schema order.
pub fn names_of(alloc: Global, schema: &Schema, facts: &Value) -> Result<Names, Memory>
    requires { count_of schema.now (view facts.now) ≤ fact_limit }
    ensures { IfOk result (λ names. names ≡ names_of schema.now (view facts.now)) }
{
    let mut names = Names::new(alloc);
    for n in 0..schema.classes() {
        let Some(class) = schema.class(n) else {
            unreachable!();
        };
        number_class(&mut names, class, records_of(facts, class))?;
    }
    Ok(names)
}
