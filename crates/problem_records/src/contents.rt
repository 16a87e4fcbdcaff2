ghost use Rattle.std.specs.Prelude.{◌≡◌, map};
ghost use Rattle.serde_json.specs.View.{view};
ghost use Rattle.problem_faults.specs.Refusals.{RefusesFor};
ghost use Rattle.problem_records.specs.RecordFaults.{is_short_name, is_good_field, fields_fault, list_fault, contents_fault};

use crate::faults::{bad_field, double_id};
use crate::record::{id_of, number_in, records_of, text_in};
use plan_facts::{ClassDef, FIELD_LIMIT, FieldDef, Kind, Schema};
use problem_faults::ProblemFault;
use serde_json::Value;
use std::alloc::Global;
use std::collections::HashSet;

/// The most bytes that a name may have.
const NAME_LIMIT: usize = 64;

/// Whether a name has as many bytes as it may have.
fn is_short_name(text: &[u8]) -> bool
    ensures { result ≡ is_short_name text.now }
{
    matches!(text.len(), 1..=NAME_LIMIT)
}

/// Whether the field's number is in range, or its name neither empty nor too long.
fn is_good_field(entry: &Value, field: &FieldDef) -> bool
    ensures { result ≡ is_good_field (view entry.now) field.now }
{
    match field.kind {
        Kind::Number => {
            let number = number_in(entry, field.name.as_slice());
            -FIELD_LIMIT <= number && number <= FIELD_LIMIT
        }
        Kind::Name => is_short_name(text_in(entry, field.name.as_slice())),
    }
}

/// The first field of the record that is out of range.
fn check_fields(alloc: Global, class: &ClassDef, entry: &Value) -> Result<(), ProblemFault>
    ensures { RefusesFor (fields_fault class.now (view entry.now)) result }
{
    let fields = class.fields.as_slice();
    for place in 0..fields.len() {
        if !is_good_field(entry, &fields[place]) {
            return Err(bad_field(alloc, class, id_of(entry), &fields[place])?);
        }
    }
    Ok(())
}

/// The first record of the class with a double id or a field out of range.
fn check_class(alloc: Global, class: &ClassDef, entries: &[Value]) -> Result<(), ProblemFault>
    ensures { RefusesFor (list_fault class.now (map view entries.now)) result }
{
    let mut ids = HashSet::new(alloc);
    for place in 0..entries.len() {
        let entry = &entries[place];
        let id = id_of(entry);
        if ids.contains(&id) {
            return Err(double_id(alloc, class, id));
        }
        check_fields(alloc, class, entry)?;
        ids.insert(id)?;
    }
    Ok(())
}

/// The first record with a double id or a field out of range.
pub fn check_contents(alloc: Global, schema: &Schema, facts: &Value) -> Result<(), ProblemFault>
    ensures { RefusesFor (contents_fault schema.now (view facts.now)) result }
{
    for n in 0..schema.classes() {
        let Some(class) = schema.class(n) else {
            unreachable!();
        };
        check_class(alloc, class, records_of(facts, class))?;
    }
    Ok(())
}
