ghost use Rattle.std.specs.Prelude.{◌≡◌, [], map};
ghost use Rattle.std.specs.List.{list_any};
ghost use Rattle.std.specs.Str.{bytes_eq};
ghost use Rattle.serde_json.specs.View.{view};
ghost use Rattle.json_values.specs.Values.{has_other};
ghost use Rattle.problem_faults.specs.Refusals.{RefusesFor};
ghost use Rattle.problem_records.specs.Shapes.{record_shape_at, records_shape_fault, class_shape_fault, classes_shape_fault, class_names, shape_fault};

use crate::path::{member_shape, record_shape, shape_at};
use crate::record::{bad_member, has_other_member};
use json_values::{has_other, items, member};
use plan_facts::{ClassDef, Schema};
use problem_faults::ProblemFault;
use serde_json::Value;
use std::alloc::Global;

/// The first cause for which the record, at this place of its list, is none of the class.
fn check_record(
    alloc: Global,
    class: &ClassDef,
    place: usize,
    entry: &Value,
) -> Result<(), ProblemFault>
    ensures { RefusesFor (record_shape_at class.now place (view entry.now)) result }
{
    if !entry.is_object() {
        return Err(record_shape(alloc, class, place));
    }
    if let Some(name) = bad_member(class, entry) {
        return Err(member_shape(alloc, class, place, name));
    }
    if has_other_member(class, entry) {
        return Err(record_shape(alloc, class, place));
    }
    Ok(())
}

/// The first record of another shape.
fn check_records(alloc: Global, class: &ClassDef, records: &[Value]) -> Result<(), ProblemFault>
    ensures { RefusesFor (records_shape_fault class.now (map view records.now)) result }
{
    for place in 0..records.len() {
        check_record(alloc, class, place, &records[place])?;
    }
    Ok(())
}

/// Why what the facts have for the class, if they name it, is no array of its records.
fn check_class(alloc: Global, facts: &Value, class: &ClassDef) -> Result<(), ProblemFault>
    ensures { RefusesFor (class_shape_fault (view facts.now) [] class.now) result }
{
    let Some(value) = member(facts, class.name.as_slice()) else {
        return Ok(());
    };
    match items(value) {
        Some(records) => check_records(alloc, class, records),
        None => Err(shape_at(alloc, &[class.name.as_slice()])),
    }
}

/// The first class for which the facts have no array of its records.
fn check_classes(alloc: Global, schema: &Schema, facts: &Value) -> Result<(), ProblemFault>
    ensures { RefusesFor (classes_shape_fault schema.now (view facts.now)) result }
{
    for n in 0..schema.classes() {
        let Some(class) = schema.class(n) else {
            unreachable!();
        };
        check_class(alloc, facts, class)?;
    }
    Ok(())
}

/// Whether a class has this name.
fn is_class(schema: &Schema, name: &[u8]) -> bool
    ensures { result ≡ list_any (λ class. bytes_eq name.now class.name) schema.now }
{
    for n in 0..schema.classes() {
        let Some(class) = schema.class(n) else {
            unreachable!();
        };
        if name == class.name.as_slice() {
            return true;
        }
    }
    false
}

/// Whether the facts have a member that names no class.
fn has_other_class(schema: &Schema, facts: &Value) -> bool
    ensures { result ≡ has_other (class_names schema.now) (view facts.now) }
{
    has_other(facts, |name| is_class(schema, name))
}

/// The first thing of another shape in the facts of a problem: class by class what is no array of its records, then a
/// member that names no class.
pub fn check_shapes(alloc: Global, schema: &Schema, facts: &Value) -> Result<(), ProblemFault>
    ensures { RefusesFor (shape_fault schema.now (view facts.now)) result }
{
    check_classes(alloc, schema, facts)?;
    if has_other_class(schema, facts) {
        return Err(shape_at(alloc, &[]));
    }
    Ok(())
}
