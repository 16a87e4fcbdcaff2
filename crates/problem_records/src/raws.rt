ghost use Rattle.std.specs.Prelude.{◌≡◌, pos, map, IfOk};
ghost use Rattle.serde_json.specs.View.{view};
ghost use Rattle.plan_facts.specs.Names.{number_of};
ghost use Rattle.problem_records.specs.Facts.{field_number, field_numbers, values_in, is_pinned, raw_of, raw_lists};

use crate::record::{id_in, id_of, number_in, records_of, text_in};
use json_values::member;
use plan_facts::{ClassDef, FieldDef, Kind, List, Memory, Names, Raw, Schema};
use serde_json::Value;
use std::alloc::Global;

/// The number of the text, which is the next one where it has none.
fn number_of(names: &Names, text: &[u8]) -> u32
    ensures { result ≡ number_of names.now text.now }
{
    match names.find(text) {
        Some(number) => number,
        None => names.count(),
    }
}

/// The number of the name, as a field holds it.
fn name_number(names: &Names, text: &[u8]) -> i64
    ensures { result ≡ pos (number_of names.now text.now) }
{
    i64::from(number_of(names, text))
}

/// What the field of the record holds: its number, or the number of its name.
fn field_number(names: &Names, entry: &Value, field: &FieldDef) -> i64
    ensures { result ≡ field_number names.now (view entry.now) field.now }
{
    match field.kind {
        Kind::Number => number_in(entry, field.name.as_slice()),
        Kind::Name => name_number(names, text_in(entry, field.name.as_slice())),
    }
}

/// What the fields of the record hold.
fn field_numbers(
    alloc: Global,
    names: &Names,
    class: &ClassDef,
    entry: &Value,
) -> Result<List<i64>, Memory>
    ensures { IfOk result (λ numbers. numbers ≡ field_numbers names.now class.now (view entry.now)) }
{
    let mut numbers = List::new(alloc);
    for field in class.fields.as_slice() {
        numbers.push(field_number(names, entry, field))?;
    }
    Ok(numbers)
}

/// What the variables of the record hold: null, or the id of a value.
fn values_in(alloc: Global, class: &ClassDef, entry: &Value) -> Result<List<Option<u32>>, Memory>
    ensures { IfOk result (λ values. values ≡ values_in class.now (view entry.now)) }
{
    let mut values = List::new(alloc);
    for var in class.vars.as_slice() {
        values.push(id_in(entry, var.name.as_slice()))?;
    }
    Ok(values)
}

/// Whether the record says that it is pinned.
fn is_pinned(entry: &Value) -> bool
    ensures { result ≡ is_pinned (view entry.now) }
{
    match member(entry, b"pinned") {
        Some(value) => value.as_bool().unwrap_or(false),
        None => false,
    }
}

/// The record, with the numbers of its names.
fn raw_of(alloc: Global, names: &Names, class: &ClassDef, entry: &Value) -> Result<Raw, Memory>
    ensures { IfOk result (λ raw. raw ≡ raw_of names.now class.now (view entry.now)) }
{
    Ok(Raw {
        id: id_of(entry),
        fields: field_numbers(alloc, names, class, entry)?,
        values: values_in(alloc, class, entry)?,
        pinned: is_pinned(entry),
    })
}

/// The records of the class, as they are listed.
fn class_raws(
    alloc: Global,
    names: &Names,
    class: &ClassDef,
    entries: &[Value],
) -> Result<List<Raw>, Memory>
    ensures { IfOk result (λ raws. raws ≡ map (raw_of names.now class.now) (map view entries.now)) }
{
    let mut raws = List::new(alloc);
    for entry in entries {
        raws.push(raw_of(alloc, names, class, entry)?)?;
    }
    Ok(raws)
}

/// The records of each class, as they are listed, with the numbers that these names give.
pub fn raw_lists(
    alloc: Global,
    names: &Names,
    schema: &Schema,
    facts: &Value,
) -> Result<List<List<Raw>>, Memory>
    ensures { IfOk result (λ lists. lists ≡ raw_lists names.now schema.now (view facts.now)) }
{
    let mut lists = List::new(alloc);
    for n in 0..schema.classes() {
        let Some(class) = schema.class(n) else {
            unreachable!();
        };
        lists.push(class_raws(alloc, names, class, records_of(facts, class))?)?;
    }
    Ok(lists)
}
