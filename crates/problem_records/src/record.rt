ghost use Rattle.std.specs.Prelude.{◌≡◌, map, option_map};
ghost use Rattle.std.specs.List.{list_any};
ghost use Rattle.std.specs.Str.{bytes_eq};
ghost use Rattle.serde_json.specs.View.{view};
ghost use Rattle.json_values.specs.Values.{has_other};
ghost use Rattle.problem_records.specs.Records.{has_entities, records_of, id_in, id_of};
ghost use Rattle.problem_records.specs.Facts.{number_in, text_in};
ghost use Rattle.problem_records.specs.Shapes.{is_of_kind, has_field, is_choice, has_variable, may_be_pinned, bad_field, bad_variable, bad_member, own_names, known_names};
ghost use Rattle.plan_facts.specs.Schema.{member_names};

use json_values::{has_other, items, member, number_within};
use plan_facts::{ClassDef, FieldDef, ID_LIMIT, Kind, VarDef};
use serde_json::Value;

/// Whether the class has variables, so that its records are entities.
pub fn has_entities(class: &ClassDef) -> bool
    ensures { result ≡ has_entities class.now }
{
    !class.vars.is_empty()
}

/// The records that the facts list for a class; none where they don't name it.
pub fn records_of<'a>(facts: &'a Value, class: &ClassDef) -> &'a [Value]
    ensures { map view result.now ≡ records_of (view facts.now) class.now }
{
    match member(facts, class.name.as_slice()) {
        Some(value) => match items(value) {
            Some(records) => records,
            None => &[],
        },
        None => &[],
    }
}

/// The id that the member of the record holds; none where it holds no whole number from 1 to 10^9.
pub fn id_in(entry: &Value, name: &[u8]) -> Option<u32>
    ensures { result ≡ id_in name.now (view entry.now) }
{
    match member(entry, name) {
        Some(value) => number_within(value, 1, ID_LIMIT),
        None => None,
    }
}

/// The id of the record; 0 where it has none.
pub fn id_of(entry: &Value) -> u32
    ensures { result ≡ id_of (view entry.now) }
{
    match id_in(entry, b"id") {
        Some(id) => id,
        None => 0,
    }
}

/// The whole number that the member holds; 0 where it holds none.
pub fn number_in(entry: &Value, name: &[u8]) -> i64
    ensures { result ≡ number_in name.now (view entry.now) }
{
    match member(entry, name) {
        Some(value) => match value.as_i64() {
            Some(number) => number,
            None => 0,
        },
        None => 0,
    }
}

/// The text that the member holds; the empty one where it holds none.
pub fn text_in<'a>(entry: &'a Value, name: &[u8]) -> &'a [u8]
    ensures { result.now ≡ text_in name.now (view entry.now) }
{
    match member(entry, name) {
        Some(value) => match value.as_str() {
            Some(text) => text.as_bytes(),
            None => &[],
        },
        None => &[],
    }
}

/// Whether a field of this kind holds the value.
fn is_of_kind(kind: Kind, value: &Value) -> bool
    ensures { result ≡ is_of_kind kind (view value.now) }
{
    match kind {
        Kind::Number => value.is_i64(),
        Kind::Name => value.is_string(),
    }
}

/// Whether the record has the field, of its kind.
fn has_field(entry: &Value, field: &FieldDef) -> bool
    ensures { result ≡ has_field (view entry.now) field.now }
{
    match member(entry, field.name.as_slice()) {
        Some(value) => is_of_kind(field.kind, value),
        None => false,
    }
}

/// Whether a variable holds the value: null, or an id.
fn is_choice(value: &Value) -> bool
    ensures { result ≡ is_choice (view value.now) }
{
    value.is_null() || number_within(value, 1, ID_LIMIT).is_some()
}

/// Whether what the record has for the variable, if it has something, is null or an id.
fn has_variable(entry: &Value, var: &VarDef) -> bool
    ensures { result ≡ has_variable (view entry.now) var.now }
{
    match member(entry, var.name.as_slice()) {
        Some(value) => is_choice(value),
        None => true,
    }
}

/// Whether the record is no entity, or what it has for `pinned`, if it has something, is true or false.
fn may_be_pinned(class: &ClassDef, entry: &Value) -> bool
    ensures { result ≡ may_be_pinned class.now (view entry.now) }
{
    if !has_entities(class) {
        return true;
    }
    match member(entry, b"pinned") {
        Some(value) => value.is_boolean(),
        None => true,
    }
}

/// The name of the first field that the record lacks or has of another kind.
fn bad_field<'a>(class: &'a ClassDef, entry: &Value) -> Option<&'a [u8]>
    ensures { option_map (λ name. name.now) result ≡ bad_field class.now (view entry.now) }
{
    let fields = class.fields.as_slice();
    let field = fields.iter().find(|field| !has_field(entry, field))?;
    Some(field.name.as_slice())
}

/// The name of the first variable for which the record has what is no null and no id.
fn bad_variable<'a>(class: &'a ClassDef, entry: &Value) -> Option<&'a [u8]>
    ensures { option_map (λ name. name.now) result ≡ bad_variable class.now (view entry.now) }
{
    let vars = class.vars.as_slice();
    let var = vars.iter().find(|var| !has_variable(entry, var))?;
    Some(var.name.as_slice())
}

/// The name of the first member that is missing or of another kind: the id, fields, variables, `pinned`.
pub fn bad_member<'a>(class: &'a ClassDef, entry: &Value) -> Option<&'a [u8]>
    ensures { option_map (λ name. name.now) result ≡ bad_member class.now (view entry.now) }
{
    if id_in(entry, b"id").is_none() {
        return Some(b"id");
    }
    if let Some(name) = bad_field(class, entry) {
        return Some(name);
    }
    if let Some(name) = bad_variable(class, entry) {
        return Some(name);
    }
    if may_be_pinned(class, entry) {
        None
    } else {
        Some(b"pinned")
    }
}

/// Whether a field of the class has this name.
fn is_field(class: &ClassDef, name: &[u8]) -> bool
    ensures { result ≡ list_any (λ field. bytes_eq name.now field.name) class.now.fields }
{
    class
        .fields
        .as_slice()
        .iter()
        .any(|field| name == field.name.as_slice())
}

/// Whether a variable of the class has this name.
fn is_variable(class: &ClassDef, name: &[u8]) -> bool
    ensures { result ≡ list_any (λ var. bytes_eq name.now var.name) class.now.vars }
{
    class
        .vars
        .as_slice()
        .iter()
        .any(|var| name == var.name.as_slice())
}

/// Whether a field or a variable of the class has this name.
fn is_member(class: &ClassDef, name: &[u8]) -> bool
    ensures { result ≡ list_any (bytes_eq name.now) (member_names class.now) }
{
    is_field(class, name) || is_variable(class, name)
}

/// Whether the name is `id`, or that of a field or a variable of the class.
fn is_own(class: &ClassDef, name: &[u8]) -> bool
    ensures { result ≡ list_any (bytes_eq name.now) (own_names class.now) }
{
    name == b"id".as_slice() || is_member(class, name)
}

/// Whether a record of the class may have a member of this name.
fn is_known(class: &ClassDef, name: &[u8]) -> bool
    ensures { result ≡ list_any (bytes_eq name.now) (known_names class.now) }
{
    if has_entities(class) {
        name == b"pinned".as_slice() || is_own(class, name)
    } else {
        is_own(class, name)
    }
}

/// Whether the record has a member that its class doesn't know.
pub fn has_other_member(class: &ClassDef, entry: &Value) -> bool
    ensures { result ≡ has_other (known_names class.now) (view entry.now) }
{
    has_other(entry, |name| is_known(class, name))
}
