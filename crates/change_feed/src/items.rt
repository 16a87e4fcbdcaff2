ghost use Rattle.std.specs.Prelude.{◌≡◌, codes, IfOk};
ghost use Rattle.std.specs.List.{list_all};
ghost use Rattle.std.specs.BTreeMap.{values};
ghost use Rattle.serde_json.specs.View.{view, members_view};
ghost use Rattle.json_values.specs.Values.{must_be, may_be};
ghost use Rattle.plan_changes.specs.Change.{AreFieldsInOrder, AreValuesInOrder};
ghost use Rattle.change_feed.specs.Items.{is_object_of, is_item, is_choice, item_of, field_items, value_items, fields_of, values_of};

use crate::members::object_in;
use json_values::{member, number_within};
use plan_changes::{FieldItem, Item, ValueItem};
use plan_facts::{ID_LIMIT, List, Memory, Text};
use serde_json::{Map, Value};
use std::alloc::Global;

/// Whether a field may be given the value: a whole number or a text.
fn is_item(value: &Value) -> bool
    ensures { result ≡ is_item (view value.now) }
{
    value.is_i64() || value.is_string()
}

/// Whether a variable may be given the value: null or an id.
fn is_choice(value: &Value) -> bool
    ensures { result ≡ is_choice (view value.now) }
{
    value.is_null() || number_within(value, 1, ID_LIMIT).is_some()
}

/// Whether each member gives what a field may be given.
fn are_items(members: &Map<String, Value>) -> bool
    ensures { result ≡ list_all (λ value. is_item (view value)) (values members.now) }
{
    for value in members.values() {
        if !is_item(value) {
            return false;
        }
    }
    true
}

/// Whether each member gives what a variable may be given.
fn are_choices(members: &Map<String, Value>) -> bool
    ensures { result ≡ list_all (λ value. is_choice (view value)) (values members.now) }
{
    for value in members.values() {
        if !is_choice(value) {
            return false;
        }
    }
    true
}

/// Whether the value is an object whose members give what fields may be given.
fn is_object_of_items(value: &Value) -> bool
    ensures { result ≡ is_object_of is_item (view value.now) }
{
    match value.as_object() {
        Some(members) => are_items(members),
        None => false,
    }
}

/// Whether the value is an object whose members give what variables may be given.
fn is_object_of_choices(value: &Value) -> bool
    ensures { result ≡ is_object_of is_choice (view value.now) }
{
    match value.as_object() {
        Some(members) => are_choices(members),
        None => false,
    }
}

/// Whether the line gives fields, each what it may be given.
pub fn has_fields(line: &Value) -> bool
    ensures { result ≡ must_be (is_object_of is_item) (codes "fields") (view line.now) }
{
    match member(line, b"fields") {
        Some(value) => is_object_of_items(value),
        None => false,
    }
}

/// Whether the line gives variables, each what it may be given.
pub fn has_values(line: &Value) -> bool
    ensures { result ≡ must_be (is_object_of is_choice) (codes "values") (view line.now) }
{
    match member(line, b"values") {
        Some(value) => is_object_of_choices(value),
        None => false,
    }
}

/// Whether the line gives no variables, or each what it may be given.
pub fn may_have_values(line: &Value) -> bool
    ensures { result ≡ may_be (is_object_of is_choice) (codes "values") (view line.now) }
{
    match member(line, b"values") {
        Some(value) => is_object_of_choices(value),
        None => true,
    }
}

/// What the value gives a field: its text, or else its number.
fn item_of(alloc: Global, value: &Value) -> Result<Item, Memory>
    ensures { IfOk result (λ item. item ≡ item_of (view value.now)) }
{
    match value.as_str() {
        Some(text) => Ok(Item::Name(Text::from_slice(alloc, text.as_bytes())?)),
        None => Ok(Item::Num(value.as_i64().unwrap_or(0))),
    }
}

/// What the members give fields.
fn field_items(alloc: Global, members: &Map<String, Value>) -> Result<List<FieldItem>, Memory>
    ensures items { IfOk result (λ items. items ≡ field_items (members_view members.now.entries)) }
    ensures order { IfOk result (λ items. AreFieldsInOrder items) }
{
    let mut items = List::new(alloc);
    for (key, value) in members.iter() {
        let name = Text::from_slice(alloc, key.as_bytes())?;
        let item = item_of(alloc, value)?;
        items.push(FieldItem { name, item })?;
    }
    Ok(items)
}

/// What the members give variables.
fn value_items(alloc: Global, members: &Map<String, Value>) -> Result<List<ValueItem>, Memory>
    ensures items { IfOk result (λ items. items ≡ value_items (members_view members.now.entries)) }
    ensures order { IfOk result (λ items. AreValuesInOrder items) }
{
    let mut items = List::new(alloc);
    for (key, value) in members.iter() {
        let name = Text::from_slice(alloc, key.as_bytes())?;
        let value = number_within(value, 1, ID_LIMIT);
        items.push(ValueItem { name, value })?;
    }
    Ok(items)
}

/// What the line gives fields.
pub fn fields_of(alloc: Global, line: &Value) -> Result<List<FieldItem>, Memory>
    ensures items { IfOk result (λ items. items ≡ fields_of (view line.now)) }
    ensures order { IfOk result (λ items. AreFieldsInOrder items) }
{
    match object_in(line, b"fields") {
        Some(members) => field_items(alloc, members),
        None => Ok(List::new(alloc)),
    }
}

/// What the line gives variables.
pub fn values_of(alloc: Global, line: &Value) -> Result<List<ValueItem>, Memory>
    ensures items { IfOk result (λ items. items ≡ values_of (view line.now)) }
    ensures order { IfOk result (λ items. AreValuesInOrder items) }
{
    match object_in(line, b"values") {
        Some(members) => value_items(alloc, members),
        None => Ok(List::new(alloc)),
    }
}
