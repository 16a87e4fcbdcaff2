//! What a change names: a class, a rule, fields and variables.

ghost use Rattle.std.specs.Prelude.{◌≡◌, ◌≤◌, ◌<◌, length, option_copied, IfOk, IfSome};
ghost use Rattle.std.specs.Str.{bytes_eq};
ghost use Rattle.plan_changes.specs.Named.{class_named, rule_named, field_named, var_named, field_item_named, value_item_named, item_for, value_for, items_for, values_for, value_given};

use crate::change::{FieldItem, Item, ValueItem};
use plan_facts::{ClassDef, FieldDef, List, Memory, Schema, Text, VarDef};
use std::alloc::Global;

/// Whether this is the name.
fn is_named(text: &Text, name: &[u8]) -> bool
    ensures { result ≡ bytes_eq name.now text.now }
{
    name == text.as_slice()
}

/// The number of the class with this name.
pub fn class_named(schema: &Schema, name: &[u8]) -> Option<u8>
    ensures number { result ≡ class_named schema.now name.now }
    ensures within { IfSome result (λ n. n < length schema.now) }
{
    for n in 0..schema.classes() {
        let Some(class) = schema.class(n) else {
            unreachable!();
        };
        if is_named(&class.name, name) {
            return Some(n);
        }
    }
    None
}

/// The number of the rule with this name, of at most 32.
pub fn rule_named(names: &[Text], name: &[u8]) -> Option<u8>
    requires { length names.now ≤ 32 }
    ensures number { result ≡ rule_named names.now name.now }
    ensures within { IfSome result (λ n. n < length names.now) }
{
    for place in 0..names.len() {
        if is_named(&names[place], name) {
            return Some(place as u8);
        }
    }
    None
}

/// The field of the class with this name.
pub fn field_named<'a>(class: &'a ClassDef, name: &[u8]) -> Option<&'a FieldDef>
    ensures { option_copied result ≡ field_named class.now name.now }
{
    class
        .fields
        .as_slice()
        .iter()
        .find(|field| name == field.name.as_slice())
}

/// The variable of the class with this name.
pub fn var_named<'a>(class: &'a ClassDef, name: &[u8]) -> Option<&'a VarDef>
    ensures { option_copied result ≡ var_named class.now name.now }
{
    class
        .vars
        .as_slice()
        .iter()
        .find(|var| name == var.name.as_slice())
}

/// The item of the field with this name.
pub fn field_item_named<'a>(items: &'a [FieldItem], name: &[u8]) -> Option<&'a FieldItem>
    ensures { option_copied result ≡ field_item_named items.now name.now }
{
    items.iter().find(|item| name == item.name.as_slice())
}

/// The item of the variable with this name.
fn value_item_named<'a>(items: &'a [ValueItem], name: &[u8]) -> Option<&'a ValueItem>
    ensures { option_copied result ≡ value_item_named items.now name.now }
{
    items.iter().find(|item| name == item.name.as_slice())
}

/// A copy of what the items give the field, if they name it.
fn item_for(alloc: Global, items: &[FieldItem], field: &FieldDef) -> Result<Option<Item>, Memory>
    ensures { IfOk result (λ item. item ≡ item_for items.now field.now) }
{
    match field_item_named(items, field.name.as_slice()) {
        Some(found) => Ok(Some(found.item.copy(alloc)?)),
        None => Ok(None),
    }
}

/// What the items give the variable, if they name it.
pub fn value_for(items: &[ValueItem], var: &VarDef) -> Option<Option<u32>>
    ensures { result ≡ value_for items.now var.now }
{
    let found = value_item_named(items, var.name.as_slice())?;
    Some(found.value)
}

/// What a variable holds that is given something or not: null where it isn't named.
pub fn value_given(value: Option<Option<u32>>) -> Option<u32>
    ensures { result ≡ value_given value }
{
    value.unwrap_or(None)
}

/// Copies of what the items give each field of the class, if they name it.
pub fn items_for(
    alloc: Global,
    items: &[FieldItem],
    class: &ClassDef,
) -> Result<List<Option<Item>>, Memory>
    ensures { IfOk result (λ given. given ≡ items_for items.now class.now) }
{
    let mut given = List::new(alloc);
    for field in class.fields.as_slice() {
        given.push(item_for(alloc, items, field)?)?;
    }
    Ok(given)
}

/// What the items give each variable of the class, if they name it.
pub fn values_for(
    alloc: Global,
    items: &[ValueItem],
    class: &ClassDef,
) -> Result<List<Option<Option<u32>>>, Memory>
    ensures { IfOk result (λ given. given ≡ values_for items.now class.now) }
{
    let mut given = List::new(alloc);
    for var in class.vars.as_slice() {
        given.push(value_for(items, var))?;
    }
    Ok(given)
}
