//! JSON values read by name, by kind and within a range.
#![tactic(auto)]

ghost use Rattle.std.specs.Prelude.{◌≡◌, Some, None, IfOk, map, option_map, string_bytes};
ghost use Rattle.std.specs.List.{list_any};
ghost use Rattle.std.specs.BTreeMap.{keys};
ghost use Rattle.serde_json.specs.View.{view, members_view};
ghost use Rattle.serde_json.specs.Find.{get, get_member};
ghost use Rattle.json_values.specs.Values.{value_of, items_of, number_within, is_other, has_other};
ghost use Rattle.json_values.specs.Views.{view_at, Knows};

use serde_json::{Map, Value};
use std::alloc::Global;
use std::str;

/// Why bytes are no value.
#[derive(Clone, Copy, Debug, PartialEq, Eq)]
pub enum ReadFault {
    /// Want of memory.
    Memory,
    /// The bytes aren't UTF-8, are no JSON, or nest too deep.
    Json,
}

/// The value of the bytes. Of members with one name the last one counts.
pub fn read_value(alloc: Global, bytes: &[u8]) -> Result<Value, ReadFault>
    ensures ok { IfOk result (λ value. value_of bytes.now ≡ Some (view value)) }
    ensures json { result ≡ Err ReadFault.Json → value_of bytes.now ≡ None }
{
    match Value::from_slice(alloc, bytes) {
        Ok(value) => Ok(value),
        Err(error) => {
            if error.is_memory() {
                Err(ReadFault::Memory)
            } else {
                Err(ReadFault::Json)
            }
        }
    }
}

/// The member with this name; none where there is none, or the value is no object.
pub fn member<'a>(object: &'a Value, name: &[u8]) -> Option<&'a Value>
    ensures { view_at result ≡ get name.now (view object.now) }
{
    match object.as_object() {
        Some(members) => member_of(members, name),
        None => None,
    }
}

/// The member with this name.
fn member_of<'a>(members: &'a Map<String, Value>, name: &[u8]) -> Option<&'a Value>
    ensures { view_at result ≡ get_member name.now (members_view members.now.entries) }
{
    match str::from_utf8(name) {
        Ok(text) => members.get(text),
        Err(_) => None,
    }
}

/// The items of an array; none where the value is no array.
pub fn items(value: &Value) -> Option<&[Value]>
    ensures { option_map (λ list. map view list.now) result ≡ items_of (view value.now) }
{
    match value.as_array() {
        Some(list) => Some(list.as_slice()),
        None => None,
    }
}

/// The whole number from `low` to `high` that the value is; none where it is none, as `1.0`, or lies outside.
pub fn number_within(value: &Value, low: u32, high: u32) -> Option<u32>
    ensures { result ≡ number_within low high (view value.now) }
{
    match value.as_i64() {
        Some(number) => {
            if i64::from(low) <= number && number <= i64::from(high) {
                Some(number as u32)
            } else {
                None
            }
        }
        None => None,
    }
}

/// Whether the value is an object with a member that isn't among the names for which `is_known` answers yes.
pub fn has_other<F: Fn(&[u8]) -> bool>(value: &Value, is_known: F) -> bool
    requires { F.IsAlwaysCallable is_known }
    ensures { (names : _) → Knows F.Fn is_known names → result ≡ has_other names (view value.now) }
{
    match value.as_object() {
        Some(members) => has_other_key(members, is_known),
        None => false,
    }
}

/// Whether a key isn't known.
fn has_other_key<F: Fn(&[u8]) -> bool>(members: &Map<String, Value>, is_known: F) -> bool
    requires { F.IsAlwaysCallable is_known }
    ensures { (names : _) → Knows F.Fn is_known names →
        result ≡ list_any (λ key. is_other names (string_bytes key)) (keys members.now) }
{
    for key in members.keys() {
        if !is_known(key.as_bytes()) {
            return true;
        }
    }
    false
}
