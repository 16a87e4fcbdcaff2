ghost use Rattle.std.specs.Prelude.{◌≡◌, option_map, is_some};
ghost use Rattle.serde_json.specs.View.{view, members_view};
ghost use Rattle.json_values.specs.Values.{is_text, number_within, must_be};
ghost use Rattle.change_feed.specs.Changes.{text_in, number_in};
ghost use Rattle.change_feed.specs.Items.{object_in};

use json_values::{member, number_within};
use serde_json::{Map, Value};

/// Whether the line has a text under the name.
pub fn has_text(line: &Value, name: &[u8]) -> bool
    ensures { result ≡ must_be is_text name.now (view line.now) }
{
    match member(line, name) {
        Some(value) => value.is_string(),
        None => false,
    }
}

/// The text under the name; the empty one where there is none.
pub fn text_in<'a>(line: &'a Value, name: &[u8]) -> &'a [u8]
    ensures { result.now ≡ text_in name.now (view line.now) }
{
    match member(line, name) {
        Some(value) => match value.as_str() {
            Some(text) => text.as_bytes(),
            None => &[],
        },
        None => &[],
    }
}

/// Whether the line has a whole number from `low` to `high` under the name.
pub fn has_number(line: &Value, name: &[u8], low: u32, high: u32) -> bool
    ensures { result ≡ must_be (λ value. is_some (number_within low high value)) name.now (view line.now) }
{
    match member(line, name) {
        Some(value) => number_within(value, low, high).is_some(),
        None => false,
    }
}

/// The whole number from `low` to `high` under the name; 0 where there is none.
pub fn number_in(line: &Value, name: &[u8], low: u32, high: u32) -> u32
    ensures { result ≡ number_in low high name.now (view line.now) }
{
    match member(line, name) {
        Some(value) => match number_within(value, low, high) {
            Some(number) => number,
            None => 0,
        },
        None => 0,
    }
}

/// The members of the object under the name; none where there is none.
pub fn object_in<'a>(line: &'a Value, name: &[u8]) -> Option<&'a Map<String, Value>>
    ensures { option_map (λ m. members_view m.now.entries) result ≡ object_in name.now (view line.now) }
{
    match member(line, name) {
        Some(value) => value.as_object(),
        None => None,
    }
}
