//! JSON values that are read by name, kind and range.

use json_values::{ReadFault, has_other, items, member, number_within, read_value};
use serde_json::Value;
use std::alloc::Global;

/// A member of the text, a range, and the number within it that the member is.
type Number = (&'static str, u32, u32, Option<u32>);

const NUMBERS: [Number; 8] = [
    ("n", 8, 8, Some(8)),
    ("n", 0, 7, None),
    ("n", 9, 10, None),
    ("f", 0, 9, None),
    ("e", 0, 9999, None),
    ("z", 0, 9, None),
    ("m", 0, 9, None),
    ("t", 0, 9, None),
];

const TEXT: &[u8] =
    b"{\"n\":7,\"n\":8,\"f\":1.0,\"e\":1e3,\"z\":-0,\"m\":-1,\"l\":[1,null],\"t\":\"x\"}";

/// Whether a member is this number within a range.
fn is_number(root: &Value, number: &Number) -> bool {
    let (name, low, high, want) = *number;
    match member(root, name.as_bytes()) {
        Some(value) => number_within(value, low, high) == want,
        None => false,
    }
}

/// Whether each number of the text is as wanted.
fn are_numbers(root: &Value) -> bool {
    for i in 0..NUMBERS.len() {
        if !is_number(root, &NUMBERS[i]) {
            return false;
        }
    }
    true
}

fn is_small(name: &[u8]) -> bool {
    matches!(name, [b'a'..=b'z'])
}

fn is_n(name: &[u8]) -> bool {
    matches!(name, b"n")
}

fn is_unknown(_name: &[u8]) -> bool {
    false
}

/// Whether the members of the text and the items of its list are told, and what isn't there isn't.
fn are_members(root: &Value) -> bool {
    let Some(list) = member(root, b"l") else {
        return false;
    };
    matches!(items(list), Some([_, _]))
        && member(root, b"N").is_none()
        && member(root, b"\xff").is_none()
        && items(root).is_none()
        && !has_other(root, is_small)
        && has_other(root, is_n)
        && !has_other(&Value::Null, is_unknown)
}

/// Whether the text has its members, numbers and items.
fn is_right(alloc: Global) -> Result<bool, ReadFault> {
    let root = read_value(alloc, TEXT)?;
    Ok(are_numbers(&root) && are_members(&root))
}

#[test]
fn reads_members_by_name_kind_and_range(rt: HostRuntime) {
    assert!(rt; matches!(is_right(rt.alloc()), Ok(true)));
}

#[test]
fn refuses_what_is_no_json(rt: HostRuntime) {
    let cases: [&[u8]; 5] = [b"", b"{", b"\xff", b"1 2", b"{\"a\":1,}"];
    for bytes in cases {
        assert!(rt; matches!(read_value(rt.alloc(), bytes), Err(ReadFault::Json)));
    }
}
