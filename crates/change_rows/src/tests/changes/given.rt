//! Changes that are made by hand.

use crate::tests::expect_none;
use plan_changes::{Change, Deed, FieldItem, Item, ValueItem};
use plan_facts::{Memory, Text};
use std::alloc::Global;
use std::test::Fail;

/// Names in their order, and whether they are variables.
const NAMES: [(&str, bool); 6] = [
    ("group", false),
    ("size", false),
    ("subject", false),
    ("teacher", false),
    ("room", true),
    ("slot", true),
];

/// Gives a field of the change a number; whether it is given.
fn give_field(change: &mut Change, name: Text) -> Result<bool, Memory> {
    let item = Item::Num(5);
    change.give_field(FieldItem { name, item })
}

/// Gives a variable of the change a value; whether it is given.
fn give_value(change: &mut Change, name: Text) -> Result<bool, Memory> {
    let value = Some(1);
    change.give_value(ValueItem { name, value })
}

/// Gives a field or a variable of the change something; whether it is given.
fn give(alloc: Global, change: &mut Change, name: &str, is_value: bool) -> Result<bool, Memory> {
    let name = Text::from_slice(alloc, name.as_bytes())?;
    if is_value {
        give_value(change, name)
    } else {
        give_field(change, name)
    }
}

/// The first of the names that isn't given something.
fn first_wrong(alloc: Global, change: &mut Change) -> Option<usize> {
    for place in 0..NAMES.len() {
        let (name, is_value) = NAMES[place];
        match give(alloc, change, name, is_value) {
            Ok(true) => {}
            _ => return Some(place),
        }
    }
    None
}

/// The first of the names that isn't given something by a change that is made by hand.
fn first_wrong_by_hand(alloc: Global) -> Option<usize> {
    let mut change = Change::new(alloc, Deed::Add);
    first_wrong(alloc, &mut change)
}

#[test]
fn a_change_is_given_items_in_the_order_of_names(rt: HostRuntime) -> Result<(), Fail> {
    expect_none(&rt, first_wrong_by_hand(rt.alloc()));
    Ok(())
}
