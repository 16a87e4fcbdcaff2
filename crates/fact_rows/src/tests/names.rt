//! Texts and their numbers.
use plan_facts::{Memory, Names};
use std::test::Fail;

/// The number that the text is given, or has; none where nine texts have one.
fn given(names: &mut Names, text: &str) -> Result<Option<u32>, Memory> {
    if names.count() >= 9 {
        return Ok(None);
    }
    let number = names.number(text.as_bytes())?;
    Ok(Some(number))
}

/// Texts, and the number that each is given.
const GIVEN: &[(&str, u32)] = &[("ann", 0), ("", 1), ("bob", 2), ("ann", 0), ("", 1)];

/// The place of the first of those that isn't given its number.
fn wrong_number(names: &mut Names) -> Option<usize> {
    let texts = GIVEN;
    for place in 0..texts.len() {
        let (text, number) = texts[place];
        if given(names, text) != Ok(Some(number)) {
            return Some(place);
        }
    }
    None
}

/// Whether the first two of three texts stay where the third is cut off.
fn is_cut(names: &mut Names) -> bool {
    if names.count() != 3 {
        return false;
    }
    names.cut(2);
    (names.count(), names.find(b""), names.find(b"bob")) == (2, Some(1), None)
}

#[test]
fn numbers_texts_in_order_of_first_sight(rt: HostRuntime) -> Result<(), Fail> {
    let mut names = Names::new(rt.alloc());
    let before = names.find(b"ann");
    let wrong = wrong_number(&mut names);
    let cut = is_cut(&mut names);
    assert!(rt; (before, wrong, cut, given(&mut names, "cy")) == (None, None, true, Ok(Some(2))));
    Ok(())
}
