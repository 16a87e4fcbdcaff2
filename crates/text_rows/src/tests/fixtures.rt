//! What several of the tests are made of: rules, words of texts, and the lines of refusals.

use plan_facts::{List, Memory, Text};
use plan_rules::{Head, RuleDef};
use plan_scores::Level;
use problem_faults::{ProblemFault, write_refusal};
use std::alloc::Global;
use std::str;

/// A rule with this name and weight, which each fact of a class matches.
pub(super) fn rule_of(
    alloc: Global,
    name: &[u8],
    weight: u32,
    class: u8,
) -> Result<RuleDef, Memory> {
    Ok(RuleDef {
        name: Text::from_slice(alloc, name)?,
        level: Level::Hard,
        reward: false,
        weight,
        weigh: None,
        head: Head::ForEach(class),
        nodes: List::new(alloc),
    })
}

/// A text as it is printed.
pub(super) fn word(text: &Text) -> &str {
    str::from_utf8(text.as_slice()).unwrap_or("?")
}

/// Whether the refusal has this line.
pub(super) fn is_line(alloc: Global, fault: &ProblemFault, line: &[u8]) -> bool {
    let mut out = Vec::new(alloc);
    write_refusal(fault, &mut out).is_ok() && out.as_slice() == line
}

/// Whether this is the line of the refusal, if any; it has no bytes where nothing is refused.
pub(super) fn has_line(alloc: Global, fault: Option<ProblemFault>, line: &[u8]) -> bool {
    match fault {
        Some(fault) => is_line(alloc, &fault, line),
        None => line.is_empty(),
    }
}
