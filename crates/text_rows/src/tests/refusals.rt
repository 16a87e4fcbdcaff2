//! The lines that say why a problem is refused.

use super::fixtures::is_line;
use plan_facts::{Memory, Text};
use plan_settings::Setting;
use problem_faults::{ProblemFault, setting_name, write_refusal};
use std::alloc::Global;
use std::test::Fail;

/// Whether the fault has this line.
fn has_line(alloc: Global, fault: ProblemFault, line: &str) -> bool {
    is_line(alloc, &fault, line.as_bytes())
}

#[test]
fn plain_refusals_have_their_lines(rt: HostRuntime) -> Result<(), Fail> {
    let alloc = rt.alloc();
    let of_text = has_line(
        alloc,
        ProblemFault::TooLong,
        "refused problem too_long
",
    ) && has_line(
        alloc,
        ProblemFault::Json,
        "refused problem json
",
    ) && has_line(
        alloc,
        ProblemFault::UnknownDomain,
        "refused problem domain
",
    );
    let of_facts = has_line(
        alloc,
        ProblemFault::TooManyFacts,
        "refused problem too_many_facts
",
    ) && has_line(
        alloc,
        ProblemFault::ScoreRange,
        "refused problem score_range
",
    );
    assert!(rt; of_text && of_facts);
    Ok(())
}

/// A text.
fn text(alloc: Global, words: &str) -> Result<Text, Memory> {
    Text::from_slice(alloc, words.as_bytes())
}

/// Whether a fault at a path has this line.
fn shape_has_line(alloc: Global, line: &str) -> bool {
    let fault = ProblemFault::shape(alloc, &[b"/facts/", b"room", b"/0"]);
    has_line(alloc, fault, line)
}

/// Whether a class with too many combinations has this line.
fn range_product_has_line(alloc: Global, line: &str) -> Result<bool, Memory> {
    let class = text(alloc, "lesson")?;
    Ok(has_line(alloc, ProblemFault::RangeProduct { class }, line))
}

/// Whether a rule with too many rows has this line.
fn rows_bound_has_line(alloc: Global, line: &str) -> Result<bool, Memory> {
    let rule = text(alloc, "teacher_room")?;
    Ok(has_line(alloc, ProblemFault::RowsBound { rule }, line))
}

#[test]
fn refusals_name_paths_classes_and_rules(rt: HostRuntime) -> Result<(), Fail> {
    let found = (
        shape_has_line(rt.alloc(), "refused problem shape /facts/room/0\n"),
        range_product_has_line(rt.alloc(), "refused problem range_product lesson\n"),
        rows_bound_has_line(rt.alloc(), "refused problem rows_bound teacher_room\n"),
    );
    assert!(rt; found == (true, Ok(true), Ok(true)));
    Ok(())
}

/// Whether a doubled id has this line.
fn double_id_has_line(alloc: Global, line: &str) -> Result<bool, Memory> {
    let class = text(alloc, "lesson")?;
    Ok(has_line(alloc, ProblemFault::DoubleId { class, id: 1 }, line))
}

/// Whether a bad field has this line.
fn bad_field_has_line(alloc: Global, line: &str) -> Result<bool, Memory> {
    let class = text(alloc, "lesson")?;
    let field = text(alloc, "subject")?;
    let fault = ProblemFault::BadField {
        class,
        id: 1,
        field,
    };
    Ok(has_line(alloc, fault, line))
}

/// Whether a bad value of the record with the highest id has this line.
fn bad_value_has_line(alloc: Global, line: &str) -> Result<bool, Memory> {
    let class = text(alloc, "shift")?;
    let var = text(alloc, "worker")?;
    let id = 1_000_000_000;
    Ok(has_line(alloc, ProblemFault::BadValue { class, id, var }, line))
}

#[test]
fn refusals_name_records(rt: HostRuntime) -> Result<(), Fail> {
    let found = (
        double_id_has_line(rt.alloc(), "refused problem double_id lesson#1\n"),
        bad_field_has_line(rt.alloc(), "refused problem bad_field lesson#1 subject\n"),
        bad_value_has_line(
            rt.alloc(),
            "refused problem bad_value shift#1000000000 worker\n",
        ),
    );
    assert!(rt; found == (Ok(true), Ok(true), Ok(true)));
    Ok(())
}

/// Whether want of memory is refused a line, and leaves what was written before.
fn leaves_what_was_written(alloc: Global) -> Result<bool, Memory> {
    let mut out = Vec::from_slice(alloc, b"kept")?;
    let refused = write_refusal(&ProblemFault::Memory, &mut out).is_err();
    Ok(refused && out.as_slice() == b"kept".as_slice())
}

#[test]
fn memory_has_no_line(rt: HostRuntime) -> Result<(), Fail> {
    assert!(rt; leaves_what_was_written(rt.alloc()) == Ok(true));
    Ok(())
}

/// The names of all settings, in their order.
const NAMES: [&str; 11] = [
    "seed",
    "steps",
    "select_limit",
    "accepted_limit",
    "pick_early",
    "acceptor",
    "late_size",
    "tabu_size",
    "step_count_size",
    "selectors",
    "construction",
];

/// The first of the settings' names that is given otherwise.
fn wrong_name() -> Option<&'static str> {
    for place in 0..Setting::ALL.len() {
        let name = NAMES[place];
        if setting_name(Setting::ALL[place]) != name.as_bytes() {
            return Some(name);
        }
    }
    None
}

/// Whether a bad setting has this line.
fn bad_setting_has_line(alloc: Global, line: &str) -> bool {
    let setting = Setting::Construction;
    has_line(alloc, ProblemFault::BadSetting { setting }, line)
}

#[test]
fn settings_have_their_names(rt: HostRuntime) -> Result<(), Fail> {
    let of_one = bad_setting_has_line(rt.alloc(), "refused problem setting construction\n");
    assert!(rt; (wrong_name(), of_one) == (None, true));
    Ok(())
}
