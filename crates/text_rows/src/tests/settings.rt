//! Roots, settings and weights of problems, and what the first bad one is refused for.

use super::fixtures::{has_line, rule_of};
use json_values::read_value;
use plan_facts::Memory;
use plan_rules::RuleDef;
use plan_settings::{AcceptorKind, Construction, Early, Selector, Settings};
use problem_settings::{Format, check_root, read_settings, read_weights};
use serde_json::Value;
use std::alloc::Global;
use std::test::Fail;

/// Roots, beside what is written of them.
const ROOTS: [(&[u8], &[u8]); 18] = [
    (br#"{"format":1,"domain":"chess","facts":{}}"#, b""),
    (
        br#"{"facts":{},"weights":{},"settings":{},"domain":"","format":2}"#,
        b"",
    ),
    (b"null", b"refused problem shape /\n"),
    (b"[]", b"refused problem shape /\n"),
    (b"{}", b"refused problem shape /format\n"),
    (br#"{"format":0}"#, b"refused problem shape /format\n"),
    (br#"{"format":3}"#, b"refused problem shape /format\n"),
    (br#"{"format":1.0}"#, b"refused problem shape /format\n"),
    (br#"{"format":"1"}"#, b"refused problem shape /format\n"),
    (
        br#"{"format":1,"format":3}"#,
        b"refused problem shape /format\n",
    ),
    (br#"{"format":2}"#, b"refused problem shape /domain\n"),
    (
        br#"{"format":1,"domain":7}"#,
        b"refused problem shape /domain\n",
    ),
    (
        br#"{"format":1,"domain":"a","settings":null,"weights":1}"#,
        b"refused problem shape /settings\n",
    ),
    (
        br#"{"format":1,"domain":"a","weights":[]}"#,
        b"refused problem shape /weights\n",
    ),
    (
        br#"{"format":1,"domain":"a"}"#,
        b"refused problem shape /facts\n",
    ),
    (
        br#"{"format":1,"domain":"a","x":1}"#,
        b"refused problem shape /facts\n",
    ),
    (
        br#"{"format":1,"domain":"a","facts":[]}"#,
        b"refused problem shape /facts\n",
    ),
    (
        br#"{"format":1,"domain":"a","facts":{},"Facts":{}}"#,
        b"refused problem shape /\n",
    ),
];

/// Settings of format 1, beside what is written of them.
const SETTINGS: [(&[u8], &[u8]); 24] = [
    (b"{}", b""),
    (br#"{"seed":18446744073709551615,"steps":1000000}"#, b""),
    (
        br#"{"selectors":["own","own","own","own","own","own","own","own"]}"#,
        b"",
    ),
    (br#"{"seed":-1}"#, b"refused problem setting seed\n"),
    (br#"{"seed":1.0}"#, b"refused problem setting seed\n"),
    (
        br#"{"seed":18446744073709551616}"#,
        b"refused problem setting seed\n",
    ),
    (br#"{"steps":1000001}"#, b"refused problem setting steps\n"),
    (br#"{"steps":1e3}"#, b"refused problem setting steps\n"),
    (
        br#"{"select_limit":0,"steps":null}"#,
        b"refused problem setting steps\n",
    ),
    (
        br#"{"select_limit":0}"#,
        b"refused problem setting select_limit\n",
    ),
    (
        br#"{"accepted_limit":10001}"#,
        b"refused problem setting accepted_limit\n",
    ),
    (
        br#"{"pick_early":"Best"}"#,
        b"refused problem setting pick_early\n",
    ),
    (
        br#"{"pick_early":0}"#,
        b"refused problem setting pick_early\n",
    ),
    (br#"{"acceptor":""}"#, b"refused problem setting acceptor\n"),
    (
        br#"{"late_size":"400"}"#,
        b"refused problem setting late_size\n",
    ),
    (
        br#"{"tabu_size":0}"#,
        b"refused problem setting tabu_size\n",
    ),
    (
        br#"{"step_count_size":0}"#,
        b"refused problem setting step_count_size\n",
    ),
    (
        br#"{"selectors":[]}"#,
        b"refused problem setting selectors\n",
    ),
    (
        br#"{"selectors":"own"}"#,
        b"refused problem setting selectors\n",
    ),
    (
        br#"{"selectors":["own","none"]}"#,
        b"refused problem setting selectors\n",
    ),
    (
        br#"{"selectors":["own","own","own","own","own","own","own","own","own"]}"#,
        b"refused problem setting selectors\n",
    ),
    (br#"{"colour":1}"#, b"refused problem shape /settings\n"),
    (
        br#"{"colour":1,"selectors":[]}"#,
        b"refused problem setting selectors\n",
    ),
    (
        br#"{"steps":0,"construction":"first_fit_decreasing"}"#,
        b"refused problem shape /settings\n",
    ),
];

/// Settings of format 2, beside what is written of them.
const NEW_SETTINGS: [(&[u8], &[u8]); 6] = [
    (br#"{"steps":0,"construction":"first_fit_decreasing"}"#, b""),
    (br#"{"construction":"first_fit"}"#, b""),
    (
        br#"{"construction":"first_fit_increasing"}"#,
        b"refused problem setting construction\n",
    ),
    (
        br#"{"construction":null}"#,
        b"refused problem setting construction\n",
    ),
    (
        br#"{"construction":1,"selectors":[]}"#,
        b"refused problem setting selectors\n",
    ),
    (
        br#"{"Construction":"first_fit"}"#,
        b"refused problem shape /settings\n",
    ),
];

/// Whether this is written of the root.
fn answers_root(alloc: Global, text: &[u8], wanted: &[u8]) -> bool {
    match read_value(alloc, text) {
        Ok(root) => has_line(alloc, check_root(alloc, &root).err(), wanted),
        Err(_) => false,
    }
}

/// The place of the first root of which something else is written.
fn wrong_root(alloc: Global) -> Option<usize> {
    for (place, (text, wanted)) in ROOTS.iter().enumerate() {
        if !answers_root(alloc, text, wanted) {
            return Some(place);
        }
    }
    None
}

#[test]
fn refuses_roots_by_the_first_wrong_member(rt: HostRuntime) -> Result<(), Fail> {
    assert!(rt; wrong_root(rt.alloc()) == None);
    Ok(())
}

/// Whether this is written of the settings.
fn answers_settings(alloc: Global, format: Format, text: &[u8], wanted: &[u8]) -> bool {
    match read_value(alloc, text) {
        Ok(told) => has_line(
            alloc,
            read_settings(alloc, format, Some(&told)).err(),
            wanted,
        ),
        Err(_) => false,
    }
}

/// The place of the first of these settings of which something else is written.
fn wrong_settings(alloc: Global, format: Format, rows: &[(&[u8], &[u8])]) -> Option<usize> {
    for (place, (text, wanted)) in rows.iter().enumerate() {
        if !answers_settings(alloc, format, text, wanted) {
            return Some(place);
        }
    }
    None
}

#[test]
fn refuses_settings_in_their_order(rt: HostRuntime) -> Result<(), Fail> {
    let first = wrong_settings(rt.alloc(), Format::One, &SETTINGS);
    let second = wrong_settings(rt.alloc(), Format::Two, &NEW_SETTINGS);
    assert!(rt; (first, second) == (None, None));
    Ok(())
}

/// Whether the root is of the format.
fn is_of(alloc: Global, text: &[u8], wanted: Format) -> bool {
    match read_value(alloc, text) {
        Ok(root) => matches!(check_root(alloc, &root), Ok(format) if format == wanted),
        Err(_) => false,
    }
}

#[test]
fn roots_name_their_format(rt: HostRuntime) -> Result<(), Fail> {
    let first = is_of(rt.alloc(), ROOTS[0].0, Format::One);
    let second = is_of(rt.alloc(), ROOTS[1].0, Format::Two);
    assert!(rt; first && second);
    Ok(())
}

/// Settings that say all.
const TOLD: &[u8] =
    br#"{"seed":18446744073709551615,"steps":0,"select_limit":2,"accepted_limit":3,"pick_early":"last",
"acceptor":"step_count","late_size":4,"tabu_size":5,"step_count_size":10000,
"selectors":["pillar_swap","own","pillar_change","own"],"construction":"first_fit_decreasing"}"#;

/// The numbers of settings, in their order.
fn numbers(read: &Settings) -> [u64; 7] {
    [
        read.seed,
        u64::from(read.steps),
        u64::from(read.select_limit),
        u64::from(read.accepted_limit),
        u64::from(read.late_size),
        u64::from(read.tabu_size),
        u64::from(read.step_count_size),
    ]
}

/// What settings say: their numbers, which candidate is picked early, the acceptor, the selectors and the construction.
struct Wanted {
    numbers: [u64; 7],
    pick_early: Early,
    acceptor: AcceptorKind,
    selectors: &'static [Selector],
    construction: Construction,
}

/// The usual values.
const USUAL: Wanted = Wanted {
    numbers: [0, 1_000, 1_000, 1, 400, 7, 400],
    pick_early: Early::Never,
    acceptor: AcceptorKind::Late,
    selectors: &[Selector::Change, Selector::Swap],
    construction: Construction::FirstFit,
};

/// What the settings say that say all.
const WANTED: Wanted = Wanted {
    numbers: [u64::MAX, 0, 2, 3, 4, 5, 10_000],
    pick_early: Early::Last,
    acceptor: AcceptorKind::StepCount,
    selectors: &[
        Selector::PillarSwap,
        Selector::Own,
        Selector::PillarChange,
        Selector::Own,
    ],
    construction: Construction::Decreasing,
};

/// Whether the settings have what is wanted.
fn have(read: &Settings, wanted: &Wanted) -> bool {
    numbers(read) == wanted.numbers
        && (read.pick_early, read.acceptor) == (wanted.pick_early, wanted.acceptor)
        && read.selectors.as_slice() == wanted.selectors
        && read.construction == wanted.construction
}

/// Whether settings of the format are read so.
fn reads(alloc: Global, format: Format, told: Option<&Value>, wanted: &Wanted) -> bool {
    match read_settings(alloc, format, told) {
        Ok(read) => have(&read, wanted),
        Err(_) => false,
    }
}

#[test]
fn settings_have_usual_values(rt: HostRuntime) -> Result<(), Fail> {
    assert!(rt; reads(rt.alloc(), Format::One, None, &USUAL));
    Ok(())
}

#[test]
fn reads_settings(rt: HostRuntime) -> Result<(), Fail> {
    let told = read_value(rt.alloc(), TOLD)?;
    assert!(rt; reads(rt.alloc(), Format::Two, Some(&told), &WANTED));
    Ok(())
}

/// Two rules, of weight 1 and 7.
fn rules(alloc: Global) -> Result<[RuleDef; 2], Memory> {
    let conflict = rule_of(alloc, b"room_conflict", 1, 0)?;
    let size = rule_of(alloc, b"room_size", 7, 0)?;
    Ok([conflict, size])
}

/// Weights that are refused, beside what is written of them.
const BAD_WEIGHTS: [(&[u8], &[u8]); 6] = [
    (
        br#"{"room_size":1000001}"#,
        b"refused problem shape /weights/room_size\n",
    ),
    (
        br#"{"room_size":-1}"#,
        b"refused problem shape /weights/room_size\n",
    ),
    (
        br#"{"room_size":1.0}"#,
        b"refused problem shape /weights/room_size\n",
    ),
    (
        br#"{"rum":1,"room_size":null,"room_conflict":"1"}"#,
        b"refused problem shape /weights/room_conflict\n",
    ),
    (br#"{"rum":1}"#, b"refused problem shape /weights\n"),
    (br#"{"":1}"#, b"refused problem shape /weights\n"),
];

/// Weights, beside the weights of the two rules.
const WEIGHTS: [(&[u8], [u32; 2]); 3] = [
    (b"{}", [1, 7]),
    (br#"{"room_size":0}"#, [1, 0]),
    (
        br#"{"room_size":1,"room_conflict":1000000}"#,
        [1_000_000, 1],
    ),
];

/// Whether this is written of the weights.
fn answers_weights(alloc: Global, rules: &[RuleDef], text: &[u8], wanted: &[u8]) -> bool {
    match read_value(alloc, text) {
        Ok(told) => has_line(alloc, read_weights(alloc, rules, Some(&told)).err(), wanted),
        Err(_) => false,
    }
}

/// The place of the first weights that are refused of which something else is written.
fn wrong_refusal(alloc: Global, rules: &[RuleDef]) -> Option<usize> {
    for (place, (text, wanted)) in BAD_WEIGHTS.iter().enumerate() {
        if !answers_weights(alloc, rules, text, wanted) {
            return Some(place);
        }
    }
    None
}

#[test]
fn refuses_weights_in_rule_order(rt: HostRuntime) -> Result<(), Fail> {
    let rules = rules(rt.alloc())?;
    assert!(rt; wrong_refusal(rt.alloc(), &rules) == None);
    Ok(())
}

/// Whether the rules get these weights.
fn weigh(alloc: Global, rules: &[RuleDef], told: Option<&Value>, wanted: &[u32]) -> bool {
    match read_weights(alloc, rules, told) {
        Ok(read) => read.as_slice() == wanted,
        Err(_) => false,
    }
}

/// Whether the rules get these weights of a text.
fn weigh_as_told(alloc: Global, rules: &[RuleDef], text: &[u8], wanted: &[u32]) -> bool {
    match read_value(alloc, text) {
        Ok(told) => weigh(alloc, rules, Some(&told), wanted),
        Err(_) => false,
    }
}

/// The place of the first weights that are read otherwise.
fn wrong_weights(alloc: Global, rules: &[RuleDef]) -> Option<usize> {
    for (place, (text, wanted)) in WEIGHTS.iter().enumerate() {
        if !weigh_as_told(alloc, rules, text, wanted) {
            return Some(place);
        }
    }
    None
}

#[test]
fn reads_weights_in_rule_order(rt: HostRuntime) -> Result<(), Fail> {
    let rules = rules(rt.alloc())?;
    let own = weigh(rt.alloc(), &rules, None, &[1, 7]);
    assert!(rt; (wrong_weights(rt.alloc(), &rules), own) == (None, true));
    Ok(())
}
