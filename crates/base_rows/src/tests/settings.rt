//! Settings: the usual values, and the first that is out of range.

use plan_facts::{List, Memory};
use plan_settings::{AcceptorKind, Construction, Early, Selector, Setting, Settings};
use std::alloc::Global;
use std::test::Fail;

/// Whether these are the usual settings.
fn are_usual(usual: &Settings) -> bool {
    let kinds = (usual.pick_early, usual.acceptor, usual.construction)
        == (Early::Never, AcceptorKind::Late, Construction::FirstFit);
    let limits = (
        usual.seed,
        usual.steps,
        usual.select_limit,
        usual.accepted_limit,
    ) == (0, 1_000, 1_000, 1);
    let sizes = (usual.late_size, usual.tabu_size, usual.step_count_size) == (400, 7, 400);
    kinds
        && limits
        && sizes
        && usual.selectors.as_slice() == [Selector::Change, Selector::Swap].as_slice()
}

/// Whether a copy of these settings is of the usual ones too.
fn copies_usual(alloc: Global, usual: &Settings) -> Result<bool, Memory> {
    let copy = usual.copy(alloc)?;
    Ok(are_usual(&copy))
}

#[test]
fn usual_settings_are_in_range(rt: HostRuntime) -> Result<(), Fail> {
    let usual = Settings::usual(rt.alloc())?;
    let found = (
        are_usual(&usual),
        usual.fault(),
        copies_usual(rt.alloc(), &usual),
    );
    assert!(rt; found == (true, None, Ok(true)));
    Ok(())
}

/// The numbers of some settings and how many selectors there are, beside the first setting out of range.
const CASES: [([u32; 7], Option<Setting>); 15] = [
    ([0, 1, 1, 1, 1, 1, 1], None),
    ([1_000_000, 10_000, 10_000, 10_000, 10_000, 10_000, 8], None),
    ([1_000_001, 0, 0, 0, 0, 0, 0], Some(Setting::Steps)),
    ([0, 0, 0, 0, 0, 0, 0], Some(Setting::SelectLimit)),
    ([0, 10_001, 1, 1, 1, 1, 1], Some(Setting::SelectLimit)),
    ([0, 1, 0, 0, 0, 0, 0], Some(Setting::AcceptedLimit)),
    ([0, 1, 10_001, 1, 1, 1, 9], Some(Setting::AcceptedLimit)),
    ([0, 1, 1, 0, 0, 0, 0], Some(Setting::LateSize)),
    ([0, 1, 1, 10_001, 1, 1, 1], Some(Setting::LateSize)),
    ([0, 1, 1, 1, 0, 0, 0], Some(Setting::TabuSize)),
    ([0, 1, 1, 1, 10_001, 1, 1], Some(Setting::TabuSize)),
    ([0, 1, 1, 1, 1, 0, 0], Some(Setting::StepCountSize)),
    ([0, 1, 1, 1, 1, 10_001, 1], Some(Setting::StepCountSize)),
    ([0, 1, 1, 1, 1, 1, 0], Some(Setting::Selectors)),
    ([0, 1, 1, 1, 1, 1, 9], Some(Setting::Selectors)),
];

/// So many selectors.
fn selectors_of(alloc: Global, count: u32) -> Result<List<Selector>, Memory> {
    let mut selectors = List::new(alloc);
    for _ in 0..count {
        selectors.push(Selector::Own)?;
    }
    Ok(selectors)
}

/// The fault of the settings of these numbers, and of so many selectors.
fn fault_of(alloc: Global, numbers: [u32; 7]) -> Result<Option<Setting>, Memory> {
    let settings = Settings {
        seed: u64::MAX,
        steps: numbers[0],
        select_limit: numbers[1],
        accepted_limit: numbers[2],
        pick_early: Early::Last,
        acceptor: AcceptorKind::Tabu,
        late_size: numbers[3],
        tabu_size: numbers[4],
        step_count_size: numbers[5],
        selectors: selectors_of(alloc, numbers[6])?,
        construction: Construction::Decreasing,
    };
    Ok(settings.fault())
}

/// The place of the first case that has another fault.
fn wrong_case(alloc: Global) -> Option<usize> {
    for (place, (numbers, fault)) in CASES.iter().enumerate() {
        if fault_of(alloc, *numbers) != Ok(*fault) {
            return Some(place);
        }
    }
    None
}

#[test]
fn names_the_first_setting_out_of_range(rt: HostRuntime) -> Result<(), Fail> {
    assert!(rt; wrong_case(rt.alloc()) == None);
    Ok(())
}
