ghost use Rattle.std.specs.Prelude.{◌≡◌, false, IfOk, map, find, is_some};
ghost use Rattle.std.specs.List.{filter_map, list_all, list_any};
ghost use Rattle.std.specs.Option.{option_map_or};
ghost use Rattle.std.specs.Str.{bytes_eq};
ghost use Rattle.serde_json.specs.View.{view};
ghost use Rattle.json_values.specs.Values.{has_other, items_of};
ghost use Rattle.json_values.specs.Views.{view_at};
ghost use Rattle.plan_settings.specs.declared.setting.Setting.TheVariants as Setting;
ghost use Rattle.plan_settings.specs.Settings.{is_selector_count, IsInRange};
ghost use Rattle.problem_faults.specs.Refusals.{RefusesFor};
ghost use Rattle.problem_faults.specs.Words.{setting_name};
ghost use Rattle.problem_settings.specs.Words.{early_of, acceptor_of, selector_of, construction_of};
ghost use Rattle.problem_settings.specs.SettingsOf.{seed_of, steps_of, size_of, are_selectors, is_right, given, is_bad, known_settings, has_unknown, settings_fault_of, given_or, selectors_of, settings_of};

use crate::root::Format;
use crate::words::{acceptor, construction, early, selector};
use json_values::{has_other, items, member, number_within};
use plan_facts::{List, Memory};
use plan_settings::{
    AcceptorKind, Construction, Early, SELECTOR_LIMIT, SIZE_LIMIT, STEP_LIMIT, Selector, Setting,
    Settings,
};
use problem_faults::{ProblemFault, setting_name};
use serde_json::Value;
use std::alloc::Global;

/// Reads the settings from a problem's member `settings`, where there is one: an object. What isn't given has its usual
/// value. Refuses the first setting of the format, in the settings' order, that is given with another kind of value or out of
/// its range; then any other member.
pub fn read_settings(
    alloc: Global,
    format: Format,
    settings: Option<&Value>,
) -> Result<Settings, ProblemFault>
    ensures refusal { RefusesFor (settings_fault_of format (view_at settings.entry)) result }
    ensures settings { IfOk result (λ read. read ≡ settings_of (view_at settings.entry)) }
    ensures in_range { IfOk result IsInRange }
{
    if let Some(setting) = first_bad(settings, known_settings(format)) {
        return Err(ProblemFault::BadSetting { setting });
    }
    if has_unknown(format, settings) {
        return Err(ProblemFault::shape(alloc, &[b"/settings"]));
    }
    Ok(settings_given(alloc, settings)?)
}

/// The settings of a format, in the order in which they are looked at.
fn known_settings(format: Format) -> &'static [Setting]
    ensures { result.now ≡ known_settings format }
{
    match format {
        Format::One => &Setting::ALL[..10],
        Format::Two => &Setting::ALL,
    }
}

/// The first of these settings that is given a value that isn't right.
fn first_bad(given: Option<&Value>, settings: &[Setting]) -> Option<Setting>
    ensures { result ≡ find (is_bad (view_at given.entry)) settings.now }
{
    settings
        .iter()
        .copied()
        .find(|setting| is_bad(given, *setting))
}

/// Whether the setting is given a value that isn't right.
fn is_bad(settings: Option<&Value>, setting: Setting) -> bool
    ensures { result ≡ is_bad (view_at settings.entry) setting }
{
    match given(settings, setting) {
        Some(value) => !is_right(setting, value),
        None => false,
    }
}

/// The value that is given for the setting.
fn given(settings: Option<&Value>, setting: Setting) -> Option<&Value>
    ensures { view_at result ≡ given setting (view_at settings.entry) }
{
    member(settings?, setting_name(setting))
}

/// Whether the value is of the kind and in the range of the setting.
fn is_right(setting: Setting, value: &Value) -> bool
    ensures { result ≡ is_right setting (view value.now) }
{
    match setting {
        Setting::Seed => value.as_u64().is_some(),
        Setting::Steps => steps(value).is_some(),
        Setting::PickEarly => early(value).is_some(),
        Setting::Acceptor => acceptor(value).is_some(),
        Setting::Selectors => is_selection(value),
        Setting::Construction => construction(value).is_some(),
        Setting::SelectLimit
        | Setting::AcceptedLimit
        | Setting::LateSize
        | Setting::TabuSize
        | Setting::StepCountSize => size(value).is_some(),
    }
}

/// The number of steps that the value is.
fn steps(value: &Value) -> Option<u32>
    ensures { result ≡ steps_of (view value.now) }
{
    number_within(value, 0, STEP_LIMIT)
}

/// The limit or size that the value is.
fn size(value: &Value) -> Option<u32>
    ensures { result ≡ size_of (view value.now) }
{
    number_within(value, 1, SIZE_LIMIT)
}

/// Whether the value is an array that names selectors.
fn is_selection(value: &Value) -> bool
    ensures { result ≡ option_map_or are_selectors (items_of (view value.now)) false }
{
    match items(value) {
        Some(values) => are_selectors(values),
        None => false,
    }
}

/// Whether the values are neither too few nor too many, and each names a selector.
fn are_selectors(values: &[Value]) -> bool
    ensures { result ≡ are_selectors (map view values.now) }
{
    is_selector_count(values.len()) && name_selectors(values)
}

/// Whether there may be so many selectors.
fn is_selector_count(count: usize) -> bool
    ensures { result ≡ is_selector_count count }
{
    matches!(count, 1..=SELECTOR_LIMIT)
}

/// Whether each value names a selector.
fn name_selectors(values: &[Value]) -> bool
    ensures { result ≡ list_all (λ value. is_some (selector_of (view value))) values.now }
{
    values.iter().all(|value| selector(value).is_some())
}

/// Whether there is a member that is no setting of the format.
fn has_unknown(format: Format, settings: Option<&Value>) -> bool
    ensures { result ≡ has_unknown format (view_at settings.entry) }
{
    match settings {
        Some(object) => has_unknown_member(known_settings(format), object),
        None => false,
    }
}

/// Whether the object has a member that names none of the settings.
fn has_unknown_member(known: &[Setting], object: &Value) -> bool
    ensures { result ≡ has_other (map setting_name known.now) (view object.now) }
{
    has_other(object, |name| is_name(known, name))
}

/// Whether one of the settings has the name.
fn is_name(settings: &[Setting], name: &[u8]) -> bool
    ensures { result ≡ list_any (λ setting. bytes_eq name.now (setting_name setting)) settings.now }
{
    settings
        .iter()
        .any(|setting| name == setting_name(*setting))
}

/// The settings, with the usual values where none is given or the given one isn't right.
fn settings_given(alloc: Global, settings: Option<&Value>) -> Result<Settings, Memory>
    ensures { IfOk result (λ read. read ≡ settings_of (view_at settings.entry)) }
{
    let usual = Settings::usual(alloc)?;
    Ok(Settings {
        seed: seed_given(settings, usual.seed),
        steps: steps_given(settings, usual.steps),
        select_limit: size_given(settings, Setting::SelectLimit, usual.select_limit),
        accepted_limit: size_given(settings, Setting::AcceptedLimit, usual.accepted_limit),
        pick_early: early_given(settings, usual.pick_early),
        acceptor: acceptor_given(settings, usual.acceptor),
        late_size: size_given(settings, Setting::LateSize, usual.late_size),
        tabu_size: size_given(settings, Setting::TabuSize, usual.tabu_size),
        step_count_size: size_given(settings, Setting::StepCountSize, usual.step_count_size),
        selectors: selectors_given(alloc, settings, usual.selectors)?,
        construction: construction_given(settings, usual.construction),
    })
}

/// The seed that is given, else the usual one.
fn seed_given(settings: Option<&Value>, usual: u64) -> u64
    ensures { result ≡ given_or seed_of Setting.Seed usual (view_at settings.entry) }
{
    given(settings, Setting::Seed)
        .and_then(Value::as_u64)
        .unwrap_or(usual)
}

/// The number of steps that is given, else the usual one.
fn steps_given(settings: Option<&Value>, usual: u32) -> u32
    ensures { result ≡ given_or steps_of Setting.Steps usual (view_at settings.entry) }
{
    given(settings, Setting::Steps)
        .and_then(steps)
        .unwrap_or(usual)
}

/// The limit or size that is given for the setting, else the usual one.
fn size_given(settings: Option<&Value>, setting: Setting, usual: u32) -> u32
    ensures { result ≡ given_or size_of setting usual (view_at settings.entry) }
{
    given(settings, setting).and_then(size).unwrap_or(usual)
}

/// The early end that is given, else the usual one.
fn early_given(settings: Option<&Value>, usual: Early) -> Early
    ensures { result ≡ given_or early_of Setting.PickEarly usual (view_at settings.entry) }
{
    given(settings, Setting::PickEarly)
        .and_then(early)
        .unwrap_or(usual)
}

/// The acceptor that is given, else the usual one.
fn acceptor_given(settings: Option<&Value>, usual: AcceptorKind) -> AcceptorKind
    ensures { result ≡ given_or acceptor_of Setting.Acceptor usual (view_at settings.entry) }
{
    given(settings, Setting::Acceptor)
        .and_then(acceptor)
        .unwrap_or(usual)
}

/// The order of placing that is given, else the usual one.
fn construction_given(settings: Option<&Value>, usual: Construction) -> Construction
    ensures { result ≡ given_or construction_of Setting.Construction usual (view_at settings.entry) }
{
    given(settings, Setting::Construction)
        .and_then(construction)
        .unwrap_or(usual)
}

/// The selectors that are given, else the usual ones.
fn selectors_given(
    alloc: Global,
    settings: Option<&Value>,
    usual: List<Selector>,
) -> Result<List<Selector>, Memory>
    ensures { IfOk result (λ list. list ≡ given_or selectors_of Setting.Selectors usual (view_at settings.entry)) }
{
    match given(settings, Setting::Selectors).and_then(items) {
        Some(values) => selectors(alloc, values),
        None => Ok(usual),
    }
}

/// The selectors that the values name, in their order.
fn selectors(alloc: Global, values: &[Value]) -> Result<List<Selector>, Memory>
    ensures { IfOk result (λ list. list ≡ filter_map selector_of (map view values.now)) }
{
    let mut list = List::new(alloc);
    for value in values {
        if let Some(selector) = selector(value) {
            list.push(selector)?;
        }
    }
    Ok(list)
}
