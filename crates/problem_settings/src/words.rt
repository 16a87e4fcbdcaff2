ghost use Rattle.std.specs.Prelude.{◌≡◌};
ghost use Rattle.serde_json.specs.View.{view};
ghost use Rattle.problem_settings.specs.Words.{early_named, acceptor_named, selector_named, construction_named, early_of, acceptor_of, selector_of, construction_of};

use plan_settings::{AcceptorKind, Construction, Early, Selector};
use serde_json::Value;

/// The early end that has the word.
fn early_named(word: &[u8]) -> Option<Early>
    ensures { result ≡ early_named word.now }
{
    match word {
        b"never" => Some(Early::Never),
        b"best" => Some(Early::Best),
        b"last" => Some(Early::Last),
        _ => None,
    }
}

/// The acceptor that has the word.
fn acceptor_named(word: &[u8]) -> Option<AcceptorKind>
    ensures { result ≡ acceptor_named word.now }
{
    match word {
        b"hill" => Some(AcceptorKind::Hill),
        b"late" => Some(AcceptorKind::Late),
        b"tabu" => Some(AcceptorKind::Tabu),
        b"step_count" => Some(AcceptorKind::StepCount),
        _ => None,
    }
}

/// The selector that has the word.
fn selector_named(word: &[u8]) -> Option<Selector>
    ensures { result ≡ selector_named word.now }
{
    match word {
        b"change" => Some(Selector::Change),
        b"swap" => Some(Selector::Swap),
        b"pillar_change" => Some(Selector::PillarChange),
        b"pillar_swap" => Some(Selector::PillarSwap),
        b"own" => Some(Selector::Own),
        _ => None,
    }
}

/// The order of placing that has the word.
fn construction_named(word: &[u8]) -> Option<Construction>
    ensures { result ≡ construction_named word.now }
{
    if word == b"first_fit".as_slice() {
        Some(Construction::FirstFit)
    } else if word == b"first_fit_decreasing".as_slice() {
        Some(Construction::Decreasing)
    } else {
        None
    }
}

/// The early end that the value names.
pub fn early(value: &Value) -> Option<Early>
    ensures { result ≡ early_of (view value.now) }
{
    early_named(value.as_str()?.as_bytes())
}

/// The acceptor that the value names.
pub fn acceptor(value: &Value) -> Option<AcceptorKind>
    ensures { result ≡ acceptor_of (view value.now) }
{
    acceptor_named(value.as_str()?.as_bytes())
}

/// The selector that the value names.
pub fn selector(value: &Value) -> Option<Selector>
    ensures { result ≡ selector_of (view value.now) }
{
    selector_named(value.as_str()?.as_bytes())
}

/// The order of placing that the value names.
pub fn construction(value: &Value) -> Option<Construction>
    ensures { result ≡ construction_of (view value.now) }
{
    construction_named(value.as_str()?.as_bytes())
}
