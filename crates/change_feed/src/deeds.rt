ghost use Rattle.std.specs.Prelude.{◌≡◌};
ghost use Rattle.std.specs.List.{list_any};
ghost use Rattle.std.specs.Str.{bytes_eq};
ghost use Rattle.serde_json.specs.View.{view};
ghost use Rattle.json_values.specs.Values.{has_other};
ghost use Rattle.change_feed.specs.Deeds.{deed_named, deed_of, is_weight, needs_id, needs_fields, needs_values, may_have_values, known_names};

use json_values::{has_other, member};
use plan_changes::Deed;
use serde_json::Value;

/// The deed that has the word.
fn deed_named(word: &[u8]) -> Option<Deed>
    ensures { result ≡ deed_named word.now }
{
    if word == b"add".as_slice() {
        Some(Deed::Add)
    } else if word == b"remove".as_slice() {
        Some(Deed::Remove)
    } else if word == b"alter".as_slice() {
        Some(Deed::Alter)
    } else if word == b"assign".as_slice() {
        Some(Deed::Assign)
    } else if word == b"weight".as_slice() {
        Some(Deed::Weight)
    } else {
        None
    }
}

/// The deed that the line's member `do` names; none where it is missing, no text or another one.
pub fn deed_of(line: &Value) -> Option<Deed>
    ensures { result ≡ deed_of (view line.now) }
{
    deed_named(member(line, b"do")?.as_str()?.as_bytes())
}

/// Whether the deed gives a rule another weight.
pub fn is_weight(deed: Deed) -> bool
    ensures { result ≡ is_weight deed }
{
    matches!(deed, Deed::Weight)
}

/// Whether the deed means a fact that is there.
pub fn needs_id(deed: Deed) -> bool
    ensures { result ≡ needs_id deed }
{
    matches!(deed, Deed::Remove | Deed::Alter | Deed::Assign)
}

/// Whether the deed gives fields.
pub fn needs_fields(deed: Deed) -> bool
    ensures { result ≡ needs_fields deed }
{
    matches!(deed, Deed::Add | Deed::Alter)
}

/// Whether the deed gives variables.
pub fn needs_values(deed: Deed) -> bool
    ensures { result ≡ needs_values deed }
{
    matches!(deed, Deed::Assign)
}

/// Whether the deed may give variables.
pub fn may_have_values(deed: Deed) -> bool
    ensures { result ≡ may_have_values deed }
{
    matches!(deed, Deed::Add | Deed::Assign)
}

/// Whether this is one of the names.
fn is_among(names: &[&[u8]], name: &[u8]) -> bool
    ensures { result ≡ list_any (λ other. bytes_eq name.now other.now) names.now }
{
    names.iter().any(|other| name == *other)
}

/// Whether a change of the deed may have a member of this name.
fn is_known(deed: Deed, name: &[u8]) -> bool
    ensures { result ≡ list_any (bytes_eq name.now) (known_names deed) }
{
    match deed {
        Deed::Add => is_among(&[b"do", b"class", b"fields", b"values"], name),
        Deed::Remove => is_among(&[b"do", b"class", b"id"], name),
        Deed::Alter => is_among(&[b"do", b"class", b"id", b"fields"], name),
        Deed::Assign => is_among(&[b"do", b"class", b"id", b"values"], name),
        Deed::Weight => is_among(&[b"do", b"rule", b"weight"], name),
    }
}

/// Whether the line has a member that no change of the deed has.
pub fn has_unknown(deed: Deed, line: &Value) -> bool
    ensures { result ≡ has_other (known_names deed) (view line.now) }
{
    has_other(line, |name| is_known(deed, name))
}
