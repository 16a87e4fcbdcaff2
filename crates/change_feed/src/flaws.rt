ghost use Rattle.std.specs.Prelude.{◌≡◌};
ghost use Rattle.serde_json.specs.View.{view};
ghost use Rattle.change_feed.specs.Flaws.{has_class, has_id, has_fields, has_due_values, has_good_values, has_rule, has_weight, deed_flaw};

use crate::deeds::{has_unknown, is_weight, may_have_values, needs_fields, needs_id, needs_values};
use crate::items;
use crate::members::{has_number, has_text};
use plan_changes::{Deed, Spot, WEIGHT_LIMIT};
use plan_facts::ID_LIMIT;
use serde_json::Value;

/// Whether the class is named, unless a rule is meant.
fn has_class(deed: Deed, line: &Value) -> bool
    ensures { result ≡ has_class deed (view line.now) }
{
    is_weight(deed) || has_text(line, b"class")
}

/// Whether the id is given where it is needed.
fn has_id(deed: Deed, line: &Value) -> bool
    ensures { result ≡ has_id deed (view line.now) }
{
    !needs_id(deed) || has_number(line, b"id", 1, ID_LIMIT)
}

/// Whether the fields are given where they are needed.
fn has_fields(deed: Deed, line: &Value) -> bool
    ensures { result ≡ has_fields deed (view line.now) }
{
    !needs_fields(deed) || items::has_fields(line)
}

/// Whether the variables are given where they are needed.
fn has_due_values(deed: Deed, line: &Value) -> bool
    ensures { result ≡ has_due_values deed (view line.now) }
{
    !needs_values(deed) || items::has_values(line)
}

/// Whether what is given to variables, where it may be, is null or an id each.
fn has_good_values(deed: Deed, line: &Value) -> bool
    ensures { result ≡ has_good_values deed (view line.now) }
{
    !may_have_values(deed) || items::may_have_values(line)
}

/// Whether the rule is named where one is meant.
fn has_rule(deed: Deed, line: &Value) -> bool
    ensures { result ≡ has_rule deed (view line.now) }
{
    !is_weight(deed) || has_text(line, b"rule")
}

/// Whether the rule's weight is given where one is meant.
fn has_weight(deed: Deed, line: &Value) -> bool
    ensures { result ≡ has_weight deed (view line.now) }
{
    !is_weight(deed) || has_number(line, b"weight", 0, WEIGHT_LIMIT)
}

/// The first thing that is wrong with a line of the deed.
pub fn deed_flaw(deed: Deed, line: &Value) -> Option<Spot>
    ensures { result ≡ deed_flaw deed (view line.now) }
{
    if !has_class(deed, line) {
        Some(Spot::Class)
    } else if !has_id(deed, line) {
        Some(Spot::Id)
    } else if !has_fields(deed, line) {
        Some(Spot::Fields)
    } else if !has_due_values(deed, line) {
        Some(Spot::Values)
    } else if !has_good_values(deed, line) {
        Some(Spot::Values)
    } else if !has_rule(deed, line) {
        Some(Spot::Rule)
    } else if !has_weight(deed, line) {
        Some(Spot::Weight)
    } else if has_unknown(deed, line) {
        Some(Spot::Member)
    } else {
        None
    }
}
