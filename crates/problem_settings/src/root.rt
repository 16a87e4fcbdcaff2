ghost use Rattle.std.specs.Prelude.{◌≡◌, true, IfOk, OnOk, codes, option_map};
ghost use Rattle.std.specs.List.{list_any};
ghost use Rattle.std.specs.Str.{bytes_eq};
ghost use Rattle.serde_json.specs.View.{view};
ghost use Rattle.json_values.specs.Values.{is_object, is_text, has_other, must_be, may_be};
ghost use Rattle.problem_faults.specs.Refusals.{RefusesFor};
ghost use Rattle.problem_settings.specs.Root.{is_format, is_second, format_of, root_names, root_flaw, root_fault};

use json_values::{has_other, member, number_within};
use problem_faults::ProblemFault;
use serde_json::Value;
use std::alloc::Global;

/// A format of problems.
#[derive(Clone, Copy, Debug, PartialEq, Eq)]
pub enum Format {
    /// Format 1.
    One,
    /// Format 2, whose settings may also have `construction`.
    Two,
}

/// The format of a root. Refuses a root that is no problem's: one that is no object; a `format` that is missing or neither 1
/// nor 2; a `domain` that is missing or no text; `settings` or `weights` that are no object where they stand; `facts` that are
/// missing or no object; any other member. The first of these counts.
pub fn check_root(alloc: Global, root: &Value) -> Result<Format, ProblemFault>
    ensures refusal { RefusesFor (root_fault (view root.now)) result }
    ensures format { IfOk result (λ format. format ≡ format_of (view root.now)) }
    ensures domain { OnOk result (must_be is_text (codes "domain") (view root.now) ≡ true) }
    ensures facts { OnOk result (must_be is_object (codes "facts") (view root.now) ≡ true) }
{
    match root_flaw(root) {
        Some(path) => Err(ProblemFault::shape(alloc, &[path])),
        None => Ok(format_of(root)),
    }
}

/// The path of what is wrong with the root.
fn root_flaw(root: &Value) -> Option<&'static [u8]>
    ensures { option_map (λ path. path.now) result ≡ root_flaw (view root.now) }
{
    if !root.is_object() {
        Some(b"/")
    } else if !has_format(root) {
        Some(b"/format")
    } else if !has_text(root, b"domain") {
        Some(b"/domain")
    } else if !may_have_object(root, b"settings") {
        Some(b"/settings")
    } else if !may_have_object(root, b"weights") {
        Some(b"/weights")
    } else if !has_object(root, b"facts") {
        Some(b"/facts")
    } else if has_unknown(root) {
        Some(b"/")
    } else {
        None
    }
}

/// Whether the root names a format.
fn has_format(root: &Value) -> bool
    ensures { result ≡ must_be is_format (codes "format") (view root.now) }
{
    match member(root, b"format") {
        Some(value) => number_within(value, 1, 2).is_some(),
        None => false,
    }
}

/// Whether the root names format 2.
fn has_second_format(root: &Value) -> bool
    ensures { result ≡ must_be is_second (codes "format") (view root.now) }
{
    match member(root, b"format") {
        Some(value) => number_within(value, 2, 2).is_some(),
        None => false,
    }
}

/// The format that the root names.
fn format_of(root: &Value) -> Format
    ensures { result ≡ format_of (view root.now) }
{
    if has_second_format(root) {
        Format::Two
    } else {
        Format::One
    }
}

/// Whether there is a text of this name.
fn has_text(root: &Value, name: &[u8]) -> bool
    ensures { result ≡ must_be is_text name.now (view root.now) }
{
    match member(root, name) {
        Some(value) => value.is_string(),
        None => false,
    }
}

/// Whether there is an object of this name.
fn has_object(root: &Value, name: &[u8]) -> bool
    ensures { result ≡ must_be is_object name.now (view root.now) }
{
    match member(root, name) {
        Some(value) => value.is_object(),
        None => false,
    }
}

/// Whether an object has this name, or nothing has.
fn may_have_object(root: &Value, name: &[u8]) -> bool
    ensures { result ≡ may_be is_object name.now (view root.now) }
{
    match member(root, name) {
        Some(value) => value.is_object(),
        None => true,
    }
}

/// Whether this is one of the names.
fn is_among(names: &[&[u8]], name: &[u8]) -> bool
    ensures { result ≡ list_any (λ other. bytes_eq name.now other.now) names.now }
{
    names.iter().any(|other| name == *other)
}

/// Whether a root may have a member of this name.
fn is_root_name(name: &[u8]) -> bool
    ensures { result ≡ list_any (bytes_eq name.now) root_names }
{
    let names: [&[u8]; 5] = [b"format", b"domain", b"settings", b"weights", b"facts"];
    is_among(&names, name)
}

/// Whether there is a member that a root hasn't.
fn has_unknown(root: &Value) -> bool
    ensures { result ≡ has_other root_names (view root.now) }
{
    has_other(root, is_root_name)
}
