ghost use Rattle.std.specs.Prelude.{◌≡◌, ◌<◌, ◌+◌, ◌∷◌, length, drop, slice_get, Some};
ghost use Rattle.std.specs.Str.{bytes_eq};
ghost use Rattle.std.specs.List.{list_any, list_all};
ghost use Rattle.plan_facts.specs.Schema.{is_name, is_free_name, is_name_byte, member_names, has_double, has_bad_name, HasFewMembers};

use crate::record::ClassDef;

/// Whether the text is a name: 1 to 32 bytes of a-z, 0-9 and `_`, with a letter first.
pub fn is_name(text: &[u8]) -> bool
    ensures { result ≡ is_name text.now }
{
    match text {
        [] => false,
        [first, ..] => first.is_ascii_lowercase() && text.len() <= 32 && all_name_bytes(text),
    }
}

fn all_name_bytes(text: &[u8]) -> bool
    ensures { result ≡ list_all is_name_byte text.now }
{
    text.iter()
        .all(|byte| matches!(*byte, b'a'..=b'z' | b'0'..=b'9' | b'_'))
}

/// Whether the text is a name that a class, field or variable may have: any but `id` and `pinned`.
fn is_free_name(text: &[u8]) -> bool
    ensures { result ≡ is_free_name text.now }
{
    is_name(text) && !(text == b"id".as_slice() || text == b"pinned".as_slice())
}

/// The number of fields and variables of the class.
fn member_count(class: &ClassDef) -> usize
    requires { HasFewMembers class.now }
    ensures { result ≡ length (member_names class.now) }
{
    class.fields.len() + class.vars.len()
}

/// The name of the member with this place among the fields and then the variables of the class.
fn member_name(class: &ClassDef, place: usize) -> &[u8]
    requires { place < length (member_names class.now) }
    ensures { slice_get (member_names class.now) place ≡ Some result.now }
{
    let fields = class.fields.as_slice();
    if place < fields.len() {
        fields[place].name.as_slice()
    } else {
        class.vars.as_slice()[place - fields.len()].name.as_slice()
    }
}

/// Whether every name of the class is one that it may have.
fn all_free_names(class: &ClassDef) -> bool
    requires { HasFewMembers class.now }
    ensures { result ≡ list_all is_free_name (class.now.name ∷ member_names class.now) }
{
    for place in 0..member_count(class) {
        if !is_free_name(member_name(class, place)) {
            return false;
        }
    }
    is_free_name(class.name.as_slice())
}

/// Whether one of these classes has the name.
fn is_taken(earlier: &[ClassDef], name: &[u8]) -> bool
    ensures { result ≡ list_any (λ c. bytes_eq name.now c.name) earlier.now }
{
    earlier.iter().any(|other| name == other.name.as_slice())
}

/// Whether a member from this place on has the name.
fn stands_from(class: &ClassDef, from: usize, name: &[u8]) -> bool
    requires { HasFewMembers class.now }
    ensures { result ≡ list_any (bytes_eq name.now) (drop from (member_names class.now)) }
{
    for place in from..member_count(class) {
        if name == member_name(class, place) {
            return true;
        }
    }
    false
}

/// Whether two members of the class have one name.
fn has_double_name(class: &ClassDef) -> bool
    requires { HasFewMembers class.now }
    ensures { result ≡ has_double (member_names class.now) }
{
    for place in 0..member_count(class) {
        if stands_from(class, place + 1, member_name(class, place)) {
            return true;
        }
    }
    false
}

/// Whether a name of the class is none that it may have, or is taken.
pub fn has_bad_name(earlier: &[ClassDef], class: &ClassDef) -> bool
    requires { HasFewMembers class.now }
    ensures { result ≡ has_bad_name earlier.now class.now }
{
    if !all_free_names(class) || is_taken(earlier, class.name.as_slice()) {
        return true;
    }
    has_double_name(class)
}
