//! What a change is refused for.

ghost use Rattle.std.specs.Prelude.{◌≡◌, ◌≤◌, ◌+◌, [], length};
ghost use Rattle.std.specs.Result.{result_err};
ghost use Rattle.std.specs.List.{list_any};
ghost use Rattle.plan_facts.specs.Limits.{fact_limit};
ghost use Rattle.plan_facts.specs.First.{first_fault};
ghost use Rattle.plan_facts.specs.Plan.{is_value_of};
ghost use Rattle.plan_facts.specs.Schema.{HasFewMembers};
ghost use Rattle.plan_changes.specs.Deeds.{is_add, is_weight};
ghost use Rattle.plan_changes.specs.Named.{def_of};
ghost use Rattle.plan_changes.specs.Refused.{is_short_name, is_good_item, names_other_field, is_bad_field, has_bad_field, names_other_variable, is_bad_variable, has_bad_value, count_grown, choices_grown, is_wide, width_fault, growth_fault, lacks_fact, fact_fault_in};

use crate::change::{Change, Deed, FieldItem, Item, ValueItem};
use crate::fault::ChangeFault;
use crate::named::{field_item_named, field_named, value_for, value_given, var_named};
use plan_facts::{ClassDef, FACT_LIMIT, FIELD_LIMIT, FieldDef, Kind, Plan, Schema, VarDef};

/// The most bytes that a name may have.
const NAME_LIMIT: usize = 64;

/// The most combinations of values that an entity may have to choose from.
const COMBINATION_LIMIT: usize = 65_536;

/// Whether the deed makes a fact.
pub fn is_add(deed: Deed) -> bool
    ensures { result ≡ is_add deed }
{
    matches!(deed, Deed::Add)
}

/// Whether the deed gives a rule another weight.
pub fn is_weight(deed: Deed) -> bool
    ensures { result ≡ is_weight deed }
{
    matches!(deed, Deed::Weight)
}

/// Whether a name has as many bytes as it may have.
fn is_short_name(text: &[u8]) -> bool
    ensures { result ≡ is_short_name text.now }
{
    matches!(text.len(), 1..=NAME_LIMIT)
}

/// Whether a field of this kind may hold it.
fn is_good_item(kind: Kind, item: &Item) -> bool
    ensures { result ≡ is_good_item kind item.now }
{
    match (kind, item) {
        (Kind::Number, Item::Num(number)) => -FIELD_LIMIT <= *number && *number <= FIELD_LIMIT,
        (Kind::Name, Item::Name(text)) => is_short_name(text.as_slice()),
        _ => false,
    }
}

/// Whether the item names a field that the class doesn't have.
fn names_other_field(class: &ClassDef, item: &FieldItem) -> bool
    ensures { result ≡ names_other_field class.now item.now }
{
    field_named(class, item.name.as_slice()).is_none()
}

/// Whether the field is given what it may not hold, or isn't named though it is needed.
fn is_bad_field(needed: bool, items: &[FieldItem], field: &FieldDef) -> bool
    ensures { result ≡ is_bad_field needed items.now field.now }
{
    match field_item_named(items, field.name.as_slice()) {
        Some(found) => !is_good_item(field.kind, &found.item),
        None => needed,
    }
}

/// Whether some item names a field that the class doesn't have.
fn any_other_field(class: &ClassDef, items: &[FieldItem]) -> bool
    ensures { result ≡ list_any (names_other_field class.now) items.now }
{
    items.iter().any(|item| names_other_field(class, item))
}

/// Whether some field is given what it may not hold, or isn't named though it is needed.
fn any_bad_field(needed: bool, items: &[FieldItem], class: &ClassDef) -> bool
    ensures { result ≡ list_any (is_bad_field needed items.now) class.now.fields }
{
    let fields = class.fields.as_slice();
    fields
        .iter()
        .any(|field| is_bad_field(needed, items, field))
}

/// Whether the change names a field that the class doesn't have, gives one what it may not hold, or doesn't name one of a
/// new fact.
fn has_bad_field(class: &ClassDef, change: &Change) -> bool
    ensures { result ≡ has_bad_field class.now change.now }
{
    let items = change.fields.as_slice();
    any_other_field(class, items) || any_bad_field(is_add(change.deed), items, class)
}

/// Whether a variable of this value class may hold it.
fn is_value(plan: &Plan, range: u8, value: Option<u32>) -> bool
    ensures { result ≡ is_value_of plan.now range value }
{
    match value {
        Some(id) => plan.raw(range, id).is_some(),
        None => true,
    }
}

/// Whether the item names a variable that the class doesn't have.
fn names_other_variable(class: &ClassDef, item: &ValueItem) -> bool
    ensures { result ≡ names_other_variable class.now item.now }
{
    var_named(class, item.name.as_slice()).is_none()
}

/// Whether the variable is given what is neither null nor a live fact of its value class.
fn is_bad_variable(plan: &Plan, items: &[ValueItem], var: &VarDef) -> bool
    ensures { result ≡ is_bad_variable plan.now items.now var.now }
{
    !is_value(plan, var.values, value_given(value_for(items, var)))
}

/// Whether some item names a variable that the class doesn't have.
fn any_other_variable(class: &ClassDef, items: &[ValueItem]) -> bool
    ensures { result ≡ list_any (names_other_variable class.now) items.now }
{
    items.iter().any(|item| names_other_variable(class, item))
}

/// Whether some variable is given what it may not hold.
fn any_bad_variable(plan: &Plan, items: &[ValueItem], class: &ClassDef) -> bool
    ensures { result ≡ list_any (is_bad_variable plan.now items.now) class.now.vars }
{
    let vars = class.vars.as_slice();
    vars.iter().any(|var| is_bad_variable(plan, items, var))
}

/// Whether the change names a variable that the class doesn't have, or gives one what it may not hold.
fn has_bad_value(plan: &Plan, class: &ClassDef, change: &Change) -> bool
    ensures { result ≡ has_bad_value plan.now class.now change.now }
{
    let items = change.values.as_slice();
    any_other_variable(class, items) || any_bad_variable(plan, items, class)
}

/// How many live facts a class has once one was added to a class.
fn count_grown(plan: &Plan, class: u8, range: u8) -> usize
    ensures value { result ≡ count_grown plan.now class range }
    ensures few { result ≤ fact_limit + 1 }
{
    let count = plan.ids(range).len();
    if range == class { count + 1 } else { count }
}

/// How many choices a variable has then.
fn choices_grown(plan: &Plan, class: u8, var: &VarDef) -> usize
    ensures { result ≡ choices_grown plan.now class var.now }
{
    let count = count_grown(plan, class, var.values);
    if var.nullable { count + 1 } else { count }
}

/// Whether an entity of a class, which has at most 2 variables, could take too many combinations of values then.
fn is_wide(plan: &Plan, class: u8, def: &ClassDef) -> bool
    requires { length def.now.vars ≤ 2 }
    ensures { result ≡ is_wide plan.now class def.now }
{
    match def.vars.as_slice() {
        [] => false,
        [one] => choices_grown(plan, class, one) > COMBINATION_LIMIT,
        [one, other, ..] => {
            let ones = choices_grown(plan, class, one);
            let others = choices_grown(plan, class, other);
            ones.saturating_mul(others) > COMBINATION_LIMIT
        }
    }
}

/// The first class whose entities could take too many combinations of values then.
fn check_width(schema: &Schema, plan: &Plan, class: u8) -> Result<(), ChangeFault>
    ensures { result_err result ≡ first_fault (width_fault plan.now class) [] schema.now }
{
    for n in 0..schema.classes() {
        let Some(def) = schema.class(n) else {
            unreachable!();
        };
        if is_wide(plan, class, def) {
            return Err(ChangeFault::RangeProduct { class: n });
        }
    }
    Ok(())
}

/// What one more fact of this class is refused for.
fn check_growth(schema: &Schema, plan: &Plan, class: u8) -> Result<(), ChangeFault>
    ensures { result_err result ≡ growth_fault schema.now plan.now class }
{
    if plan.made() >= FACT_LIMIT {
        return Err(ChangeFault::TooManyFacts);
    }
    check_width(schema, plan, class)
}

/// Whether the change is about a fact that isn't there.
fn lacks_fact(plan: &Plan, class: u8, change: &Change) -> bool
    ensures { result ≡ lacks_fact plan.now class change.now }
{
    !is_add(change.deed) && plan.raw(class, change.id).is_none()
}

/// What a change of a fact of this class is refused for.
pub fn check_fact(
    schema: &Schema,
    plan: &Plan,
    class: u8,
    def: &ClassDef,
    change: &Change,
) -> Result<(), ChangeFault>
    requires { def.now ≡ def_of schema.now class }
    ensures { result_err result ≡ fact_fault_in schema.now plan.now class change.now }
{
    if lacks_fact(plan, class, change) {
        return Err(ChangeFault::NoSuchFact { id: change.id });
    }
    if has_bad_field(def, change) {
        return Err(ChangeFault::BadField);
    }
    if has_bad_value(plan, def, change) {
        return Err(ChangeFault::BadValue);
    }
    if is_add(change.deed) {
        check_growth(schema, plan, class)
    } else {
        Ok(())
    }
}
