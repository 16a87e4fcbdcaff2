ghost use Rattle.std.specs.Prelude.{◌≡◌, ◌≤◌, [], All, length};
ghost use Rattle.std.specs.Result.{result_err};
ghost use Rattle.plan_facts.specs.First.{first_fault};
ghost use Rattle.plan_facts.specs.Schema.{schema_fault, field_count_fault, var_count_fault, name_fault, range_fault, var_range_fault, may_be_range, HasFewMembers};

use crate::list::List;
use crate::names_of_class::has_bad_name;
use crate::record::{ClassDef, VarDef};
use std::marker::Model;

/// Why classes make no schema. Where several apply, the one listed first is given, and of one kind the first.
#[derive(Clone, Copy, Debug, Drop, PartialEq, Eq)]
pub enum SchemaFault {
    /// Want of memory.
    Memory,
    /// There are more than 16 classes.
    TooManyClasses,
    /// The class has more than 16 fields.
    TooManyFields { class: u8 },
    /// The class has more than 2 planning variables.
    TooManyVars { class: u8 },
    /// A name of the class, or of one of its fields and variables, isn't 1 to 32 bytes of a-z, 0-9 and `_` with a
    /// letter first, or is `id` or `pinned`; or the class has the name of an earlier one, or two of its members have one
    /// name.
    BadName { class: u8 },
    /// The variable's range is no class, or a class with planning variables.
    BadRange { class: u8, var: u8 },
}

/// The classes of a domain: at most 16, each with at most 16 fields and 2 planning variables.
#[derive(Drop)]
pub struct Schema {
    classes: List<ClassDef>,
}

impl Model for Schema {
    ghost use Rattle.std.specs.Prelude.{List, ◌≡◌, None};
    ghost use Rattle.plan_facts.specs.declared.record.ClassDef.{ClassDef};

    ghost Value = { List ClassDef };

    ghost use Rattle.plan_facts.specs.Schema.{schema_fault};

    ghost view = { λ s. s.classes };

    ghost invariant = { λ s. schema_fault s.classes ≡ None };
}

impl Schema {
    ghost use Rattle.std.specs.Prelude.{◌≡◌, ◌≤◌, None, Some, length, slice_get, option_copied, IfOk, IfErr, IfSome};
    ghost use Rattle.plan_facts.specs.Schema.{schema_fault, HasFewMembers, HasRanges};

    /// The schema of these classes, or the first fault.
    pub fn build(classes: List<ClassDef>) -> Result<Schema, SchemaFault>
        ensures ok { IfOk result (λ schema. (schema ≡ classes) × (schema_fault classes ≡ None)) }
        ensures err { IfErr result (λ fault. schema_fault classes ≡ Some fault) }
    {
        check(classes.as_slice())?;
        Ok(Schema { classes })
    }

    /// The class with this number, from 0; none where there are no more than `n` classes.
    pub fn class(&self, n: u8) -> Option<&ClassDef>
        ensures class { option_copied result ≡ slice_get self.now n }
        ensures members { IfSome result (λ class. HasFewMembers class.now) }
        ensures ranges { IfSome result (λ class. HasRanges self.now class.now) }
    {
        self.classes.get(n as usize)
    }

    /// The number of classes.
    pub fn classes(&self) -> u8
        ensures count { result ≡ length self.now }
        ensures few { result ≤ 16 }
        ensures faultless { schema_fault self.now ≡ None }
    {
        self.classes.len() as u8
    }
}

/// The first fault of these classes.
fn check(classes: &[ClassDef]) -> Result<(), SchemaFault>
    ensures { result_err result ≡ schema_fault classes.now }
{
    if classes.len() > 16 {
        return Err(SchemaFault::TooManyClasses);
    }
    check_field_counts(classes)?;
    check_var_counts(classes)?;
    check_names(classes)?;
    check_ranges(classes)
}

/// The first class with too many fields.
fn check_field_counts(classes: &[ClassDef]) -> Result<(), SchemaFault>
    requires { length classes.now ≤ 16 }
    ensures { result_err result ≡ first_fault field_count_fault [] classes.now }
{
    for place in 0..classes.len() {
        if classes[place].fields.len() > 16 {
            return Err(SchemaFault::TooManyFields { class: place as u8 });
        }
    }
    Ok(())
}

/// The first class with too many variables.
fn check_var_counts(classes: &[ClassDef]) -> Result<(), SchemaFault>
    requires { length classes.now ≤ 16 }
    ensures { result_err result ≡ first_fault var_count_fault [] classes.now }
{
    for place in 0..classes.len() {
        if classes[place].vars.len() > 2 {
            return Err(SchemaFault::TooManyVars { class: place as u8 });
        }
    }
    Ok(())
}

/// The first class with a bad name.
fn check_names(classes: &[ClassDef]) -> Result<(), SchemaFault>
    requires few { length classes.now ≤ 16 }
    requires members { All HasFewMembers classes.now }
    ensures { result_err result ≡ first_fault name_fault [] classes.now }
{
    for place in 0..classes.len() {
        if has_bad_name(&classes[..place], &classes[place]) {
            return Err(SchemaFault::BadName { class: place as u8 });
        }
    }
    Ok(())
}

/// The first variable whose range is no class of values.
fn check_ranges(classes: &[ClassDef]) -> Result<(), SchemaFault>
    requires few { length classes.now ≤ 16 }
    requires members { All HasFewMembers classes.now }
    ensures { result_err result ≡ first_fault (range_fault classes.now) [] classes.now }
{
    for place in 0..classes.len() {
        check_vars(classes, place as u8, classes[place].vars.as_slice())?;
    }
    Ok(())
}

/// The first variable of the class with this number whose range is no class of values.
fn check_vars(classes: &[ClassDef], class: u8, vars: &[VarDef]) -> Result<(), SchemaFault>
    requires { length vars.now ≤ 2 }
    ensures { result_err result ≡ first_fault (var_range_fault classes.now class) [] vars.now }
{
    for place in 0..vars.len() {
        if !may_be_range(classes, vars[place].values) {
            let var = place as u8;
            return Err(SchemaFault::BadRange { class, var });
        }
    }
    Ok(())
}

/// Whether the class with this number is there and has no variables.
fn may_be_range(classes: &[ClassDef], values: u8) -> bool
    ensures { result ≡ may_be_range classes.now values }
{
    match classes.get(values as usize) {
        Some(class) => class.vars.len() < 1,
        None => false,
    }
}

mod copy;
