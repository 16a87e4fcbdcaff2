ghost use Rattle.std.specs.Prelude.{◌≡◌, map, IfOk};
ghost use Rattle.domain_words.specs.Classes.{lent_class, lent_field, lent_variable};

use plan_facts::{ClassDef, FieldDef, Kind, List, Memory, Text, VarDef};
use std::alloc::Global;

/// A variable of a class, in short.
#[derive(Clone, Copy, Drop)]
pub struct Variable<'a> {
    pub name: &'a str,
    /// The number of the class that it ranges over.
    pub values: u8,
    /// Whether it may stay null.
    pub nullable: bool,
}

/// The text of a name.
fn text(alloc: Global, name: &str) -> Result<Text, Memory>
    ensures { IfOk result (λ text. text ≡ name.now) }
{
    Text::from_slice(alloc, name.as_bytes())
}

/// Fields with these names and kinds.
fn fields(alloc: Global, lent: &[(&str, Kind)]) -> Result<List<FieldDef>, Memory>
    ensures { IfOk result (λ fields. fields ≡ map lent_field lent.now) }
{
    let mut fields = List::new(alloc);
    for (name, kind) in lent {
        let name = text(alloc, name)?;
        fields.push(FieldDef { name, kind: *kind })?;
    }
    Ok(fields)
}

/// Variables like these.
fn variables(alloc: Global, lent: &[Variable]) -> Result<List<VarDef>, Memory>
    ensures { IfOk result (λ vars. vars ≡ map lent_variable lent.now) }
{
    let mut vars = List::new(alloc);
    for var in lent {
        vars.push(VarDef {
            name: text(alloc, var.name)?,
            values: var.values,
            nullable: var.nullable,
        })?;
    }
    Ok(vars)
}

/// A class of this name, with fields of these names and kinds, and variables like these.
pub fn class(
    alloc: Global,
    name: &str,
    of_fields: &[(&str, Kind)],
    of_vars: &[Variable],
) -> Result<ClassDef, Memory>
    ensures { IfOk result (λ made. made ≡ lent_class name.now of_fields.now of_vars.now) }
{
    Ok(ClassDef {
        name: text(alloc, name)?,
        fields: fields(alloc, of_fields)?,
        vars: variables(alloc, of_vars)?,
    })
}
