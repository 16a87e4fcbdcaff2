ghost use Rattle.std.specs.Prelude.{◌≡◌, None, map, IfOk, IfErr, OnOk};
ghost use Rattle.plan_facts.specs.Refusal.{IsRefusal};
ghost use Rattle.plan_facts.specs.Schema.{schema_fault};
ghost use Rattle.test_plans.specs.Classes.{field_of, variable_of, class_of, classes_of};

use plan_facts::{ClassDef, FieldDef, Kind, List, Memory, Schema, SchemaFault, Text, VarDef};
use std::alloc::Global;

/// A planning variable: its name, and the number of the class of its values.
#[derive(Clone, Copy, Drop)]
pub enum VarSketch {
    /// One that may not stay null.
    Var(&'static str, u8),
    /// One that may stay null.
    Nullable(&'static str, u8),
}

/// A class: its name, its fields and its planning variables.
#[derive(Clone, Copy, Drop)]
pub struct ClassSketch(
    pub &'static str,
    pub &'static [(&'static str, Kind)],
    pub &'static [VarSketch],
);

/// The text of a name.
fn text(alloc: Global, name: &str) -> Result<Text, Memory>
    ensures { IfOk result (λ text. text ≡ name.now) }
{
    Text::from_slice(alloc, name.as_bytes())
}

/// The fields with these names and kinds.
fn fields(alloc: Global, sketches: &[(&'static str, Kind)]) -> Result<List<FieldDef>, Memory>
    ensures { IfOk result (λ fields. fields ≡ map field_of sketches.now) }
{
    let mut fields = List::new(alloc);
    for (name, kind) in sketches {
        let name = text(alloc, name)?;
        fields.push(FieldDef { name, kind: *kind })?;
    }
    Ok(fields)
}

/// The variable of a sketch.
fn variable(alloc: Global, sketch: &VarSketch) -> Result<VarDef, Memory>
    ensures { IfOk result (λ var. var ≡ variable_of sketch.now) }
{
    let (name, values, nullable) = match sketch {
        VarSketch::Var(name, values) => (*name, *values, false),
        VarSketch::Nullable(name, values) => (*name, *values, true),
    };
    let name = text(alloc, name)?;
    Ok(VarDef {
        name,
        values,
        nullable,
    })
}

/// The variables of some sketches.
fn variables(alloc: Global, sketches: &[VarSketch]) -> Result<List<VarDef>, Memory>
    ensures { IfOk result (λ vars. vars ≡ map variable_of sketches.now) }
{
    let mut vars = List::new(alloc);
    for sketch in sketches {
        vars.push(variable(alloc, sketch)?)?;
    }
    Ok(vars)
}

/// The class of a sketch.
fn class(alloc: Global, sketch: &ClassSketch) -> Result<ClassDef, Memory>
    ensures { IfOk result (λ class. class ≡ class_of sketch.now) }
{
    Ok(ClassDef {
        name: text(alloc, sketch.0)?,
        fields: fields(alloc, sketch.1)?,
        vars: variables(alloc, sketch.2)?,
    })
}

/// The classes of some sketches.
fn all_classes(alloc: Global, sketches: &[ClassSketch]) -> Result<List<ClassDef>, Memory>
    ensures { IfOk result (λ classes. classes ≡ classes_of sketches.now) }
{
    let mut classes = List::new(alloc);
    for sketch in sketches {
        classes.push(class(alloc, sketch)?)?;
    }
    Ok(classes)
}

/// The schema of these classes, or the first fault, which [`SchemaFault`] orders.
pub fn schema_of(alloc: Global, sketches: &[ClassSketch]) -> Result<Schema, SchemaFault>
    ensures schema { IfOk result (λ schema. schema ≡ classes_of sketches.now) }
    ensures ok { OnOk result (schema_fault (classes_of sketches.now) ≡ None) }
    ensures err { IfErr result (IsRefusal SchemaFault.Memory (schema_fault (classes_of sketches.now))) }
{
    match all_classes(alloc, sketches) {
        Ok(classes) => Schema::build(classes),
        Err(Memory) => Err(SchemaFault::Memory),
    }
}
