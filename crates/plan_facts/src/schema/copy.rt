ghost use Rattle.std.specs.Prelude.{◌≡◌, IfOk};

use super::Schema;
use crate::list::List;
use crate::memory::Memory;
use crate::record::{ClassDef, FieldDef, VarDef};
use std::alloc::Global;

impl Schema {
    /// A copy of the schema.
    pub fn copy(&self, alloc: Global) -> Result<Schema, Memory>
        ensures { IfOk result (λ copy. copy ≡ self.now) }
    {
        let mut classes = List::new(alloc);
        for class in self.classes.as_slice() {
            classes.push(copy_of_class(alloc, class)?)?;
        }
        Ok(Schema { classes })
    }
}

/// A copy of the class.
fn copy_of_class(alloc: Global, class: &ClassDef) -> Result<ClassDef, Memory>
    ensures { IfOk result (λ copy. copy ≡ class.now) }
{
    Ok(ClassDef {
        name: class.name.copy(alloc)?,
        fields: copy_of_fields(alloc, class.fields.as_slice())?,
        vars: copy_of_vars(alloc, class.vars.as_slice())?,
    })
}

/// A copy of the fields.
fn copy_of_fields(alloc: Global, fields: &[FieldDef]) -> Result<List<FieldDef>, Memory>
    ensures { IfOk result (λ copy. copy ≡ fields.now) }
{
    let mut copy = List::new(alloc);
    for field in fields {
        copy.push(FieldDef {
            name: field.name.copy(alloc)?,
            kind: field.kind,
        })?;
    }
    Ok(copy)
}

/// A copy of the variables.
fn copy_of_vars(alloc: Global, vars: &[VarDef]) -> Result<List<VarDef>, Memory>
    ensures { IfOk result (λ copy. copy ≡ vars.now) }
{
    let mut copy = List::new(alloc);
    for var in vars {
        copy.push(VarDef {
            name: var.name.copy(alloc)?,
            values: var.values,
            nullable: var.nullable,
        })?;
    }
    Ok(copy)
}
