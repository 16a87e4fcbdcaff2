ghost use Rattle.std.specs.Prelude.{◌≡◌, Some, IfOk};
ghost use Rattle.serde_json.specs.View.{view};
ghost use Rattle.plan_facts.specs.Refusal.{IsRefusal};
ghost use Rattle.problem_faults.specs.declared.fault.ProblemFault.TheVariants as ProblemFault;
ghost use Rattle.problem_records.specs.Named.{class_name, var_name_in, var_name, named_fault};

use plan_facts::{ClassDef, FieldDef, Memory, PlanFault, Schema, Text};
use problem_faults::ProblemFault;
use std::alloc::Global;

/// The fault of an id that stands twice in the class.
pub fn double_id(alloc: Global, class: &ClassDef, id: u32) -> ProblemFault
    ensures { IsRefusal ProblemFault.Memory (Some (ProblemFault.DoubleId class.now.name id)) result }
{
    match class.name.copy(alloc) {
        Ok(class) => ProblemFault::DoubleId { class, id },
        Err(Memory) => ProblemFault::Memory,
    }
}

/// The fault of a field that is out of range.
pub fn bad_field(
    alloc: Global,
    class: &ClassDef,
    id: u32,
    field: &FieldDef,
) -> Result<ProblemFault, Memory>
    ensures { IfOk result (λ fault. fault ≡ ProblemFault.BadField class.now.name id field.now.name) }
{
    let class = class.name.copy(alloc)?;
    let field = field.name.copy(alloc)?;
    Ok(ProblemFault::BadField { class, id, field })
}

/// The name of the class with this number; the empty one where there is none.
fn class_name(alloc: Global, schema: &Schema, n: u8) -> Result<Text, Memory>
    ensures { IfOk result (λ name. name ≡ class_name schema.now n) }
{
    match schema.class(n) {
        Some(class) => class.name.copy(alloc),
        None => Ok(Text::new(alloc)),
    }
}

/// The name of a variable of the class; the empty one where there is none.
fn var_name_in(alloc: Global, class: &ClassDef, var: u8) -> Result<Text, Memory>
    ensures { IfOk result (λ name. name ≡ var_name_in class.now var) }
{
    match class.vars.get(var as usize) {
        Some(var) => var.name.copy(alloc),
        None => Ok(Text::new(alloc)),
    }
}

/// The name of a variable of the class with this number; the empty one where there is none.
fn var_name(alloc: Global, schema: &Schema, n: u8, var: u8) -> Result<Text, Memory>
    ensures { IfOk result (λ name. name ≡ var_name schema.now n var) }
{
    match schema.class(n) {
        Some(class) => var_name_in(alloc, class, var),
        None => Ok(Text::new(alloc)),
    }
}

/// What a plan is refused for whose ids and fields have been looked at before: a value that is no record of its value class,
/// or want of memory.
pub fn named_fault(alloc: Global, schema: &Schema, fault: PlanFault) -> Result<ProblemFault, Memory>
    ensures { IfOk result (λ named. named ≡ named_fault schema.now fault) }
{
    match fault {
        PlanFault::BadValue { class, id, var } => {
            let name = class_name(alloc, schema, class)?;
            let var = var_name(alloc, schema, class, var)?;
            Ok(ProblemFault::BadValue {
                class: name,
                id,
                var,
            })
        }
        _ => Err(Memory),
    }
}
