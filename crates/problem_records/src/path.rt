ghost use Rattle.std.specs.Prelude.{◌≡◌, Some, IfOk, map};
ghost use Rattle.plan_facts.specs.Refusal.{IsRefusal};
ghost use Rattle.problem_faults.specs.declared.fault.ProblemFault.TheVariants as ProblemFault;
ghost use Rattle.problem_records.specs.Shapes.{path_of, shape_at, record_shape, member_shape};

use itoa::Buffer;
use plan_facts::{ClassDef, Memory, Text};
use problem_faults::ProblemFault;
use std::alloc::Global;

/// The path of these parts below the facts.
fn path_of(alloc: Global, parts: &[&[u8]]) -> Result<Text, Memory>
    ensures { IfOk result (λ path. path ≡ path_of (map (λ part. part.now) parts.now)) }
{
    let mut path = Vec::from_slice(alloc, b"/facts")?;
    for part in parts {
        path.push(b'/')?;
        path.extend_from_slice(part)?;
    }
    Text::from_slice(alloc, &path)
}

/// The refusal of what stands at the path of these parts below the facts.
pub fn shape_at(alloc: Global, parts: &[&[u8]]) -> ProblemFault
    ensures { IsRefusal ProblemFault.Memory (Some (shape_at (map (λ part. part.now) parts.now))) result }
{
    match path_of(alloc, parts) {
        Ok(path) => ProblemFault::Shape { path },
        Err(Memory) => ProblemFault::Memory,
    }
}

/// The refusal of a record of the class, by its place in its list.
pub fn record_shape(alloc: Global, class: &ClassDef, place: usize) -> ProblemFault
    ensures { IsRefusal ProblemFault.Memory (Some (record_shape class.now place)) result }
{
    let mut digits = Buffer::new();
    shape_at(
        alloc,
        &[class.name.as_slice(), digits.format(place).as_bytes()],
    )
}

/// The refusal of a member of a record of the class, by the record's place in its list.
pub fn member_shape(alloc: Global, class: &ClassDef, place: usize, name: &[u8]) -> ProblemFault
    ensures { IsRefusal ProblemFault.Memory (Some (member_shape class.now place name.now)) result }
{
    let mut digits = Buffer::new();
    shape_at(
        alloc,
        &[class.name.as_slice(), digits.format(place).as_bytes(), name],
    )
}
