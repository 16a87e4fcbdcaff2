use crate::pieces::joined;
use plan_facts::{Memory, Text};
use plan_settings::Setting;
use std::alloc::{AllocError, AllocFailed, Global};

/// Why bytes are no problem. Where several apply, the one listed first is given; classes, fields, variables and rules are
/// named. Of one kind the first one counts: settings in their table's order, weights in rule order, records in the order of
/// classes and of their lists, fields and variables in schema order.
#[derive(Debug, Drop)]
pub enum ProblemFault {
    /// Want of memory.
    Memory,
    /// There are more than 67,108,864 bytes.
    TooLong,
    /// The bytes aren't JSON.
    Json,
    /// What stands at the path is missing, of another kind, or unknown; the path begins with `/`.
    Shape { path: Text },
    /// No domain has the name.
    UnknownDomain,
    /// The setting is of another kind or out of its range.
    BadSetting { setting: Setting },
    /// There are more than 100,000 records.
    TooManyFacts,
    /// The id is that of an earlier record of the class.
    DoubleId { class: Text, id: u32 },
    /// The field's number is below -10^9 or above 10^9, or its name has 0 or more than 64 bytes.
    BadField { class: Text, id: u32, field: Text },
    /// The variable's value is no record of its value class.
    BadValue { class: Text, id: u32, var: Text },
    /// An entity of the class could take more than 65,536 combinations of values.
    RangeProduct { class: Text },
    /// A stream of the rule may have more than 2^32 rows.
    RowsBound { rule: Text },
    /// The score may pass 2^62.
    ScoreRange,
}

impl ProblemFault {
    ghost use Rattle.std.specs.Prelude.{Some};
    ghost use Rattle.plan_facts.specs.Refusal.{IsRefusal};
    ghost use Rattle.problem_faults.specs.Pieces.{joined};
    ghost use Rattle.problem_faults.specs.declared.fault.ProblemFault.TheVariants as ProblemFault;

    /// The fault of what stands at the path that these pieces make, one after another.
    pub fn shape(alloc: Global, pieces: &[&[u8]]) -> ProblemFault
        ensures { IsRefusal ProblemFault.Memory (Some (ProblemFault.Shape (joined pieces.now))) result }
    {
        match joined(alloc, pieces) {
            Ok(path) => ProblemFault::Shape { path },
            Err(Memory) => ProblemFault::Memory,
        }
    }
}

impl From<Memory> for ProblemFault {
    ghost use Rattle.std.specs.Prelude.{◌≡◌};
    ghost use Rattle.problem_faults.specs.declared.fault.ProblemFault.TheVariants.{Memory};

    ghost from_gives = { λ _ fault. fault ≡ Memory };

    fn from(_: Memory) -> Self {
        ProblemFault::Memory
    }
}

impl From<AllocError> for ProblemFault {
    ghost use Rattle.std.specs.Prelude.{◌≡◌};
    ghost use Rattle.problem_faults.specs.declared.fault.ProblemFault.TheVariants.{Memory};

    ghost from_gives = { λ _ fault. fault ≡ Memory };

    fn from(_: AllocError) -> Self {
        ProblemFault::Memory
    }
}

impl<T: Drop> From<AllocFailed<T>> for ProblemFault {
    ghost use Rattle.std.specs.Prelude.{◌≡◌};
    ghost use Rattle.problem_faults.specs.declared.fault.ProblemFault.TheVariants.{Memory};

    ghost from_gives = { λ _ fault. fault ≡ Memory };

    fn from(_: AllocFailed<T>) -> Self {
        ProblemFault::Memory
    }
}
