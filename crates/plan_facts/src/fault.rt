use crate::memory::Memory;
use std::alloc::{AllocError, AllocFailed};

/// Why records make no plan, or a fact can't be added. Where several apply, the one listed first is given; of one kind
/// the first in the order of classes, records and places, the ids and fields of all records before any value.
#[derive(Clone, Copy, Debug, Drop, PartialEq, Eq)]
pub enum PlanFault {
    /// Want of memory.
    Memory,
    /// There isn't one list of records for each class.
    ClassCount,
    /// More than 100,000 facts would ever have been made.
    TooManyFacts,
    /// The id is 0, above 10^9, or that of an earlier record of the class.
    BadId { class: u8, id: u32 },
    /// The record hasn't one number for each field of its class.
    FieldCount { class: u8, id: u32 },
    /// The field's number is below -10^9 or above 10^9.
    FieldRange { class: u8, id: u32, field: u8 },
    /// The variable's value is no live fact of its value class; or there aren't as many values as variables, and then
    /// `var` is the number of variables.
    BadValue { class: u8, id: u32, var: u8 },
}

impl From<Memory> for PlanFault {
    ghost use Rattle.std.specs.Prelude.{◌≡◌};
    ghost use Rattle.plan_facts.specs.declared.fault.PlanFault.TheVariants.{Memory};

    ghost from_gives = { λ _ fault. fault ≡ Memory };

    fn from(_: Memory) -> Self {
        PlanFault::Memory
    }
}

impl From<AllocError> for PlanFault {
    ghost use Rattle.std.specs.Prelude.{◌≡◌};
    ghost use Rattle.plan_facts.specs.declared.fault.PlanFault.TheVariants.{Memory};

    ghost from_gives = { λ _ fault. fault ≡ Memory };

    fn from(_: AllocError) -> Self {
        PlanFault::Memory
    }
}

impl<T: Drop> From<AllocFailed<T>> for PlanFault {
    ghost use Rattle.std.specs.Prelude.{◌≡◌};
    ghost use Rattle.plan_facts.specs.declared.fault.PlanFault.TheVariants.{Memory};

    ghost from_gives = { λ _ fault. fault ≡ Memory };

    fn from(_: AllocFailed<T>) -> Self {
        PlanFault::Memory
    }
}
