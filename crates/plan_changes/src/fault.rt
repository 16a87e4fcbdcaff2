use crate::line::Spot;
use plan_facts::Memory;
use std::alloc::{AllocError, AllocFailed};

/// Why a change is refused. Where several apply, the one listed first is given, but that a weight change knows only its own
/// faults. The faults of a line are those of the line that should be the change.
#[derive(Clone, Copy, Debug, Drop, PartialEq, Eq)]
pub enum ChangeFault {
    /// Want of memory.
    Memory,
    /// The line is no change.
    Syntax(Spot),
    /// The line is too long.
    LongLine,
    /// No class has the name.
    UnknownClass,
    /// There is no live fact with the id that the change names.
    NoSuchFact { id: u32 },
    /// The class hasn't a field that is named, a new fact lacks a field, a field is given what is of another kind, a number
    /// below -10^9 or above 10^9, or a name of 0 or more than 64 bytes.
    BadField,
    /// The class hasn't a variable that is named, or a variable is given the id of no live fact of its value class.
    BadValue,
    /// As many facts were made as may ever be.
    TooManyFacts,
    /// With the new fact an entity of the class could take more than 65,536 combinations of values; the first such class.
    RangeProduct { class: u8 },
    /// A stream of the rule may have more than 2^32 rows; the lowest such rule.
    RowsBound { rule: u8 },
    /// The sum over the rules of rows, weight and cap may pass 2^62.
    ScoreRange,
    /// No rule has the name.
    UnknownRule,
}

impl From<Memory> for ChangeFault {
    ghost use Rattle.std.specs.Prelude.{◌≡◌};
    ghost use Rattle.plan_changes.specs.declared.fault.ChangeFault.TheVariants.{Memory};

    ghost from_gives = { λ _ fault. fault ≡ Memory };

    fn from(_: Memory) -> Self {
        ChangeFault::Memory
    }
}

impl From<AllocError> for ChangeFault {
    ghost use Rattle.std.specs.Prelude.{◌≡◌};
    ghost use Rattle.plan_changes.specs.declared.fault.ChangeFault.TheVariants.{Memory};

    ghost from_gives = { λ _ fault. fault ≡ Memory };

    fn from(_: AllocError) -> Self {
        ChangeFault::Memory
    }
}

impl<T: Drop> From<AllocFailed<T>> for ChangeFault {
    ghost use Rattle.std.specs.Prelude.{◌≡◌};
    ghost use Rattle.plan_changes.specs.declared.fault.ChangeFault.TheVariants.{Memory};

    ghost from_gives = { λ _ fault. fault ≡ Memory };

    fn from(_: AllocFailed<T>) -> Self {
        ChangeFault::Memory
    }
}
