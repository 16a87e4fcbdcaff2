ghost use Rattle.std.specs.Prelude.{◌≡◌};
ghost use Rattle.plan_rules.specs.declared.fault.RuleFault.TheVariants as rule_fault;

use plan_facts::Memory;
use std::alloc::AllocError;

/// A kind of closure.
#[derive(Clone, Copy, Debug, Drop, PartialEq, Eq)]
pub enum ClosureKind {
    Test,
    Key,
    Weigh,
}

/// Why definitions and closures make no rules. Where several apply, the one listed first is given; those from `BadName`
/// to `ClosureMissing` are looked for rule by rule.
#[derive(Clone, Copy, Debug, Drop, PartialEq, Eq)]
pub enum RuleFault {
    /// Want of memory.
    Memory,
    /// A closure has the number of an earlier one of its kind. Tests are looked at first, then keys, then weighers.
    DoubleClosure {
        kind: ClosureKind,
        number: u16,
    },
    /// There are more than 32 rules.
    TooManyRules,
    /// The name isn't 1 to 32 bytes of a-z, 0-9 and `_` with a letter first, or is that of an earlier rule.
    BadName {
        rule: u8,
    },
    /// The weight is above 10^6.
    WeightRange {
        rule: u8,
    },
    /// There are more than 7 nodes.
    TooManyNodes {
        rule: u8,
    },
    /// The head or a node names a class that the schema doesn't have; the first such class.
    UnknownClass {
        rule: u8,
        class: u8,
    },
    /// The head or a node has more than 4 joiners.
    TooManyJoiners {
        rule: u8,
    },
    /// A group hasn't one or two keys.
    KeyCount {
        rule: u8,
    },
    /// The left rows of a join or of an existence test have 4 parts, and so no room for a record.
    TooManyParts {
        rule: u8,
    },
    /// A closure that the rule names wasn't handed in; the first in the order of head, nodes and weigher.
    ClosureMissing {
        rule: u8,
        kind: ClosureKind,
        number: u16,
    },
    /// A harder key's class has no planning variables or already has a harder key, or the key wasn't handed in; the
    /// first such class.
    BadHarder {
        class: u8,
    },
}

impl From<AllocError> for RuleFault {
    ghost from_gives = { λ _ fault. fault ≡ rule_fault.Memory };

    fn from(_: AllocError) -> RuleFault {
        RuleFault::Memory
    }
}

impl From<Memory> for RuleFault {
    ghost from_gives = { λ _ fault. fault ≡ rule_fault.Memory };

    fn from(_: Memory) -> RuleFault {
        RuleFault::Memory
    }
}

/// Why a plan may have too many rows or too great a score.
#[derive(Clone, Copy, Debug, Drop, PartialEq, Eq)]
pub enum RangeFault {
    /// A stream of the rule may have more than 2^32 rows; the lowest such rule.
    RowsBound { rule: u8 },
    /// The sum over the rules of rows, weight and cap is past 2^62.
    ScoreRange,
}
