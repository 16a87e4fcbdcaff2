use plan_facts::Memory;

/// Why a journal is refused.
#[derive(Clone, Copy, Debug, Drop, PartialEq, Eq)]
pub enum JournalFault {
    /// Want of memory.
    Memory,
    /// The line with this number, from 1, breaks the rule; or the number behind the last line, where change lines are missing
    /// or too many.
    Line(u32),
}

impl From<Memory> for JournalFault {
    ghost use Rattle.std.specs.Prelude.{◌≡◌};
    ghost use Rattle.run_journal.specs.declared.fault.JournalFault.TheVariants.{Memory};

    ghost from_gives = { λ _ fault. fault ≡ Memory };

    fn from(_: Memory) -> Self {
        JournalFault::Memory
    }
}
