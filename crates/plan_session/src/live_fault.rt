use crate::fault::PrintFault;
use plan_changes::StopCause;
use plan_facts::Memory;

/// Why a live run ended before its end. A front of its text was printed.
#[derive(Clone, Copy, Debug, Drop, PartialEq, Eq)]
pub enum LiveFault {
    /// Memory was wanting.
    Memory,
    /// The sink failed.
    Write,
    /// The feed ended early, with this cause.
    Stopped(StopCause),
}

impl From<Memory> for LiveFault {
    ghost use Rattle.std.specs.Prelude.{◌≡◌};
    ghost use Rattle.plan_session.specs.declared.live_fault.LiveFault.TheVariants.{Memory};

    ghost from_gives = { λ _ fault. fault ≡ Memory };

    fn from(_: Memory) -> Self {
        LiveFault::Memory
    }
}

impl From<PrintFault> for LiveFault {
    ghost use Rattle.std.specs.Prelude.{◌≡◌};
    ghost use Rattle.plan_session.specs.LiveFaults.{live_fault};

    ghost from_gives = { λ printed fault. fault ≡ live_fault printed };

    fn from(fault: PrintFault) -> Self {
        match fault {
            PrintFault::Memory => LiveFault::Memory,
            PrintFault::Write => LiveFault::Write,
        }
    }
}
