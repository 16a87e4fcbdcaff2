use plan_facts::Memory;
use plan_ports::PortFault;
use std::alloc::AllocError;

/// Why a text wasn't printed whole. A front of it was.
#[derive(Clone, Copy, Debug, Drop, PartialEq, Eq)]
pub enum PrintFault {
    /// Memory was wanting.
    Memory,
    /// The sink failed.
    Write,
}

impl From<Memory> for PrintFault {
    ghost use Rattle.std.specs.Prelude.{◌≡◌};
    ghost use Rattle.plan_session.specs.declared.fault.PrintFault.TheVariants.{Memory};

    ghost from_gives = { λ _ fault. fault ≡ Memory };

    fn from(_: Memory) -> Self {
        PrintFault::Memory
    }
}

impl From<AllocError> for PrintFault {
    ghost use Rattle.std.specs.Prelude.{◌≡◌};
    ghost use Rattle.plan_session.specs.declared.fault.PrintFault.TheVariants.{Memory};

    ghost from_gives = { λ _ fault. fault ≡ Memory };

    fn from(_: AllocError) -> Self {
        PrintFault::Memory
    }
}

impl From<PortFault> for PrintFault {
    ghost use Rattle.std.specs.Prelude.{◌≡◌};
    ghost use Rattle.plan_session.specs.Printing.{print_fault};

    ghost from_gives = { λ port fault. fault ≡ print_fault port };

    fn from(fault: PortFault) -> Self {
        match fault {
            PortFault::Memory => PrintFault::Memory,
            PortFault::Failed => PrintFault::Write,
        }
    }
}
