ghost use Rattle.std.specs.Prelude.{◌≡◌};
ghost use Rattle.plan_ports.specs.declared.fault.PortFault.TheVariants.{Memory as PortMemory};
ghost use Rattle.plan_ports.specs.declared.fault.ReadFault.TheVariants.{Memory as ReadMemory};

use std::alloc::AllocError;

/// A take failed, and the source counted it.
#[derive(Clone, Copy, Debug, PartialEq, Eq)]
pub struct Failed;

/// Why a put or an open gave nothing.
#[derive(Clone, Copy, Debug, PartialEq, Eq)]
pub enum PortFault {
    Memory,
    Failed,
}

/// Why a source could not be read whole.
#[derive(Clone, Copy, Debug, PartialEq, Eq)]
pub enum ReadFault {
    Memory,
    Failed,
    TooLong,
}

impl From<AllocError> for PortFault {
    ghost from_gives = { λ _ e. e ≡ PortMemory };

    fn from(_: AllocError) -> Self {
        PortFault::Memory
    }
}

impl From<AllocError> for ReadFault {
    ghost from_gives = { λ _ e. e ≡ ReadMemory };

    fn from(_: AllocError) -> Self {
        ReadFault::Memory
    }
}
