//! A sink that takes nothing of what it is given.
ghost use Rattle.std.specs.Prelude.{[], true};

use plan_ports::{PortFault, Sink};

/// It is full, and counts each put of something as a fault.
#[derive(Drop)]
pub(super) struct Full {
    faults: u64,
}

impl Full {
    pub(super) fn new() -> Full {
        Full { faults: 0 }
    }
}

impl Sink for Full {
    ghost state = { λ s. record { tells = true; written = []; faults = s.faults } };

    fn put(&mut self, _piece: &[u8]) -> Result<usize, PortFault> {
        self.faults = self.faults.saturating_add(1);
        Ok(0)
    }
}
