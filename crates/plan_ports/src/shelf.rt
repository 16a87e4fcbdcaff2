// Where sources come from, by name.
ghost use Rattle.std.specs.Prelude.{◌≡◌, ◌+◌, ◌-◌, ◌<◌, IfOk, OnOk, OnErr, IsErrOf};
ghost use Rattle.plan_ports.specs.Outside.{FailsAt, IsOpened, LaterShelf, ShelfFails, ShelfState};

use crate::{PortFault, Source};

/// Files by name.
pub trait Shelf {
    type File: Source + Drop;

    /// What contracts see of a shelf.
    ghost state: { Self → ShelfState };

    /// Lends the file of a name, from its begin. An `Err` lends none.
    fn open(&mut self, name: &[u8]) -> Result<Self::File, PortFault>
        ensures opens { IfOk result (λ file. IsOpened name.now (state self.old) (Self.File.state file)) }
        ensures failed { IsErrOf result PortFault.Failed → FailsAt name.now (state self.old) (state self.new) }
        ensures lent { OnOk result ((state self.new).lent ≡ (state self.old).lent + 1) }
        ensures kept { OnErr result ((state self.new).lent ≡ (state self.old).lent) }
        ensures later { LaterShelf (state self.old) (state self.new) };

    /// Takes a file back. It counts as a fault where a take of the file failed.
    fn close(&mut self, file: Self::File)
        ensures rose { 0 < (Self.File.state file).faults → ShelfFails (state self.old) (state self.new) }
        ensures stays { (Self.File.state file).faults ≡ 0 → (state self.new).faults ≡ (state self.old).faults }
        ensures lent { (state self.new).lent ≡ (state self.old).lent - 1 }
        ensures later { LaterShelf (state self.old) (state self.new) };
}
