use plan_ports::{PortFault, Sink};

/// A sink that keeps nothing, and never fails.
#[derive(Drop)]
pub struct Nowhere;

impl Sink for Nowhere {
    ghost use Rattle.std.specs.Prelude.{◌≡◌, IfOk, false, length, IsOk};
    ghost use Rattle.plan_session.specs.Nowhere.{told_nothing};

    ghost state = { told_nothing };

    fn put(&mut self, piece: &[u8]) -> Result<usize, PortFault>
        ensures all { IfOk result (λ n. n ≡ length piece.now) }
        ensures ok { IsOk result }
    {
        Ok(piece.len())
    }
}
