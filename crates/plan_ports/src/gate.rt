/// A moment of a run, at which a test may hold it.
#[derive(Clone, Copy, Debug, PartialEq, Eq)]
pub enum Place {
    /// This candidate of this step is about to be judged.
    Judge { step: u32, number: u32 },
    /// The run stands at the boundary behind this many steps.
    Boundary(u32),
    /// This line of the feed was posted.
    Line(u32),
}

/// Where a run may be held for a while. A gate has no say in what the run answers.
pub trait Gate {
    fn enter(&self, place: Place);
}

/// The gate that holds nothing.
#[derive(Clone, Copy, Debug)]
pub struct NoGate;

impl Gate for NoGate {
    fn enter(&self, _place: Place) {}
}
