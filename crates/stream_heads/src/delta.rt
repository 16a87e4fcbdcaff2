use crate::cells::Cells;

/// What leads from old rows to new ones: those that went and those that came.
pub struct CellsDelta {
    pub gone: Vec<Cells>,
    pub come: Vec<Cells>,
}

// Written out, so that its owners let go of it by one call.
impl Drop for CellsDelta {
    fn drop(self) {
        let CellsDelta { gone, come } = self;
        drop(gone);
        drop(come);
    }
}
