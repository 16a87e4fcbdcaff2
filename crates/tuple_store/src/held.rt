/// Where a row stands: in the contents, in those that a rollback brings back, or in both.
#[derive(Clone, Copy, Debug, PartialEq, Eq)]
pub enum Mark {
    /// In both.
    Kept,
    /// Added by the open trial.
    Added,
    /// Killed by the open trial.
    Killed,
}

/// A row with its mark, which is read first.
#[derive(Drop)]
pub struct Held<T> {
    pub mark: Mark,
    pub row: T,
}
