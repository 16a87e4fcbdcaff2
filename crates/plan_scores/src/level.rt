/// A place in a score. Hard numbers count before medium ones, and these before soft ones.
#[derive(Clone, Copy, Debug, PartialEq, Eq)]
pub enum Level {
    Hard,
    Medium,
    Soft,
}
