use crate::change::Change;

/// What is wrong with a line that should be a change: it isn't JSON or no object, or the member for what is done, the class,
/// the id, the fields, the values, the rule or the weight is missing or of another kind, or there is a further member.
#[derive(Clone, Copy, Debug, Drop, PartialEq, Eq)]
pub enum Spot {
    Json,
    Object,
    Do,
    Class,
    Id,
    Fields,
    Values,
    Rule,
    Weight,
    Member,
}

/// Why a line is no change: what stands on it, or its length.
#[derive(Clone, Copy, Debug, Drop, PartialEq, Eq)]
pub enum LineFault {
    Syntax(Spot),
    /// The line has more than 65,536 bytes.
    LongLine,
}

/// Why a feed ended early: want of memory, a fault of its source, or too many lines or bytes.
#[derive(Clone, Copy, Debug, Drop, PartialEq, Eq)]
pub enum StopCause {
    Memory,
    ReadFault,
    Overrun,
}

/// What a feed tells of a line: the change that it is or why it is none; or that the feed ended early.
#[derive(Drop)]
pub enum Body {
    Do(Change),
    Bad(LineFault),
    Stop(StopCause),
}

/// A line of a feed by its number, from 1.
#[derive(Drop)]
pub struct Post {
    pub line: u32,
    pub body: Body,
}
