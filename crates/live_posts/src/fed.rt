use plan_changes::StopCause;

/// How a feeder ended.
#[derive(Clone, Copy, Debug, Drop, PartialEq, Eq)]
pub enum Fed {
    /// The feed was read to its end, and each of its lines was posted.
    Ended,
    /// The feed failed, and a stop with the cause was posted behind the lines.
    Stopped(StopCause),
    /// The journal was shut; what was read last isn't posted.
    Shut,
    /// The journal had all its posts; what was read last isn't posted.
    Full,
}
