use std::io;
use std::rt::Clock;
use std::time::Instant;

/// Says on standard error, where times are asked for, how long each of `count` calls took since `start`.
pub fn report(
    rt: &(impl Clock + Eprint),
    times: bool,
    what: &str,
    count: u64,
    start: Instant,
) -> io::Result<()> {
    if !times || count == 0 {
        return Ok(());
    }
    let end = Instant::now(rt)?;
    let nanos = end.saturating_duration_since(start).as_nanos() / u128::from(count);
    eprintln!(rt; "{what}: {nanos} ns")
}

/// Want of memory, as a program says it.
pub fn no_memory() -> io::Error {
    io::Error::from(io::ErrorKind::OutOfMemory)
}

/// How long each of `count` calls took since `start`, in tenths of a nanosecond.
pub fn tenths_since(rt: &impl Clock, start: Instant, count: u64) -> io::Result<u64> {
    let end = Instant::now(rt)?;
    let nanos = end.saturating_duration_since(start).as_nanos();
    let tenths = nanos.saturating_mul(10) / u128::from(count.max(1));
    Ok(u64::try_from(tenths).unwrap_or(u64::MAX))
}
