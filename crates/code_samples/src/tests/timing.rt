//! How long a call takes.
use std::test::Fail;
use std::time::Instant;

/// How many microseconds have gone by since a start.
pub(super) fn micros_since(rt: &HostRuntime, start: Instant) -> Result<u128, Fail> {
    Ok(start.elapsed(rt)?.as_micros())
}
