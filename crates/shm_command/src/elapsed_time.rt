use std::rt::Clock;
use std::time::{Instant, SystemTime};

/// How many milliseconds have gone by since then. `None`: the clock couldn't be read.
pub(crate) fn milliseconds_since<R: Clock>(rt: &R, started: Option<Instant>) -> Option<u64> {
    let elapsed = started?.elapsed(rt).ok()?;
    u64::try_from(elapsed.as_millis()).ok()
}

/// How many seconds have gone by since 1970; 0 where the clock can't be read.
pub(crate) fn seconds_since_1970<R: Clock>(rt: &R) -> u64 {
    let Ok(now) = SystemTime::now(rt) else {
        return 0;
    };
    match now.duration_since(SystemTime::UNIX_EPOCH) {
        Ok(since) => since.as_secs(),
        Err(_) => 0,
    }
}
