//! The clock on the wall.
use std::time::Clock;
use sync_version::Moment;

/// The seconds since 1970, or 0 where the clock can't be read.
pub fn moment<R: Clock>(rt: &R) -> Moment {
    let seconds = match rt.since_1970() {
        Ok(time) => time.as_secs(),
        Err(_) => 0,
    };
    Moment::new(seconds).unwrap_or(Moment::new(0).unwrap())
}
