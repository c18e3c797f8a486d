//! The system's clock as a `Clock`, in seconds since 1950. It answers 0 where it cannot be read or is
//! before 1970; the spool takes the last moment then.

use mta_edge::Clock;
use std::rt;
use std::time::SystemTime;

// The seconds from 1950-01-01 to 1970-01-01: 7,305 days.
const SECONDS_BEFORE_1970: u64 = 631_152_000;

/// The system's clock, in seconds since 1950-01-01 00:00:00 UTC. It answers 0 where it cannot be read or is before
/// 1970.
#[derive(Drop)]
pub struct SystemClock<'a, R: rt::Clock> {
    runtime: &'a R,
}

impl<'a, R: rt::Clock> SystemClock<'a, R> {
    pub fn new(runtime: &'a R) -> SystemClock<'a, R> {
        SystemClock { runtime }
    }
}

impl<R: rt::Clock> Clock for SystemClock<'_, R> {
    ghost use Rattle.mta_edge.specs.Views.{untold_clock, untold_clock_laws};

    ghost model = { untold_clock };

    ghost laws = { untold_clock_laws };

    fn now(&mut self) -> u64 {
        let Ok(now) = SystemTime::now(self.runtime) else {
            return 0;
        };
        match now.duration_since(SystemTime::UNIX_EPOCH) {
            Ok(since) => since.as_secs().saturating_add(SECONDS_BEFORE_1970),
            Err(_) => 0,
        }
    }
}
