// What time it is.
ghost use Rattle.std.specs.Prelude.{◌≡◌, ℕ, Option, None, Some, IfSome};

use std::rt;
use std::time::{SystemTime, UNIX_EPOCH};

/// Says what time it is, in milliseconds since 1970-01-01T00:00:00Z.
pub trait Clock {
    /// The one moment that it always says, where it tells of one.
    ghost fixed: { Self → Option ℕ };

    fn now(&self) -> u64
        ensures { IfSome (fixed self.now) (λ moment. result ≡ moment) };
}

/// A clock that stands still.
#[derive(Clone, Copy, Debug)]
pub struct MemoryClock {
    pub moment: u64,
}

impl Clock for MemoryClock {
    ghost fixed = { λ c. Some c.moment };

    fn now(&self) -> u64 {
        self.moment
    }
}

/// The host's clock, which tells nothing. It says 0 where the host has no time or one before 1970.
#[derive(Drop)]
pub struct HostClock<R: rt::Clock> {
    runtime: R,
}

impl<R: rt::Clock> HostClock<R> {
    pub fn new(runtime: R) -> HostClock<R>
        ensures { result.runtime ≡ runtime }
    {
        HostClock { runtime }
    }
}

impl<R: rt::Clock> Clock for HostClock<R> {
    ghost fixed = { λ c. None };

    fn now(&self) -> u64 {
        let Ok(time) = SystemTime::now(&self.runtime) else {
            return 0;
        };
        match time.duration_since(UNIX_EPOCH) {
            Ok(since) => u64::try_from(since.as_millis()).unwrap_or(0),
            Err(_) => 0,
        }
    }
}
