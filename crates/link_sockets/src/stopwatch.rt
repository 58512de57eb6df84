// SPDX-License-Identifier: MIT OR Apache-2.0
ghost use Rattle.std.specs.Prelude.{◌≡◌, ◌+◌};
ghost use Rattle.std.specs.Time.{FitsClock, instant_nanos};
ghost use Rattle.link_sockets.specs.Telling.{Tells, millis_to_tell};

use std::time::{Clock, Duration, Instant};

/// A clock that answers the milliseconds since its last answer, by the system's monotonic clock.
/// The sub-millisecond remainder is carried over to the next answer. If the system gives no time,
/// the answer is 0. The answers count from the first time that the system gives.
#[derive(Drop)]
pub struct Stopwatch<R> {
    rt: R,
    // The time up to which the answers count.
    last: Option<Instant>,
    // The sum of all answers, in milliseconds.
    told: u64,
}

impl<R: Clock> Stopwatch<R> {
    /// A clock whose answers count from now.
    pub fn new(rt: R) -> Stopwatch<R> {
        let last = Instant::now(&rt).ok();
        Stopwatch { rt, last, told: 0 }
    }

    // Returns the whole milliseconds from `last` to this reading of the clock. The answer saturates
    // at 32 bits, and so that the sum of all answers fits 64 bits.
    fn tell(&mut self, now: Instant) -> u32
        requires { FitsClock (instant_nanos now) }
        ensures tells { Tells self.old.told self.old.last now result self.new.last }
        ensures told { self.new.told ≡ self.old.told + result }
    {
        let Some(last) = self.last else {
            self.last = Some(now);
            return 0;
        };
        let passed = millis_to_tell(self.told, last, now);
        self.told += u64::from(passed);
        let step = Duration::from_millis(u64::from(passed));
        self.last = Some(last.checked_add(step).unwrap_or(last));
        passed
    }
}

// The whole milliseconds from the reading `last` to the reading `now`. They saturate at 32 bits,
// and so that the sum of all answers fits 64 bits; `told` is the sum of the earlier answers.
fn millis_to_tell(told: u64, last: Instant, now: Instant) -> u32
    ensures { result ≡ millis_to_tell told (instant_nanos last) (instant_nanos now) }
{
    let passed = now.duration_since(last).as_millis();
    let most = u64::from(u32::MAX).min(u64::MAX - told);
    passed.min(u128::from(most)) as u32
}

impl<R: Clock> controller_worker::Clock for Stopwatch<R> {
    ghost told = { λ s. s.told };

    fn elapsed(&mut self) -> u32 {
        match Instant::now(&self.rt) {
            Ok(now) => self.tell(now),
            Err(_) => 0,
        }
    }
}
