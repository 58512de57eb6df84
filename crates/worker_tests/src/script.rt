// SPDX-License-Identifier: MIT OR Apache-2.0
use controller_worker::Clock;
use std::alloc::Global;
use std::process::Abort;
use std::sync::Arc;
use std::sync::atomic::{AtomicU64, Ordering};

/// How often a clock was asked. The count exceeds `ENDED` once the clock's worker has ended.
pub(crate) type Asked = Arc<AtomicU64, Global>;

/// A count that no clock reaches by being asked.
pub(crate) const ENDED: u64 = 1 << 32;

/// A clock that answers 0 except once, and counts how often it was asked.
#[derive(Drop)]
pub(crate) struct Script {
    asked: Asked,
    /// How often the clock answers 0 before it answers `ms`, which is in milliseconds.
    before: u64,
    ms: u32,
    told: u64,
}

impl Script {
    /// A clock that answers 0 `before` times and then `ms` once, and the count of how often the
    /// clock was asked.
    pub fn counted<R: Abort>(rt: &R, alloc: Global, before: u64, ms: u32) -> (Script, Asked) {
        let counts = Arc::new(alloc, AtomicU64::new(0)).expect(rt, "a count");
        let asked = Arc::try_clone(&counts).expect(rt, "a share of it");
        let told = 0;
        let clock = Script {
            asked: counts,
            before,
            ms,
            told,
        };
        (clock, asked)
    }

    /// Notes that the worker that asked this clock has ended.
    pub fn end(&self) {
        self.asked.fetch_add(ENDED + 1, Ordering::SeqCst);
    }
}

impl Clock for Script {
    ghost told = { λ s. s.told };

    fn elapsed(&mut self) -> u32 {
        let asked = self.asked.fetch_add(1, Ordering::SeqCst);
        let answer = if asked == self.before { self.ms } else { 0 };
        let Some(told) = self.told.checked_add(u64::from(answer)) else {
            return 0;
        };
        self.told = told;
        answer
    }
}
