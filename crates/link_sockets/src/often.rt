// SPDX-License-Identifier: MIT OR Apache-2.0
// Limits the log of frequent events to one line a second.

/// The time after a line in which no other line is logged, in milliseconds.
const SILENCE: u64 = 1000;

/// When an event was last logged, and how often the event has occurred since then.
#[derive(Clone, Copy)]
pub(crate) struct Often {
    /// The time of the last line, in milliseconds since the relay began.
    logged: Option<u64>,
    count: u32,
}

impl Often {
    /// The state before the event first occurs.
    pub(crate) fn new() -> Often {
        Often {
            logged: None,
            count: 0,
        }
    }

    /// Counts an occurrence at `now`, in milliseconds since the relay began. If a line is to be
    /// logged, returns the number of occurrences since the last line, including this one.
    pub(crate) fn come(&mut self, now: u64) -> Option<u32> {
        self.count = self.count.saturating_add(1);
        if self.is_silent(now) {
            return None;
        }
        let count = self.count;
        self.logged = Some(now);
        self.count = 0;
        Some(count)
    }

    /// Whether less than a second passed since the last line.
    fn is_silent(&self, now: u64) -> bool {
        match self.logged {
            Some(logged) => now.saturating_sub(logged) < SILENCE,
            None => false,
        }
    }
}
