// SPDX-License-Identifier: MIT OR Apache-2.0
//! A bounded wait for a count that another thread keeps.
use std::sync::atomic::{AtomicU64, Ordering};
use std::thread;
use std::time::{Clock, Duration};

/// Waits until a count exceeds `many`. Returns whether the count does so at one of `looks` looks,
/// which are a millisecond apart. If it doesn't, something that should be counted is missing.
pub(crate) fn is_over<R: Clock>(rt: &R, count: &AtomicU64, many: u64, looks: u32) -> bool {
    for _ in 0..looks {
        if count.load(Ordering::SeqCst) > many {
            return true;
        }
        thread::sleep(rt, Duration::from_millis(1));
    }
    false
}
