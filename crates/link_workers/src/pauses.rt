// SPDX-License-Identifier: MIT OR Apache-2.0
use std::sync::Wait;
use std::thread::{self, Parker};
use std::time::Duration;

/// The number of pauses that only yield.
const YIELDS: u32 = 2;

/// The length of each later pause in milliseconds.
const NAP: u64 = 1;

/// The pauses between the tries of a waiting thread: first a few yields, then naps of a
/// millisecond.
#[derive(Drop)]
pub struct Pauses {
    parker: Parker,
    made: u32,
}

impl Pauses {
    /// The pauses of a thread that begins to wait: no pause was made yet.
    pub fn new() -> Pauses {
        Pauses {
            parker: Parker::new(),
            made: 0,
        }
    }

    /// Pauses the thread so that other threads can run.
    pub fn pause<R: Wait>(&mut self, rt: &R) {
        if self.made < YIELDS {
            self.made += 1;
            thread::yield_now();
        } else {
            self.parker.park_timeout(rt, Duration::from_millis(NAP));
        }
    }
}
