// SPDX-License-Identifier: MIT OR Apache-2.0
//! A bounded wait for something that may never end.
use std::alloc::{AllocError, Global};
use std::fmt::Debug;
use std::process::Abort;
use std::sync::Arc;
use std::sync::atomic::{AtomicU64, Ordering};
use std::thread::{self, JoinHandle, Threads};
use std::time::{Clock, Duration};

/// How many times, a millisecond apart, a wait for an end looks at most. All looks together take
/// less than the time limit of a test.
const LOOKS: u32 = 30_000;

/// A thread that fails the test, and names the case, if the case doesn't end in time.
#[derive(Drop)]
pub(crate) struct Deadline {
    ended: Arc<AtomicU64, Global>,
    thread: JoinHandle<()>,
}

impl Deadline {
    /// Starts the time within which this case must end.
    pub fn new<R, C>(rt: R, alloc: Global, case: C) -> Result<Deadline, AllocError>
    where
        R: Abort + Clock + Threads + Copy + Drop + Send + 'static,
        C: Debug + Drop + Send + 'static,
    {
        let ended = Arc::new(alloc, AtomicU64::new(0))?;
        let seen = Arc::try_clone(&ended)?;
        let thread = thread::spawn(&rt, move || await_end(&rt, &seen, &case))?;
        Ok(Deadline { ended, thread })
    }

    /// Notes that the case has ended.
    pub fn meet<R: Threads>(self, rt: &R) {
        self.ended.store(1, Ordering::SeqCst);
        self.thread.join(rt);
    }
}

/// Waits until the case has ended. After `LOOKS` looks the test fails.
fn await_end<R: Abort + Clock, C: Debug>(rt: &R, ended: &AtomicU64, case: &C) {
    for _ in 0..LOOKS {
        if ended.load(Ordering::SeqCst) > 0 {
            return;
        }
        thread::sleep(rt, Duration::from_millis(1));
    }
    panic!(rt; "no end: {case:?}")
}
