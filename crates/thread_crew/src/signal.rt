// SPDX-License-Identifier: MIT OR Apache-2.0
use octets::Memory;
use std::alloc::Global;
use std::sync::atomic::{AtomicU64, Ordering};
use std::sync::{Arc, Wait};

const WAITS: u64 = 0;

const BEGINS: u64 = 1;

const STOPS: u64 = 2;

/// A signal for which threads wait before they begin. The signal is given once, to all waiting
/// threads: either all begin, or all end without having done anything.
#[derive(Drop)]
pub struct Signal {
    word: Arc<AtomicU64, Global>,
}

impl Signal {
    /// A signal that isn't given yet. Returns `Memory` if the allocation fails.
    pub fn new(alloc: Global) -> Result<Signal, Memory> {
        let word = Arc::new(alloc, AtomicU64::new(WAITS))?;
        Ok(Signal { word })
    }

    /// The same signal for another thread. Returns `Memory` if the signal can't be shared.
    pub fn share(&self) -> Result<Signal, Memory> {
        let word = Arc::try_clone(&self.word)?;
        Ok(Signal { word })
    }

    /// Gives the signal to begin: all threads that wait for the signal begin.
    pub fn begin(&self) {
        self.give(BEGINS);
    }

    /// Gives the signal to stop: all threads that wait for the signal end without having done
    /// anything.
    pub fn stop(&self) {
        self.give(STOPS);
    }

    fn give(&self, value: u64) {
        self.word.store(value, Ordering::SeqCst);
        self.word.wake_all();
    }

    /// Waits until the signal is given. Returns whether it was the signal to begin; on `false` the
    /// thread has to end.
    pub fn wait<R: Wait>(&self, rt: &R) -> bool {
        for _ in rt.forever() {
            match self.word.load(Ordering::SeqCst) {
                WAITS => self.word.park(rt, 0),
                given => return given == BEGINS,
            }
        }
        unreachable!()
    }
}
