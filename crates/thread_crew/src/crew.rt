// SPDX-License-Identifier: MIT OR Apache-2.0
ghost use Rattle.std.specs.Prelude.{◌≡◌, [], ◌∷◌, ◌++◌, IfOk, IfSome, MatchResult};
ghost use Rattle.std.specs.Prelude.{OnOk, OnErr};
ghost use Rattle.std.specs.List.{All};
ghost use Rattle.thread_crew.specs.CrewDone.{AllDone, BeginsWith};

use crate::promise::WorkOf;
use crate::signal::Signal;
use crate::worker::Worker;
use octets::Memory;
use std::alloc::Global;
use std::marker::Model;
use std::snapshot::Snapshot;
use std::sync::atomic::{AtomicU64, Ordering};
use std::sync::{Arc, Wait};
use std::thread;
use std::thread::{PromisedHandle, Threads};

/// Threads that were started. Each thread has a worker, which begins its work at a signal.
/// Contracts see the workers in the order in which their threads were started.
#[derive(Drop)]
pub struct Crew<W: Worker> {
    threads: Vec<PromisedHandle<Option<W::Done>, WorkOf<W>>>,
    /// Room for the results of the workers, reserved when a thread is started; empty until
    /// `join_all`.
    done: Vec<W::Done>,
    /// The number of threads that have ended or are about to end.
    ended: Arc<AtomicU64, Global>,
}

impl<W: Worker> Model for Crew<W> {
    ghost use Rattle.std.specs.Prelude.{◌≡◌, ◌≤◌, List, [], map, vec_len, vec_capacity};

    ghost Value = { List W };

    ghost view = { λ c. map (λ t. t.promise.worker.value) c.threads.items };

    ghost invariant = { λ c. (c.done.items ≡ []) × (vec_len c.threads ≤ vec_capacity c.done) };
}

impl<W: Worker> Crew<W> {
    /// A crew without threads, with room for `size` threads. Returns `Memory` if an allocation
    /// fails.
    pub fn new(alloc: Global, size: usize) -> Result<Crew<W>, Memory>
        ensures { IfOk result (λ c. c ≡ []) }
    {
        let threads = Vec::with_capacity(alloc, size)?;
        let done = Vec::with_capacity(alloc, size)?;
        let ended = Arc::new(alloc, AtomicU64::new(0))?;
        Ok(Crew {
            threads,
            done,
            ended,
        })
    }

    /// Whether all threads have ended or are about to end; `true` if the crew has no threads.
    pub fn have_ended(&self) -> bool {
        match usize::try_from(self.ended.load(Ordering::SeqCst)) {
            Ok(ended) => ended >= self.threads.len(),
            Err(_) => true,
        }
    }

    /// Waits until all threads have ended, and returns the results of the workers in the order in
    /// which the threads were started. If any worker never began, drops the results of the other
    /// workers and returns `None`.
    pub fn join_all<R: Threads>(self, rt: &R) -> Option<Vec<W::Done>>
        ensures { IfSome result (λ done. AllDone W.does self done.items) }
    {
        let Crew {
            threads,
            mut done,
            ended: _,
        } = self;
        let mut all_began = true;
        for thread in threads {
            match thread.join(rt) {
                Some(given) => done.push_reserved(given),
                None => all_began = false,
            }
        }
        if all_began { Some(done) } else { None }
    }
}

impl<W: Worker + Send + 'static> Crew<W> {
    /// Starts one more thread; `worker` begins on it once `signal` is given. If an allocation fails
    /// or no thread can be started, returns `Memory` and leaves the crew's workers as they were.
    pub fn start<R: Threads + Wait + Copy + Send + 'static>(
        &mut self,
        rt: R,
        signal: &Signal,
        worker: W,
    ) -> Result<(), Memory>
    where
        W::Done: Send + 'static,
        requires { W.can_work worker }
        ensures ok { OnOk result (self.new ≡ self.old ++ worker ∷ []) }
        ensures err { OnErr result (self.new ≡ self.old) }
    {
        self.threads.reserve(1)?;
        self.done.reserve(self.threads.len().saturating_add(1))?;
        let signal = signal.share()?;
        let ended = Arc::try_clone(&self.ended)?;
        let promise = WorkOf {
            worker: Snapshot::of(&worker),
        };
        let body = move || -> Option<W::Done>
            requires { W.can_work worker }
            ensures { IfSome result (W.does worker) }
        { work_at(&rt, &signal, &ended, worker) };
        match thread::spawn_with(&rt, promise, body) {
            Ok(thread) => {
                self.threads.push_reserved(thread);
                Ok(())
            }
            Err(_) => Err(Memory),
        }
    }

    /// Starts a thread for each of `workers`, in order. If the thread of one worker can't be
    /// started, returns `Memory`; the workers before that one remain in the crew, and the later
    /// ones aren't started.
    pub fn start_all<R: Threads + Wait + Copy + Send + 'static>(
        &mut self,
        rt: R,
        signal: &Signal,
        workers: Vec<W>,
    ) -> Result<(), Memory>
    where
        W::Done: Send + 'static,
        requires { All W.can_work workers.items }
        ensures { MatchResult result
            (λ _. self.new ≡ self.old ++ workers.items)
            (λ _. BeginsWith self.old self.new workers.items) }
    {
        for worker in workers {
            self.start(rt, signal, worker)?;
        }
        Ok(())
    }
}

/// Waits for the signal. At the signal to begin, does the work and returns its result; at the
/// signal to stop, returns `None`. Then counts the thread as ended.
fn work_at<W: Worker, R: Wait>(
    rt: &R,
    signal: &Signal,
    ended: &AtomicU64,
    worker: W,
) -> Option<W::Done>
    requires { W.can_work worker }
    ensures { IfSome result (W.does worker) }
{
    let done = if signal.wait(rt) {
        Some(worker.work(rt))
    } else {
        None
    };
    ended.fetch_add(1, Ordering::SeqCst);
    done
}
