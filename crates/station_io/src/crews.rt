// SPDX-License-Identifier: MIT OR Apache-2.0
//! The threads of the relay. All threads are started before the first begins its work; if a thread
//! can't be started, no thread begins.
ghost use Rattle.std.specs.Prelude.{◌≡◌, [], ◌++◌, IfOk, IfSome, None, OnOk};
ghost use Rattle.station_io.specs.Done.{AreRead, AreWritten, IsCalled};
ghost use Rattle.station_io.specs.Work.{MayCall};

use crate::work::{Calling, HasCalled, Reading, Writing};
use controller_worker::Clock;
use link_workers::{Gate, HasRead, HasWritten, LinkReader};
use octets::Memory;
use ruled_relay::Desk;
use std::alloc::Global;
use std::io::Write;
use std::sync::Wait;
use std::thread::Threads;
use std::time::Duration;
use thread_crew::{Crew, Signal, Worker};

/// The longest wait at the desk, in ms, while items are discarded until the readers have ended.
const LONGEST_WAIT: u64 = 10;

/// The works of all threads of the relay.
#[derive(Drop)]
pub(crate) struct Works<I, O, G, K> {
    pub readings: Vec<Reading<I, G>>,
    pub writings: Vec<Writing<O>>,
    pub calling: Calling<K>,
}

/// The results of all threads of the relay.
#[derive(Drop)]
pub(crate) struct WorksDone<I, O, G> {
    pub read: Vec<HasRead<I, G>>,
    pub written: Vec<HasWritten<O>>,
    pub called: HasCalled,
}

/// The threads of the relay, and the signal on which they wait to begin.
#[derive(Drop)]
pub(crate) struct Crews<I: LinkReader + Drop, O: Write + Drop, G: Gate + Drop> {
    signal: Signal,
    readers: Crew<Reading<I, G>>,
    writers: Crew<Writing<O>>,
}

impl<
    I: LinkReader + Drop + Send + 'static,
    O: Write + Drop + Send + 'static,
    G: Gate + Drop + Send + 'static,
> Crews<I, O, G> {
    /// No threads, and room for the threads of `links` links. Fails only if memory runs out.
    pub(crate) fn new(alloc: Global, links: usize) -> Result<Crews<I, O, G>, Memory>
        ensures { IfOk result (λ c. (c.readers ≡ []) × (c.writers ≡ [])) }
    {
        Ok(Crews {
            signal: Signal::new(alloc)?,
            readers: Crew::new(alloc, links)?,
            writers: Crew::new(alloc, links)?,
        })
    }

    /// Starts a thread for each work. `Err(Memory)` if a thread can't be started; other threads may
    /// have been started before.
    fn start<R: Threads + Wait + Copy + Send + 'static>(
        &mut self,
        rt: R,
        readings: Vec<Reading<I, G>>,
        writings: Vec<Writing<O>>,
    ) -> Result<(), Memory>
        ensures readers { OnOk result (self.new.readers ≡ self.old.readers ++ readings.items) }
        ensures writers { OnOk result (self.new.writers ≡ self.old.writers ++ writings.items) }
    {
        self.writers.start_all(rt, &self.signal, writings)?;
        self.readers.start_all(rt, &self.signal, readings)
    }

    /// Waits until all threads have ended. `None` if a thread never began, or if the call worker
    /// ended with a fault.
    fn join<R: Threads + Wait>(self, rt: &R, called: HasCalled) -> Option<WorksDone<I, O, G>>
        ensures read { IfSome result
            (λ d. AreRead I.remaining G.refused self.readers d.read.items) }
        ensures written { IfSome result (λ d. AreWritten O.contents self.writers d.written.items) }
        ensures called { IfSome result (λ d. (d.called ≡ called) × (called.fault ≡ None)) }
    {
        let Crews {
            signal: _,
            readers,
            writers,
        } = self;
        let called = without_fault(rt, called, &readers);
        let read = readers.join_all(rt);
        let written = writers.join_all(rt);
        match (read, written, called) {
            (Some(read), Some(written), Some(called)) => Some(WorksDone {
                read,
                written,
                called,
            }),
            _ => None,
        }
    }

    /// Waits until all threads have ended. Before the call, the threads were asked to stop.
    fn end<R: Threads>(self, rt: &R) {
        let Crews {
            signal: _,
            readers,
            writers,
        } = self;
        let _ = readers.join_all(rt);
        let _ = writers.join_all(rt);
    }
}

/// `called`, the result of the call worker, if it has no fault; else `None`. After a fault, the
/// items that readers still put are taken from the desk and discarded until the readers have ended.
fn without_fault<I: LinkReader + Drop, G: Gate + Drop, R: Wait>(
    rt: &R,
    called: HasCalled,
    readers: &Crew<Reading<I, G>>,
) -> Option<HasCalled>
    ensures { IfSome result (λ d. (d ≡ called) × (called.fault ≡ None)) }
{
    match called.fault {
        None => Some(called),
        Some(_) => {
            drain(rt, called.desk, readers);
            None
        }
    }
}

/// Takes items from `desk` and discards these items until the readers have ended.
fn drain<I: LinkReader + Drop, G: Gate + Drop, R: Wait>(
    rt: &R,
    mut desk: Desk,
    readers: &Crew<Reading<I, G>>,
) {
    for _ in rt.forever() {
        if readers.have_ended() {
            break;
        }
        if desk.take(rt).is_none() {
            desk.wait(rt, Duration::from_millis(LONGEST_WAIT));
        }
    }
}

/// Does all works at once: each work of a link in a thread of its own, the work of the call worker
/// in the calling thread. `Err(Memory)` if a thread can't be started, and no thread begins then, or
/// if the call worker runs out of memory. Assumes: `crews` has no threads yet, and the call worker
/// may begin (`MayCall`).
pub(crate) fn run<
    I: LinkReader + Drop + Send + 'static,
    O: Write + Drop + Send + 'static,
    G: Gate + Drop + Send + 'static,
    K: Clock + Drop,
    R: Threads + Wait + Copy + Send + 'static,
>(rt: R, mut crews: Crews<I, O, G>, works: Works<I, O, G, K>) -> Result<WorksDone<I, O, G>, Memory>
    requires crews { (crews.readers ≡ []) × (crews.writers ≡ []) }
    requires calling { MayCall works.calling }
    ensures read { IfOk result
        (λ d. AreRead I.remaining G.refused works.readings.items d.read.items) }
    ensures written { IfOk result
        (λ d. AreWritten O.contents works.writings.items d.written.items) }
    ensures called { IfOk result (λ d. IsCalled works.calling d.called) }
{
    let Works {
        readings,
        writings,
        calling,
    } = works;
    match crews.start(rt, readings, writings) {
        Ok(()) => {
            crews.signal.begin();
            let called = calling.work(&rt);
            match crews.join(&rt, called) {
                Some(done) => Ok(done),
                None => Err(Memory),
            }
        }
        Err(Memory) => {
            crews.signal.stop();
            crews.end(&rt);
            Err(Memory)
        }
    }
}
