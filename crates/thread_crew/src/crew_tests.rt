// SPDX-License-Identifier: MIT OR Apache-2.0
//! Tests of `Crew::have_ended`. A call worker that ran out of memory needs this answer: it empties
//! its queues until the crew has ended, so that no reader waits for room.
use crate::crew::Crew;
use crate::signal::Signal;
use crate::worker::Worker;
use std::sync::Wait;
use std::test::Fail;
use std::thread;
use std::time::Duration;

/// How often the test asks at most whether the crew has ended, with a pause of 1 ms after each
/// question.
const LOOKS: u32 = 10_000;

/// A worker that gives the signal `begun` when it begins, and works until `goes_on` is given.
#[derive(Drop)]
struct Waiting {
    begun: Signal,
    goes_on: Signal,
}

impl Worker for Waiting {
    type Done = bool;

    ghost can_work = { λ _. Unit {0} };

    ghost does = { λ _ _. Unit {0} };

    fn work<R: Wait>(self, rt: &R) -> bool {
        self.begun.begin();
        self.goes_on.wait(rt)
    }
}

/// `have_ended` is `false` while a worker works, and `true` after its work.
#[test]
fn a_crew_has_ended_behind_its_work(rt: HostRuntime) -> Result<(), Fail> {
    let alloc = rt.alloc();
    let (signal, begun, goes_on) = (
        Signal::new(alloc)?,
        Signal::new(alloc)?,
        Signal::new(alloc)?,
    );
    let worker = Waiting {
        begun: begun.share()?,
        goes_on: goes_on.share()?,
    };
    let mut crew = Crew::new(alloc, 1)?;
    crew.start(rt, &signal, worker)?;
    signal.begin();
    let works = begun.wait(&rt) && !crew.have_ended();
    goes_on.begin();
    for _ in 0..LOOKS {
        if crew.have_ended() {
            break;
        }
        thread::sleep(&rt, Duration::from_millis(1));
    }
    let ended = crew.have_ended();
    assert!(rt; works, "the crew has ended before its work");
    assert!(rt; ended, "the crew hasn't ended behind its work");
    assert!(rt; crew.join_all(&rt).is_some(), "the worker never began");
    Ok(())
}
