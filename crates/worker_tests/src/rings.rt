// SPDX-License-Identifier: MIT OR Apache-2.0
//! A call worker that never sleeps still rings for the frames that it puts.
use crate::bells::is_woken;
use crate::worker::{Link, Text, controller, put_all, put_frames, queues};
use controller_worker::{Clock, call_worker};
use ipa_framing::CCM_STREAM;
use std::alloc::Global;
use std::process::Abort;
use std::sync::Wait;
use std::time::{self, Duration};

/// The frame PING, which is answered by one frame.
const PING: Text<'_> = (CCM_STREAM, &[0x00]);

/// After this many frames the bell has been rung for the first of these frames. The taker then
/// waits once, so that its next wait is for later frames.
const FEW: u32 = 10;

/// After this many frames the bell must have been rung again.
const MANY: u32 = 400;

/// A clock that gives its worker another frame of the station each time it is asked, so that the
/// worker never sleeps. The clock notes whether the bell of the station's outbox is rung.
#[derive(Drop)]
struct Busy<R> {
    rt: R,
    alloc: Global,
    switch: Link,
    station: Link,
    asked: u32,
    is_rung: bool,
}

impl<R: Abort + Wait + time::Clock> Clock for Busy<R> {
    ghost told = { λ busy. 0 };

    fn elapsed(&mut self) -> u32 {
        self.asked = self.asked.saturating_add(1);
        if self.asked == FEW {
            self.station.taker.wait(&self.rt, Duration::from_millis(1));
        }
        if self.asked < MANY {
            put_frames(&self.rt, self.alloc, &mut self.station.pass, &[PING]);
        }
        if self.asked == MANY {
            self.is_rung = is_woken(&self.rt, &self.station.taker);
            put_all(&self.rt, self.alloc, &mut self.station.pass, &[]);
            put_all(&self.rt, self.alloc, &mut self.switch.pass, &[]);
        }
        0
    }
}

#[test]
fn a_busy_worker_rings_before_it_sleeps(rt: HostRuntime) {
    let alloc = rt.alloc();
    let (ends, switch, station) = queues(&rt, alloc, (8, 1024));
    let busy = Busy {
        rt,
        alloc,
        switch,
        station,
        asked: 0,
        is_rung: false,
    };
    let controller = controller(&rt, alloc);
    let relayed = call_worker(
        &rt,
        alloc,
        controller,
        ends.desk,
        ends.putters,
        ends.marks,
        busy,
    );
    assert!(rt; relayed.fault.is_none());
    assert!(rt;
        relayed.clock.is_rung,
        "the bell isn't rung while the worker is busy"
    );
}
