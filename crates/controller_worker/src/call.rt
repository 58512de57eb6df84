// SPDX-License-Identifier: MIT OR Apache-2.0
ghost use Rattle.std.specs.Prelude.{◌≡◌, ◌<◌, ◌↔◌, length, IsTrue, OnOk, replicate};
ghost use Rattle.std.specs.Prelude.{vec_len};
ghost use Rattle.controller_worker.specs.Call.{AreNew, AreUnmarked, IsMemory, Runs, relayed_parts};
ghost use Rattle.controller_worker.specs.Advancing.{AreAllDown, Finishes, AdvancesBy, IsSettled};
ghost use Rattle.controller_worker.specs.Advancing.{IsValid, unmarked};
ghost use Rattle.controller_worker.specs.Seen.{seen};

use crate::clock::Clock;
use crate::limits::TICK_MS;
use crate::mark::Marks;
use crate::worker::CallWorker;
use conn_messages::Outputs;
use controller::Controller;
use link_workers::IoFault;
use octets::Memory;
use ruled_relay::{Desk, Putter};
use std::alloc::Global;
use std::sync::Wait;
use std::time::Duration;

/// The parts of a call worker that has ended. If the worker ended before all links had ended,
/// `fault` says why.
#[derive(Drop)]
pub struct HasRelayed<K> {
    pub controller: Controller,
    pub desk: Desk,
    pub putters: Vec<Putter>,
    pub clock: K,
    pub fault: Option<IoFault>,
}

/// Relays until each link has ended. Takes the items of all links and the time that the clock
/// tells, does the controller's steps, and puts the outputs into the outboxes of their links.
/// `putters` are the outboxes, the switch's first; they must be new, and `desk` and `marks` must
/// have as many links as there are outboxes. The worker ends once a `Down` of each link was taken
/// and no frame waits. It ends with the fault `Memory`, the only fault, if memory runs out at a
/// step that may need memory. In both cases, it puts `End` into each outbox at last. A frame that
/// its codec refuses doesn't end the worker.
///
/// If a full outbox refuses a frame, this frame and the following frames of the link wait in a list
/// of at most 1,024 frames. The worker tries the outbox again once a millisecond and serves the
/// other links meanwhile. No item is taken from a link whose list is full. If a step puts a frame
/// for a link whose list is full, the worker waits until the list has room.
///
/// An outbox that refused frames 1,000 times in a row is given up: after that, only `End` is put
/// into the outbox. The next step is then the `Down` of its link, which is added once for each
/// link.
pub fn call_worker<R: Wait, K: Clock + Drop>(
    rt: &R,
    alloc: Global,
    controller: Controller,
    desk: Desk,
    putters: Vec<Putter>,
    marks: Marks,
    clock: K,
) -> HasRelayed<K>
    requires new { AreNew putters.items }
    requires sources { length desk ≡ vec_len putters }
    requires marks { AreUnmarked (vec_len putters) marks }
    ensures runs { Runs result.fault
        (record {
          controller = controller;
          desk = desk;
          putters = putters.items;
          told = K.told clock;
        })
        (relayed_parts K.told result) }
    ensures fault { IsMemory result.fault }
{
    let mut worker = CallWorker {
        controller,
        outputs: Outputs::new(alloc),
        desk,
        putters,
        marks: marks.of_links,
        ended: 0,
        clock,
        gathered: 0,
        unrung: 0,
        has_slept: true,
        is_slow: false,
        is_due: false,
        has_napped: false,
        turn: 0,
    };
    let fault = match worker.relay(rt) {
        Ok(()) => None,
        Err(Memory) => {
            worker.end_alone(rt);
            Some(IoFault::Memory)
        }
    };
    HasRelayed {
        controller: worker.controller,
        desk: worker.desk,
        putters: worker.putters,
        clock: worker.clock,
        fault,
    }
}

impl<K: Clock> CallWorker<K> {
    fn relay<R: Wait>(&mut self, rt: &R) -> Result<(), Memory>
        requires new { AreNew self.old.putters.items }
        requires sources { length self.old.desk ≡ vec_len self.old.putters }
        requires start { (self.old.marks.items ≡ replicate (vec_len self.old.putters) unmarked)
            × (self.old.ended ≡ 0) × (self.old.gathered ≡ 0) }
        ensures course { AdvancesBy result (seen K.told self.old) (seen K.told self.new) }
        ensures marks { length self.new.marks.items ≡ length self.new.putters.items }
        ensures finishes { OnOk result (Finishes (seen K.told self.new)) }
        ensures ended { OnOk result (self.new.ended ≡ vec_len self.new.putters) }
    {
        self.take_all(rt)?;
        self.end_meanwhile(rt)
    }

    // Takes items until a `Down` of each link was taken and no frame waits.
    fn take_all<R: Wait>(&mut self, rt: &R) -> Result<(), Memory>
        requires valid { IsValid (seen K.told self.old) }
        requires settled { IsSettled (seen K.told self.old) }
        requires gathered { self.old.gathered < TICK_MS }
        ensures valid { IsValid (seen K.told self.new) }
        ensures course { AdvancesBy result (seen K.told self.old) (seen K.told self.new) }
        ensures finishes { OnOk result (Finishes (seen K.told self.new)) }
    {
        for _ in rt.forever() {
            if !self.is_slow && self.are_all_down() {
                return Ok(());
            }
            if !self.turn(rt)? {
                self.rest(rt)?;
            }
        }
        unreachable!()
    }

    fn are_all_down(&self) -> bool
        requires { IsValid (seen K.told self.now) }
        ensures { IsTrue result ↔ AreAllDown (seen K.told self.now) }
    {
        for mark in &self.marks {
            if !mark.down {
                return false;
            }
        }
        true
    }

    // If no frame waits, sleeps until an item is there or a tick is due. If frames wait, tries
    // their outboxes instead.
    fn rest<R: Wait>(&mut self, rt: &R) -> Result<(), Memory>
        requires valid { IsValid (seen K.told self.old) }
        requires settled { IsSettled (seen K.told self.old) }
        requires gathered { self.old.gathered < TICK_MS }
        ensures valid { IsValid (seen K.told self.new) }
        ensures course { AdvancesBy result (seen K.told self.old) (seen K.told self.new) }
        ensures settled { OnOk result (IsSettled (seen K.told self.new)) }
        ensures gathered { OnOk result (self.new.gathered < TICK_MS) }
    {
        if self.is_slow {
            return self.wait_for_room(rt);
        }
        self.sleep(rt);
        Ok(())
    }

    // Sleeps until an item is there or a tick is due.
    fn sleep<R: Wait>(&mut self, rt: &R)
        requires { self.old.gathered < TICK_MS }
        ensures { seen K.told self.new ≡ seen K.told self.old }
    {
        self.ring();
        self.desk
            .wait(rt, Duration::from_millis(TICK_MS - self.gathered));
        self.has_slept = true;
    }
}
