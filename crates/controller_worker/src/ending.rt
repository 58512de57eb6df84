// SPDX-License-Identifier: MIT OR Apache-2.0
//! Putting the end mark (`Line::End`) into each outbox, after the last frame.
ghost use Rattle.std.specs.Prelude.{◌≡◌, length, OnOk, vec_len};
ghost use Rattle.controller_worker.specs.Advancing.{AdvancesAlone, Ends, Finishes, AdvancesBy};
ghost use Rattle.controller_worker.specs.Advancing.{PutsEnd, IsValid};
ghost use Rattle.controller_worker.specs.Seen.{seen};

use crate::clock::Clock;
use crate::worker::CallWorker;
use link_workers::Pauses;
use octets::Memory;
use ruled_relay::{Line, Putter};
use std::sync::Wait;

impl<K: Clock> CallWorker<K> {
    /// Puts the end mark into each outbox. While an outbox refuses the end mark and the controller
    /// is at rest, passes time on and takes items; no output can result from these steps.
    pub(crate) fn end_meanwhile<R: Wait>(&mut self, rt: &R) -> Result<(), Memory>
        requires valid { IsValid (seen K.told self.old) }
        requires finishes { Finishes (seen K.told self.old) }
        ensures course { AdvancesBy result (seen K.told self.old) (seen K.told self.new) }
        ensures marks { length self.new.marks.items ≡ length self.new.putters.items }
        ensures finishes { OnOk result (Finishes (seen K.told self.new)) }
        ensures ended { OnOk result (self.new.ended ≡ vec_len self.new.putters) }
    {
        let mut pauses = Pauses::new();
        for _ in rt.forever() {
            self.put_ends(rt);
            if self.ended == self.putters.len() {
                return Ok(());
            }
            self.turn_at_rest(rt)?;
            pauses.pause(rt);
        }
        unreachable!()
    }

    // Does a turn if the controller is at rest, as no output can result from the turn then.
    fn turn_at_rest<R: Wait>(&mut self, rt: &R) -> Result<(), Memory>
        requires sources { length self.old.desk ≡ length self.old.putters.items }
        requires marks { length self.old.marks.items ≡ length self.old.putters.items }
        requires finishes { Finishes (seen K.told self.old) }
        ensures sources { length self.new.desk ≡ length self.new.putters.items }
        ensures marks { length self.new.marks.items ≡ length self.new.putters.items }
        ensures course { AdvancesBy result (seen K.told self.old) (seen K.told self.new) }
        ensures finishes { OnOk result (Finishes (seen K.told self.new)) }
    {
        if !self.controller.is_at_rest() {
            return Ok(());
        }
        match self.turn(rt) {
            Ok(_) => Ok(()),
            Err(Memory) => Err(Memory),
        }
    }

    /// Puts the waiting frames and then the end mark into each outbox, without a step of the
    /// controller.
    pub(crate) fn end_alone<R: Wait>(&mut self, rt: &R)
        requires { length self.old.marks.items ≡ length self.old.putters.items }
        ensures course { AdvancesAlone (seen K.told self.old) (seen K.told self.new) }
        ensures ended { self.new.ended ≡ vec_len self.new.putters }
    {
        let mut pauses = Pauses::new();
        for _ in rt.forever() {
            self.put_waiting(rt);
            self.put_ends(rt);
            if self.ended == self.putters.len() {
                return;
            }
            pauses.pause(rt);
        }
        unreachable!()
    }

    // Puts the end mark into the outboxes that have no end mark yet, in order, until an outbox
    // refuses the end mark or frames wait for an outbox.
    fn put_ends<R: Wait>(&mut self, rt: &R)
        requires { length self.old.marks.items ≡ length self.old.putters.items }
        ensures { Ends (seen K.told self.old) (seen K.told self.new) }
    {
        for link in self.ended..self.putters.len() {
            let mark = &self.marks[link];
            if !mark.waiting.is_empty() {
                return;
            }
            if !put_end(rt, &mut self.putters[link]) {
                return;
            }
            self.ended = link + 1;
        }
    }
}

// Puts the end mark into an outbox, and returns whether the outbox took the mark.
fn put_end<R: Wait>(rt: &R, putter: &mut Putter) -> bool
    ensures { PutsEnd putter.old result putter.new }
{
    let put = putter.put(rt, Line::End);
    putter.ring();
    put.is_ok()
}
