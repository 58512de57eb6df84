// SPDX-License-Identifier: MIT OR Apache-2.0
//! Tries full outboxes again, once a millisecond, for which frames wait.
ghost use Rattle.std.specs.Prelude.{◌≡◌, ◌<◌, length, OnOk};
ghost use Rattle.controller_worker.specs.Advancing.{AdvancesAlone, AdvancesBy, IsSettled, IsValid};
ghost use Rattle.controller_worker.specs.Seen.{seen};

use crate::clock::Clock;
use crate::limits::{TICK_MS, TRIES_A_TURN};
use crate::sending::try_all;
use crate::worker::CallWorker;
use octets::Memory;
use std::sync::Wait;
use std::thread::Parker;
use std::time::Duration;

impl<K: Clock> CallWorker<K> {
    /// Tries the outboxes of waiting frames once a millisecond while there is no item. Returns once
    /// an item was taken, no frame waits, or the outboxes were tried `TRIES_A_TURN` times.
    pub(crate) fn wait_for_room<R: Wait>(&mut self, rt: &R) -> Result<(), Memory>
        requires valid { IsValid (seen K.told self.old) }
        requires settled { IsSettled (seen K.told self.old) }
        requires gathered { self.old.gathered < TICK_MS }
        ensures valid { IsValid (seen K.told self.new) }
        ensures course { AdvancesBy result (seen K.told self.old) (seen K.told self.new) }
        ensures settled { OnOk result (IsSettled (seen K.told self.new)) }
        ensures gathered { OnOk result (self.new.gathered < TICK_MS) }
    {
        self.ring();
        self.has_napped = true;
        let nap = Parker::new();
        for _ in 0..TRIES_A_TURN {
            nap.park_timeout(rt, Duration::from_millis(1));
            self.try_outboxes(rt)?;
            if !self.is_slow {
                return Ok(());
            }
            let was_taken = self.take(rt)?;
            if was_taken {
                return Ok(());
            }
        }
        Ok(())
    }

    /// Tries each outbox for which frames wait if a millisecond has passed since the outboxes were
    /// last tried.
    pub(crate) fn try_if_due<R: Wait>(&mut self, rt: &R) -> Result<(), Memory>
        requires valid { IsValid (seen K.told self.old) }
        requires settled { IsSettled (seen K.told self.old) }
        ensures valid { IsValid (seen K.told self.new) }
        ensures course { AdvancesBy result (seen K.told self.old) (seen K.told self.new) }
        ensures settled { OnOk result (IsSettled (seen K.told self.new)) }
        ensures gathered { self.new.gathered ≡ self.old.gathered }
    {
        if self.is_slow && self.is_due {
            return self.try_outboxes(rt);
        }
        Ok(())
    }

    // Puts waiting frames as long as their outboxes take them. If an outbox is given up by this,
    // does the `Down` of its link as the next step.
    fn try_outboxes<R: Wait>(&mut self, rt: &R) -> Result<(), Memory>
        requires valid { IsValid (seen K.told self.old) }
        ensures valid { IsValid (seen K.told self.new) }
        ensures course { AdvancesBy result (seen K.told self.old) (seen K.told self.new) }
        ensures settled { OnOk result (IsSettled (seen K.told self.new)) }
        ensures gathered { self.new.gathered ≡ self.old.gathered }
    {
        self.put_waiting(rt);
        self.add_downs(rt)
    }

    /// Puts waiting frames as long as their outboxes take them, without a step of the controller.
    pub(crate) fn put_waiting<R: Wait>(&mut self, rt: &R)
        requires { length self.old.marks.items ≡ length self.old.putters.items }
        ensures course { AdvancesAlone (seen K.told self.old) (seen K.told self.new) }
        ensures same { seen K.told self.new ≡ record (seen K.told self.old) {
          putters = self.new.putters.items;
          marks = self.new.marks.items;
        } }
        ensures count { length self.new.putters.items ≡ length self.old.putters.items }
        ensures marks { length self.new.marks.items ≡ length self.old.marks.items }
    {
        self.is_slow = try_all(rt, &mut self.putters, &mut self.marks);
    }
}
