// SPDX-License-Identifier: MIT OR Apache-2.0
//! Does the controller's steps: an item that was taken, time that has gathered, or the `Down` of a
//! link whose outbox was given up.
ghost use Rattle.std.specs.Prelude.{◌≡◌, ℕ, ◌+◌, ◌<◌, ◌≤◌, ◌^◌, ◌↔◌, List, [], length, min};
ghost use Rattle.std.specs.Prelude.{IsTrue, MatchOption, false};
ghost use Rattle.std.specs.Prelude.{IfErr, IfOk, OnOk, OnErr, vec_len};
ghost use Rattle.controller.specs.Wanting.{MayWantMemory};
ghost use Rattle.controller_worker.specs.Advancing.{DoesStep, Advances, AdvancesBy, IsPending};
ghost use Rattle.controller_worker.specs.Advancing.{IsSettled};
ghost use Rattle.controller_worker.specs.Advancing.{SendsAll, RemainOpen, IsValid, noted, pends};
ghost use Rattle.controller_worker.specs.Advancing.{with_added};
ghost use Rattle.controller_worker.specs.Seen.{seen};
ghost use Rattle.ruled_relay.specs.declared.item.What.TheVariants as whats;

use crate::clock::Clock;
use crate::limits::{STEPS_A_RING, TICK_MS};
use crate::mark::Mark;
use crate::sending::{is_given_up, ring_all, send_all, tell_given_up};
use crate::taking::next_item;
use crate::worker::CallWorker;
use controller_model::Step;
use octets::Memory;
use ruled_relay::{Item, Putter, What};
use std::sync::Wait;

impl<K: Clock> CallWorker<K> {
    /// Asks the clock, passes the gathered time on if it is at least `TICK_MS`, tries the full
    /// outboxes if a millisecond has passed since the last try, and takes an item if there is one.
    /// Returns whether an item was taken.
    pub(crate) fn turn<R: Wait>(&mut self, rt: &R) -> Result<bool, Memory>
        requires valid { IsValid (seen K.told self.old) }
        requires settled { IsSettled (seen K.told self.old) }
        requires gathered { self.old.gathered < TICK_MS }
        ensures valid { IsValid (seen K.told self.new) }
        ensures course { AdvancesBy result (seen K.told self.old) (seen K.told self.new) }
        ensures settled { OnOk result (IsSettled (seen K.told self.new)) }
        ensures gathered { OnOk result (self.new.gathered < TICK_MS) }
    {
        self.pass_time(rt)?;
        self.try_if_due(rt)?;
        self.take(rt)
    }

    // Asks the clock, and passes the gathered time on if it is at least `TICK_MS`. Passes it on in
    // two ticks if it exceeds the largest `u32` by `TICK_MS` or more.
    fn pass_time<R: Wait>(&mut self, rt: &R) -> Result<(), Memory>
        requires valid { IsValid (seen K.told self.old) }
        requires settled { IsSettled (seen K.told self.old) }
        requires gathered { self.old.gathered < TICK_MS }
        ensures valid { IsValid (seen K.told self.new) }
        ensures course { AdvancesBy result (seen K.told self.old) (seen K.told self.new) }
        ensures settled { OnOk result (IsSettled (seen K.told self.new)) }
        ensures gathered { OnOk result (self.new.gathered < TICK_MS) }
    {
        self.ask_clock();
        if self.gathered < TICK_MS {
            return Ok(());
        }
        self.tick(rt)?;
        if self.gathered >= TICK_MS {
            self.tick(rt)?;
        }
        Ok(())
    }

    fn ask_clock(&mut self)
        requires { self.old.gathered < TICK_MS }
        ensures course { Advances [] (seen K.told self.old) (seen K.told self.new) }
        ensures same { seen K.told self.new ≡ record (seen K.told self.old) {
          told = K.told self.new.clock;
          gathered = self.new.gathered;
        } }
        ensures gathered { self.new.gathered < TICK_MS + 2 ^ 32 }
        ensures napped { self.new.has_napped ≡ false }
    {
        let ms = self.clock.elapsed();
        self.gathered += u64::from(ms);
        self.is_due = ms > 0 && !self.has_napped;
        self.has_napped = false;
    }

    // Passes the gathered time on in one tick, as far as the time fits into a `u32`.
    fn tick<R: Wait>(&mut self, rt: &R) -> Result<(), Memory>
        requires valid { IsValid (seen K.told self.old) }
        requires settled { IsSettled (seen K.told self.old) }
        requires due { TICK_MS ≤ self.old.gathered }
        ensures valid { IsValid (seen K.told self.new) }
        ensures course { AdvancesBy result (seen K.told self.old) (seen K.told self.new) }
        ensures settled { OnOk result (IsSettled (seen K.told self.new)) }
        ensures gathered { OnOk result
            (self.new.gathered + min self.old.gathered 4294967295 ≡ self.old.gathered) }
    {
        let ms = largest_tick(self.gathered);
        self.do_step(rt, Step::Tick(ms))?;
        self.gathered -= u64::from(ms);
        self.add_downs(rt)
    }

    /// Takes an item, if there is one that may be taken, and does its step. Returns whether an item
    /// was taken.
    pub(crate) fn take<R: Wait>(&mut self, rt: &R) -> Result<bool, Memory>
        requires valid { IsValid (seen K.told self.old) }
        requires settled { IsSettled (seen K.told self.old) }
        ensures valid { IsValid (seen K.told self.new) }
        ensures course { AdvancesBy result (seen K.told self.old) (seen K.told self.new) }
        ensures settled { OnOk result (IsSettled (seen K.told self.new)) }
        ensures gathered { self.new.gathered ≡ self.old.gathered }
    {
        let marks = self.marks.as_slice();
        let Some(item) = next_item(rt, &mut self.desk, marks, self.is_slow, self.turn) else {
            return Ok(false);
        };
        self.turn = item.source.saturating_add(1);
        let source = usize::from(item.source);
        let is_down = is_down(&item.what);
        let gives_up = self.do_step(rt, Step::Take(item))?;
        note(&mut self.marks, source, is_down);
        self.settle(rt, gives_up)?;
        Ok(true)
    }

    // Does the `Down` steps that are due (`add_downs`) if an outbox may have been given up
    // (`gives_up`).
    fn settle<R: Wait>(&mut self, rt: &R, gives_up: bool) -> Result<(), Memory>
        requires valid { IsValid (seen K.told self.old) }
        requires settled { gives_up ≡ false → IsSettled (seen K.told self.old) }
        ensures valid { IsValid (seen K.told self.new) }
        ensures course { AdvancesBy result (seen K.told self.old) (seen K.told self.new) }
        ensures settled { OnOk result (IsSettled (seen K.told self.new)) }
        ensures gathered { self.new.gathered ≡ self.old.gathered }
    {
        if gives_up {
            return self.add_downs(rt);
        }
        Ok(())
    }

    /// For each link whose outbox was given up and whose `Down` wasn't added yet, does the `Down`
    /// of the link as a step. Tells the link's writer, so that the writer shuts the link once it
    /// has written all lines in the outbox.
    pub(crate) fn add_downs<R: Wait>(&mut self, rt: &R) -> Result<(), Memory>
        requires valid { IsValid (seen K.told self.old) }
        ensures valid { IsValid (seen K.told self.new) }
        ensures course { AdvancesBy result (seen K.told self.old) (seen K.told self.new) }
        ensures settled { OnOk result (IsSettled (seen K.told self.new)) }
        ensures gathered { self.new.gathered ≡ self.old.gathered }
    {
        for _ in rt.forever() {
            let Some(source) = self.pending() else {
                return Ok(());
            };
            let what = What::Down;
            self.do_step(rt, Step::Take(Item { source, what }))?;
            note_added(&mut self.marks, usize::from(source));
            tell_given_up(self.putters.as_slice(), usize::from(source));
        }
        unreachable!()
    }

    // The first link whose outbox was given up and whose `Down` wasn't added; `None` if there is no
    // such link.
    fn pending(&self) -> Option<u16>
        requires { IsValid (seen K.told self.now) }
        ensures { MatchOption result (IsSettled (seen K.told self.now))
            (λ link. IsPending (seen K.told self.now) link) }
    {
        for link in 0..self.desk.sources() {
            let putter = &self.putters[usize::from(link)];
            let mark = &self.marks[usize::from(link)];
            if is_pending(putter, mark) {
                return Some(link);
            }
        }
        None
    }

    // Does a step, and puts the outputs of the step into their outboxes. Returns whether one of
    // these outboxes is given up. If memory runs out, returns `Memory` and changes nothing.
    fn do_step<R: Wait>(&mut self, rt: &R, step: Step) -> Result<bool, Memory>
        requires { IsValid (seen K.told self.old) }
        ensures ok { OnOk result (DoesStep step (seen K.told self.old) (seen K.told self.new)) }
        ensures remain { IfOk result (λ gives_up. gives_up ≡ false
            → RemainOpen self.old.putters.items self.new.putters.items) }
        ensures err { OnErr result (seen K.told self.new ≡ seen K.told self.old) }
        ensures memory { IfErr result (λ _. MayWantMemory step self.old.controller) }
        ensures valid { IsValid (seen K.told self.new) }
    {
        self.step_shown(step)?;
        if self.outputs.is_empty() {
            self.put_none();
            return Ok(false);
        }
        Ok(self.send(rt))
    }

    // Counts a step without outputs if the bells weren't rung for earlier outputs, so that those
    // outputs don't wait for more than `STEPS_A_RING` steps.
    fn put_none(&mut self)
        ensures { seen K.told self.new ≡ seen K.told self.old }
    {
        if self.unrung > 0 {
            self.count(1);
        }
    }

    // Adds `more` to the count of outputs since the bells were rung. Rings the bells if the count
    // is `STEPS_A_RING` or more, or if these are the first outputs since the worker slept.
    fn count(&mut self, more: usize)
        ensures { seen K.told self.new ≡ seen K.told self.old }
    {
        self.unrung = self.unrung.saturating_add(more);
        if self.has_slept || self.unrung >= STEPS_A_RING {
            self.has_slept = false;
            self.ring();
        }
    }

    // Puts the outputs of the step into their outboxes, and returns whether one of these outboxes
    // is given up.
    fn send<R: Wait>(&mut self, rt: &R) -> bool
        requires { length self.old.marks.items ≡ length self.old.putters.items }
        ensures sent { (tries : List ℕ) × SendsAll
            self.old.putters.items self.old.marks.items self.old.outputs.outs tries
            self.new.putters.items self.new.marks.items }
        ensures remain { result ≡ false → RemainOpen self.old.putters.items self.new.putters.items }
        ensures same { seen K.told self.new ≡ record (seen K.told self.old) {
          putters = self.new.putters.items;
          marks = self.new.marks.items;
        } }
    {
        let more = self.outputs.len();
        let sent = send_all(rt, &mut self.putters, &mut self.marks, &mut self.outputs);
        if sent.waits {
            self.is_slow = true;
        }
        self.count(more);
        sent.gives_up
    }

    /// Wakes the writers of the outboxes, if lines may have been put since they were last woken.
    pub(crate) fn ring(&mut self)
        ensures { seen K.told self.new ≡ seen K.told self.old }
    {
        if self.unrung > 0 {
            ring_all(&mut self.putters);
            self.unrung = 0;
        }
    }
}

fn largest_tick(gathered: u64) -> u32
    ensures { result ≡ min gathered 4294967295 }
{
    gathered.min(u64::from(u32::MAX)) as u32
}

fn is_pending(putter: &Putter, mark: &Mark) -> bool
    ensures { result ≡ pends putter.now mark.now }
{
    is_given_up(putter) && !mark.added
}

fn is_down(what: &What) -> bool
    ensures { IsTrue result ↔ (what.now ≡ whats.Down) }
{
    matches!(what, What::Down)
}

fn note(marks: &mut Vec<Mark>, source: usize, is_down: bool)
    requires { source < vec_len marks.old }
    ensures { marks.new.items ≡ noted is_down source marks.old.items }
{
    if is_down {
        marks[source].down = true;
    }
}

fn note_added(marks: &mut Vec<Mark>, source: usize)
    requires { source < vec_len marks.old }
    ensures { marks.new.items ≡ with_added source marks.old.items }
{
    marks[source].added = true;
}
