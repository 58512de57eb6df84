// SPDX-License-Identifier: MIT OR Apache-2.0
ghost use Rattle.std.specs.Prelude.{◌≡◌, ℕ, ◌<◌, ◌≤◌, ◌++◌, List, IfOk, MatchOption};
ghost use Rattle.std.specs.Prelude.{IfNone, length, min};
ghost use Rattle.ruled_relay.specs.Outbox.{AreNewOutbox, PutsLine, PutterView};
ghost use Rattle.ruled_relay.specs.Outbox.{TakerView, TakesLine, GivesLine};
ghost use Rattle.ruled_relay.specs.Refusals.{Fate, Meets, lines_put, most_refused};

use crate::bell::Bell;
use crate::end::{End, ends};
use ipa_framing::Frame;
use octets::Memory;
use std::alloc::Global;
use std::marker::Model;
use std::sync::Wait;
use std::time::Duration;

/// An entry of an outbox, for the writer of the link.
#[derive(Drop)]
pub enum Line {
    /// A frame to be written.
    Frame(Frame),
    /// The mark after the last frame.
    End,
}

/// The fault of a full outbox; it hands the line back.
#[derive(Drop)]
pub struct Full(pub Line);

/// The queue of the lines for one link, from the thread that puts the lines to the thread that
/// writes them.
pub struct Outbox;

/// The putting end of an outbox. Contracts see all lines put, the number of frames refused since a
/// line was put last, and the greatest such number so far. Both numbers saturate at 2^32 - 1.
#[derive(Drop)]
pub struct Putter {
    end: End<Line>,
    bell: Bell,
    refused: u32,
    refusals: u32,
    /// Whether a line was put since the last call of `ring`.
    unrung: bool,
}

impl Model for Putter {
    ghost use Rattle.std.specs.Prelude.{◌≡◌};
    ghost use Rattle.ruled_relay.specs.Outbox.{PutterView};
    ghost use Rattle.ruled_relay.specs.Rule.{putting};

    ghost Value = { PutterView };

    ghost view = { λ p. record {
      queue = p.end.queue;
      capacity = p.end.capacity;
      put = p.end.seen.put;
      refused = p.refused;
      refusals = p.refusals;
    } };

    ghost invariant = { λ p. p.end.seen ≡ putting p.end.seen.put };
}

/// The taking end of an outbox. Contracts see all lines taken.
#[derive(Drop)]
pub struct Taker {
    end: End<Line>,
    bell: Bell,
}

impl Model for Taker {
    ghost use Rattle.std.specs.Prelude.{◌≡◌};
    ghost use Rattle.ruled_relay.specs.Outbox.{TakerView};
    ghost use Rattle.ruled_relay.specs.Rule.{taking};

    ghost Value = { TakerView };

    ghost view = { λ t. record {
      queue = t.end.queue;
      capacity = t.end.capacity;
      taken = t.end.seen.taken;
    } };

    ghost invariant = { λ t. t.end.seen ≡ taking t.end.seen.taken };
}

/// The lines that an outbox still holds when both of its ends are done.
#[derive(Drop)]
pub struct Unsent {
    both: End<Line>,
}

impl Model for Unsent {
    ghost use Rattle.std.specs.Prelude.{◌≡◌};
    ghost use Rattle.ruled_relay.specs.Outbox.{UnsentView};
    ghost use Rattle.ruled_relay.specs.Rule.{left_over};

    ghost Value = { UnsentView };

    ghost view = { λ u. record { put = u.both.seen.put; taken = u.both.seen.taken } };

    ghost invariant = { λ u. u.both.seen ≡ left_over u.both.seen.put u.both.seen.taken };
}

impl Outbox {
    /// An outbox for at most `capacity` lines. Returns `Err` only if memory runs out. Assumes:
    /// `capacity` is above 0.
    pub fn new(alloc: Global, capacity: usize) -> Result<(Putter, Taker), Memory>
        requires { 0 < capacity }
        ensures { IfOk result (λ r. AreNewOutbox capacity r.0 r.1) }
    {
        let bell = Bell::new(alloc)?;
        let heard = bell.share()?;
        let (taking, putting) = ends(alloc, capacity)?;
        let putter = Putter {
            end: putting,
            bell,
            refused: 0,
            refusals: 0,
            unrung: false,
        };
        let taker = Taker {
            end: taking,
            bell: heard,
        };
        Ok((putter, taker))
    }

    /// Joins the two ends of one outbox. The lines put are the lines taken, followed by the lines
    /// left. The lines left don't exceed the capacity of the outbox.
    pub fn finish(putter: Putter, taker: Taker) -> Unsent
        requires { putter.queue ≡ taker.queue }
        ensures lists { result ≡ record { put = putter.put; taken = taker.taken } }
        ensures rule { (rest : List _) × (putter.put ≡ taker.taken ++ rest)
            × (length rest ≤ putter.capacity) }
    {
        let mut end = taker.end;
        end.join(putter.end);
        Unsent { both: end }
    }
}

impl Putter {
    /// Puts a line at the end of the outbox. If the outbox is full, `Err` hands the line back; then
    /// nothing changes, except that a frame is counted as refused.
    pub fn put<R: Wait>(&mut self, rt: &R, line: Line) -> Result<(), Full>
        ensures puts { PutsLine self.old line result self.new }
        ensures same { self.new.queue ≡ self.old.queue }
    {
        match self.end.put(rt, line) {
            Ok(()) => {
                self.refused = 0;
                self.unrung = true;
                Ok(())
            }
            Err(line) => {
                if let Line::Frame(_) = line {
                    self.refused = self.refused.saturating_add(1);
                    self.refusals = self.refusals.max(self.refused);
                }
                Err(Full(line))
            }
        }
    }

    /// The greatest number of frames that were refused with no line put between them, saturated at
    /// 2^32 - 1.
    pub fn refusals(&self) -> u32
        ensures { result ≡ self.now.refusals }
    {
        self.refusals
    }

    /// Wakes the thread that waits at the other end, if a line was put since the last call of
    /// `ring`.
    pub fn ring(&mut self)
        ensures { self.new ≡ self.old }
    {
        if self.unrung {
            self.bell.ring();
            self.unrung = false;
        }
    }

    /// Tells the taking end that no more frames will be put, and wakes the thread that waits there.
    /// `put` can still be called; the caller must not do so.
    pub fn give_up(&self) {
        self.bell.ring_last();
    }
}

impl Taker {
    /// Takes the first line. `None` if the outbox was empty.
    pub fn take<R: Wait>(&mut self, rt: &R) -> Option<Line>
        ensures takes { MatchOption result (self.new ≡ self.old)
            (λ line. TakesLine self.old line self.new) }
        ensures same { self.new.queue ≡ self.old.queue }
    {
        self.end.take(rt)
    }

    /// Whether the putting end has called `give_up` since the last call of `was_given_up`.
    pub fn was_given_up(&self) -> bool {
        self.bell.was_last()
    }

    /// Waits until the putting end rings, at most for `longest`. May return without a ring.
    pub fn wait<R: Wait>(&self, rt: &R, longest: Duration) {
        self.bell.wait(rt, longest);
    }
}

impl Unsent {
    /// Takes the first line that is left. `None` if all lines put were taken.
    pub fn next<R: Wait>(&mut self, rt: &R) -> Option<Line>
        ensures some { MatchOption result (self.new ≡ self.old)
            (λ line. GivesLine self.old line self.new) }
        ensures none { IfNone result (self.old.put ≡ self.old.taken) }
    {
        self.both.take(rt)
    }
}

/// Law: `refusals` is the greatest number of frames handed back with no line put between them,
/// saturated at 2^32 - 1. The lines put are the lines not handed back, in order. Assumes for both
/// sentences: the outbox was new before the calls of `put`.
pub fn refusals_are_those_of_all_puts()
    ensures refusals { (capacity : ℕ)
        (putter now : PutterView) (taker : TakerView) (fates : List Fate)
        → AreNewOutbox capacity putter taker → Meets putter fates now
        → now.refusals ≡ min (most_refused fates) 4294967295 }
    ensures lines { (capacity : ℕ) (putter now : PutterView) (taker : TakerView) (fates : List Fate)
        → AreNewOutbox capacity putter taker → Meets putter fates now → now.put ≡ lines_put fates }
{}
