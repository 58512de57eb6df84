// SPDX-License-Identifier: MIT OR Apache-2.0
ghost use Rattle.std.specs.Prelude.{◌≡◌, ◌<◌, length, List, IfOk, MatchOption, map};
ghost use Rattle.std.specs.Prelude.{vec_len};
ghost use Rattle.ruled_relay.specs.Row.{Row};
ghost use Rattle.ruled_relay.specs.Left.{GivesAll, left_from};
ghost use Rattle.ruled_relay.specs.Inbox.{AreJoined, AreNewInbox, GivesItem};
ghost use Rattle.ruled_relay.specs.Inbox.{IsAllGiven, PutsItem, TakesItem, queues_of};

use crate::bell::Bell;
use crate::end::{End, ends};
use crate::item::{Item, What};
use crate::row::{join_at, take_among, take_in_turn};
use crate::sources::Sources;
use octets::Memory;
use std::alloc::Global;
use std::marker::Model;
use std::sync::Wait;
use std::time::Duration;

/// Why an item wasn't put. Both variants hand the item back.
#[derive(Drop)]
pub enum PutFault {
    /// The source of the item isn't the source of the pass.
    Foreign(Item),
    /// The queue of the item's source was full.
    Full(Item),
}

/// The queues of the links that are read, one queue for each link. They lead from the threads that
/// read the links to the thread that takes the items.
pub struct Inbox;

/// The putting end of one source's queue. Contracts see the source and all items put.
#[derive(Drop)]
pub struct SourcePass {
    end: End<What>,
    bell: Bell,
    source: u16,
}

impl Model for SourcePass {
    ghost use Rattle.std.specs.Prelude.{◌≡◌};
    ghost use Rattle.ruled_relay.specs.Inbox.{PassView};
    ghost use Rattle.ruled_relay.specs.Rule.{putting};

    ghost Value = { PassView };

    ghost view = { λ p. record {
      queue = p.end.queue;
      capacity = p.end.capacity;
      source = p.source;
      put = p.end.seen.put;
    } };

    ghost invariant = { λ p. p.end.seen ≡ putting p.end.seen.put };
}

/// The taking ends of all queues of an inbox. Contracts see the ends in the order of the sources.
#[derive(Drop)]
pub struct Desk {
    ends: Vec<End<What>>,
    bell: Bell,
    /// The sources that may have more items: `take` took an item of each such source, and hasn't
    /// found the source's queue empty since then.
    more: Sources,
    sources: u16,
    turn: u16,
}

impl Model for Desk {
    ghost use Rattle.std.specs.Prelude.{◌≡◌, ◌≤◌, length};
    ghost use Rattle.ruled_relay.specs.Row.{EachAt, Row};
    ghost use Rattle.ruled_relay.specs.Rule.{taking};

    ghost Value = { Row };

    ghost view = { λ d. d.ends.items };

    ghost invariant = { λ d. (length d.ends.items ≡ d.sources)
        × (d.turn ≤ d.sources) × EachAt d.ends.items (λ at e. e.seen ≡ taking e.seen.taken) };
}

/// The items that an inbox still holds when its desk and all of its passes are done. Contracts see,
/// for each source in order, the items put and the items taken.
#[derive(Drop)]
pub struct Left {
    ends: Vec<End<What>>,
    sources: u16,
}

impl Model for Left {
    ghost use Rattle.std.specs.Prelude.{◌≡◌, length};
    ghost use Rattle.ruled_relay.specs.Row.{EachAt, Row};
    ghost use Rattle.ruled_relay.specs.Rule.{left_over};

    ghost Value = { Row };

    ghost view = { λ l. l.ends.items };

    ghost invariant = { λ l. (length l.ends.items ≡ l.sources)
        × EachAt l.ends.items (λ at e. e.seen ≡ left_over e.seen.put e.seen.taken) };
}

impl Inbox {
    /// An inbox for the sources `0..sources`, with at most `capacity` items in each queue. Returns
    /// the desk, and the passes in the order of their sources. Returns `Err` only if memory runs
    /// out. Assumes: `capacity` is above 0.
    pub fn new(
        alloc: Global,
        sources: u16,
        capacity: usize,
    ) -> Result<(Desk, Vec<SourcePass>), Memory>
        requires { 0 < capacity }
        ensures count { IfOk result (λ r. (length r.0 ≡ sources) × (vec_len r.1 ≡ sources)) }
        ensures each { IfOk result (λ r. AreNewInbox capacity r.0 r.1.items) }
        ensures queues { IfOk result (λ r. queues_of r.0 ≡ map (λ p. p.queue) r.1.items) }
    {
        let bell = Bell::with_signs(alloc, sources)?;
        let more = Sources::new(alloc, sources)?;
        let mut desk = Vec::with_capacity(alloc, usize::from(sources))?;
        let mut passes = Vec::with_capacity(alloc, usize::from(sources))?;
        for source in 0..sources {
            let (taking, putting) = ends(alloc, capacity)?;
            desk.push(taking)?;
            passes.push(SourcePass {
                end: putting,
                bell: bell.share()?,
                source,
            })?;
        }
        let desk = Desk {
            ends: desk,
            bell,
            more,
            sources,
            turn: 0,
        };
        Ok((desk, passes))
    }

    /// Joins the ends of one inbox. For each source, the items put are the items taken, followed by
    /// the items left. The items left don't exceed the capacity of the source's queue. Assumes: the
    /// desk and the passes belong to one inbox, and `passes` has the order of the sources.
    pub fn finish(desk: Desk, passes: Vec<SourcePass>) -> Left
        requires { queues_of desk ≡ map (λ p. p.queue) passes.items }
        ensures { AreJoined desk passes.items result }
    {
        let mut ends = desk.ends;
        let mut at = 0;
        for pass in passes {
            join_at(&mut ends, at, pass.end);
            at += 1;
        }
        Left {
            ends,
            sources: desk.sources,
        }
    }
}

impl SourcePass {
    /// Puts an item at the end of the queue. Returns `Foreign` if the item is of another source,
    /// else `Full` if the queue was full. An `Err` hands the item back and changes nothing.
    pub fn put<R: Wait>(&mut self, rt: &R, item: Item) -> Result<(), PutFault>
        ensures puts { PutsItem self.old item result self.new }
        ensures same { (self.new.queue ≡ self.old.queue) × (self.new.source ≡ self.old.source) }
    {
        if item.source != self.source {
            return Err(PutFault::Foreign(item));
        }
        let Item { source, what } = item;
        match self.end.put(rt, what) {
            Ok(()) => {
                self.bell.raise(source);
                Ok(())
            }
            Err(what) => Err(PutFault::Full(Item { source, what })),
        }
    }

    /// The number of items of this source that wait to be taken. The contract doesn't promise this.
    pub fn waiting<R: Wait>(&mut self, rt: &R) -> usize
        ensures { self.new ≡ self.old }
    {
        self.end.waiting(rt)
    }

    /// The source whose items this pass puts.
    pub fn source(&self) -> u16
        ensures { result ≡ self.now.source }
    {
        self.source
    }

    /// Wakes the thread that waits at the desk.
    pub fn ring(&self) {
        self.bell.ring();
    }
}

impl Desk {
    /// The number of sources.
    pub fn sources(&self) -> u16
        ensures { length self.now ≡ result }
    {
        self.sources
    }

    /// Takes an item. First tries the sources that are flagged or may have more items, round robin
    /// from the source after that of the last item; before the first item, from source 0. If the
    /// queues of these sources are empty, tries all sources in the same order. Returns `None` only
    /// if every source was tried in this call and its queue was empty.
    pub fn take<R: Wait>(&mut self, rt: &R) -> Option<Item>
        ensures takes { MatchOption result (self.new ≡ self.old)
            (λ item. TakesItem self.old item self.new) }
        ensures same { queues_of self.new ≡ queues_of self.old }
    {
        let item = take_in_turn(
            rt,
            &self.bell,
            &mut self.more,
            &mut self.ends,
            self.turn,
            self.sources,
        )?;
        self.turn = item.source + 1;
        Some(item)
    }

    /// Takes the first item of `source`, and looks into no other queue. `None` if the queue of
    /// `source` was empty or there is no such source. If an item was taken, the next `take` begins
    /// with the source after `source`.
    pub fn take_of<R: Wait>(&mut self, rt: &R, source: u16) -> Option<Item>
        ensures takes { MatchOption result (self.new ≡ self.old)
            (λ item. (item.source ≡ source) × TakesItem self.old item self.new) }
        ensures same { queues_of self.new ≡ queues_of self.old }
    {
        if source >= self.sources {
            return None;
        }
        let item = take_among(rt, &mut self.ends, source, source + 1)?;
        self.turn = source + 1;
        Some(item)
    }

    /// Waits until a pass rings, at most for `longest`. May return without a ring.
    pub fn wait<R: Wait>(&self, rt: &R, longest: Duration) {
        self.bell.wait(rt, longest);
    }
}

impl Left {
    /// Takes the next item that is left. The items of source 0 come first, in order, then those of
    /// source 1, and so on. `None` if all items put were taken.
    pub fn next<R: Wait>(&mut self, rt: &R) -> Option<Item>
        ensures { MatchOption result ((self.new ≡ self.old) × IsAllGiven self.old)
            (λ item. GivesItem self.old item self.new) }
    {
        take_among(rt, &mut self.ends, 0, self.sources)
    }
}

/// Law: the items that repeated calls of `next` return before the first `None` are all items that
/// were put and not taken. The items of source 0 come first, in order, then those of source 1, and
/// so on.
pub fn all_that_is_left_is_given()
    ensures { (left : Row) (items : List Item) → GivesAll left items → items ≡ left_from 0 left }
{}
