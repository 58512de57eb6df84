// SPDX-License-Identifier: MIT OR Apache-2.0
//! Compares a desk of many sources with a desk that is asked source by source.
use ruled_relay::{Desk, Inbox, Item, SourcePass, What};
use std::alloc::Global;
use std::process::Abort;
use std::sync::Wait;

/// How many items the queue of a source holds.
const CAPACITY: usize = 2;

/// How many puts and takes each of the two phases has, for each number of sources.
const STEPS: u32 = 4000;

/// Two inboxes into which the same items are put, and the source that the second desk is asked for
/// first.
#[derive(Drop)]
struct Pair {
    desk: Desk,
    passes: Vec<SourcePass>,
    asked: Desk,
    asked_passes: Vec<SourcePass>,
    sources: u16,
    turn: u16,
}

impl Pair {
    fn new<R: Abort>(rt: &R, alloc: Global, sources: u16) -> Pair {
        let (desk, passes) = Inbox::new(alloc, sources, CAPACITY).expect(rt, "an inbox");
        let (asked, asked_passes) = Inbox::new(alloc, sources, CAPACITY).expect(rt, "an inbox");
        Pair {
            desk,
            passes,
            asked,
            asked_passes,
            sources,
            turn: 0,
        }
    }

    /// Puts an item of a source into both inboxes. Returns whether both or neither had room for the
    /// item.
    fn puts<R: Wait>(&mut self, rt: &R, source: u16) -> bool {
        is_put(rt, &mut self.passes, source) == is_put(rt, &mut self.asked_passes, source)
    }

    /// Takes an item from both desks: from the first desk in the desk's own turn, from the second
    /// desk source by source. Returns whether both desks gave an item of the same source, or
    /// neither gave an item.
    fn takes<R: Wait>(&mut self, rt: &R) -> bool {
        let own = self.desk.take(rt);
        let asked = take_in_turn(rt, &mut self.asked, self.turn, self.sources);
        self.are_alike(own, asked)
    }

    /// Takes an item of one source from both desks. Returns whether both or neither had such an
    /// item.
    fn takes_of<R: Wait>(&mut self, rt: &R, source: u16) -> bool {
        let own = self.desk.take_of(rt, source);
        let asked = self.asked.take_of(rt, source);
        self.are_alike(own, asked)
    }

    /// Whether both items are of one source, or both are missing. The source after that source is
    /// the next to be asked.
    fn are_alike(&mut self, own: Option<Item>, asked: Option<Item>) -> bool {
        match (own, asked) {
            (None, None) => true,
            (Some(own), Some(asked)) => {
                self.turn = asked.source.saturating_add(1);
                own.source == asked.source
            }
            _ => false,
        }
    }
}

fn is_put<R: Wait>(rt: &R, passes: &mut Vec<SourcePass>, source: u16) -> bool {
    let what = What::Down;
    match passes.get_mut(usize::from(source)) {
        Some(pass) => pass.put(rt, Item { source, what }).is_ok(),
        None => false,
    }
}

/// Asks the sources from `from` to `to` - 1, each for an item. Returns the first item, if there is
/// one.
fn take_among<R: Wait>(rt: &R, desk: &mut Desk, from: u16, to: u16) -> Option<Item> {
    for source in from..to {
        if let Some(item) = desk.take_of(rt, source) {
            return Some(item);
        }
    }
    None
}

/// Asks all sources one by one, beginning with `turn`. Returns the first item, if there is one.
fn take_in_turn<R: Wait>(rt: &R, desk: &mut Desk, turn: u16, sources: u16) -> Option<Item> {
    match take_among(rt, desk, turn, sources) {
        Some(item) => Some(item),
        None => take_among(rt, desk, 0, turn),
    }
}

/// Puts and takes items pseudorandomly. At first more items are put than taken, later more are
/// taken than put. Returns whether both desks gave the same.
fn gives_in_turn<R: Abort + Wait>(rt: &R, alloc: Global, sources: u16) -> bool {
    let mut pair = Pair::new(rt, alloc, sources);
    let mut drawn = u32::from(sources);
    for step in 0..2 * STEPS {
        drawn = drawn.wrapping_mul(1_664_525).wrapping_add(1_013_904_223);
        let source = (drawn >> 16) as u16 % sources.max(1);
        let puts = if step < STEPS { 20 } else { 8 };
        let is_same = match drawn >> 27 {
            kind if kind < puts => pair.puts(rt, source),
            30 | 31 => pair.takes_of(rt, source),
            _ => pair.takes(rt),
        };
        if !is_same {
            return false;
        }
    }
    pair.desk.take(rt).is_none() == pair.asked.take(rt).is_none()
}

/// A word holds the signs of 64 sources. Therefore the numbers of sources in this test are near
/// those of one word and of two words.
#[test]
fn each_source_is_asked_in_turn_however_many_there_are(rt: HostRuntime) {
    for sources in [0, 1, 2, 4, 5, 33, 63, 64, 65, 127, 128, 129, 300] {
        assert!(rt; gives_in_turn(&rt, rt.alloc(), sources));
    }
}
