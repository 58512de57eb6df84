// SPDX-License-Identifier: MIT OR Apache-2.0
//! Takes items from links whose lists of waiting frames have room.
ghost use Rattle.std.specs.Prelude.{◌≡◌, MatchOption};
ghost use Rattle.ruled_relay.specs.Inbox.{TakesItem, queues_of};

use crate::mark::Mark;
use ruled_relay::{Desk, Item};
use std::sync::Wait;

/// Takes an item, if a source has one; `None` if no item may be taken. While frames wait
/// (`is_slow`), takes an item only from a link whose list of waiting frames has room, and asks the
/// sources round robin from `turn`.
pub(crate) fn next_item<R: Wait>(
    rt: &R,
    desk: &mut Desk,
    marks: &[Mark],
    is_slow: bool,
    turn: u16,
) -> Option<Item>
    ensures takes { MatchOption result (desk.new ≡ desk.old)
        (λ item. TakesItem desk.old item desk.new) }
    ensures same { queues_of desk.new ≡ queues_of desk.old }
{
    if is_slow {
        take_open(rt, desk, marks, turn)
    } else {
        desk.take(rt)
    }
}

// Takes an item from the first source that has one and whose list has room, round robin from
// `turn`.
fn take_open<R: Wait>(rt: &R, desk: &mut Desk, marks: &[Mark], turn: u16) -> Option<Item>
    ensures takes { MatchOption result (desk.new ≡ desk.old)
        (λ item. TakesItem desk.old item desk.new) }
    ensures same { queues_of desk.new ≡ queues_of desk.old }
{
    let sources = desk.sources();
    match take_among(rt, desk, marks, turn, sources) {
        Some(item) => Some(item),
        None => take_among(rt, desk, marks, 0, turn),
    }
}

// Takes an item from the first source from `from` up to `to`, exclusive, that has one and whose
// list has room; `None` if no source has.
fn take_among<R: Wait>(rt: &R, desk: &mut Desk, marks: &[Mark], from: u16, to: u16) -> Option<Item>
    ensures takes { MatchOption result (desk.new ≡ desk.old)
        (λ item. TakesItem desk.old item desk.new) }
    ensures same { queues_of desk.new ≡ queues_of desk.old }
{
    for source in from..to {
        if has_room(marks, source) {
            if let Some(item) = desk.take_of(rt, source) {
                return Some(item);
            }
        }
    }
    None
}

// Whether the list of waiting frames of link `link` has room for one more.
fn has_room(marks: &[Mark], link: u16) -> bool {
    match marks.get(usize::from(link)) {
        Some(mark) => !mark.waiting.is_full(),
        None => true,
    }
}
