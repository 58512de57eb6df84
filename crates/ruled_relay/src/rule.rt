// SPDX-License-Identifier: MIT OR Apache-2.0
//! Ghost knowledge about a queue with a putting end and a taking end. The rule of the queue: the
//! items put are the items taken, followed by the items that the queue holds.

use crossbeam_queue::protocol::{Join, Lesson, Outcome, Protocol, Split};
use std::collections::LinkedList;

/// What an end of a queue knows: whether the end may put, whether it may take, all items that it
/// has put, and all items that it has taken. Used in contracts only; no value exists at run time.
pub struct Seen<T> {
    pub puts: bool,
    pub takes: bool,
    pub put: LinkedList<T>,
    pub taken: LinkedList<T>,
}

/// What an end of a queue knows, and the part of the queue's capacity that the end has learnt. Used
/// in contracts only; no value exists at run time.
pub struct Known<T> {
    pub seen: Seen<T>,
    pub room: u64,
}

/// The rule of a queue: the items put are the items taken, followed by the items that the queue
/// holds.
pub(crate) struct InOrder;

impl<T> Protocol<T, Known<T>> for InOrder {
    ghost use Rattle.ruled_relay.specs.Rule.{Relayed, known, left_over};
    ghost use Rattle.std.specs.Prelude.{[]};

    ghost holds = { Relayed };

    ghost first = { known 0 (left_over [] []) };
}

/// A step in which the first end learns that the queue has room for one more item.
pub(crate) struct Wider;

impl<T> Split<Known<T>> for Wider {
    ghost use Rattle.ruled_relay.specs.Rule.{known, spent_end};
    ghost use Rattle.std.specs.Prelude.{◌+◌};

    ghost left = { λ v. known (v.room + 1) v.seen };

    ghost right = { λ v. known 0 spent_end };
}

/// The split of a new queue's knowledge between a taking end and a putting end, and the join of the
/// two when both are done.
pub(crate) struct Ends;

impl<T> Split<Known<T>> for Ends {
    ghost use Rattle.ruled_relay.specs.Rule.{known, taking, putting};

    ghost left = { λ v. known v.room (taking v.seen.taken) };

    ghost right = { λ v. known v.room (putting v.seen.put) };
}

impl<T> Join<Known<T>> for Ends {
    ghost use Rattle.ruled_relay.specs.Rule.{known, left_over, spent_end};

    ghost both = { λ v w. known w.room (left_over w.seen.put v.seen.taken) };

    ghost spent = { known 0 spent_end };
}

/// A step that puts an item: the item becomes the last of the items put.
pub(crate) struct Putting;

impl<T> Outcome<T, Known<T>> for Putting {
    ghost use Rattle.ruled_relay.specs.Rule.{AddsLast};
    ghost use Rattle.std.specs.Prelude.{◌≡◌};

    ghost then = { λ v x w. (w.room ≡ v.room) × AddsLast v.seen x w.seen };
}

impl<T> Lesson<T, Known<T>> for Putting {
    ghost use Rattle.ruled_relay.specs.Rule.{EndsWith};

    ghost fact = { λ v items. EndsWith v.seen items };
}

/// A step that takes an item: the item becomes the last of the items taken. If the end may put, the
/// item is the next of the items put.
pub(crate) struct Taking;

impl<T> Outcome<T, Known<T>> for Taking {
    ghost use Rattle.ruled_relay.specs.Rule.{TakesFirst};
    ghost use Rattle.std.specs.Prelude.{◌≡◌};

    ghost then = { λ v x w. (w.room ≡ v.room) × TakesFirst v.seen x w.seen };
}

impl<T> Lesson<T, Known<T>> for Taking {
    ghost use Rattle.ruled_relay.specs.Rule.{IsFollowedBy, IsWithin};

    ghost fact = { λ v items. IsFollowedBy v.seen items × IsWithin v items };
}
