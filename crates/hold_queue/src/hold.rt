// SPDX-License-Identifier: MIT OR Apache-2.0
ghost use Rattle.std.specs.Prelude.{◌≡◌, ◌==◌, ◌<◌, ◌≤◌, ◌↔◌, []};
ghost use Rattle.std.specs.Prelude.{◌∷◌, ◌++◌, length, IsTrue};
ghost use Rattle.std.specs.Prelude.{OnOk, OnErr, IfErr, option_map, slice_get, drop as dropped};
ghost use Rattle.hold_queue.specs.ChainState.{tenure_count};
ghost use Rattle.hold_queue.specs.HoldState.{HoldState, new_hold, messages, with_messages, count};
ghost use Rattle.hold_queue.specs.Refusal.{HandsBack};

use crate::HoldFault;
use crate::queues::Queues;
use dtap_codec::Sapi;
use std::alloc::Global;
use std::marker::Model;

/// The messages that a connection holds while its channel changes: one queue for each SAPI. One
/// limit applies to the messages of both queues together.
#[derive(Drop)]
pub struct Hold {
    limit: usize,
    queues: Queues,
}

impl Model for Hold {
    ghost Value = { HoldState };

    ghost view = { λ hold. record {
      limit = hold.limit;
      zero = hold.queues.zero;
      three = hold.queues.three;
    } };

    ghost invariant = { λ hold. tenure_count hold.queues ≤ hold.limit };
}

impl Hold {
    /// A hold without messages, for up to `limit` messages of both SAPIs together. Keeps the
    /// allocator; allocates nothing.
    pub fn new(alloc: Global, limit: usize) -> Hold
        ensures { result ≡ new_hold limit }
    {
        Hold {
            limit,
            queues: Queues::new(alloc),
        }
    }

    /// The number of messages that are held, of both SAPIs together.
    pub fn len(&self) -> usize
        ensures count { result ≡ count self.now }
        ensures within { result ≤ self.now.limit }
    {
        self.queues.len()
    }

    /// Whether no message is held.
    pub fn is_empty(&self) -> bool
        ensures { IsTrue result ↔ (count self.now ≡ 0) }
    {
        self.queues.len() == 0
    }

    /// Whether the messages of both SAPIs together are as many as the limit.
    pub fn is_full(&self) -> bool
        ensures { result ≡ (count self.now == self.now.limit) }
    {
        self.len() == self.limit
    }

    /// Appends `message` to the queue of `sapi`. Returns `Full` if the hold is full (`is_full`),
    /// else `Memory` if an allocation fails. An error hands the message back and leaves the hold as
    /// it was.
    pub fn put(&mut self, sapi: Sapi, message: Vec<u8>) -> Result<(), HoldFault>
        ensures put { OnOk result (self.new ≡
            with_messages self.old sapi (messages self.old sapi ++ message.items ∷ [])) }
        ensures room { OnOk result (count self.old < self.old.limit) }
        ensures refused { IfErr result (HandsBack self.old message.items) }
        ensures err { OnErr result (self.new ≡ self.old) }
    {
        if self.is_full() {
            return Err(HoldFault::Full(message));
        }
        self.queues.put(sapi, message)
    }

    /// Removes and returns the first message of `sapi`; `None` if there is no message of `sapi`.
    /// Allocates nothing.
    pub fn next(&mut self, sapi: Sapi) -> Option<Vec<u8>>
        ensures first { option_map (λ message. message.items) result ≡
            slice_get (messages self.old sapi) 0 }
        ensures rest { self.new ≡ with_messages self.old sapi (dropped 1 (messages self.old sapi)) }
    {
        self.queues.next(sapi)
    }

    /// Lends the message at place `place` (from 0) in the queue of `sapi`; `None` if there is no
    /// message at this place.
    pub fn get(&self, sapi: Sapi, place: usize) -> Option<&[u8]>
        ensures { option_map (λ message. message.now) result ≡
            slice_get (messages self.now sapi) place }
    {
        self.queues.get(sapi, place)
    }

    /// Drops all messages of `sapi` and returns how many were dropped. Allocates nothing.
    pub fn clear_sapi(&mut self, sapi: Sapi) -> usize
        ensures cleared { self.new ≡ with_messages self.old sapi [] }
        ensures count { result ≡ length (messages self.old sapi) }
    {
        self.queues.clear_sapi(sapi)
    }
}
