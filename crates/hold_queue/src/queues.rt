// SPDX-License-Identifier: MIT OR Apache-2.0
ghost use Rattle.std.specs.Prelude.{◌≡◌, ◌≤◌, ◌+◌, [], ◌∷◌, ◌++◌, length};
ghost use Rattle.std.specs.Prelude.{OnOk, OnErr};
ghost use Rattle.std.specs.Prelude.{IfErr, option_map, slice_get, drop as dropped};
ghost use Rattle.hold_queue.specs.ChainState.{TenureHold, empty_tenure, tenure_messages};
ghost use Rattle.hold_queue.specs.ChainState.{with_tenure_messages, tenure_count};
ghost use Rattle.hold_queue.specs.Refusal.{IsMemory};

use crate::HoldFault;
use dtap_codec::Sapi;
use octets::Octets;
use std::alloc::Global;
use std::collections::VecDeque;
use std::marker::Model;

/// The messages that are held for one channel: one queue for each SAPI.
#[derive(Drop)]
pub(crate) struct Queues {
    zero: VecDeque<Octets>,
    three: VecDeque<Octets>,
}

impl Model for Queues {
    ghost Value = { TenureHold };

    ghost view = { λ queues. record { zero = queues.zero.items; three = queues.three.items } };
}

impl Queues {
    /// Two queues without messages. Allocates nothing.
    pub(crate) fn new(alloc: Global) -> Queues
        ensures { result ≡ empty_tenure }
    {
        Queues {
            zero: VecDeque::new(alloc),
            three: VecDeque::new(alloc),
        }
    }

    /// The number of messages in both queues.
    pub(crate) fn len(&self) -> usize
        ensures { result ≡ tenure_count self.now }
    {
        self.zero.len() + self.three.len()
    }

    /// Appends `message` to the queue of `sapi`. If an allocation fails, returns `Memory` with the
    /// message and leaves the queues as they were.
    pub(crate) fn put(&mut self, sapi: Sapi, message: Vec<u8>) -> Result<(), HoldFault>
        ensures put { OnOk result (self.new ≡ with_tenure_messages self.old sapi
            (tenure_messages self.old sapi ++ message.items ∷ [])) }
        ensures memory { IfErr result (IsMemory message.items) }
        ensures err { OnErr result (self.new ≡ self.old) }
        ensures count { tenure_count self.new ≤ tenure_count self.old + 1 }
    {
        match sapi {
            Sapi::Zero => append(&mut self.zero, message),
            Sapi::Three => append(&mut self.three, message),
        }
    }

    /// Removes and returns the first message of `sapi`; `None` if there is no message of `sapi`.
    /// Allocates nothing.
    pub(crate) fn next(&mut self, sapi: Sapi) -> Option<Vec<u8>>
        ensures first { option_map (λ message. message.items) result ≡
            slice_get (tenure_messages self.old sapi) 0 }
        ensures rest { self.new ≡ with_tenure_messages self.old sapi
            (dropped 1 (tenure_messages self.old sapi)) }
    {
        match sapi {
            Sapi::Zero => take_first(&mut self.zero),
            Sapi::Three => take_first(&mut self.three),
        }
    }

    /// Lends the message at place `place` (from 0) in the queue of `sapi`; `None` if there is no
    /// message at this place.
    pub(crate) fn get(&self, sapi: Sapi, place: usize) -> Option<&[u8]>
        ensures { option_map (λ message. message.now) result ≡
            slice_get (tenure_messages self.now sapi) place }
    {
        let queue = match sapi {
            Sapi::Zero => &self.zero,
            Sapi::Three => &self.three,
        };
        Some(queue.get(place)?.as_slice())
    }

    /// Drops all messages of `sapi` and returns how many were dropped. Allocates nothing.
    pub(crate) fn clear_sapi(&mut self, sapi: Sapi) -> usize
        ensures cleared { self.new ≡ with_tenure_messages self.old sapi [] }
        ensures count { result ≡ length (tenure_messages self.old sapi) }
    {
        match sapi {
            Sapi::Zero => clear(&mut self.zero),
            Sapi::Three => clear(&mut self.three),
        }
    }

    /// Drops all messages. Allocates nothing.
    pub(crate) fn clear(&mut self)
        ensures { self.new ≡ empty_tenure }
    {
        self.zero.clear();
        self.three.clear();
    }
}

// Appends `message` to `queue`. If an allocation fails, returns `Memory` with the message and
// leaves the queue as it was.
fn append(queue: &mut VecDeque<Octets>, message: Vec<u8>) -> Result<(), HoldFault>
    ensures ok { OnOk result (queue.new.items ≡ queue.old.items ++ message.items ∷ []) }
    ensures err { OnErr result (queue.new.items ≡ queue.old.items) }
    ensures memory { IfErr result (IsMemory message.items) }
{
    match queue.push_back(Octets::new(message)) {
        Ok(()) => Ok(()),
        Err(refused) => Err(HoldFault::Memory(refused.value.into_vec())),
    }
}

// Removes and returns the first message of a queue; `None` if the queue is empty.
fn take_first(queue: &mut VecDeque<Octets>) -> Option<Vec<u8>>
    ensures first { option_map (λ message. message.items) result ≡ slice_get queue.old.items 0 }
    ensures rest { queue.new.items ≡ dropped 1 queue.old.items }
{
    let message = queue.pop_front()?;
    Some(message.into_vec())
}

// Empties a queue and returns how many messages it had.
fn clear(queue: &mut VecDeque<Octets>) -> usize
    ensures cleared { queue.new.items ≡ [] }
    ensures count { result ≡ length queue.old.items }
{
    let count = queue.len();
    queue.clear();
    count
}
