// SPDX-License-Identifier: MIT OR Apache-2.0
ghost use Rattle.std.specs.Prelude.{◌≡◌, ◌<◌, ◌≤◌, ◌↔◌, ◌∷◌, []};
ghost use Rattle.std.specs.Prelude.{◌++◌, length, IsTrue, IfOk, OnOk};
ghost use Rattle.std.specs.Prelude.{OnErr, IfErr, Some, option_map, slice_get, drop as dropped};
ghost use Rattle.hold_queue.specs.ChainState.{new_chain, empty_tenure, chain_count};
ghost use Rattle.hold_queue.specs.ChainState.{messages_in, put_in, first_taken, first_cleared};
ghost use Rattle.hold_queue.specs.Refusal.{ChainHandsBack};

use crate::HoldFault;
use crate::queues::Queues;
use dtap_codec::Sapi;
use octets::Memory;
use std::alloc::Global;
use std::collections::VecDeque;
use std::marker::Model;

/// The most tenures that a chain may have: one for each channel that a connection may have at one
/// time.
pub const TENURE_LIMIT: usize = 4;

/// The messages that a connection holds whose channel may change more than once: a list of tenures,
/// the oldest first. A tenure stands for one channel and has one queue for each SAPI. One limit
/// applies to the messages of all tenures and both SAPIs together.
#[derive(Drop)]
pub struct Chain {
    limit: usize,
    tenures: VecDeque<Queues>,
}

impl Model for Chain {
    ghost use Rattle.std.specs.Prelude.{◌<◌, ◌≤◌, ◌^◌, length};
    ghost use Rattle.std.specs.VecDeque.{deque_capacity};
    ghost use Rattle.hold_queue.specs.ChainState.{ChainState, tenures_count};
    ghost use Rattle.hold_queue.specs.declared.chain.TheConstants.{TENURE_LIMIT};

    ghost Value = { ChainState };

    ghost view = { λ chain. record { limit = chain.limit; tenures = chain.tenures.items } };

    // Room for `TENURE_LIMIT` tenures is reserved, so that `add` allocates nothing. The last part
    // says that the limit fits into a `usize`; the number of messages, which is at most the limit,
    // fits too.
    ghost invariant = { λ chain. (0 < length chain.tenures.items)
        × (length chain.tenures.items ≤ TENURE_LIMIT)
        × (TENURE_LIMIT ≤ deque_capacity chain.tenures)
        × (tenures_count chain.tenures.items ≤ chain.limit)
        × (chain.limit < 2 ^ 64) };
}

impl Chain {
    /// A chain of one tenure without messages, for up to `limit` messages over all tenures and both
    /// SAPIs. Allocates room for `TENURE_LIMIT` tenures and keeps the allocator. Returns `Memory`
    /// if the allocation fails.
    pub fn new(alloc: Global, limit: usize) -> Result<Chain, Memory>
        ensures { IfOk result (λ chain. chain ≡ new_chain limit) }
    {
        let mut tenures = VecDeque::with_capacity(alloc, TENURE_LIMIT)?;
        tenures.push_back_reserved(Queues::new(alloc));
        Ok(Chain { limit, tenures })
    }

    /// The number of messages that are held in all tenures, of both SAPIs.
    pub fn len(&self) -> usize
        ensures count { result ≡ chain_count self.now }
        ensures within { result ≤ self.now.limit }
    {
        self.tenures.iter().map(|tenure| tenure.len()).sum()
    }

    /// Whether no message is held.
    pub fn is_empty(&self) -> bool
        ensures { IsTrue result ↔ (chain_count self.now ≡ 0) }
    {
        self.len() == 0
    }

    /// The number of tenures, including tenures without messages.
    pub fn tenures(&self) -> usize
        ensures count { result ≡ length self.now.tenures }
        ensures one { 0 < result }
        ensures within { result ≤ TENURE_LIMIT }
    {
        self.tenures.len()
    }

    /// Appends a tenure without messages. The chain must have fewer than `TENURE_LIMIT` tenures
    /// before. Allocates nothing.
    #[tactic(auto, using(crate::proofs::Chains::count_added))]
    pub fn add(&mut self)
        requires { length self.old.tenures < TENURE_LIMIT }
        ensures { self.new ≡ record self.old { tenures = self.old.tenures ++ empty_tenure ∷ [] } }
    {
        let alloc = *self.tenures.allocator();
        self.tenures.push_back_reserved(Queues::new(alloc));
    }

    /// Appends `message` to the queue of `sapi` in the tenure at place `tenure`, which must exist;
    /// the oldest tenure is at place 0. Returns `Full` if the chain holds as many messages as its
    /// limit allows, else `Memory` if an allocation fails. An error hands the message back and
    /// leaves the chain as it was.
    #[tactic(auto, using(crate::proofs::Chains::put_in_at))]
    pub fn put(&mut self, tenure: usize, sapi: Sapi, message: Vec<u8>) -> Result<(), HoldFault>
        requires { tenure < length self.old.tenures }
        ensures put { OnOk result (self.new ≡
            record self.old { tenures = put_in tenure sapi message.items self.old.tenures }) }
        ensures room { OnOk result (chain_count self.old < self.old.limit) }
        ensures refused { IfErr result (ChainHandsBack self.old message.items) }
        ensures err { OnErr result (self.new ≡ self.old) }
    {
        if self.len() == self.limit {
            return Err(HoldFault::Full(message));
        }
        self.tenures[tenure].put(sapi, message)
    }

    /// Removes and returns the first message of `sapi` in the first tenure; `None` if the tenure
    /// has no message of `sapi`. Allocates nothing.
    pub fn next(&mut self, sapi: Sapi) -> Option<Vec<u8>>
        ensures first { option_map (λ message. message.items) result ≡
            slice_get (messages_in 0 sapi self.old.tenures) 0 }
        ensures rest { self.new ≡ record self.old { tenures = first_taken sapi self.old.tenures } }
    {
        self.tenures[0].next(sapi)
    }

    /// Lends the message at place `place` in the queue of `sapi` in the tenure at place `tenure`.
    /// Places count from 0. Returns `None` if there is no such tenure, or no message at the place.
    #[tactic(auto, using(crate::proofs::Chains::messages_at, crate::proofs::Chains::messages_none))]
    pub fn get(&self, tenure: usize, sapi: Sapi, place: usize) -> Option<&[u8]>
        ensures { option_map (λ message. message.now) result ≡
            slice_get (messages_in tenure sapi self.now.tenures) place }
    {
        self.tenures.get(tenure)?.get(sapi, place)
    }

    /// Drops the first tenure. The tenure must have no messages, and the chain must have another
    /// tenure. Allocates nothing.
    pub fn shift(&mut self)
        requires empty { slice_get self.old.tenures 0 ≡ Some empty_tenure }
        requires another { 1 < length self.old.tenures }
        ensures { self.new ≡ record self.old { tenures = dropped 1 self.old.tenures } }
    {
        self.tenures.pop_front();
    }

    /// Drops the messages of the first tenure; the tenure remains, empty. Allocates nothing.
    pub fn clear_first(&mut self)
        ensures { self.new ≡ record self.old { tenures = first_cleared self.old.tenures } }
    {
        self.tenures[0].clear();
    }

    /// Drops all messages, and all tenures but the first. Allocates nothing.
    pub fn clear(&mut self)
        ensures { self.new ≡ new_chain self.old.limit }
    {
        self.tenures.truncate(1);
        self.tenures[0].clear();
    }
}
