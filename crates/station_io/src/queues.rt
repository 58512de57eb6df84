// SPDX-License-Identifier: MIT OR Apache-2.0
//! The queues between the threads of the relay.
ghost use Rattle.std.specs.Prelude.{◌≡◌, IfOk};
ghost use Rattle.station_io.specs.Work.{AreNewOutboxes, AreNewQueues};

use octets::Memory;
use ruled_relay::{Desk, Inbox, Outbox, Putter, SourcePass, Taker};
use std::alloc::Global;

/// The capacity of a link's queue: items in the inbox, lines in the outbox.
const CAPACITY: usize = 1024;

/// The ends of the queues between the threads. Each link has two queues: one of the inbox, and an
/// outbox.
#[derive(Drop)]
pub(crate) struct Queues {
    pub(crate) desk: Desk,
    pub(crate) passes: Vec<SourcePass>,
    pub(crate) putters: Vec<Putter>,
    pub(crate) takers: Vec<Taker>,
}

impl Queues {
    /// New queues, two for each of `count` links. Returns `Memory` if memory runs out or there are
    /// more than 65,535 links.
    pub(crate) fn new(alloc: Global, count: usize) -> Result<Queues, Memory>
        ensures inbox { IfOk result (λ q. AreNewQueues count q.desk q.passes.items) }
        ensures outboxes { IfOk result (λ q. AreNewOutboxes count q.putters.items q.takers.items) }
    {
        let (desk, passes) = inbox(alloc, count)?;
        let (putters, takers) = outboxes(alloc, count)?;
        Ok(Queues {
            desk,
            passes,
            putters,
            takers,
        })
    }
}

/// An inbox with a queue for each of `count` links. Returns `Memory` if memory runs out or there
/// are more than 65,535 links.
fn inbox(alloc: Global, count: usize) -> Result<(Desk, Vec<SourcePass>), Memory>
    ensures { IfOk result (λ r. AreNewQueues count r.0 r.1.items) }
{
    // The number of a link has 16 bits.
    let Ok(sources) = u16::try_from(count) else {
        return Err(Memory);
    };
    let (desk, passes) = Inbox::new(alloc, sources, CAPACITY)?;
    Ok((desk, passes))
}

/// An outbox for each of `count` links.
fn outboxes(alloc: Global, count: usize) -> Result<(Vec<Putter>, Vec<Taker>), Memory>
    ensures { IfOk result (λ r. AreNewOutboxes count r.0.items r.1.items) }
{
    let mut putters = Vec::with_capacity(alloc, count)?;
    let mut takers = Vec::with_capacity(alloc, count)?;
    for _ in 0..count {
        let (putter, taker) = Outbox::new(alloc, CAPACITY)?;
        putters.push(putter)?;
        takers.push(taker)?;
    }
    Ok((putters, takers))
}
