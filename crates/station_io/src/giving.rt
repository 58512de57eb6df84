// SPDX-License-Identifier: MIT OR Apache-2.0
//! Gives the links back once all threads have ended.
ghost use Rattle.std.specs.Prelude.{◌≡◌, [], map, vec_len, vec_capacity, IfOk};
ghost use Rattle.ruled_relay.specs.Inbox.{AreJoined, queues_of};
ghost use Rattle.ruled_relay.specs.Row.{Row};
ghost use Rattle.station_io.specs.Given.{Follows, HasRoom, all_given, given_back};
ghost use Rattle.station_io.specs.Links.{fault_of};
ghost use Rattle.thread_crew.specs.Pairs.{EachPair};

use crate::link::Link;
use crate::work::HasCalled;
use controller_worker::MAX_REFUSALS;
use link_workers::{HasRead, HasWritten, IoFault};
use octets::Memory;
use ruled_relay::{Inbox, Outbox, Putter, SourcePass};
use std::alloc::Global;

/// A link that has ended, and its fault if there is one.
pub(crate) type Back<I, O, G> = (Link<I, O, G>, Option<IoFault>);

/// A link's fault: the reader's fault, else the writer's fault, else `GivenUp` if the outbox was
/// given up; `None` if there is no fault.
fn fault_of(reading: Option<IoFault>, writing: Option<IoFault>, given_up: bool) -> Option<IoFault>
    ensures { result ≡ fault_of reading writing given_up }
{
    match (reading, writing) {
        (Some(fault), _) | (None, Some(fault)) => Some(fault),
        (None, None) if given_up => Some(IoFault::GivenUp),
        (None, None) => None,
    }
}

/// Gives back one link with its fault, and the link's pass of the inbox. Joins the two ends of the
/// link's outbox, which no thread uses at this point.
fn give_one<I, O, G>(
    read: HasRead<I, G>,
    written: HasWritten<O>,
    putter: Putter,
) -> (Back<I, O, G>, SourcePass)
    requires { putter.queue ≡ written.taker.queue }
    ensures back { result.0 ≡ given_back read written putter }
    ensures pass { result.1 ≡ read.pass }
    ensures outbox { Follows written putter }
{
    let HasRead {
        reader,
        gate,
        pass,
        fault: reading,
    } = read;
    let HasWritten {
        writer,
        taker,
        fault: writing,
    } = written;
    let fault = fault_of(reading, writing, putter.refusals() >= MAX_REFUSALS);
    let _unsent = Outbox::finish(putter, taker);
    let link = Link {
        reader,
        writer,
        gate,
    };
    ((link, fault), pass)
}

/// Room for the links that are given back, and for their passes.
#[derive(Drop)]
pub(crate) struct Room<I, O, G> {
    pub back: Vec<Back<I, O, G>>,
    pub passes: Vec<SourcePass>,
}

impl<I: Drop, O: Drop, G: Drop> Room<I, O, G> {
    /// Room for `links` links. Fails only if memory runs out.
    pub fn new(alloc: Global, links: usize) -> Result<Room<I, O, G>, Memory>
        ensures { IfOk result (λ r. HasRoom links
            r.back.items (vec_capacity r.back) r.passes.items (vec_capacity r.passes)) }
    {
        Ok(Room {
            back: Vec::with_capacity(alloc, links)?,
            passes: Vec::with_capacity(alloc, links)?,
        })
    }
}

/// Gives back all links with their faults, in the order of the links. Joins the ends of all queues,
/// which no thread uses at this point.
pub(crate) fn give_back<I: Drop, O: Drop, G: Drop>(
    room: Room<I, O, G>,
    read: Vec<HasRead<I, G>>,
    written: Vec<HasWritten<O>>,
    called: HasCalled,
) -> Vec<Back<I, O, G>>
    requires room { HasRoom (vec_len read)
        room.back.items (vec_capacity room.back) room.passes.items (vec_capacity room.passes) }
    requires count { (vec_len written ≡ vec_len read) × (vec_len called.putters ≡ vec_len read) }
    requires inbox { queues_of called.desk ≡ map (λ p. p.queue) (map (λ r. r.pass) read.items) }
    requires outboxes { map (λ w. w.taker.queue) written.items
        ≡ map (λ p. p.queue) called.putters.items }
    ensures back { result.items ≡ all_given read.items written.items called.putters.items }
    ensures outboxes { EachPair Follows written.items called.putters.items }
    ensures inbox { (left : Row) × AreJoined called.desk (map (λ r. r.pass) read.items) left }
{
    let Room {
        mut back,
        mut passes,
    } = room;
    let mut writers = written.into_iter();
    let mut putters = called.putters.into_iter();
    for read in read {
        let Some(written) = writers.next() else {
            unreachable!()
        };
        let Some(putter) = putters.next() else {
            unreachable!()
        };
        let (one, pass) = give_one(read, written, putter);
        back.push_reserved(one);
        passes.push_reserved(pass);
    }
    let _left = Inbox::finish(called.desk, passes);
    back
}
