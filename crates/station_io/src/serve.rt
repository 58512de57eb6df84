// SPDX-License-Identifier: MIT OR Apache-2.0
ghost use Rattle.std.specs.Prelude.{◌≡◌, [], map, vec_capacity, vec_len, IfOk, IfErr};
ghost use Rattle.link_workers.specs.declared.fault.IoFault.TheVariants as faults;
ghost use Rattle.station_io.specs.Done.{HasEnded};
ghost use Rattle.station_io.specs.Given.{HasRoom};
ghost use Rattle.station_io.specs.Links.{Relays, ended_view, link_view};
ghost use Rattle.station_io.specs.Octets.{PassesOctets};
ghost use Rattle.station_io.specs.Work.{AreReady, HaveQueues};

use crate::crews::{Crews, Works, WorksDone, run};
use crate::giving::{Room, give_back};
use crate::link::Link;
use crate::queues::Queues;
use crate::work::{Calling, Reading, Writing};
use crate::works::workers;
use controller::Controller;
use controller_worker::{Clock, Marks};
use link_workers::{Gate, IoFault, LinkReader};
use octets::Memory;
use ruled_relay::{Desk, Putter};
use std::alloc::Global;
use std::io::Write;
use std::sync::Wait;
use std::thread::Threads;

/// Relays between the links of `controller` until all links have ended. Each link has a reader and
/// a writer, each in a thread of its own; the call worker runs in the calling thread. A link's gate
/// may refuse an item `limit` times in a row. Returns the links in their order, each with its fault
/// if there is one: the reader's fault, else the writer's fault, else `GivenUp` if the link's
/// outbox was full 1,000 times in a row.
///
/// The controller takes one list of steps. A link's items in this list are the frames that were
/// read from the link, then `Down`. If the link's outbox was given up, one more `Down` of the link
/// was added as the next step. The octets written to a link are those of the frames that the
/// controller put for the link. If the link's outbox was given up, only the frames before the
/// refused frame were written; if the link's writer has a fault, only a beginning of the octets was
/// written.
///
/// The octets that a link without a fault got are therefore a function of three things: the
/// controller, the items that arrived from the links, and the order in which these items were
/// merged with ticks. From a link without a fault, all frames of the octets read arrived as items.
/// No items arrived from other link numbers. If `controller` was new, the laws of a life hold over
/// these steps, as for `controller::run`.
///
/// `Err(Memory)` if memory runs out for a queue or in a step of the controller, if there are more
/// than 65,535 links, or if a thread can't be started; no thread begins if one can't be started. On
/// `Err` the links are dropped.
pub fn serve_links<
    I: LinkReader + Drop + Send + 'static,
    O: Write + Drop + Send + 'static,
    G: Gate + Drop + Send + 'static,
    K: Clock + Drop,
    R: Threads + Wait + Copy + Send + 'static,
>(
    rt: R,
    alloc: Global,
    controller: Controller,
    links: Vec<Link<I, O, G>>,
    clock: K,
    limit: u32,
) -> Result<Vec<(Link<I, O, G>, Option<IoFault>)>, IoFault>
    ensures links { IfOk result (λ back. Relays controller limit
        (map (link_view I.remaining O.contents G.refused) links.items)
        (map (ended_view I.remaining O.contents G.refused) back.items)) }
    // From octets in to octets out, with the laws of a life if the controller was new.
    ensures octets { IfOk result (λ back. PassesOctets controller
        (map (link_view I.remaining O.contents G.refused) links.items)
        (map (ended_view I.remaining O.contents G.refused) back.items)) }
    ensures fault { IfErr result (λ fault. fault ≡ faults.Memory) }
{
    let (room, done) = relay(rt, alloc, controller, links, clock, limit)?;
    let WorksDone {
        read,
        written,
        called,
    } = done;
    Ok(give_back(room, read, written, called))
}

/// Prepares all memory that the threads need, and lets each thread do its work. Returns the results
/// of the threads, and room for the links that are to be given back.
fn relay<
    I: LinkReader + Drop + Send + 'static,
    O: Write + Drop + Send + 'static,
    G: Gate + Drop + Send + 'static,
    K: Clock + Drop,
    R: Threads + Wait + Copy + Send + 'static,
>(
    rt: R,
    alloc: Global,
    controller: Controller,
    links: Vec<Link<I, O, G>>,
    clock: K,
    limit: u32,
) -> Result<(Room<I, O, G>, WorksDone<I, O, G>), Memory>
    ensures ended { IfOk result (λ r. HasEnded I.remaining O.contents G.refused
        controller alloc limit links.items
        r.1.read.items r.1.written.items r.1.called.desk r.1.called.putters.items) }
    ensures room { IfOk result (λ r. HasRoom (vec_len links) r.0.back.items
        (vec_capacity r.0.back) r.0.passes.items (vec_capacity r.0.passes)) }
{
    let Prepared {
        readings,
        writings,
        desk,
        putters,
        marks,
        crews,
        room,
    } = prepare(alloc, links, limit)?;
    let calling = Calling {
        alloc,
        controller,
        desk,
        putters,
        marks,
        clock,
    };
    let works = Works {
        readings,
        writings,
        calling,
    };
    let done = run(rt, crews, works)?;
    Ok((room, done))
}

/// All memory that the relay of some links needs before a thread begins: the parts of the threads'
/// works, the crews without threads, and room for the links that are to be given back.
#[derive(Drop)]
struct Prepared<I: LinkReader + Drop, O: Write + Drop, G: Gate + Drop> {
    readings: Vec<Reading<I, G>>,
    writings: Vec<Writing<O>>,
    desk: Desk,
    putters: Vec<Putter>,
    marks: Marks,
    crews: Crews<I, O, G>,
    room: Room<I, O, G>,
}

/// Prepares the works of each link's reader and writer with their ends of new queues, the other
/// ends of these queues, the call worker's marks, the crews without threads, and room for the links
/// that are to be given back. `Err(Memory)` if memory runs out or if there are more than 65,535
/// links.
fn prepare<
    I: LinkReader + Drop + Send + 'static,
    O: Write + Drop + Send + 'static,
    G: Gate + Drop + Send + 'static,
>(alloc: Global, links: Vec<Link<I, O, G>>, limit: u32) -> Result<Prepared<I, O, G>, Memory>
    ensures workers { IfOk result (λ p. HaveQueues alloc limit links.items
        p.readings.items p.writings.items p.desk p.putters.items) }
    ensures calling { IfOk result
        (λ p. AreReady (vec_len p.putters) p.desk p.putters.items p.marks) }
    ensures crews { IfOk result (λ p. (p.crews.readers ≡ []) × (p.crews.writers ≡ [])) }
    ensures room { IfOk result (λ p. HasRoom (vec_len links) p.room.back.items
        (vec_capacity p.room.back) p.room.passes.items (vec_capacity p.room.passes)) }
{
    let count = links.len();
    let room = Room::new(alloc, count)?;
    let crews = Crews::new(alloc, count)?;
    let marks = Marks::new(alloc, count)?;
    let Queues {
        desk,
        passes,
        putters,
        takers,
    } = Queues::new(alloc, count)?;
    let (readings, writings) = workers(alloc, links, passes, takers, limit)?;
    Ok(Prepared {
        readings,
        writings,
        desk,
        putters,
        marks,
        crews,
        room,
    })
}
