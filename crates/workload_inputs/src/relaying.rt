// SPDX-License-Identifier: MIT OR Apache-2.0
//! The call worker of the running relay, with a network beside it.
ghost use Rattle.std.specs.Prelude.{◌≡◌, IfOk, length, vec_len};
ghost use Rattle.controller_worker.specs.Call.{AreNew, AreUnmarked};

use crate::draw::Draw;
use crate::network::{Field, Link, Network, Plan};
use crate::settings_toml::settings_text;
use crate::stop::Stop;
use controller::Controller;
use controller_worker::{HasRelayed, Marks, call_worker};
use octets::Memory;
use ruled_relay::{Desk, Inbox, Outbox, Putter, SourcePass, Taker};
use settings::Settings;
use std::alloc::Global;
use std::sync::Wait;

/// How many items, or lines, the queue of one link holds at most, as in `bsc run`.
const CAPACITY: usize = 1024;

/// Plays a network against the call worker. Returns a digest of all octets that the controller's
/// links carried, and of the number of items that the controller ignored. `Err`: memory ran out;
/// the settings were refused; or the plan breaks no link, but a message was lost or duplicated.
pub fn play<R: Wait>(rt: &R, alloc: Global, plan: Plan, draw: Draw) -> Result<u64, Stop> {
    let (ends, links) = queues(alloc, plan.cells.saturating_add(1))?;
    let network = Network {
        field: Field::new(rt, alloc, plan, links, draw)?,
        pending: 0,
        told: 0,
    };
    let controller = controller(alloc, plan)?;
    let Ends {
        desk,
        putters,
        marks,
    } = ends;
    let relayed = call_worker(rt, alloc, controller, desk, putters, marks, network);
    outcome(&relayed, plan.breaks)
}

/// A controller of the cells of the plan.
fn controller(alloc: Global, plan: Plan) -> Result<Controller, Stop> {
    let text = settings_text(alloc, plan.cells, plan.interval)?;
    match Settings::read(alloc, text.as_str()) {
        Ok(settings) => Ok(Controller::new(alloc, settings)?),
        Err(_) => Err(Stop::Refused),
    }
}

/// The digest of a network whose links have all ended. `Err`: memory ran out; or, if the switch's
/// link didn't break, a message was lost or duplicated.
fn outcome<R: Wait>(relayed: &HasRelayed<Network<'_, R>>, has_broken: bool) -> Result<u64, Stop> {
    let field = &relayed.clock.field;
    if relayed.fault.is_some() || field.failed {
        return Err(Stop::Memory);
    }
    if !has_broken && !field.count.is_even() {
        return Err(Stop::Uneven);
    }
    let mut digest = field.digest;
    digest.add_number(relayed.controller.ignored());
    Ok(digest.sum())
}

/// The call worker's ends of the queues of all links.
#[derive(Drop)]
struct Ends {
    desk: Desk,
    putters: Vec<Putter>,
    marks: Marks,
}

/// The queues of this many links: the call worker's ends, and the links, which hold the other ends.
fn queues(alloc: Global, count: u16) -> Result<(Ends, Vec<Link>), Memory>
    ensures new { IfOk result (λ r. AreNew r.0.putters.items) }
    ensures sources { IfOk result (λ r. length r.0.desk ≡ vec_len r.0.putters) }
    ensures marks { IfOk result (λ r. AreUnmarked (vec_len r.0.putters) r.0.marks) }
{
    let marks = Marks::new(alloc, usize::from(count))?;
    let (putters, takers) = outboxes(alloc, count)?;
    let (desk, passes) = Inbox::new(alloc, count, CAPACITY)?;
    let links = links(alloc, passes, takers)?;
    let ends = Ends {
        desk,
        putters,
        marks,
    };
    Ok((ends, links))
}

/// New outboxes for this many links.
fn outboxes(alloc: Global, count: u16) -> Result<(Vec<Putter>, Vec<Taker>), Memory>
    ensures new { IfOk result (λ r. AreNew r.0.items) }
    ensures count { IfOk result (λ r. vec_len r.0 ≡ count) }
{
    let mut putters = Vec::with_capacity(alloc, usize::from(count))?;
    let mut takers = Vec::with_capacity(alloc, usize::from(count))?;
    for _ in 0..count {
        let (putter, taker) = Outbox::new(alloc, CAPACITY)?;
        putters.push(putter)?;
        takers.push(taker)?;
    }
    Ok((putters, takers))
}

/// The links, each with its ends of the queues.
fn links(alloc: Global, passes: Vec<SourcePass>, takers: Vec<Taker>) -> Result<Vec<Link>, Memory> {
    let mut links = Vec::with_capacity(alloc, passes.len())?;
    for (pass, taker) in passes.into_iter().zip(takers) {
        links.push(Link::new(alloc, pass, taker))?;
    }
    Ok(links)
}
