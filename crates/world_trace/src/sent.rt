// SPDX-License-Identifier: MIT OR Apache-2.0
ghost use Rattle.std.specs.Prelude.{◌≡◌, ◌++◌, IfOk, OnOk, drop, map, option_to_list};
ghost use Rattle.std.specs.List.{flat_map};
ghost use Rattle.world_model.specs.Lists.{first_in};
ghost use Rattle.world_model.specs.World.{outbox_of};
ghost use Rattle.world_trace.specs.declared.crossing.Passage.TheVariants.{Sent};
ghost use Rattle.world_trace.specs.Crossings.{down, up};
ghost use Rattle.world_trace.specs.Marks.{AreMarks, behind, links_at};

use crate::crossing::{Crossing, Passage};
use crate::turn::is_turn;
use octets::Memory;
use std::alloc::Global;
use world_actors::Network;
use world_model::Event;

/// The lengths of the controller's queues before an event.
#[derive(Drop)]
pub(crate) struct Marks {
    inbox: usize,
    /// The length of each link's outbox, the switch's first.
    outboxes: Vec<usize>,
}

impl Marks {
    /// The marks before an event. The outboxes are measured only if the event may add to them.
    pub(crate) fn of(alloc: Global, network: &Network, event: &Event) -> Result<Marks, Memory>
        ensures { IfOk result (λ marks. AreMarks network.now event.now marks) }
    {
        let links = links_at(network, event);
        let mut outboxes = Vec::with_capacity(alloc, links)?;
        for link in 0..links {
            outboxes.push(network.outbox_len(link))?;
        }
        Ok(Marks {
            inbox: network.inbox_len(),
            outboxes,
        })
    }

    /// Appends the crossings of the frames in the queues beyond the marks.
    pub(crate) fn note_behind(
        &self,
        alloc: Global,
        network: &Network,
        crossings: &mut Vec<Crossing>,
    ) -> Result<(), Memory>
        ensures { OnOk result
            (crossings.new.items ≡ crossings.old.items ++ behind self.now network.now) }
    {
        note_items(alloc, network, self.inbox, crossings)?;
        for link in 0..self.outboxes.len() {
            note_entries(alloc, network, link, self.outboxes[link], crossings)?;
        }
        Ok(())
    }
}

/// The number of links whose outboxes an event may add to: all links if the event is the
/// controller's turn, else 0.
fn links_at(network: &Network, event: &Event) -> usize
    ensures { result ≡ links_at network.now event.now }
{
    if is_turn(event) {
        network.link_count()
    } else {
        0
    }
}

/// Appends the crossings of the inbox's items from index `mark` on.
fn note_items(
    alloc: Global,
    network: &Network,
    mark: usize,
    crossings: &mut Vec<Crossing>,
) -> Result<(), Memory>
    ensures { OnOk result (crossings.new.items
        ≡ crossings.old.items ++ flat_map (up Sent) (drop mark network.now.inbox)) }
{
    for place in mark..network.inbox_len() {
        note_item(alloc, network, place, crossings)?;
    }
    Ok(())
}

fn note_item(
    alloc: Global,
    network: &Network,
    place: usize,
    crossings: &mut Vec<Crossing>,
) -> Result<(), Memory>
    ensures { OnOk result (crossings.new.items ≡ crossings.old.items
        ++ flat_map (up Sent) (option_to_list (first_in (drop place network.now.inbox)))) }
{
    let Some(item) = network.inbox_item(place) else {
        return Ok(());
    };
    match Crossing::up(alloc, Passage::Sent, item)? {
        Some(crossing) => {
            crossings.push(crossing)?;
            Ok(())
        }
        None => Ok(()),
    }
}

/// Appends the crossings of an outbox's frames from index `mark` on.
fn note_entries(
    alloc: Global,
    network: &Network,
    link: usize,
    mark: usize,
    crossings: &mut Vec<Crossing>,
) -> Result<(), Memory>
    ensures { OnOk result (crossings.new.items
        ≡ crossings.old.items ++ map (down Sent) (drop mark (outbox_of network.now link))) }
{
    for place in mark..network.outbox_len(link) {
        note_entry(alloc, network, link, place, crossings)?;
    }
    Ok(())
}

fn note_entry(
    alloc: Global,
    network: &Network,
    link: usize,
    place: usize,
    crossings: &mut Vec<Crossing>,
) -> Result<(), Memory>
    ensures { OnOk result (crossings.new.items ≡ crossings.old.items
        ++ map (down Sent)
        (option_to_list (first_in (drop place (outbox_of network.now link))))) }
{
    let Some(entry) = network.outbox_entry(link, place) else {
        return Ok(());
    };
    crossings.push(Crossing::down(alloc, Passage::Sent, entry)?)?;
    Ok(())
}
