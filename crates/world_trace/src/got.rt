// SPDX-License-Identifier: MIT OR Apache-2.0
ghost use Rattle.std.specs.Prelude.{◌≡◌, [], IfOk, if◌then◌else◌, map, option_to_list};
ghost use Rattle.std.specs.List.{flat_map};
ghost use Rattle.world_model.specs.Queues.{first_of};
ghost use Rattle.world_model.specs.World.{outbox_of};
ghost use Rattle.world_trace.specs.declared.crossing.Passage.TheVariants.{Got};
ghost use Rattle.world_trace.specs.Crossings.{down, up};
ghost use Rattle.world_trace.specs.Marks.{waiting};

use crate::crossing::{Crossing, Passage};
use conn_messages::SWITCH_LINK;
use octets::Memory;
use std::alloc::Global;
use world_actors::Network;
use world_model::Event;

/// The frame that an event takes from a link, if its actor can take the event; `None` if there is
/// no such frame.
pub(crate) fn waiting(
    alloc: Global,
    network: &Network,
    event: &Event,
) -> Result<Option<Crossing>, Memory>
    ensures { IfOk result (λ crossing. option_to_list crossing ≡ waiting network.now event.now) }
{
    match event {
        Event::Handle => first_up(alloc, network),
        Event::BaseTakes(station) => first_down(alloc, network, usize::from(*station)),
        Event::SwitchTakes => first_down(alloc, network, usize::from(SWITCH_LINK)),
        _ => Ok(None),
    }
}

/// The frame of the inbox's first item; `None` if the inbox is empty or the item has no frame.
fn first_up(alloc: Global, network: &Network) -> Result<Option<Crossing>, Memory>
    ensures { IfOk result (λ crossing.
        option_to_list crossing ≡ flat_map (up Got) (first_of network.now.inbox)) }
{
    match network.inbox_item(0) {
        Some(item) => Crossing::up(alloc, Passage::Got, item),
        None => Ok(None),
    }
}

/// The first frame of an outbox; `None` if the outbox is empty.
fn first_down(alloc: Global, network: &Network, link: usize) -> Result<Option<Crossing>, Memory>
    ensures { IfOk result (λ crossing.
        option_to_list crossing ≡ map (down Got) (first_of (outbox_of network.now link))) }
{
    match network.outbox_entry(link, 0) {
        Some(entry) => Ok(Some(Crossing::down(alloc, Passage::Got, entry)?)),
        None => Ok(None),
    }
}

/// The frame that an event took: `waiting` if the event was taken. The list is empty if the event
/// wasn't taken, or if no frame was waiting.
pub(crate) fn got(
    alloc: Global,
    taken: bool,
    waiting: Option<Crossing>,
) -> Result<Vec<Crossing>, Memory>
    ensures { IfOk result (λ crossings.
        crossings.items ≡ (if taken then option_to_list waiting else [])) }
{
    let mut crossings = Vec::new(alloc);
    if !taken {
        return Ok(crossings);
    }
    match waiting {
        Some(crossing) => {
            crossings.push(crossing)?;
            Ok(crossings)
        }
        None => Ok(crossings),
    }
}
