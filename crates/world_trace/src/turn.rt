// SPDX-License-Identifier: MIT OR Apache-2.0
ghost use Rattle.std.specs.Prelude.{◌≡◌, IfOk};
ghost use Rattle.world_trace.specs.Turns.{is_turn, turn_sights};

use crate::sight::sights;
use connection_notes::Sight;
use octets::Memory;
use std::alloc::Global;
use world_actors::Network;
use world_model::Event;

/// The sights of the connections if the event is the controller's turn, else an empty list.
pub(crate) fn turn_sights(
    alloc: Global,
    network: &Network,
    event: &Event,
) -> Result<Vec<Sight>, Memory>
    ensures { IfOk result (λ sights.
        sights.items ≡ turn_sights event.now network.now.controller) }
{
    if is_turn(event) {
        sights(alloc, network)
    } else {
        Ok(Vec::new(alloc))
    }
}

/// Whether an event is the controller's turn: the controller handles an item, or time passes for
/// the controller.
pub(crate) fn is_turn(event: &Event) -> bool
    ensures { result ≡ is_turn event.now }
{
    match event {
        Event::Handle | Event::Tick(_) => true,
        _ => false,
    }
}
