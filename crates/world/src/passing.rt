// SPDX-License-Identifier: MIT OR Apache-2.0
//! Events that can change places with the break of a link.

ghost use Rattle.std.specs.Prelude.{◌≡◌};
ghost use Rattle.world.specs.Beside.{is_beside as beside, sits_off as off};

use crate::Event;
use conn_messages::SWITCH_LINK;
use world_actors::Network;
use world_model::Seat;

/// Whether the event can change places with a break of the link of `source`, if the link is up.
/// Such an event isn't one of the source and appends no item to the inbox. A `Handle` is such an
/// event only if the inbox isn't empty.
pub(crate) fn is_beside(network: &Network, event: &Event, source: u16) -> bool
    ensures { result ≡ beside network.now event.now source }
{
    match event {
        Event::Upper { .. } | Event::Tick(_) => true,
        Event::Connect { station, .. } | Event::BaseTakes(station) => *station != source,
        Event::AirUp { mobile, .. }
        | Event::AirAck { mobile, .. }
        | Event::AirDown(mobile)
        | Event::AirDownLost(mobile)
        | Event::Move(mobile)
        | Event::Touch(mobile)
        | Event::Arrive(mobile)
        | Event::Return(mobile)
        | Event::Report { mobile, .. } => sits_off(network, *mobile, source),
        Event::Handle => network.inbox_len() > 0,
        Event::SwitchTakes | Event::SwitchDoes(_) => source != SWITCH_LINK,
        Event::BasePush(_) | Event::BaseDown(_) => false,
    }
}

// Whether no channel of the mobile's seat is of the source; `true` if there is no such mobile.
fn sits_off(network: &Network, mobile: u8, source: u16) -> bool
    ensures { result ≡ off source network.now mobile }
{
    match network.seat(mobile) {
        Some(Seat::On { tenure, .. }) => tenure.at.station != source,
        Some(Seat::Moving { from, command }) => {
            from.at.station != source && command.target.at.station != source
        }
        Some(Seat::Asking) | Some(Seat::Gone) | None => true,
    }
}
