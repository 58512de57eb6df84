// SPDX-License-Identifier: MIT OR Apache-2.0
//! Events of the code carry octets.

ghost use Rattle.octets.specs.Element.{AreOctets};
ghost use Rattle.world_laws.specs.Order.OctetEvents.{AreOctetEvents, IsOctetEvent};

use crate::{Event, SwitchAction};

/// Shows that these events carry octets, since each of their octets is a `u8`. The laws on the
/// order of messages assume that events carry octets. Allocates nothing, and changes nothing.
pub fn are_of_octets(events: &[Event])
    ensures { AreOctetEvents events.now }
{
    for event in events {
        is_of_octets(event);
    }
}

/// Shows that one event carries octets. Allocates nothing, and changes nothing.
pub fn is_of_octets(event: &Event)
    ensures { IsOctetEvent event.now }
{
    match event {
        Event::Upper { message, .. } => octets_of(message.as_slice()),
        Event::Connect {
            mobile,
            initial,
            ..
        } => {
            // reading the mobile's number shows that this number is below 256, too
            let _number = *mobile;
            octets_of(initial.as_slice());
        }
        Event::SwitchDoes(SwitchAction::Dtap { message, .. }) => octets_of(message.as_slice()),
        Event::Report { report, .. } => octets_of(report.as_slice()),
        _ => {}
    }
}

// Shows that each of these octets, as a number, is below 256.
fn octets_of(octets: &[u8])
    ensures { AreOctets octets.now }
{}
