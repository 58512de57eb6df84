// SPDX-License-Identifier: MIT OR Apache-2.0
ghost use Rattle.std.specs.Prelude.{◌≡◌, IfErr, IfOk};
ghost use Rattle.run_judge.specs.Reading.{IsReadableBody, is_dtap, said_by};

use crate::station_reading::read_on_station_link;
use crate::switch_reading::read_on_switch_link;
use crate::{Said, Way};
use conn_messages::SWITCH_LINK;
use dtap_codec::{RADIO_RESOURCE, pd_of};
use octets::Memory;
use std::alloc::Global;

/// What a frame with this body says. `link` is 0 for the switch's link, else the number of the base
/// station. `Said::Nothing` if the link's codec refuses the body. Fails only if an allocation
/// fails.
pub fn read_said(alloc: Global, link: u16, way: Way, body: &[u8]) -> Result<Said, Memory>
    ensures said { IfOk result (λ said. said ≡ said_by link way body.now) }
    // An allocation fails only for a body that the link's codec doesn't refuse.
    ensures memory { IfErr result (λ _. IsReadableBody link body.now) }
{
    if link == SWITCH_LINK {
        read_on_switch_link(alloc, way, body)
    } else {
        read_on_station_link(alloc, link, way, body)
    }
}

/// Whether a layer 3 message isn't a message of radio resource management.
pub(crate) fn is_dtap(message: &[u8]) -> bool
    ensures { result ≡ is_dtap message.now }
{
    match pd_of(message) {
        Some(discriminator) => discriminator != RADIO_RESOURCE,
        None => true,
    }
}
