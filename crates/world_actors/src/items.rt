// SPDX-License-Identifier: MIT OR Apache-2.0
ghost use Rattle.std.specs.Prelude.{◌≡◌, IfOk, None};
ghost use Rattle.bssmap_codec.specs.SccpText.{sccp_write_fault};
ghost use Rattle.rsl_codec.specs.RslText.{rsl_write_fault};
ghost use Rattle.world_model.specs.Relay.{station_item as item_of_station};
ghost use Rattle.world_model.specs.Relay.{switch_item as item_of_switch};

use bssmap_codec::{Sccp, write_sccp};
use conn_messages::SWITCH_LINK;
use ipa_framing::{Frame, RSL_STREAM, SCCP_STREAM};
use octets::{Memory, Octets};
use rsl_codec::Rsl;
use ruled_relay::{Item, What};
use std::alloc::Global;

/// The inbox item of a message of a station. Assumes: `message` has an encoding.
pub(crate) fn station_item(alloc: Global, station: u16, message: &Rsl) -> Result<Item, Memory>
    requires { rsl_write_fault message.now ≡ None }
    ensures { IfOk result (λ item. item ≡ item_of_station station message.now) }
{
    let mut body = Vec::new(alloc);
    message.write(alloc, &mut body).map_err(|_| Memory)?;
    let body = Octets::new(body);
    Ok(Item {
        source: station,
        what: What::Frame(Frame {
            stream: RSL_STREAM,
            body,
        }),
    })
}

/// The inbox item of a message of the switch. Assumes: `message` has an encoding.
pub(crate) fn switch_item(alloc: Global, message: &Sccp) -> Result<Item, Memory>
    requires { sccp_write_fault message.now ≡ None }
    ensures { IfOk result (λ item. item ≡ item_of_switch message.now) }
{
    let mut body = Vec::new(alloc);
    write_sccp(alloc, message, &mut body).map_err(|_| Memory)?;
    let body = Octets::new(body);
    Ok(Item {
        source: SWITCH_LINK,
        what: What::Frame(Frame {
            stream: SCCP_STREAM,
            body,
        }),
    })
}
