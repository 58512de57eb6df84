// SPDX-License-Identifier: MIT OR Apache-2.0
ghost use Rattle.std.specs.Prelude.{◌≡◌, IfOk, OnErr};
ghost use Rattle.std.specs.Result.{result_ok};
ghost use Rattle.bssmap_codec.specs.SccpReading.{sccp_reading};
ghost use Rattle.ipa_framing.specs.declared.streams.TheConstants.{SCCP_STREAM};
ghost use Rattle.world_model.specs.SwitchSide.{sccp_in as message_in};
ghost use Rattle.world_ends.specs.SwitchWritten.{IsShortIn};

use bssmap_codec::{InterfaceFault, Sccp, read_sccp};
use ipa_framing::{Frame, SCCP_STREAM};
use octets::Memory;
use std::alloc::Global;

/// The message of an SCCP frame; `None` if the frame is of another stream or can't be read. The
/// user data of the message have at most 255 octets. `Memory` on allocation failure, which only a
/// frame of the SCCP stream can cause.
pub(crate) fn sccp_in(alloc: Global, frame: &Frame) -> Result<Option<Sccp>, Memory>
    ensures message { IfOk result (λ message. message ≡ message_in frame.now) }
    ensures short { IfOk result IsShortIn }
    ensures memory { OnErr result (frame.now.stream ≡ SCCP_STREAM) }
{
    if frame.stream != SCCP_STREAM {
        return Ok(None);
    }
    read_message(alloc, frame.body.as_slice())
}

fn read_message(alloc: Global, octets: &[u8]) -> Result<Option<Sccp>, Memory>
    ensures message { IfOk result (λ message. message ≡ result_ok (sccp_reading octets.now)) }
    ensures short { IfOk result IsShortIn }
{
    match read_sccp(alloc, octets) {
        Ok(message) => Ok(Some(message)),
        Err(InterfaceFault::Memory) => Err(Memory),
        Err(_) => Ok(None),
    }
}
