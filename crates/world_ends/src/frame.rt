// SPDX-License-Identifier: MIT OR Apache-2.0
ghost use Rattle.std.specs.Prelude.{◌≡◌, IfOk};
ghost use Rattle.world_model.specs.Stations.{rsl_in as message_in};

use ipa_framing::{Frame, RSL_STREAM};
use octets::Memory;
use rsl_codec::{Rsl, RslFault};
use std::alloc::Global;

/// The message of an RSL frame; `None` if the frame is of another stream or can't be read. `Memory`
/// on allocation failure.
pub fn rsl_in(alloc: Global, frame: &Frame) -> Result<Option<Rsl>, Memory>
    ensures { IfOk result (λ message. message ≡ message_in frame.now) }
{
    if frame.stream != RSL_STREAM {
        return Ok(None);
    }
    match Rsl::read(alloc, frame.body.as_slice()) {
        Ok(message) => Ok(Some(message)),
        Err(RslFault::Memory) => Err(Memory),
        Err(_) => Ok(None),
    }
}
