// SPDX-License-Identifier: MIT OR Apache-2.0
ghost use Rattle.std.specs.Prelude.{◌≡◌, ◌++◌, OnErr, OnOk};
ghost use Rattle.octets.specs.Refusal.{RefusesBy};
ghost use Rattle.ipa_framing.specs.Frame.{frame_text, write_fault};

use crate::FrameFault;
use octets::{Memory, Octets};

/// The greatest length of a frame's body in octets.
pub const MAX_BODY: usize = 2048;

/// The number of octets before the body: two for the length of the body, and one for the stream.
pub(crate) const HEADER_LENGTH: usize = 3;

/// A frame: the stream that it belongs to (`RSL_STREAM`, ..), and its body.
#[derive(Drop)]
pub struct Frame {
    pub stream: u8,
    pub body: Octets,
}

/// Appends the octets of `frame` to `out`: two octets with the length of the body, the high octet
/// first, the stream, and the body. `Err(TooLong)` if the body has more than `MAX_BODY` octets;
/// otherwise `Err(Memory)` if the allocation fails. On `Err` `out` is unchanged.
pub fn write_frame(frame: &Frame, out: &mut Vec<u8>) -> Result<(), FrameFault>
    ensures ok { OnOk result (out.new.items ≡ out.old.items ++ frame_text frame.now) }
    ensures refused { RefusesBy FrameFault.Memory result (write_fault frame.now) }
    ensures err { OnErr result (out.new.items ≡ out.old.items) }
{
    let body = frame.body.as_slice();
    let size = body.len();
    if size > MAX_BODY {
        return Err(FrameFault::TooLong);
    }
    let [high, low] = (size as u16).to_be_bytes();
    out.reserve(HEADER_LENGTH + size).map_err(Memory::from)?;
    out.push_reserved(high);
    out.push_reserved(low);
    out.push_reserved(frame.stream);
    out.extend_from_slice(body).map_err(Memory::from)?;
    Ok(())
}
