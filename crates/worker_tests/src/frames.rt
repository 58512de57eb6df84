// SPDX-License-Identifier: MIT OR Apache-2.0
use ipa_framing::Frame;
use octets::{Memory, Octets};
use std::alloc::Global;

/// A frame whose body is one octet.
pub(crate) fn frame(alloc: Global, octet: u8) -> Result<Frame, Memory> {
    let body = Octets::copy(alloc, &[octet])?;
    Ok(Frame { stream: 0, body })
}

/// Whether the frame's body is this octet.
pub(crate) fn is_frame(frame: &Frame, octet: u8) -> bool {
    frame.stream == 0 && frame.body.as_slice() == [octet].as_slice()
}
