// SPDX-License-Identifier: MIT OR Apache-2.0
//! IPA framing of station and switch links: splits the octets of a link into frames, however the
//! octets were cut into pieces.
//!
//! A frame consists of two octets with the length of its body, the high octet first, an octet for
//! the stream, and the body.
#![tactic(auto)]

pub use fault::FrameFault;
pub use frame::{Frame, MAX_BODY, write_frame};
pub use framer::{Framer, stream_is_its_frames};
pub use streams::{CCM_STREAM, OML_STREAM, PING, PONG, RSL_STREAM, SCCP_STREAM};

mod fault;
mod frame;
mod framer;
mod streams;
