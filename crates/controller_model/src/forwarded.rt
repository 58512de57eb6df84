// SPDX-License-Identifier: MIT OR Apache-2.0
use dtap_codec::Sapi;
use octets::Octets;

/// A layer 3 message that was passed on from a mobile to the switch.
#[derive(Drop)]
pub struct Forwarded {
    pub sapi: Sapi,
    pub message: Octets,
}
