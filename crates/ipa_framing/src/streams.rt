// SPDX-License-Identifier: MIT OR Apache-2.0
/// The stream of the radio signalling link (RSL) of a base station.
pub const RSL_STREAM: u8 = 0x00;

/// The stream of SCCP, on the link to the switch.
pub const SCCP_STREAM: u8 = 0xfd;

/// The stream of the messages that manage the link itself (CCM).
pub const CCM_STREAM: u8 = 0xfe;

/// The stream of operation and maintenance (OML).
pub const OML_STREAM: u8 = 0xff;

/// The first octet of a CCM message that asks whether the other end is alive.
pub const PING: u8 = 0x00;

/// The first octet of the CCM message that answers a PING.
pub const PONG: u8 = 0x01;
