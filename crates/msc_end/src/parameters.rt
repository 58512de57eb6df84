// SPDX-License-Identifier: MIT OR Apache-2.0
/// The greatest number of connections of a switch end.
pub const CONNECTION_LIMIT: usize = 0x7f_ffff;

/// The reference of connection n is this number plus n; the first connection has n = 1.
pub const REFERENCE_BASE: u32 = 0x80_0000;

/// The DLCI octet written for SAPI 0, which leaves the channel unspecified (TS 48.006 clause
/// 9.3.2).
pub const SAPI_0_LINK: u8 = 0x00;

/// The DLCI octet written for SAPI 3, which leaves the channel unspecified.
pub const SAPI_3_LINK: u8 = 0x03;

/// The channel type that `assign` asks for: speech version 1 on a full rate channel (TS 48.008
/// clause 3.2.2.11).
pub const SPEECH_CHANNEL: [u8; 3] = [0x01, 0x08, 0x01];

/// The cause with which `clear` clears a connection: call control (TS 48.008 clause 3.2.2.5).
pub const CALL_CONTROL_CAUSE: u8 = 0x09;
