// SPDX-License-Identifier: MIT OR Apache-2.0
/// The channel mode of an SDCCH (TS 48.058 clause 9.3.6). The octets of a channel mode are: 00 for
/// no discontinuous transmission; 03 for signalling or 01 for speech; the kind and rate of the
/// channel; 00 for signalling or 01 for speech version 1.
pub const SDCCH_MODE: [u8; 4] = [0x00, 0x03, 0x01, 0x00];

/// The channel mode of a full rate TCH.
pub const FULL_RATE_MODE: [u8; 4] = [0x00, 0x01, 0x08, 0x01];

/// The channel mode of a half rate TCH.
pub const HALF_RATE_MODE: [u8; 4] = [0x00, 0x01, 0x09, 0x01];

/// The DLCI octet of SAPI 0 (TS 48.006 clause 9.3.2).
pub const SAPI_0_DLCI: u8 = 0x00;

/// The DLCI octet of SAPI 3 on an SDCCH.
pub const SDCCH_SAPI_3_DLCI: u8 = 0x83;

/// The DLCI octet of SAPI 3 on the SACCH of a TCH.
pub const SACCH_SAPI_3_DLCI: u8 = 0xc3;

/// The largest timing advance, in symbols (TS 44.018 clause 10.5.2.40).
pub const MAX_TIMING_ADVANCE: u8 = 63;

/// The number of the link to the switch.
pub const SWITCH_LINK: u16 = 0;
