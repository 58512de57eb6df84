// SPDX-License-Identifier: MIT OR Apache-2.0
//! The causes that the controller writes: BSSMAP causes (TS 48.008 clause 3.2.2.5), and the RR
//! causes of CHANNEL RELEASE (TS 44.018 clause 10.5.2.31).

/// BSSMAP cause: radio interface message failure.
pub const RADIO_INTERFACE_MESSAGE_FAILURE: u8 = 0x00;

/// BSSMAP cause: radio interface failure.
pub const RADIO_INTERFACE_FAILURE: u8 = 0x01;

/// BSSMAP cause: radio interface failure, reversion to old channel.
pub const REVERSION_TO_OLD_CHANNEL: u8 = 0x0a;

/// BSSMAP cause: better cell.
pub const BETTER_CELL: u8 = 0x0c;

/// BSSMAP cause: equipment failure.
pub const EQUIPMENT_FAILURE: u8 = 0x20;

/// BSSMAP cause: no radio resource available.
pub const NO_RADIO_RESOURCE: u8 = 0x21;

/// BSSMAP cause: base station system not equipped.
pub const BSS_NOT_EQUIPPED: u8 = 0x25;

/// BSSMAP cause: ciphering algorithm not supported.
pub const CIPHERING_NOT_SUPPORTED: u8 = 0x40;

/// BSSMAP cause: protocol error between base station system and switch.
pub const PROTOCOL_ERROR: u8 = 0x60;

/// RR cause of CHANNEL RELEASE: normal event.
pub const NORMAL_EVENT: u8 = 0x00;

/// RR cause of CHANNEL RELEASE: abnormal release, unspecified.
pub const ABNORMAL_RELEASE: u8 = 0x01;
