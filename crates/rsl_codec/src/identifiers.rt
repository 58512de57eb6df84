// SPDX-License-Identifier: MIT OR Apache-2.0
use octets::element::{Entry, Format};

// The element identifiers (TS 48.058 clause 9.3).

pub const CHANNEL_NUMBER: u8 = 0x01;

pub const LINK_IDENTIFIER: u8 = 0x02;

pub const ACTIVATION_TYPE: u8 = 0x03;

pub const BS_POWER: u8 = 0x04;

pub const CHANNEL_MODE: u8 = 0x06;

pub const FRAME_NUMBER: u8 = 0x08;

pub const HANDOVER_REFERENCE: u8 = 0x09;

pub const L1_INFORMATION: u8 = 0x0a;

pub const L3_INFORMATION: u8 = 0x0b;

pub const ACCESS_DELAY: u8 = 0x11;

pub const REQUEST_REFERENCE: u8 = 0x13;

pub const RELEASE_MODE: u8 = 0x14;

pub const RLM_CAUSE: u8 = 0x16;

pub const UPLINK_MEASUREMENTS: u8 = 0x19;

pub const CAUSE: u8 = 0x1a;

pub const MEASUREMENT_NUMBER: u8 = 0x1b;

pub const FULL_IMMEDIATE_ASSIGN: u8 = 0x2b;

/// The table of the elements that messages can have: the identifier and the format of each element.
pub const ELEMENTS: [Entry; 17] = [
    Entry {
        id: CHANNEL_NUMBER,
        format: Format::Tv(1),
    },
    Entry {
        id: LINK_IDENTIFIER,
        format: Format::Tv(1),
    },
    Entry {
        id: ACTIVATION_TYPE,
        format: Format::Tv(1),
    },
    Entry {
        id: BS_POWER,
        format: Format::Tv(1),
    },
    Entry {
        id: CHANNEL_MODE,
        format: Format::Tlv,
    },
    Entry {
        id: FRAME_NUMBER,
        format: Format::Tv(2),
    },
    Entry {
        id: HANDOVER_REFERENCE,
        format: Format::Tv(1),
    },
    Entry {
        id: L1_INFORMATION,
        format: Format::Tv(2),
    },
    Entry {
        id: L3_INFORMATION,
        format: Format::TlvE,
    },
    Entry {
        id: ACCESS_DELAY,
        format: Format::Tv(1),
    },
    Entry {
        id: REQUEST_REFERENCE,
        format: Format::Tv(3),
    },
    Entry {
        id: RELEASE_MODE,
        format: Format::Tv(1),
    },
    Entry {
        id: RLM_CAUSE,
        format: Format::Tlv,
    },
    Entry {
        id: UPLINK_MEASUREMENTS,
        format: Format::Tlv,
    },
    Entry {
        id: CAUSE,
        format: Format::Tlv,
    },
    Entry {
        id: MEASUREMENT_NUMBER,
        format: Format::Tv(1),
    },
    Entry {
        id: FULL_IMMEDIATE_ASSIGN,
        format: Format::Tlv,
    },
];
