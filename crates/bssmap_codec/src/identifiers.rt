// SPDX-License-Identifier: MIT OR Apache-2.0
use octets::element::{Entry, Format};

/// The identifiers of the elements of BSSMAP that are known (TS 48.008 clause 3.2.2.1).
pub const CIRCUIT_IDENTITY: u8 = 0x01;

pub const CAUSE: u8 = 0x04;

pub const CELL_IDENTIFIER: u8 = 0x05;

pub const PRIORITY: u8 = 0x06;

pub const LAYER_3_HEADER: u8 = 0x07;

pub const CHANNEL_TYPE: u8 = 0x0b;

pub const RR_CAUSE: u8 = 0x15;

pub const LAYER_3_INFORMATION: u8 = 0x17;

pub const DLCI: u8 = 0x18;

pub const CHOSEN_CHANNEL: u8 = 0x21;

/// The elements of BSSMAP that are known, each with its format.
pub const ELEMENTS: [Entry; 10] = [
    Entry {
        id: CIRCUIT_IDENTITY,
        format: Format::Tv(2),
    },
    Entry {
        id: CAUSE,
        format: Format::Tlv,
    },
    Entry {
        id: CELL_IDENTIFIER,
        format: Format::Tlv,
    },
    Entry {
        id: PRIORITY,
        format: Format::Tlv,
    },
    Entry {
        id: LAYER_3_HEADER,
        format: Format::Tlv,
    },
    Entry {
        id: CHANNEL_TYPE,
        format: Format::Tlv,
    },
    Entry {
        id: RR_CAUSE,
        format: Format::Tv(1),
    },
    Entry {
        id: LAYER_3_INFORMATION,
        format: Format::Tlv,
    },
    Entry {
        id: DLCI,
        format: Format::Tv(1),
    },
    Entry {
        id: CHOSEN_CHANNEL,
        format: Format::Tv(1),
    },
];

/// The identifier of the option 'end of optional parameters' of SCCP (Q.713 clause 3).
pub const END_OF_OPTIONS: u8 = 0x00;

/// The identifier of the option 'user data' of SCCP (Q.713 clause 3).
pub const USER_DATA: u8 = 0x0f;
