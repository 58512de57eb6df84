// SPDX-License-Identifier: MIT OR Apache-2.0
ghost use Rattle.std.specs.Prelude.{◌≡◌, option_map};
ghost use Rattle.octets.specs.Walk.{first_of};
ghost use Rattle.rsl_codec.specs.RslReading.{octet_of};
ghost use Rattle.run_judge.specs.Reading.{activation_elements, handover_reference};

use octets::element::{Entry, Format, first_value};

// The element identifiers of CHANNEL ACTIVATION (TS 48.058 clause 9.3).

const CHANNEL_NUMBER: u8 = 0x01;

const ACTIVATION_TYPE: u8 = 0x03;

const BS_POWER: u8 = 0x04;

const CHANNEL_IDENTIFICATION: u8 = 0x05;

const CHANNEL_MODE: u8 = 0x06;

const ENCRYPTION_INFORMATION: u8 = 0x07;

const HANDOVER_REFERENCE: u8 = 0x09;

const MS_POWER: u8 = 0x0d;

const PHYSICAL_CONTEXT: u8 = 0x10;

const TIMING_ADVANCE: u8 = 0x18;

const MS_POWER_PARAMETERS: u8 = 0x1f;

const BS_POWER_PARAMETERS: u8 = 0x20;

const SACCH_INFORMATION: u8 = 0x2c;

const UPLINK_IDENTITY_CODE: u8 = 0x34;

const MAIN_CHANNEL_REFERENCE: u8 = 0x35;

const MULTIRATE_CONFIGURATION: u8 = 0x36;

const MULTIRATE_CONTROL: u8 = 0x37;

const SUPPORTED_CODEC_TYPES: u8 = 0x38;

/// The elements of CHANNEL ACTIVATION (TS 48.058 clause 8.4.1), each with its format.
const ACTIVATION_ELEMENTS: [Entry; 18] = [
    Entry {
        id: CHANNEL_NUMBER,
        format: Format::Tv(1),
    },
    Entry {
        id: ACTIVATION_TYPE,
        format: Format::Tv(1),
    },
    Entry {
        id: BS_POWER,
        format: Format::Tv(1),
    },
    Entry {
        id: CHANNEL_IDENTIFICATION,
        format: Format::Tlv,
    },
    Entry {
        id: CHANNEL_MODE,
        format: Format::Tlv,
    },
    Entry {
        id: ENCRYPTION_INFORMATION,
        format: Format::Tlv,
    },
    Entry {
        id: HANDOVER_REFERENCE,
        format: Format::Tv(1),
    },
    Entry {
        id: MS_POWER,
        format: Format::Tv(1),
    },
    Entry {
        id: PHYSICAL_CONTEXT,
        format: Format::Tlv,
    },
    Entry {
        id: TIMING_ADVANCE,
        format: Format::Tv(1),
    },
    Entry {
        id: MS_POWER_PARAMETERS,
        format: Format::Tlv,
    },
    Entry {
        id: BS_POWER_PARAMETERS,
        format: Format::Tlv,
    },
    Entry {
        id: SACCH_INFORMATION,
        format: Format::Tlv,
    },
    Entry {
        id: UPLINK_IDENTITY_CODE,
        format: Format::Tlv,
    },
    Entry {
        id: MAIN_CHANNEL_REFERENCE,
        format: Format::Tv(1),
    },
    Entry {
        id: MULTIRATE_CONFIGURATION,
        format: Format::Tlv,
    },
    Entry {
        id: MULTIRATE_CONTROL,
        format: Format::Tv(1),
    },
    Entry {
        id: SUPPORTED_CODEC_TYPES,
        format: Format::Tlv,
    },
];

/// The handover reference in the body of a CHANNEL ACTIVATION, wherever its element stands. `None`
/// if the body has no such element.
pub(crate) fn handover_reference(body: &[u8]) -> Option<u8>
    ensures { result ≡ handover_reference body.now }
{
    let [_, _, elements @ ..] = body else {
        return None;
    };
    match reference_value(elements) {
        Some(value) => Some(octet(value)),
        None => None,
    }
}

#[tactic(auto, unfolding(crate::specs::Reading::activation_elements))]
fn reference_value(elements: &[u8]) -> Option<&[u8]>
    ensures { option_map (λ v. v.now) result ≡
        first_of HANDOVER_REFERENCE (activation_elements elements.now) }
{
    first_value(&ACTIVATION_ELEMENTS, elements, HANDOVER_REFERENCE)
}

// The first octet of a value; 0 if the value is empty.
fn octet(value: &[u8]) -> u8
    ensures { result ≡ octet_of value.now }
{
    match value {
        [octet, ..] => *octet,
        [] => 0,
    }
}
