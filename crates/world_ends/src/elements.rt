// SPDX-License-Identifier: MIT OR Apache-2.0
ghost use Rattle.std.specs.Prelude.{◌≡◌};
ghost use Rattle.rsl_codec.specs.declared.identifiers.TheConstants.{ELEMENTS};

use octets::element::{Entry, Format};

// The elements that a CHANNEL ACTIVATION needs (TS 48.058 clause 9.3).

pub(crate) const CHANNEL_NUMBER: u8 = 0x01;

pub(crate) const ACTIVATION_TYPE: u8 = 0x03;

pub(crate) const CHANNEL_MODE: u8 = 0x06;

/// All elements of RSL messages, each with its format, as in `rsl_codec`. Allocates nothing.
pub(crate) fn elements() -> [Entry; 17]
    ensures { result ≡ ELEMENTS }
{
    [
        entry(CHANNEL_NUMBER, Format::Tv(1)),
        entry(0x02, Format::Tv(1)),
        entry(ACTIVATION_TYPE, Format::Tv(1)),
        entry(0x04, Format::Tv(1)),
        entry(CHANNEL_MODE, Format::Tlv),
        entry(0x08, Format::Tv(2)),
        entry(0x09, Format::Tv(1)),
        entry(0x0a, Format::Tv(2)),
        entry(0x0b, Format::TlvE),
        entry(0x11, Format::Tv(1)),
        entry(0x13, Format::Tv(3)),
        entry(0x14, Format::Tv(1)),
        entry(0x16, Format::Tlv),
        entry(0x19, Format::Tlv),
        entry(0x1a, Format::Tlv),
        entry(0x1b, Format::Tv(1)),
        entry(0x2b, Format::Tlv),
    ]
}

fn entry(id: u8, format: Format) -> Entry
    ensures { result ≡ record { id = id; format = format } }
{
    Entry { id, format }
}
