// SPDX-License-Identifier: MIT OR Apache-2.0
ghost use Rattle.std.specs.Prelude.{◌≡◌, ◌%◌};
ghost use Rattle.rsl_codec.specs.LinkIdentifier.{short_message_link};

use crate::ChanNo;
use crate::channel_number::FIRST_SDCCH;
use std::marker::Model;

/// The link identifier of SAPI 0 on the main signalling channel.
pub const MAIN_LINK_SAPI_0: u8 = 0x00;

/// The link identifier of SAPI 3 on the main signalling channel.
pub const MAIN_LINK_SAPI_3: u8 = 0x03;

/// The link identifier of SAPI 3 on the SACCH.
pub const SACCH_SAPI_3: u8 = 0x43;

/// The bits of the SAPI in a link identifier: bits 3 to 1.
const SAPI_BITS: u8 = 0x07;

/// A link identifier (TS 48.058 clause 9.3.2). Bits 8 and 7 are 00 on the main signalling channel
/// and 01 on the SACCH; bits 3 to 1 are the SAPI. Any octet is kept as it was read.
#[derive(Clone, Copy)]
pub struct LinkId {
    octet: u8,
}

impl Model for LinkId {
    ghost use Rattle.std.specs.Prelude.{ℕ};

    ghost Value = { ℕ };

    ghost view = { λ l. l.octet };

    ghost inverse = { λ n. record { octet = n } };
}

impl LinkId {
    /// The link identifier in this octet. Every octet is allowed.
    pub fn read(octet: u8) -> LinkId
        ensures { result ≡ octet }
    {
        LinkId { octet }
    }

    /// The link of SAPI 0 on the main signalling channel.
    pub fn signalling() -> LinkId
        ensures { result ≡ MAIN_LINK_SAPI_0 }
    {
        LinkId {
            octet: MAIN_LINK_SAPI_0,
        }
    }

    /// The link of SAPI 3 for `channel`: on the main signalling channel for an SDCCH, on the SACCH
    /// for a TCH.
    pub fn short_messages(channel: ChanNo) -> LinkId
        ensures { result ≡ short_message_link channel }
    {
        let octet = if channel.octet() >= FIRST_SDCCH {
            MAIN_LINK_SAPI_3
        } else {
            SACCH_SAPI_3
        };
        LinkId { octet }
    }

    /// The octet of the link identifier.
    pub fn octet(self) -> u8
        ensures { result ≡ self }
    {
        self.octet
    }

    /// The SAPI: bits 3 to 1.
    pub fn sapi(self) -> u8
        ensures { result ≡ self % 8 }
    {
        SAPI_BITS & self.octet
    }
}
