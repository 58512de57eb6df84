// SPDX-License-Identifier: MIT OR Apache-2.0
ghost use Rattle.std.specs.Prelude.{◌≡◌};
ghost use Rattle.rsl_codec.specs.ChannelNumber.{channel_by};

use crate::RslFault;
use std::marker::Model;

/// The first channel number of a TCH. All numbers from this one to `LAST_SDCCH` are allowed; they
/// are those of TCH/F, TCH/H, SDCCH/4 and SDCCH/8, in this order.
pub const FIRST_TCH: u8 = 0x08;

/// The first channel number of a TCH/H.
pub const FIRST_TCH_H: u8 = 0x10;

/// The first channel number of an SDCCH.
pub const FIRST_SDCCH: u8 = 0x20;

/// The last channel number of an SDCCH.
pub const LAST_SDCCH: u8 = 0x7f;

/// The channel number of the RACH.
pub const RACH: u8 = 0x88;

/// The channel number that the PCH and the AGCH share.
pub const PCH_AND_AGCH: u8 = 0x90;

/// A channel number (TS 48.058 clause 9.3.1). Bits 8 to 4 have the kind of channel and the
/// subchannel `s`, bits 3 to 1 the timeslot `t`:
///
/// ```text
///  8 7 6 5 4 3 2 1
/// +---------+-----+
/// |0 0 0 0 1|t t t|  08 to 0F: TCH/F
/// |0 0 0 1 s|t t t|  10 to 1F: TCH/H
/// |0 0 1 s s|t t t|  20 to 3F: SDCCH/4
/// |0 1 s s s|t t t|  40 to 7F: SDCCH/8
/// |1 0 0 0 1|0 0 0|  88: RACH
/// |1 0 0 1 0|0 0 0|  90: PCH and AGCH
/// +---------+-----+
/// ```
///
/// No other octet is allowed.
#[derive(Clone, Copy, PartialEq, Eq)]
pub struct ChanNo {
    octet: u8,
}

impl Model for ChanNo {
    ghost use Rattle.std.specs.Prelude.{◌≡◌, ℕ, true};
    ghost use Rattle.rsl_codec.specs.ChannelNumber.{is_channel};

    ghost Value = { ℕ };

    ghost view = { λ c. c.octet };

    ghost invariant = { λ c. is_channel c.octet ≡ true };

    ghost inverse = { λ n. record { octet = n } };
}

impl ChanNo {
    /// The channel number in this octet. Returns `BadChannel` if the octet isn't allowed.
    pub fn read(octet: u8) -> Result<ChanNo, RslFault>
        ensures { result ≡ channel_by octet }
    {
        match octet {
            FIRST_TCH..=LAST_SDCCH | RACH | PCH_AND_AGCH => Ok(ChanNo { octet }),
            _ => Err(RslFault::BadChannel),
        }
    }

    /// The channel number of the RACH.
    pub fn random_access() -> ChanNo
        ensures { result ≡ RACH }
    {
        ChanNo { octet: RACH }
    }

    /// The channel number that the PCH and the AGCH share.
    pub fn access_grant() -> ChanNo
        ensures { result ≡ PCH_AND_AGCH }
    {
        ChanNo {
            octet: PCH_AND_AGCH,
        }
    }

    /// The octet of the channel number.
    pub fn octet(self) -> u8
        ensures { result ≡ self }
    {
        self.octet
    }
}
