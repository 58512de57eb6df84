// SPDX-License-Identifier: MIT OR Apache-2.0
ghost use Rattle.std.specs.Prelude.{◌≡◌, ◌<◌};
ghost use Rattle.settings.specs.Parameters.{bsic_of, number_of};

use dtap_codec::ColourCode;

/// A base station identity code (TS 23.003 clause 4.3.2).
#[derive(Clone, Copy)]
pub struct Bsic {
    /// The network colour code, the three high bits.
    pub ncc: ColourCode,
    /// The base station colour code, the three low bits.
    pub bcc: ColourCode,
}

impl Bsic {
    /// The code with the number `number`, which must be below 64.
    pub fn new(number: u8) -> Bsic
        requires { number < 64 }
        ensures { result ≡ bsic_of number }
    {
        Bsic {
            ncc: ColourCode::new(number / 8),
            bcc: ColourCode::new(number % 8),
        }
    }

    /// The number: NCC times 8 plus BCC, below 64.
    pub fn number(self) -> u8
        ensures number { result ≡ number_of self }
        ensures six_bits { result < 64 }
    {
        8 * self.ncc.number() + self.bcc.number()
    }
}
