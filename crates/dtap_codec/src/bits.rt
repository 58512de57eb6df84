// SPDX-License-Identifier: MIT OR Apache-2.0
ghost use Rattle.std.specs.Prelude.{◌≡◌, ◌+◌, ◌*◌, ◌^◌, ◌<◌, ◌≤◌, []};
ghost use Rattle.std.specs.Prelude.{◌∷◌};
ghost use Rattle.std.specs.Int.{from_be_bytes, w128};
ghost use Rattle.dtap_codec.specs.Bits.{Begin, field};

/// The bits that are still to be read, high bit first. `left` is how many there are, at most 128;
/// `number` is the number that these bits form.
#[derive(Drop)]
pub(crate) struct Bits {
    left: u32,
    number: u128,
    ghost few: { left ≤ 128 },
    ghost fits: { number < 2 ^ left },
}

impl Bits {
    /// The 128 bits of 16 octets.
    pub fn of_octets(octets: [u8; 16]) -> Bits
        ensures left { result.left ≡ 128 }
        ensures number { result.number ≡ from_be_bytes w128 octets }
    {
        Bits {
            left: 128,
            number: u128::from_be_bytes(octets),
        }
    }

    /// Reads the next `width` bits as a number. Assumes: `width` is 1 to 8, and at least `width`
    /// bits are left.
    pub fn take(&mut self, width: u32) -> u8
        requires some { 0 < width }
        requires octet { width ≤ 8 }
        requires enough { width ≤ self.old.left }
        ensures { Begin (field width result ∷ []) self.old.left self.old.number
            self.new.left self.new.number }
    {
        let left = self.left - width;
        let taken = self.number >> left;
        let number = self.number % (1 << left);
        self.left = left;
        self.number = number;
        taken as u8
    }
}
