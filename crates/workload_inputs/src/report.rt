// SPDX-License-Identifier: MIT OR Apache-2.0
//! The value of a MEASUREMENT REPORT (TS 44.018 clause 10.5.2.20).
ghost use Rattle.std.specs.Prelude.{◌≤◌, ◌<◌};

/// A neighbour cell in a report.
#[derive(Clone, Copy)]
pub(crate) struct Neighbour {
    pub(crate) level: u8,
    /// The place of the neighbour's ARFCN among the ARFCNs of the other cells, from 0.
    pub(crate) place: u8,
    pub(crate) bsic: u8,
}

/// The octets of a valid report.
pub(crate) fn report(level: u8, neighbours: &[Neighbour]) -> [u8; 16] {
    let mut bits = Bits { value: 0, count: 0 };
    bits.push(level & 0x3f, 8);
    bits.push(level & 0x3f, 8);
    bits.push(0, 7);
    bits.push(neighbours.len().min(6) as u8, 3);
    for neighbour in neighbours.iter().take(6) {
        bits.push(neighbour.level & 0x3f, 6);
        bits.push(neighbour.place & 0x1f, 5);
        bits.push(neighbour.bsic & 0x3f, 6);
    }
    bits.octets()
}

/// The place of a cell's ARFCN, from 0, among the ARFCNs of all cells except the serving one. The
/// ARFCNs rise from cell to cell.
pub(crate) fn place_of(cell: u16, serving: u16) -> u8 {
    let place = if cell < serving {
        cell.saturating_sub(1)
    } else {
        cell.saturating_sub(2)
    };
    place.min(31) as u8
}

/// A sequence of bits, to which values are appended. The most significant bit of each value comes
/// first.
#[derive(Clone, Copy)]
struct Bits {
    value: u128,
    count: u32,
}

impl Bits {
    fn push(&mut self, value: u8, width: u32)
        requires { width < 128 }
    {
        self.value = (self.value << width) | u128::from(value);
        self.count = self.count.saturating_add(width);
    }

    /// The bits as sixteen octets, padded at the end with bits 0.
    fn octets(self) -> [u8; 16] {
        let behind = 128_u32.saturating_sub(self.count);
        self.value.checked_shl(behind).unwrap_or(0).to_be_bytes()
    }
}
