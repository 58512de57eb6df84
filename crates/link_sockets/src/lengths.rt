// SPDX-License-Identifier: MIT OR Apache-2.0
use ipa_framing::MAX_BODY;

/// Tracks the lengths of the frames in the octets of a link, up to the first frame that is too
/// long.
#[derive(Clone, Copy)]
pub(crate) struct Lengths {
    /// The high octet of the length that is being received.
    high: u8,
    /// The number of octets of the current frame's head that were received, 0 to 2.
    head: u8,
    /// The last length that was received whole.
    length: u16,
    /// The number of octets of the current body that are still to be received.
    left: usize,
}

impl Lengths {
    /// The state before any octet is received.
    pub(crate) fn new() -> Lengths {
        Lengths {
            high: 0,
            head: 0,
            length: 0,
            left: 0,
        }
    }

    /// The length of the first body that is too long; `None` if no body was too long.
    pub(crate) fn too_long(&self) -> Option<u16> {
        if usize::from(self.length) > MAX_BODY {
            Some(self.length)
        } else {
            None
        }
    }

    /// Tracks the lengths in further received octets.
    pub(crate) fn pass(&mut self, octets: &[u8]) {
        let mut rest = octets;
        for _ in 0..octets.len() {
            if self.too_long().is_some() {
                return;
            }
            let passed = self.left.min(rest.len());
            self.left -= passed;
            rest = &rest[passed..];
            let [octet, behind @ ..] = rest else {
                return;
            };
            self.take_head(*octet);
            rest = behind;
        }
    }

    /// Takes an octet of the head of a frame. A head has two octets for the length and one for the
    /// stream.
    fn take_head(&mut self, octet: u8) {
        match self.head {
            0 => {
                self.high = octet;
                self.head = 1;
            }
            1 => {
                self.length = u16::from_be_bytes([self.high, octet]);
                self.head = 2;
            }
            _ => {
                self.left = usize::from(self.length);
                self.head = 0;
            }
        }
    }
}
