// SPDX-License-Identifier: MIT OR Apache-2.0
ghost use Rattle.std.specs.Prelude.{◌≡◌, ◌<◌};
ghost use Rattle.run_record.specs.Packet.{down, up};
ghost use Rattle.run_record.specs.Reads.{beginning};
ghost use Rattle.run_record.specs.Record.{advanced, moved};

use crate::Entry;
use ruled_relay::What;

/// A place between two packets of a record.
#[derive(Drop)]
pub struct Place {
    /// The number of packets before the place, modulo 65536.
    pub packets: u16,
    /// The sequence numbers of the next octets: at index 2i for octets from link i, at index 2i + 1
    /// for octets to link i.
    pub numbers: [u32; 512],
}

/// The index in `Place::numbers` for octets from a link.
pub(crate) fn up(link: u8) -> usize
    ensures is { result ≡ up link }
    ensures within { result < 512 }
{
    2 * usize::from(link)
}

/// The index in `Place::numbers` for octets to a link.
pub(crate) fn down(link: u8) -> usize
    ensures is { result ≡ down link }
    ensures within { result < 512 }
{
    2 * usize::from(link) + 1
}

impl Place {
    /// The place before the first packet of a file.
    pub fn beginning() -> Place
        ensures { result ≡ beginning }
    {
        Place {
            packets: 0,
            numbers: [1; 512],
        }
    }

    /// Moves the place past the packet of an entry.
    pub fn pass(&mut self, entry: &Entry)
        ensures { self.new ≡ moved self.old entry.now }
    {
        self.packets = self.packets.wrapping_add(1);
        match entry {
            Entry::Took(link, What::Frame(frame)) => {
                self.advance(up(*link), 3 + frame.body.as_slice().len())
            }
            Entry::Took(link, What::Down) => self.advance(up(*link), 1),
            Entry::Put(link, frame) => {
                self.advance(down(*link), 3 + frame.body.as_slice().len())
            }
            _ => {}
        }
    }

    /// Adds `octets` to the sequence number at the index `way`, modulo 2^32.
    fn advance(&mut self, way: usize, octets: usize)
        requires { way < 512 }
        ensures { self.new ≡ record self.old {
          numbers = advanced way octets self.old.numbers;
        } }
    {
        let octets = (octets % 4294967296) as u32;
        self.numbers[way] = self.numbers[way].wrapping_add(octets);
    }
}
