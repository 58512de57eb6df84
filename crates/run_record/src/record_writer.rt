// SPDX-License-Identifier: MIT OR Apache-2.0
ghost use Rattle.std.specs.Prelude.{◌≡◌, ◌<◌, ◌≤◌, ◌++◌, ◌%◌, OnErr, OnOk, length};
ghost use Rattle.frame_pictures.specs.Capture.{file_header};
ghost use Rattle.frame_pictures.specs.Packet.{framed};
ghost use Rattle.run_record.specs.Packet.{datagram, down, end_of, packet_of, segment, up};
ghost use Rattle.run_record.specs.Reads.{beginning};
ghost use Rattle.run_record.specs.Record.{moved, record_header, record_of};

use crate::packet::{
    datagram_header, end_of, four_octets, internet_header, segment_header, two_octets,
};
use crate::place::{down, up};
use crate::{Entry, Place, Stamp};
use frame_pictures::End;
use ipa_framing::Frame;
use octets::Memory;
use ruled_relay::What;
use std::alloc::Global;

/// The header of a pcap file: magic, version 2.4, time zone and accuracy 0, at most 65,535 octets
/// a packet, link type 101 (raw IPv4).
pub(crate) const FILE_HEADER: [u8; 24] = [
    0xa1, 0xb2, 0xc3, 0xd4, 0x00, 0x02, 0x00, 0x04, 0x00, 0x00, 0x00, 0x00, 0x00, 0x00, 0x00, 0x00,
    0x00, 0x00, 0xff, 0xff, 0x00, 0x00, 0x00, 0x65,
];

/// The flags ACK and PSH, for a segment that carries octets.
const PSH: u8 = 0x18;

/// The flags ACK and FIN, for a segment that marks the end of a link.
pub(crate) const FIN: u8 = 0x11;

/// One direction of a link.
#[derive(Clone, Copy)]
struct Way {
    /// The index of this direction's sequence number in `Place::numbers`.
    number: usize,
    /// The index of the opposite direction's sequence number.
    back: usize,
    from: End,
    to: End,
}

fn way_up(link: u8) -> Way
    ensures { result ≡ record {
      number = up link;
      back = down link;
      from = end_of link;
      to = End.Controller;
    } }
{
    Way {
        number: up(link),
        back: down(link),
        from: end_of(link),
        to: End::Controller,
    }
}

fn way_down(link: u8) -> Way
    ensures { result ≡ record {
      number = down link;
      back = up link;
      from = End.Controller;
      to = end_of link;
    } }
{
    Way {
        number: down(link),
        back: up(link),
        from: End::Controller,
        to: end_of(link),
    }
}

/// Appends the time of a packet, then the length of the packet in octets, two times.
fn write_record_header(stamp: Stamp, size: usize, out: &mut Vec<u8>) -> Result<(), Memory>
    ensures { OnOk result
        (out.new.items ≡ out.old.items ++ record_header stamp (size % 4294967296)) }
{
    let [a, b, c, d] = four_octets(stamp.seconds);
    let [e, f, g, h] = four_octets(stamp.microseconds);
    let [i, j, k, l] = four_octets((size % 4294967296) as u32);
    let header = [a, b, c, d, e, f, g, h, i, j, k, l, i, j, k, l];
    out.extend_from_slice(&header)?;
    Ok(())
}

/// Appends an IPv4 packet with a TCP segment that carries `first` and then `rest`.
fn write_segment(
    place: &Place,
    way: Way,
    flags: u8,
    first: &[u8],
    rest: &[u8],
    out: &mut Vec<u8>,
) -> Result<(), Memory>
    requires first { length first.now ≤ 3 }
    requires number { way.number < 512 }
    requires back { way.back < 512 }
    ensures { OnOk result (out.new.items ≡ out.old.items
        ++ segment place.now way.number way.back flags way.from way.to (first.now ++ rest.now)) }
{
    let size = ((40 + first.len() + rest.len()) % 65536) as u16;
    let sequence = place.numbers[way.number];
    let acknowledged = place.numbers[way.back];
    out.extend_from_slice(&internet_header(size, place.packets, 6, way.from, way.to))?;
    out.extend_from_slice(&segment_header(sequence, acknowledged, flags, way.from, way.to))?;
    out.extend_from_slice(first)?;
    out.extend_from_slice(rest)?;
    Ok(())
}

/// Appends an IPv4 packet with a UDP datagram. The datagram carries `kind` (1 for a head, 2 for
/// time that passed, 3 for a lost rest), then `octets`.
fn write_datagram(place: &Place, kind: u8, octets: &[u8], out: &mut Vec<u8>) -> Result<(), Memory>
    ensures { OnOk result (out.new.items ≡ out.old.items ++ datagram place.now kind octets.now) }
{
    let size = octets.len();
    let packet_size = ((29 + size) % 65536) as u16;
    let datagram_size = ((9 + size) % 65536) as u16;
    let end = End::Controller;
    out.extend_from_slice(&internet_header(packet_size, place.packets, 17, end, end))?;
    out.extend_from_slice(&datagram_header(datagram_size))?;
    out.push(kind)?;
    out.extend_from_slice(octets)?;
    Ok(())
}

/// Appends an IPv4 packet with a frame.
fn write_frame(place: &Place, way: Way, frame: &Frame, out: &mut Vec<u8>) -> Result<(), Memory>
    requires number { way.number < 512 }
    requires back { way.back < 512 }
    ensures { OnOk result (out.new.items ≡ out.old.items
        ++ segment place.now way.number way.back 0x18 way.from way.to (framed frame.now)) }
{
    let body = frame.body.as_slice();
    let [high, low] = two_octets((body.len() % 65536) as u16);
    write_segment(place, way, PSH, &[high, low, frame.stream], body, out)
}

/// Appends the packet of an entry.
fn write_packet(place: &Place, entry: &Entry, out: &mut Vec<u8>) -> Result<(), Memory>
    ensures { OnOk result (out.new.items ≡ out.old.items ++ packet_of place.now entry.now) }
{
    match entry {
        Entry::Head(octets) => write_datagram(place, 1, octets.as_slice(), out),
        Entry::Took(link, What::Frame(frame)) => write_frame(place, way_up(*link), frame, out),
        Entry::Took(link, What::Down) => write_segment(place, way_up(*link), FIN, &[], &[], out),
        Entry::Passed(ms) => write_datagram(place, 2, &four_octets(*ms), out),
        Entry::Put(link, frame) => write_frame(place, way_down(*link), frame, out),
        Entry::Lost => write_datagram(place, 3, &[], out),
    }
}

/// Writes the file of a record, entry by entry.
#[derive(Drop)]
pub struct RecordWriter {
    /// The place of the next packet.
    pub place: Place,
    packet: Vec<u8>,
}

impl RecordWriter {
    /// A writer of a new file.
    pub fn new(alloc: Global) -> RecordWriter
        ensures { result.place ≡ beginning }
    {
        RecordWriter {
            place: Place::beginning(),
            packet: Vec::new(alloc),
        }
    }

    /// Begins a new file: appends its header and resets the place. Fails only if an allocation
    /// fails.
    pub fn begin(&mut self, out: &mut Vec<u8>) -> Result<(), Memory>
        ensures place { self.new.place ≡ beginning }
        ensures file { OnOk result (out.new.items ≡ out.old.items ++ file_header) }
    {
        self.place = Place::beginning();
        out.extend_from_slice(&FILE_HEADER)?;
        Ok(())
    }

    /// Appends the packet of an entry. Fails only if an allocation fails. The place is unchanged
    /// then, but `out` may have got a part of the packet.
    pub fn entry(&mut self, stamp: Stamp, entry: &Entry, out: &mut Vec<u8>) -> Result<(), Memory>
        ensures octets { OnOk result (out.new.items ≡ out.old.items
            ++ record_of self.old.place (record { stamp = stamp; entry = entry.now })) }
        ensures place { OnOk result (self.new.place ≡ moved self.old.place entry.now) }
        ensures refused { OnErr result (self.new.place ≡ self.old.place) }
    {
        self.packet.clear();
        write_packet(&self.place, entry, &mut self.packet)?;
        write_record_header(stamp, self.packet.len(), out)?;
        out.extend_from_slice(self.packet.as_slice())?;
        self.place.pass(entry);
        Ok(())
    }
}
