// SPDX-License-Identifier: MIT OR Apache-2.0
ghost use Rattle.std.specs.Prelude.{◌≡◌, ◌<◌, ◌++◌, OnOk, length};
ghost use Rattle.frame_pictures.specs.Packet.{address, checksum, folded, four_octets, framed};
ghost use Rattle.frame_pictures.specs.Packet.{internet_fields, internet_header};
ghost use Rattle.frame_pictures.specs.Packet.{packet, packet_size};
ghost use Rattle.frame_pictures.specs.Packet.{port, segment_header, sum_of_words, two_octets};

use crate::link_frame::End;
use ipa_framing::Frame;
use octets::Memory;

/// The IPv4 address of an end: 10.0.0.2 for the switch, 10.0.0.1 for the controller. The address of
/// a station is 10.0.1.n, where n is the number of its cell modulo 256.
fn address(end: End) -> [u8; 4]
    ensures { result ≡ address end }
{
    match end {
        End::Switch => [10, 0, 0, 2],
        End::Controller => [10, 0, 0, 1],
        End::Station(number) => [10, 0, 1, (number % 256) as u8],
    }
}

/// The TCP port of `end` on its link to `other`.
fn port(end: End, other: End) -> u16
    ensures { result ≡ port end other }
{
    match end {
        End::Switch => 5000,
        End::Controller => match other {
            End::Station(_) => 3003,
            _ => 49152,
        },
        End::Station(_) => 49152,
    }
}

fn two_octets(number: u16) -> [u8; 2]
    ensures { result ≡ two_octets number }
{
    number.to_be_bytes()
}

pub(crate) fn four_octets(number: u32) -> [u8; 4]
    ensures { result ≡ four_octets number }
{
    number.to_be_bytes()
}

fn word(octets: [u8; 2]) -> u16
    ensures { result ≡ sum_of_words octets }
{
    u16::from_be_bytes(octets)
}

/// The sum of the 16-bit words of an IPv4 header whose checksum field is 0.
fn sum_of_fields(size: u16, from: End, to: End) -> u32
    ensures sum { result ≡ sum_of_words (internet_fields size 0 from to) }
    ensures words { result < 655360 }
{
    let [a, b, c, d] = address(from);
    let [e, f, g, h] = address(to);
    let ends = u32::from(word([a, b]))
        + u32::from(word([c, d]))
        + u32::from(word([e, f]))
        + u32::from(word([g, h]));
    0x4500 + u32::from(size) + 0x4000 + 0x4006 + ends
}

fn folded(sum: u32) -> u32
    ensures { result ≡ folded sum }
{
    sum / 65536 + sum % 65536
}

/// The checksum of the IPv4 header of a packet with a total length of `size` octets.
fn header_checksum(size: u16, from: End, to: End) -> u16
    ensures { result ≡ checksum (internet_fields size 0 from to) }
{
    let sum = folded(folded(sum_of_fields(size, from, to)));
    (65535 - sum) as u16
}

/// The header of an IPv4 packet with a total length of `size` octets.
fn internet_header(size: u16, from: End, to: End) -> [u8; 20]
    ensures { result ≡ internet_header size from to }
{
    let [size_high, size_low] = two_octets(size);
    let [sum_high, sum_low] = two_octets(header_checksum(size, from, to));
    let [a, b, c, d] = address(from);
    let [e, f, g, h] = address(to);
    [
        0x45, 0x00, size_high, size_low, 0x00, 0x00, 0x40, 0x00, 0x40, 0x06, sum_high, sum_low, a,
        b, c, d, e, f, g, h,
    ]
}

/// The TCP header of a segment. `sequence` is the number of the segment's first octet;
/// `acknowledged` is the number of the next octet that the sender expects.
fn segment_header(sequence: u32, acknowledged: u32, from: End, to: End) -> [u8; 20]
    ensures { result ≡ segment_header sequence acknowledged from to }
{
    let [from_high, from_low] = two_octets(port(from, to));
    let [to_high, to_low] = two_octets(port(to, from));
    let [a, b, c, d] = four_octets(sequence);
    let [e, f, g, h] = four_octets(acknowledged);
    [
        from_high, from_low, to_high, to_low, a, b, c, d, e, f, g, h, 0x50, 0x18, 0xff, 0xff, 0x00,
        0x00, 0x00, 0x00,
    ]
}

/// The length of a frame on its link, in octets.
pub(crate) fn framed_size(frame: &Frame) -> usize
    ensures { result ≡ length (framed frame.now) }
{
    3 + frame.body.as_slice().len()
}

/// The length of a packet with a frame, in octets.
pub(crate) fn packet_size(frame: &Frame) -> usize
    ensures { result ≡ packet_size frame.now }
{
    43 + frame.body.as_slice().len()
}

/// Appends the octets of a frame: the body's length modulo 65,536 (two octets), the stream (one
/// octet) and the body.
fn write_framed(frame: &Frame, out: &mut Vec<u8>) -> Result<(), Memory>
    ensures { OnOk result (out.new.items ≡ out.old.items ++ framed frame.now) }
{
    let size = (frame.body.len() % 65536) as u16;
    out.extend_from_slice(&two_octets(size))?;
    out.push(frame.stream)?;
    out.extend_from_slice(frame.body.as_slice())?;
    Ok(())
}

/// Appends an IPv4 packet that carries `frame` from `from` to `to`. Fails only if an allocation
/// fails.
pub(crate) fn write_packet(
    sequence: u32,
    acknowledged: u32,
    from: End,
    to: End,
    frame: &Frame,
    out: &mut Vec<u8>,
) -> Result<(), Memory>
    ensures { OnOk result (out.new.items
        ≡ out.old.items ++ packet sequence acknowledged from to frame.now) }
{
    let size = (packet_size(frame) % 65536) as u16;
    out.extend_from_slice(&internet_header(size, from, to))?;
    out.extend_from_slice(&segment_header(sequence, acknowledged, from, to))?;
    write_framed(frame, out)
}
