// SPDX-License-Identifier: MIT OR Apache-2.0
ghost use Rattle.std.specs.Prelude.{◌≡◌, ◌<◌};
ghost use Rattle.frame_pictures.specs.Packet.{address, checksum, folded, four_octets, port};
ghost use Rattle.frame_pictures.specs.Packet.{sum_of_words, two_octets};
ghost use Rattle.run_record.specs.Packet.{datagram_header, end_of, internet_fields};
ghost use Rattle.run_record.specs.Packet.{internet_header, segment_header};

use frame_pictures::End;

/// The end of a link other than the controller: the switch for link 0, else the station with the
/// number `link`.
pub(crate) fn end_of(link: u8) -> End
    ensures { result ≡ end_of link }
{
    if link == 0 {
        End::Switch
    } else {
        End::Station(u16::from(link))
    }
}

fn address(end: End) -> [u8; 4]
    ensures { result ≡ address end }
{
    match end {
        End::Switch => [10, 0, 0, 2],
        End::Controller => [10, 0, 0, 1],
        End::Station(number) => [10, 0, 1, (number % 256) as u8],
    }
}

fn port(end: End, other: End) -> u16
    ensures { result ≡ port end other }
{
    match end {
        End::Switch => 5000,
        End::Controller => match other {
            End::Station(_) => 3003,
            _ => 49152,
        },
        End::Station(_) => 49152,
    }
}

pub(crate) fn two_octets(number: u16) -> [u8; 2]
    ensures { result ≡ two_octets number }
{
    number.to_be_bytes()
}

pub(crate) fn four_octets(number: u32) -> [u8; 4]
    ensures { result ≡ four_octets number }
{
    number.to_be_bytes()
}

fn word(octets: [u8; 2]) -> u16
    ensures { result ≡ sum_of_words octets }
{
    u16::from_be_bytes(octets)
}

/// The sum of the 16-bit words of an IPv4 header whose checksum field is 0.
fn sum_of_fields(size: u16, packets: u16, protocol: u8, from: End, to: End) -> u32
    ensures sum { result ≡ sum_of_words (internet_fields size packets protocol 0 from to) }
    ensures words { result < 655360 }
{
    let [a, b, c, d] = address(from);
    let [e, f, g, h] = address(to);
    let ends = u32::from(word([a, b]))
        + u32::from(word([c, d]))
        + u32::from(word([e, f]))
        + u32::from(word([g, h]));
    0x4500 + u32::from(size) + u32::from(packets) + 0x4000 + 0x4000 + u32::from(protocol) + ends
}

fn folded(sum: u32) -> u32
    ensures { result ≡ folded sum }
{
    sum / 65536 + sum % 65536
}

fn header_checksum(size: u16, packets: u16, protocol: u8, from: End, to: End) -> u16
    ensures { result ≡ checksum (internet_fields size packets protocol 0 from to) }
{
    let sum = folded(folded(sum_of_fields(size, packets, protocol, from, to)));
    (65535 - sum) as u16
}

/// The header of an IPv4 packet with a total length of `size` octets. `packets` is the
/// identification of the packet; `protocol` is 6 for TCP or 17 for UDP.
pub(crate) fn internet_header(size: u16, packets: u16, protocol: u8, from: End, to: End) -> [u8; 20]
    ensures { result ≡ internet_header size packets protocol from to }
{
    let [size_high, size_low] = two_octets(size);
    let [packets_high, packets_low] = two_octets(packets);
    let [sum_high, sum_low] = two_octets(header_checksum(size, packets, protocol, from, to));
    let [a, b, c, d] = address(from);
    let [e, f, g, h] = address(to);
    [
        0x45,
        0x00,
        size_high,
        size_low,
        packets_high,
        packets_low,
        0x40,
        0x00,
        0x40,
        protocol,
        sum_high,
        sum_low,
        a,
        b,
        c,
        d,
        e,
        f,
        g,
        h,
    ]
}

/// The TCP header of a segment. `sequence` is the number of the segment's first octet;
/// `acknowledged` is the number of the next octet that the sender expects.
pub(crate) fn segment_header(
    sequence: u32,
    acknowledged: u32,
    flags: u8,
    from: End,
    to: End,
) -> [u8; 20]
    ensures { result ≡ segment_header sequence acknowledged flags from to }
{
    let [from_high, from_low] = two_octets(port(from, to));
    let [to_high, to_low] = two_octets(port(to, from));
    let [a, b, c, d] = four_octets(sequence);
    let [e, f, g, h] = four_octets(acknowledged);
    [
        from_high, from_low, to_high, to_low, a, b, c, d, e, f, g, h, 0x50, flags, 0xff, 0xff,
        0x00, 0x00, 0x00, 0x00,
    ]
}

/// The header of a UDP datagram with a length of `size` octets, including the header.
pub(crate) fn datagram_header(size: u16) -> [u8; 8]
    ensures { result ≡ datagram_header size }
{
    let [high, low] = two_octets(size);
    [0xc0, 0x00, 0xc0, 0x00, high, low, 0x00, 0x00]
}
