// SPDX-License-Identifier: MIT OR Apache-2.0
ghost use Rattle.std.specs.Prelude.{◌≡◌, ◌++◌, ◌%◌, IfOk, OnOk, length};
ghost use Rattle.frame_pictures.specs.Capture.{capture_of, record_header, record_of, way};
ghost use Rattle.frame_pictures.specs.NextNumbers.{Moves, number_at};
ghost use Rattle.frame_pictures.specs.Packet.{framed};

use crate::link_frame::LinkFrame;
use crate::next_numbers::{move_number, number_at, way};
use crate::packet::{four_octets, framed_size, packet_size, write_packet};
use octets::Memory;
use std::alloc::Global;

/// The header of a pcap file: magic, version 2.4, time zone and accuracy 0, at most 65,535 octets
/// a packet, link type 101 (raw IPv4).
const FILE_HEADER: [u8; 24] = [
    0xa1, 0xb2, 0xc3, 0xd4, 0x00, 0x02, 0x00, 0x04, 0x00, 0x00, 0x00, 0x00, 0x00, 0x00, 0x00, 0x00,
    0x00, 0x00, 0xff, 0xff, 0x00, 0x00, 0x00, 0x65,
];

/// A pcap file with a packet for each frame, in the order of `frames`. Fails only if an allocation
/// fails.
pub fn capture(alloc: Global, frames: &[LinkFrame]) -> Result<Vec<u8>, Memory>
    ensures { IfOk result (λ file. file.items ≡ capture_of frames.now) }
{
    let mut file = Vec::from_slice(alloc, &FILE_HEADER)?;
    let mut numbers = Vec::new(alloc);
    for frame in frames {
        write_record(numbers.as_slice(), frame, &mut file)?;
        count(&mut numbers, frame)?;
    }
    Ok(file)
}

/// Appends the record of a frame. `numbers` are the next sequence numbers of the ways.
fn write_record(numbers: &[u32], this: &LinkFrame, file: &mut Vec<u8>) -> Result<(), Memory>
    ensures { OnOk result (file.new.items ≡ file.old.items
        ++ record_of (number_at numbers.now (way this.now.from this.now.to))
        (number_at numbers.now (way this.now.to this.now.from)) this.now) }
{
    let sequence = number_at(numbers, way(this.from, this.to));
    let acknowledged = number_at(numbers, way(this.to, this.from));
    write_record_header(this.ms, packet_size(&this.frame), file)?;
    write_packet(
        sequence,
        acknowledged,
        this.from,
        this.to,
        &this.frame,
        file,
    )
}

/// Appends the header of a packet's record: the time in seconds and microseconds, then the length
/// of the packet in octets, two times.
fn write_record_header(ms: u64, size: usize, file: &mut Vec<u8>) -> Result<(), Memory>
    ensures { OnOk result
        (file.new.items ≡ file.old.items ++ record_header ms (size % 4294967296)) }
{
    let seconds = (ms / 1000 % 4294967296) as u32;
    let microseconds = (ms % 1000 * 1000) as u32;
    let size = (size % 4294967296) as u32;
    let [a, b, c, d] = four_octets(seconds);
    let [e, f, g, h] = four_octets(microseconds);
    let [i, j, k, l] = four_octets(size);
    let header = [a, b, c, d, e, f, g, h, i, j, k, l, i, j, k, l];
    file.extend_from_slice(&header)?;
    Ok(())
}

/// Adds the length of a frame on its link to the sequence number of the frame's way.
fn count(numbers: &mut Vec<u32>, this: &LinkFrame) -> Result<(), Memory>
    ensures { OnOk result (Moves numbers.old.items numbers.new.items
        (way this.now.from this.now.to) (length (framed this.now.frame) % 4294967296)) }
{
    let octets = (framed_size(&this.frame) % 4294967296) as u32;
    move_number(numbers, way(this.from, this.to), octets)
}
