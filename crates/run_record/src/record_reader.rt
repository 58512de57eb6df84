// SPDX-License-Identifier: MIT OR Apache-2.0
ghost use Rattle.std.specs.Prelude.{◌≡◌, ◌<◌, IfOk, OnErr, drop};
ghost use Rattle.run_record.specs.Reading.{datagram_in, entry_in, first_difference, four_at};
ghost use Rattle.run_record.specs.Reading.{frame_in, judged, link_by, next_of, octet_at};
ghost use Rattle.run_record.specs.Reading.{opening_of, seen_in, segment_in, taken_in};
ghost use Rattle.run_record.specs.Reads.{beginning};
ghost use Rattle.run_record.specs.Places.{IsBehind};

use crate::record_writer::{FILE_HEADER, FIN};
use crate::{Entry, Fault, MAX_PACKET, Next, Opening, RecordWriter, Stamp, Stamped};
use ipa_framing::Frame;
use octets::{Memory, Octets};
use ruled_relay::What;
use std::alloc::Global;

/// The length of a packet's time and lengths, in octets.
const HEADER_LENGTH: usize = 16;

fn octet_at(octets: &[u8], at: usize) -> u8
    ensures { result ≡ octet_at at octets.now }
{
    match octets.get(at) {
        Some(octet) => *octet,
        None => 0,
    }
}

fn four_at(octets: &[u8], at: usize) -> u32
    requires { at < 100 }
    ensures { result ≡ four_at at octets.now }
{
    u32::from_be_bytes([
        octet_at(octets, at),
        octet_at(octets, at + 1),
        octet_at(octets, at + 2),
        octet_at(octets, at + 3),
    ])
}

/// The octets from the index `at` on; empty if there are at most `at` octets.
fn from_on(octets: &[u8], at: usize) -> &[u8]
    ensures { result.now ≡ drop at octets.now }
{
    if at < octets.len() {
        &octets[at..]
    } else {
        &octets[octets.len()..]
    }
}

/// The link of an end, by the last two octets of the end's address.
fn link_by(third: u8, fourth: u8) -> u8
    ensures { result ≡ link_by third fourth }
{
    if third == 0 { 0 } else { fourth }
}

fn frame_in(alloc: Global, packet: &[u8]) -> Result<Frame, Memory>
    ensures { IfOk result (λ frame. frame ≡ frame_in packet.now) }
{
    Ok(Frame {
        stream: octet_at(packet, 42),
        body: Octets::copy(alloc, from_on(packet, 43))?,
    })
}

fn taken_in(alloc: Global, link: u8, packet: &[u8]) -> Result<Entry, Memory>
    ensures { IfOk result (λ entry. entry ≡ taken_in link packet.now) }
{
    if octet_at(packet, 33) == FIN {
        return Ok(Entry::Took(link, What::Down));
    }
    Ok(Entry::Took(link, What::Frame(frame_in(alloc, packet)?)))
}

fn segment_in(alloc: Global, packet: &[u8]) -> Result<Entry, Memory>
    ensures { IfOk result (λ entry. entry ≡ segment_in packet.now) }
{
    let third = octet_at(packet, 14);
    let fourth = octet_at(packet, 15);
    if third == 0 && fourth == 1 {
        let link = link_by(octet_at(packet, 18), octet_at(packet, 19));
        return Ok(Entry::Put(link, frame_in(alloc, packet)?));
    }
    taken_in(alloc, link_by(third, fourth), packet)
}

fn datagram_in(alloc: Global, packet: &[u8]) -> Result<Entry, Memory>
    ensures { IfOk result (λ entry. entry ≡ datagram_in packet.now) }
{
    let kind = octet_at(packet, 28);
    if kind == 1 {
        return Ok(Entry::Head(Octets::copy(alloc, from_on(packet, 29))?));
    }
    if kind == 2 {
        return Ok(Entry::Passed(four_at(packet, 29)));
    }
    Ok(Entry::Lost)
}

/// The entry that a packet seems to have; the packet isn't checked.
fn entry_in(alloc: Global, packet: &[u8]) -> Result<Entry, Memory>
    ensures { IfOk result (λ entry. entry ≡ entry_in packet.now) }
{
    if octet_at(packet, 9) == 6 {
        segment_in(alloc, packet)
    } else {
        datagram_in(alloc, packet)
    }
}

/// The time and the entry that a packet seems to have; the packet isn't checked. The octets begin
/// with the packet's time and lengths.
fn seen_in(alloc: Global, octets: &[u8]) -> Result<Stamped, Memory>
    ensures { IfOk result (λ seen. seen ≡ seen_in octets.now) }
{
    let stamp = Stamp {
        seconds: four_at(octets, 0),
        microseconds: four_at(octets, 4),
    };
    let entry = entry_in(alloc, from_on(octets, HEADER_LENGTH))?;
    Ok(Stamped { stamp, entry })
}

/// The length of the longest common beginning of `left` and `right`.
fn first_difference(left: &[u8], right: &[u8]) -> usize
    ensures { result ≡ first_difference left.now right.now }
{
    let mut at = 0;
    while at < left.len() && at < right.len() && left[at] == right[at] {
        at += 1;
    }
    at
}

/// The kind of file that `octets` are a beginning of, judged by the header.
pub fn opening(octets: &[u8]) -> Opening
    ensures { result ≡ opening_of octets.now }
{
    let size = octets.len();
    if size < 24 {
        if octets == &FILE_HEADER[..size] {
            return Opening::Cut;
        }
        return Opening::Other;
    }
    if &octets[..24] == &FILE_HEADER[..] {
        Opening::Record
    } else {
        Opening::Other
    }
}

/// Reads the packets of a record, which follow the file's header, one by one.
#[derive(Drop)]
pub struct RecordReader {
    alloc: Global,
    /// Writes the packet of each entry again, for comparison. `writer.place` is the place of the
    /// next packet.
    pub writer: RecordWriter,
}

impl RecordReader {
    /// A reader before the first packet of a file.
    pub fn new(alloc: Global) -> RecordReader
        ensures { result.writer.place ≡ beginning }
    {
        RecordReader {
            alloc,
            writer: RecordWriter::new(alloc),
        }
    }

    /// Reads the packet that `octets` begin with. The reader moves past a packet that was read
    /// (`Read`). The reader stays at its place for `End` and `Cut`, and if an allocation fails.
    /// After `Wrong` the place of the reader is unspecified.
    pub fn next(&mut self, octets: &[u8]) -> Result<Next, Memory>
        ensures next { IfOk result (λ next. next ≡ next_of self.old.writer.place octets.now) }
        ensures place { IfOk result (λ next.
            IsBehind self.old.writer.place next self.new.writer.place) }
        ensures refused { OnErr result (self.new.writer.place ≡ self.old.writer.place) }
    {
        if octets.len() == 0 {
            return Ok(Next::End);
        }
        if octets.len() < HEADER_LENGTH {
            return Ok(Next::Cut);
        }
        let size = four_at(octets, 8);
        if size != four_at(octets, 12) || size as usize > MAX_PACKET {
            return Ok(Next::Wrong(Fault::Length));
        }
        let whole = HEADER_LENGTH + size as usize;
        if octets.len() < whole {
            return Ok(Next::Cut);
        }
        self.judge(&octets[..whole])
    }

    /// Reads a whole packet. The packet is wrong unless writing its entry at the place of the
    /// reader gives the same octets.
    fn judge(&mut self, octets: &[u8]) -> Result<Next, Memory>
        ensures next { IfOk result (λ next. next ≡ judged self.old.writer.place octets.now) }
        ensures place { IfOk result (λ next.
            IsBehind self.old.writer.place next self.new.writer.place) }
        ensures refused { OnErr result (self.new.writer.place ≡ self.old.writer.place) }
    {
        let seen = seen_in(self.alloc, octets)?;
        let mut written = Vec::new(self.alloc);
        self.writer.entry(seen.stamp, &seen.entry, &mut written)?;
        if octets != written.as_slice() {
            let at = first_difference(octets, written.as_slice());
            return Ok(Next::Wrong(Fault::Octet(at)));
        }
        Ok(Next::Read(seen, octets.len()))
    }
}
