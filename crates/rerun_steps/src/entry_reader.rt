// SPDX-License-Identifier: MIT OR Apache-2.0
ghost use Rattle.std.specs.Prelude.{◌≡◌, ◌≤◌, length};
ghost use Rattle.rerun_steps.specs.Packets.{Feeds, Takes, TakesPacket, has_rest, new_entries};
ghost use Rattle.rerun_steps.specs.Packets.{opened};

use crate::packet_fault::PacketFault;
use bytes::BytesMut;
use octets::Memory;
use run_record::{Next, Opening, RecordReader, Stamped, opening};
use std::alloc::Global;
use std::marker::Model;

/// The octets of a file's header.
const FILE_HEADER: usize = 24;

/// Reads the packets of a record's file, one after the other. It is fed the octets of the file in
/// whatever pieces they arrive.
#[derive(Drop)]
pub struct EntryReader {
    /// What was fed and isn't read yet.
    buffer: BytesMut,
    /// Whether the file's header was read.
    is_open: bool,
    reader: RecordReader,
    /// How many packets were read. It saturates.
    count: u64,
}

impl Model for EntryReader {
    ghost use Rattle.rerun_steps.specs.Packets.{EntriesState};

    ghost Value = { EntriesState };

    ghost view = { λ r. record {
      octets = r.buffer.items;
      is_open = r.is_open;
      place = r.reader.writer.place;
      count = r.count;
    } };
}

impl EntryReader {
    /// A reader of no octets yet.
    pub fn new(alloc: Global) -> EntryReader
        ensures { result ≡ new_entries }
    {
        EntryReader {
            buffer: BytesMut::new(alloc),
            is_open: false,
            reader: RecordReader::new(alloc),
            count: 0,
        }
    }

    /// Takes the next octets of the file. An `Err` changes nothing.
    pub fn feed(&mut self, piece: &[u8]) -> Result<(), Memory>
        ensures { Feeds self.old piece.now result self.new }
    {
        self.buffer.extend_from_slice(piece)?;
        Ok(())
    }

    /// The next packet, where it is whole. After an `Err` no packet is to be asked for again.
    pub fn next(&mut self) -> Result<Option<Stamped>, PacketFault>
        ensures { Takes self.old result self.new }
    {
        if self.is_open {
            return self.next_packet();
        }
        match opening(self.buffer.as_slice()) {
            Opening::Record => {
                self.open();
                self.next_packet()
            }
            Opening::Cut => Ok(None),
            Opening::Other => Err(PacketFault::NoRecord),
        }
    }

    /// Goes behind the file's header.
    fn open(&mut self)
        requires { 24 ≤ length self.old.octets }
        ensures { self.new ≡ opened self.old }
    {
        self.buffer.advance(FILE_HEADER);
        self.is_open = true;
    }

    /// The next packet behind the file's header.
    fn next_packet(&mut self) -> Result<Option<Stamped>, PacketFault>
        ensures { TakesPacket self.old result self.new }
    {
        match self.reader.next(self.buffer.as_slice())? {
            Next::End => Ok(None),
            Next::Cut => Ok(None),
            Next::Wrong(fault) => Err(PacketFault::of(fault)),
            Next::Read(stamped, size) => {
                self.buffer.advance(size);
                self.count = self.count.saturating_add(1);
                Ok(Some(stamped))
            }
        }
    }

    /// Whether octets were fed that belong to no packet that was read: at the end of a file, that
    /// it was cut within its last packet, or within its header.
    pub fn has_rest(&self) -> bool
        ensures { result ≡ has_rest self.now }
    {
        !self.is_open || self.buffer.len() != 0
    }

    /// How many packets were read.
    pub fn count(&self) -> u64
        ensures { result ≡ self.now.count }
    {
        self.count
    }
}
