// SPDX-License-Identifier: MIT OR Apache-2.0
ghost use Rattle.std.specs.Prelude.{◌≡◌, ◌++◌, IfOk, OnOk};
ghost use Rattle.frame_pictures.specs.Capture.{file_header};
ghost use Rattle.record_steps.specs.Runs.{put_entry, stamped, step_entry};
ghost use Rattle.run_record.specs.Reads.{beginning};
ghost use Rattle.run_record.specs.Record.{behind, moved, record_of, records_of};
ghost use Rattle.run_record.specs.declared.entry.Entry.TheVariants as entries;
ghost use Rattle.step_recorder.specs.Writing.{first_state, head_entries, later, put_entries};
ghost use Rattle.step_recorder.specs.Writing.{put_of, state_behind, step_entries};

use crate::stamps::later;
use conn_messages::{Out, Outputs};
use controller_model::Step;
use ipa_framing::Frame;
use octets::{Memory, Octets};
use ruled_relay::{Item, What};
use run_record::{Entry, RecordWriter, Stamp};
use std::alloc::Global;
use std::marker::Model;
use std::mem;

/// An entry wasn't written: an allocation failed, or a link's number exceeds 255.
#[derive(Debug, Drop)]
pub struct Unrecorded;

impl From<Memory> for Unrecorded {
    fn from(_memory: Memory) -> Unrecorded {
        Unrecorded
    }
}

/// Appends the steps of a controller to the octets of a record. No entry is stamped with a time
/// before that of the preceding one.
#[derive(Drop)]
pub struct StepWriter {
    alloc: Global,
    writer: RecordWriter,
    /// The time of the last entry.
    stamp: Stamp,
    /// Room for the body of a frame.
    room: Vec<u8>,
}

impl Model for StepWriter {
    ghost use Rattle.step_recorder.specs.Writing.{WriterState};

    ghost Value = { WriterState };

    ghost view = { λ w. record { place = w.writer.place; stamp = w.stamp } };
}

impl StepWriter {
    /// A writer before the first packet of a file.
    pub fn new(alloc: Global) -> StepWriter
        ensures { result ≡ first_state }
    {
        StepWriter {
            alloc,
            writer: RecordWriter::new(alloc),
            stamp: Stamp {
                seconds: 0,
                microseconds: 0,
            },
            room: Vec::new(alloc),
        }
    }

    /// Begins a file: appends its header, and the pieces of its head. After `Err` the state and
    /// what was appended are unspecified.
    pub fn begin(
        &mut self,
        now: Stamp,
        pieces: &[Octets],
        out: &mut Vec<u8>,
    ) -> Result<(), Unrecorded>
        ensures octets { let head = head_entries (later self.old.stamp now) pieces.now in
            OnOk result
            (out.new.items ≡ out.old.items ++ file_header ++ records_of beginning head) }
        ensures state { let stamp = later self.old.stamp now in
            OnOk result
            (self.new ≡ state_behind beginning stamp (head_entries stamp pieces.now)) }
    {
        self.stamp = later(self.stamp, now);
        self.writer.begin(out)?;
        for piece in pieces {
            self.head(piece, out)?;
        }
        Ok(())
    }

    /// Appends the entries of a step and of the frames that it puts. After `Err` nothing is
    /// appended, and only `lost` may follow.
    pub fn step(
        &mut self,
        now: Stamp,
        step: &Step,
        outputs: &Outputs,
        out: &mut Vec<u8>,
    ) -> Result<(), Unrecorded>
        ensures octets { let done = step_entries (later self.old.stamp now) step.now outputs.now.outs in
            OnOk result (out.new.items ≡ out.old.items ++ records_of self.old.place done) }
        ensures state { let done = step_entries (later self.old.stamp now) step.now outputs.now.outs in
            OnOk result
            (self.new ≡ state_behind self.old.place (later self.old.stamp now) done) }
    {
        let (length, packets) = (out.len(), self.writer.place.packets);
        self.stamp = later(self.stamp, now);
        match self.all_of_step(step, outputs.as_slice(), out) {
            Ok(()) => Ok(()),
            Err(_) => {
                out.truncate(length);
                self.writer.place.packets = packets;
                Err(Unrecorded)
            }
        }
    }

    fn all_of_step(
        &mut self,
        step: &Step,
        puts: &[Out],
        out: &mut Vec<u8>,
    ) -> Result<(), Unrecorded>
        ensures octets { let done = step_entries self.old.stamp step.now puts.now in
            OnOk result (out.new.items ≡ out.old.items ++ records_of self.old.place done) }
        ensures state { let done = step_entries self.old.stamp step.now puts.now in
            OnOk result (self.new ≡ state_behind self.old.place self.old.stamp done) }
    {
        self.taken(step, out)?;
        self.put_all(puts, out)
    }

    /// Appends that the record ends here, at the time of the last entry. The state stays, as no
    /// entry follows. After `Err` what was appended is unspecified.
    pub fn lost(&mut self, out: &mut Vec<u8>) -> Result<(), Unrecorded>
        ensures octets { OnOk result (out.new.items ≡ out.old.items
            ++ record_of self.old.place (stamped self.old.stamp entries.Lost)) }
        ensures state { OnOk result (self.new ≡ self.old) }
    {
        let packets = self.writer.place.packets;
        self.writer.entry(self.stamp, &Entry::Lost, out)?;
        self.writer.place.packets = packets;
        Ok(())
    }

    /// Appends an entry, and takes the octets of its frame as room.
    fn entry(&mut self, entry: Entry, out: &mut Vec<u8>) -> Result<(), Unrecorded>
        ensures octets { OnOk result (out.new.items
            ≡ out.old.items ++ record_of self.old.place (stamped self.old.stamp entry)) }
        ensures state { OnOk result
            (self.new ≡ record self.old { place = moved self.old.place entry }) }
    {
        self.writer.entry(self.stamp, &entry, out)?;
        match entry {
            Entry::Head(octets) => self.room = octets.into_vec(),
            Entry::Took(_, What::Frame(frame)) => self.room = frame.body.into_vec(),
            Entry::Put(_, frame) => self.room = frame.body.into_vec(),
            Entry::Took(_, What::Down) => {}
            Entry::Passed(_) => {}
            Entry::Lost => {}
        }
        Ok(())
    }

    /// A copy of octets, in the room.
    fn copied(&mut self, octets: &Octets) -> Result<Octets, Unrecorded>
        ensures copy { IfOk result (λ copy. copy ≡ octets.now) }
        ensures state { self.new ≡ self.old }
    {
        let mut room = mem::replace(&mut self.room, Vec::new(self.alloc));
        room.clear();
        match room.extend_from_slice(octets.as_slice()) {
            Ok(()) => Ok(Octets::new(room)),
            Err(_) => Err(Unrecorded),
        }
    }

    fn framed(&mut self, frame: &Frame) -> Result<Frame, Unrecorded>
        ensures copy { IfOk result (λ copy. copy ≡ frame.now) }
        ensures state { self.new ≡ self.old }
    {
        let body = self.copied(&frame.body)?;
        Ok(Frame {
            stream: frame.stream,
            body,
        })
    }

    fn head(&mut self, piece: &Octets, out: &mut Vec<u8>) -> Result<(), Unrecorded>
        ensures octets { OnOk result (out.new.items ≡ out.old.items
            ++ record_of self.old.place (stamped self.old.stamp (entries.Head piece.now))) }
        ensures state { OnOk result (self.new
            ≡ record self.old { place = moved self.old.place (entries.Head piece.now) }) }
    {
        let piece = self.copied(piece)?;
        self.entry(Entry::Head(piece), out)
    }

    fn taken(&mut self, step: &Step, out: &mut Vec<u8>) -> Result<(), Unrecorded>
        ensures octets { OnOk result (out.new.items ≡ out.old.items
            ++ record_of self.old.place (stamped self.old.stamp (step_entry step.now))) }
        ensures state { OnOk result (self.new
            ≡ record self.old { place = moved self.old.place (step_entry step.now) }) }
    {
        match step {
            Step::Take(item) => self.item(item, out),
            Step::Tick(ms) => self.entry(Entry::Passed(*ms), out),
        }
    }

    fn item(&mut self, item: &Item, out: &mut Vec<u8>) -> Result<(), Unrecorded>
        ensures octets { OnOk result (out.new.items ≡ out.old.items ++ record_of self.old.place
            (stamped self.old.stamp (entries.Took item.now.source item.now.what))) }
        ensures state { OnOk result (self.new ≡ record self.old {
          place = moved self.old.place (entries.Took item.now.source item.now.what);
        }) }
    {
        let link = link_of(item.source)?;
        match &item.what {
            What::Down => self.entry(Entry::Took(link, What::Down), out),
            What::Frame(frame) => {
                let frame = self.framed(frame)?;
                self.entry(Entry::Took(link, What::Frame(frame)), out)
            }
        }
    }

    fn put(&mut self, put: &Out, out: &mut Vec<u8>) -> Result<(), Unrecorded>
        ensures octets { let entry = put_entry self.old.stamp (put_of put.now) in
            OnOk result (out.new.items ≡ out.old.items ++ record_of self.old.place entry) }
        ensures state { let entry = put_entry self.old.stamp (put_of put.now) in
            OnOk result
            (self.new ≡ record self.old { place = moved self.old.place entry.entry }) }
    {
        let link = link_of(put.to)?;
        let frame = self.framed(&put.frame)?;
        self.entry(Entry::Put(link, frame), out)
    }

    fn put_all(&mut self, puts: &[Out], out: &mut Vec<u8>) -> Result<(), Unrecorded>
        ensures octets { let entries = put_entries self.old.stamp puts.now in
            OnOk result (out.new.items ≡ out.old.items ++ records_of self.old.place entries) }
        ensures state { let entries = put_entries self.old.stamp puts.now in
            OnOk result
            (self.new ≡ record self.old { place = behind self.old.place entries }) }
    {
        for one in puts {
            self.put(one, out)?;
        }
        Ok(())
    }
}

/// The number of a link in a record; a record has none above 255.
fn link_of(number: u16) -> Result<u8, Unrecorded>
    ensures { IfOk result (λ link. link ≡ number) }
{
    match u8::try_from(number) {
        Ok(link) => Ok(link),
        Err(_) => Err(Unrecorded),
    }
}
