// SPDX-License-Identifier: MIT OR Apache-2.0
ghost use Rattle.std.specs.Prelude.{◌≡◌, IfOk, OnOk};
ghost use Rattle.std.specs.Io.KnownBytes.{IsAtEnd};
ghost use Rattle.rerun_program.specs.Going.{Goes, has_differed};

use crate::course::Course;
use crate::part::{Part, do_last, take_whole};
use crate::plan::Plan;
use crate::stop::Stop;
use program_io::{Sink, read_all, room_for};
use record_steps::RecordedStep;
use rerun::Extent;
use settings::Settings;
use std::alloc::Global;
use std::io::{Read, Write};
use std::mem;

/// The octets that one read asks for.
const BLOCK: usize = 1 << 20;

/// A recorded run that is done again. What is asked is printed on `output`, and a difference that
/// stops it is told on `errors`.
#[derive(Drop)]
pub struct Run<'a, W, E> {
    alloc: Global,
    plan: Plan,
    /// The controller with what it did; none before the first step, where no settings are given.
    course: Option<Course>,
    /// The part that is read.
    part: Part,
    /// How many parts were begun. It saturates.
    parts: u64,
    /// Whether the last part was cut, or said that the run went on.
    is_broken: bool,
    output: &'a mut W,
    errors: &'a mut E,
}

/// How a part of a run ended.
#[derive(Clone, Copy)]
pub struct Ending {
    /// How many packets were read.
    pub packets: u64,
    /// Whether it was cut within a packet, or within the file's header.
    pub is_cut: bool,
    /// Whether its last packet says that the run went on.
    pub is_lost: bool,
    /// Whether the controller put other frames than the record has, in this part or before.
    pub differs: bool,
}

impl<'a, W: Write, E: Write> Run<'a, W, E> {
    /// A run of which nothing was read, by these settings, or else by those of its record.
    pub fn new(
        alloc: Global,
        plan: Plan,
        settings: Option<Settings>,
        output: &'a mut W,
        errors: &'a mut E,
    ) -> Result<Run<'a, W, E>, Stop> {
        let course = course_by(alloc, plan, settings)?;
        Ok(Run {
            alloc,
            plan,
            course,
            part: Part::new(alloc, 0),
            parts: 0,
            is_broken: false,
            output,
            errors,
        })
    }

    /// Reads the next part of the run to its end, and does its steps again. After an `Err` no other
    /// is to be read.
    pub fn read<R: Read>(&mut self, input: &mut R, is_last: bool) -> Result<Ending, Stop>
        ensures input { OnOk result (IsAtEnd (R.remaining input.new)) }
        ensures differs { IfOk result (λ ending. ending.differs ≡ has_differed self.new.course) }
        ensures goes { OnOk result (Goes self.old.plan self.old.course self.new.course
            (W.contents self.old.output.now) (W.contents self.new.output.now)) }
    {
        if self.is_broken {
            return Err(Stop::Behind);
        }
        self.begin_part();
        self.read_octets(input)?;
        self.end(is_last)
    }

    /// Begins the next part.
    fn begin_part(&mut self)
        ensures plan { self.new.plan ≡ self.old.plan }
        ensures course { self.new.course ≡ self.old.course }
        ensures output { self.new.output.now ≡ self.old.output.now }
    {
        self.parts = self.parts.saturating_add(1);
        self.part = Part::new(self.alloc, self.parts);
    }

    /// Reads the octets of a part.
    fn read_octets<R: Read>(&mut self, input: &mut R) -> Result<(), Stop>
        ensures input { OnOk result (IsAtEnd (R.remaining input.new)) }
        ensures plan { OnOk result (self.new.plan ≡ self.old.plan) }
        ensures goes { OnOk result (Goes self.old.plan self.old.course self.new.course
            (W.contents self.old.output.now) (W.contents self.new.output.now)) }
    {
        let mut room = room_for(self.alloc, BLOCK)?;
        match read_all(input, room.as_mut_slice(), self) {
            Ok(()) => Ok(()),
            Err(unread) => Err(Stop::from(unread)),
        }
    }

    /// Does the last step of a part.
    fn end(&mut self, is_last: bool) -> Result<Ending, Stop>
        ensures differs { IfOk result (λ ending. ending.differs ≡ has_differed self.new.course) }
        ensures goes { OnOk result (Goes self.old.plan self.old.course self.new.course
            (W.contents self.old.output.now) (W.contents self.new.output.now)) }
    {
        let part = mem::replace(&mut self.part, Part::new(self.alloc, 0));
        let (end, last) = part.end();
        self.is_broken = end.is_cut || end.is_lost;
        self.end_step(last, is_last)?;
        self.output.flush()?;
        Ok(Ending {
            packets: end.packets,
            is_cut: end.is_cut,
            is_lost: end.is_lost,
            differs: has_differed(&self.course),
        })
    }

    /// Does the last step of a part, if it has one. Where no part follows, or the part was cut, the
    /// record may lack frames of it.
    fn end_step(&mut self, last: Option<RecordedStep>, is_last: bool) -> Result<(), Stop>
        ensures { OnOk result (Goes self.old.plan self.old.course self.new.course
            (W.contents self.old.output.now) (W.contents self.new.output.now)) }
    {
        let extent = extent_of(is_last || self.is_broken);
        match last {
            Some(last) => {
                let course = &mut self.course;
                do_last(self.plan, course, extent, last, self.output, self.errors)
            }
            None => Ok(()),
        }
    }
}

/// Which frames of a last step the record has.
fn extent_of(may_lack: bool) -> Extent {
    if may_lack { Extent::First } else { Extent::All }
}

/// Whether a run put other frames than the record has.
fn has_differed(course: &Option<Course>) -> bool
    ensures { result ≡ has_differed course.now }
{
    match course {
        Some(course) => course.has_differed(),
        None => false,
    }
}

/// A run by these settings, where there are some.
fn course_by(
    alloc: Global,
    plan: Plan,
    settings: Option<Settings>,
) -> Result<Option<Course>, Stop> {
    match settings {
        Some(settings) => match Course::new(alloc, plan, settings) {
            Ok(course) => Ok(Some(course)),
            Err(memory) => Err(Stop::from(memory)),
        },
        None => Ok(None),
    }
}

impl<W: Write, E: Write> Sink for Run<'_, W, E> {
    ghost use Rattle.std.specs.Prelude.{◌≡◌, option_map};
    ghost use Rattle.std.proofs.Common.{refl, ◌∙◌};
    ghost use Rattle.rerun_program.specs.Going.{Goes, seen};
    ghost use Rattle.rerun_program.specs.GoingLaws.{goes_none, kept_both};

    type Fault = Stop;

    ghost takes = { λ old octets new. (new.plan ≡ old.plan)
        × Goes old.plan old.course new.course (W.contents old.output.now)
        (W.contents new.output.now) };

    ghost refuses = { λ old octets new stop. Unit {0} };

    ghost takes_none = { λ run. (
      refl,
      goes_none run.plan (option_map seen run.course) (W.contents run.output.now),
    ) };

    ghost takes_both = { λ old mid new first second some more. (
      more.0 ∙ some.0,
      kept_both old.plan mid.plan (option_map seen old.course) (option_map seen mid.course)
          (option_map seen new.course) (W.contents old.output.now) (W.contents mid.output.now)
          (W.contents new.output.now) some.0 some.1 more.1,
    ) };

    ghost refuses_later = { λ old mid new first second stop some stops. tt };

    /// Does the steps that are whole with this piece. What is found is printed before more is read.
    fn take(&mut self, piece: &[u8]) -> Result<(), Stop> {
        self.part.entries.feed(piece)?;
        let course = &mut self.course;
        let part = &mut self.part;
        let taken = take_whole(
            self.alloc,
            self.plan,
            course,
            part,
            self.output,
            self.errors,
        );
        // Flushes also what was printed before a wrong packet.
        self.output.flush()?;
        taken
    }
}
