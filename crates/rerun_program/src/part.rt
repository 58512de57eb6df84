// SPDX-License-Identifier: MIT OR Apache-2.0
//! A part of a run: one file.
ghost use Rattle.std.specs.Prelude.{◌≡◌, ◌<◌, Err, IfErr, IfOk, IfSome, OnOk, is_some, length};
ghost use Rattle.std.specs.Prelude.{true};
ghost use Rattle.std.specs.Io.KnownBytes.{Appends};
ghost use Rattle.program_io.specs.Status.{status_of};
ghost use Rattle.rerun_program.specs.Done.{differs_at};
ghost use Rattle.rerun_program.specs.Going.{Begins, Continues, DoesSteps, Goes, IsBegun};
ghost use Rattle.rerun_program.specs.Going.{StepMayGoOn, behind_step, printed_of, seen};
ghost use Rattle.rerun_program.specs.declared.stop.Stop.TheVariants.{Differs};

use crate::course::Course;
use crate::plan::Plan;
use crate::stop::Stop;
use octets::Octets;
use program_base::{ProgramFault, read_settings};
use program_io::{Failure, put};
use record_steps::{RecordedStep, StepFault, StepReader};
use rerun::Extent;
use rerun_steps::{EntryReader, Head, is_part};
use run_record::{Entry, Stamped};
use std::alloc::Global;
use std::io::Write;
use std::str;

/// What is read of a file.
#[derive(Drop)]
pub(crate) struct Part {
    /// Its number in the run, from 1.
    number: u64,
    pub(crate) entries: EntryReader,
    head: Head,
    steps: StepReader,
    /// Whether an entry was read that is no piece of the head.
    has_begun: bool,
    /// Whether it says that the run went on.
    is_lost: bool,
}

/// How a part ended.
#[derive(Clone, Copy)]
pub(crate) struct PartEnd {
    /// How many packets were read.
    pub(crate) packets: u64,
    /// Whether it was cut within a packet.
    pub(crate) is_cut: bool,
    /// Whether it says that the run went on.
    pub(crate) is_lost: bool,
}

impl Part {
    /// The part with this number, of which nothing was read.
    pub(crate) fn new(alloc: Global, number: u64) -> Part {
        Part {
            number,
            entries: EntryReader::new(alloc),
            head: Head::new(alloc),
            steps: StepReader::new(alloc),
            has_begun: false,
            is_lost: false,
        }
    }

    /// The next packet, where it is whole.
    fn next(&mut self) -> Result<Option<Stamped>, Stop>
        ensures { IfOk result (λ next. IfSome next (λ _.
            length self.new.entries.octets < length self.old.entries.octets)) }
    {
        match self.entries.next() {
            Ok(next) => Ok(next),
            Err(fault) => Err(Stop::by_packet(self.entries.count().saturating_add(1), fault)),
        }
    }

    /// Takes a piece of the head. The first one is the line that names the part.
    fn take_piece(&mut self, piece: Octets) -> Result<(), Stop>
        ensures { self.new.entries ≡ self.old.entries }
    {
        if self.has_begun {
            drop(piece);
            return Err(Stop::by_step(self.entries.count(), StepFault::HeadBehindStep));
        }
        if self.head.line().is_none() && !is_part(self.number, piece.as_slice()) {
            drop(piece);
            return Err(Stop::NoPart(self.number));
        }
        self.head.take(piece)?;
        Ok(())
    }

    /// How it ended, and its last step.
    pub(crate) fn end(self) -> (PartEnd, Option<RecordedStep>) {
        let Part {
            number: _,
            entries,
            head,
            steps,
            has_begun: _,
            is_lost,
        } = self;
        let end = PartEnd {
            packets: entries.count(),
            is_cut: entries.has_rest(),
            is_lost,
        };
        drop(entries);
        drop(head);
        (end, steps.finish())
    }
}

/// Takes the packets that are whole.
pub(crate) fn take_whole<W: Write, E: Write>(
    alloc: Global,
    plan: Plan,
    course: &mut Option<Course>,
    part: &mut Part,
    output: &mut W,
    errors: &mut E,
) -> Result<(), Stop>
    ensures { OnOk result (Goes plan course.old course.new
        (W.contents output.old) (W.contents output.new)) }
{
    while let Some(this) = part.next()? {
        take_entry(alloc, plan, course, part, this, output, errors)?;
    }
    Ok(())
}

/// Takes the next packet.
fn take_entry<W: Write, E: Write>(
    alloc: Global,
    plan: Plan,
    course: &mut Option<Course>,
    part: &mut Part,
    this: Stamped,
    output: &mut W,
    errors: &mut E,
) -> Result<(), Stop>
    ensures entries { part.new.entries ≡ part.old.entries }
    ensures goes { OnOk result (Goes plan course.old course.new
        (W.contents output.old) (W.contents output.new)) }
{
    let Stamped { stamp, entry } = this;
    match entry {
        Entry::Head(piece) => part.take_piece(piece),
        entry => {
            let this = Stamped { stamp, entry };
            take_of_step(alloc, plan, course, part, this, output, errors)
        }
    }
}

/// Takes a packet that is no piece of the head.
fn take_of_step<W: Write, E: Write>(
    alloc: Global,
    plan: Plan,
    course: &mut Option<Course>,
    part: &mut Part,
    this: Stamped,
    output: &mut W,
    errors: &mut E,
) -> Result<(), Stop>
    ensures entries { part.new.entries ≡ part.old.entries }
    ensures goes { OnOk result (Goes plan course.old course.new
        (W.contents output.old) (W.contents output.new)) }
{
    match begin(alloc, plan, course, part, errors) {
        Ok(()) => give_begun(course, part, this, output, errors),
        Err(stop) => {
            drop(this);
            Err(stop)
        }
    }
}

/// Begins the run by the settings of the head, unless it has begun.
fn begin<E: Write>(
    alloc: Global,
    plan: Plan,
    course: &mut Option<Course>,
    part: &mut Part,
    errors: &mut E,
) -> Result<(), Stop>
    ensures entries { part.new.entries ≡ part.old.entries }
    ensures begins { OnOk result (Begins plan course.old course.new) }
{
    if part.head.line().is_none() {
        return Err(Stop::NoPart(part.number));
    }
    part.has_begun = true;
    if course.is_some() {
        return Ok(());
    }
    match course_of(alloc, plan, part.head.settings(), errors) {
        Ok(begun) => {
            *course = Some(begun);
            Ok(())
        }
        Err(stop) => Err(stop),
    }
}

/// A run by the settings in this text.
fn course_of<E: Write>(
    alloc: Global,
    plan: Plan,
    settings: &[u8],
    errors: &mut E,
) -> Result<Course, Stop>
    ensures { IfOk result (λ course. IsBegun plan (seen course)) }
{
    let text = match str::from_utf8(settings) {
        Ok(text) => text,
        Err(_) => return Err(Stop::Settings),
    };
    match read_settings(alloc, text) {
        Ok(settings) => match Course::new(alloc, plan, settings) {
            Ok(course) => Ok(course),
            Err(memory) => Err(Stop::from(memory)),
        },
        Err(ProgramFault::Failed(failure)) => Err(Stop::Failed(failure)),
        Err(fault) => {
            let _ = writeln!(errors, "bsc: {fault}");
            drop(fault);
            Err(Stop::Settings)
        }
    }
}

/// Gives an entry to a run that has begun.
fn give_begun<W: Write, E: Write>(
    course: &mut Option<Course>,
    part: &mut Part,
    this: Stamped,
    output: &mut W,
    errors: &mut E,
) -> Result<(), Stop>
    ensures entries { part.new.entries ≡ part.old.entries }
    ensures does { OnOk result (Continues course.old course.new
        (W.contents output.old) (W.contents output.new)) }
{
    match course {
        Some(course) => give(course, part, this, output, errors),
        None => {
            drop(this);
            Err(Stop::Settings)
        }
    }
}

/// Gives an entry to the reader of steps, and does the step that is whole by it.
fn give<W: Write, E: Write>(
    course: &mut Course,
    part: &mut Part,
    this: Stamped,
    output: &mut W,
    errors: &mut E,
) -> Result<(), Stop>
    ensures entries { part.new.entries ≡ part.old.entries }
    ensures does { OnOk result (DoesSteps (seen course.old) (seen course.new)
        (W.contents output.old) (W.contents output.new)) }
{
    if let Entry::Lost = &this.entry {
        part.is_lost = true;
    }
    match part.steps.take(course.links(), this) {
        Ok(Some(done)) => do_step(course, Extent::All, done, output, errors),
        Ok(None) => Ok(()),
        Err(fault) => Err(Stop::by_step(part.entries.count(), fault)),
    }
}

/// Does the last step of a part. Without a controller there is none.
pub(crate) fn do_last<W: Write, E: Write>(
    plan: Plan,
    course: &mut Option<Course>,
    extent: Extent,
    last: RecordedStep,
    output: &mut W,
    errors: &mut E,
) -> Result<(), Stop>
    ensures { OnOk result (Goes plan course.old course.new
        (W.contents output.old) (W.contents output.new)) }
{
    let _plan = plan;
    match course {
        Some(course) => do_step(course, extent, last, output, errors),
        None => {
            drop(last);
            Ok(())
        }
    }
}

/// Does a step again, and prints what is asked.
fn do_step<W: Write, E: Write>(
    course: &mut Course,
    extent: Extent,
    done: RecordedStep,
    output: &mut W,
    errors: &mut E,
) -> Result<(), Stop>
    ensures state { OnOk result (seen course.new ≡ behind_step (seen course.old) done) }
    ensures alike { OnOk result (StepMayGoOn (seen course.old) extent done) }
    ensures printed { OnOk result (Appends (W.contents output.old) (W.contents output.new)
        (printed_of (seen course.old) extent done)) }
    ensures differs { result ≡ Err Differs
        → is_some (differs_at extent course.old.rerun done) ≡ true }
{
    let printed = print_step(course, extent, &done, output, errors);
    drop(done);
    printed
}

/// Does a step again, which is lent, and prints what is asked.
fn print_step<W: Write, E: Write>(
    course: &mut Course,
    extent: Extent,
    done: &RecordedStep,
    output: &mut W,
    errors: &mut E,
) -> Result<(), Stop>
    ensures state { OnOk result (seen course.new ≡ behind_step (seen course.old) done.now) }
    ensures alike { OnOk result (StepMayGoOn (seen course.old) extent done.now) }
    ensures printed { OnOk result (Appends (W.contents output.old) (W.contents output.new)
        (printed_of (seen course.old) extent done.now)) }
    ensures differs { result ≡ Err Differs
        → is_some (differs_at extent course.old.rerun done.now) ≡ true }
{
    let differs = course.step(extent, done)?;
    put(output, course.lines())?;
    if course.stops_at(differs) {
        tell(course.difference(), output, errors)?;
        return Err(Stop::Differs);
    }
    put(output, course.difference())?;
    Ok(())
}

/// Tells of a difference behind the lines that were printed.
fn tell<W: Write, E: Write>(line: &[u8], output: &mut W, errors: &mut E) -> Result<(), Failure>
    ensures { IfErr result (λ failure. status_of failure ≡ 3) }
{
    output.flush()?;
    let _ = put(errors, b"bsc: ");
    let _ = put(errors, line);
    Ok(())
}
