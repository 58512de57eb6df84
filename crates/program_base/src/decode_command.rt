// SPDX-License-Identifier: MIT OR Apache-2.0
//! `bsc decode`: prints a line for each frame of a link. The line has the frame's name, or the form
//! that the caller chooses.
ghost use Rattle.std.specs.Prelude.{◌≡◌, ◌⊎◌, ℕ, List, [], Err, IfErr, IfSome, OnOk};
ghost use Rattle.std.specs.Prelude.{◌≤◌, codes, length};
ghost use Rattle.std.specs.Io.KnownBytes.{IsAtEnd};
ghost use Rattle.std.specs.IoError.{error_kind};
ghost use Rattle.ipa_framing.specs.Frame.{IsPartial};
ghost use Rattle.ipa_framing.specs.Framer.{new_framer};
ghost use Rattle.program_base.specs.Decoded.{Begins, Decodes, IsRefused, PrintsFrames, RefusesWith};
ghost use Rattle.program_base.specs.Decoded.{StopsAmong, frame_line, line_of, rest_line};
ghost use Rattle.program_io.specs.Output.{Puts};
ghost use Rattle.program_io.specs.Status.{failure_of};
ghost use Rattle.program_base.specs.Stopping.{stop_of, stop_unread};
ghost use Rattle.program_base.specs.declared.decode_command.Stop.TheVariants.{Failed, TooLong};

use crate::frame_line::FrameLine;
use crate::names::frame_name;
use arrayvec::ArrayVec;
use ipa_framing::{Frame, FrameFault, Framer};
use octets::Memory;
use program_io::{Failure, Sink, Unread, put, put_joined, read_all, room_for};
use std::alloc::Global;
use std::io::{self, Read, Write};

/// The number of octets that one read asks for.
const BLOCK: usize = 1 << 20;

/// Why a stream isn't decoded to its end.
#[derive(Clone, Copy)]
enum Stop {
    /// A frame has more than 2,048 octets.
    TooLong,
    Failed(Failure),
}

impl From<io::Error> for Stop {
    ghost from_gives = { λ error stop. stop ≡ Failed (failure_of (error_kind error)) };

    fn from(error: io::Error) -> Stop {
        Stop::Failed(Failure::from(error))
    }
}

impl From<Failure> for Stop {
    ghost from_gives = { λ failure stop. stop ≡ Failed failure };

    fn from(failure: Failure) -> Stop {
        Stop::Failed(failure)
    }
}

impl From<FrameFault> for Stop {
    ghost from_gives = { λ fault stop. stop ≡ stop_of fault };

    fn from(fault: FrameFault) -> Stop {
        match fault {
            FrameFault::TooLong => Stop::TooLong,
            FrameFault::Memory => Stop::Failed(Failure::Memory),
        }
    }
}

impl From<Unread<Stop>> for Stop {
    ghost from_gives = { λ unread stop. stop ≡ stop_unread unread };

    fn from(unread: Unread<Stop>) -> Stop {
        match unread {
            Unread::Endless(_) => Stop::Failed(Failure::Device),
            Unread::Device(error) => Stop::from(error),
            Unread::Refused(stop) => stop,
        }
    }
}

/// The length of the longest line in octets: two digits, a space, a name, and the line feed.
const LINE_LIMIT: usize = 28;

/// The line of a frame with this stream and this name. The line is assembled from octets, because a
/// formatter took over a quarter of the program's time.
fn line_of(stream: u8, name: &str) -> ArrayVec<u8, LINE_LIMIT>
    requires { length name.now ≤ 24 }
    ensures { result.items ≡ line_of stream name.now }
{
    let mut digits = [0; 2];
    hex::encode_to_slice([stream], &mut digits).unwrap();
    let mut line = ArrayVec::new();
    line.try_extend_from_slice(&digits).unwrap();
    line.try_extend_from_slice(b" ").unwrap();
    line.try_extend_from_slice(name.as_bytes()).unwrap();
    line.try_extend_from_slice(b"\n").unwrap();
    line
}

/// Prints a frame's line, with one write if the output takes it whole.
#[tactic(auto, using(crate::proofs::NameSizes::name_short))]
fn print_frame<W: Write>(alloc: Global, frame: &Frame, output: &mut W) -> Result<(), Failure>
    ensures { Puts result (W.contents output.old) (W.contents output.new) (frame_line frame.now) }
{
    let name = frame_name(alloc, frame)?;
    let line = line_of(frame.stream, name);
    put_joined(output, line.as_slice(), &[2, 1, name.len()])?;
    Ok(())
}

/// The form of line that `bsc decode` prints: a frame's stream and name.
#[derive(Clone, Copy)]
struct Named;

impl FrameLine for Named {
    ghost use Rattle.program_base.specs.Decoded.{frame_line};

    ghost line = { frame_line };

    fn print<W: Write>(&self, alloc: Global, frame: &Frame, output: &mut W) -> Result<(), Failure> {
        print_frame(alloc, frame, output)
    }
}

/// Prints a line for each whole frame that the framer holds. After an error, only a beginning of
/// these lines was printed.
fn print_frames<L: FrameLine, W: Write>(
    alloc: Global,
    form: &L,
    framer: &mut Framer,
    output: &mut W,
) -> Result<(), Stop>
    ensures ok { OnOk result
        (PrintsFrames L.line framer.old framer.new (W.contents output.old) (W.contents output.new)
        × IsPartial framer.new.octets × (framer.new.failed ≡ framer.old.failed)) }
    ensures err { IfErr result (λ stop.
        StopsAmong L.line framer.old.octets stop (W.contents output.old) (W.contents output.new)) }
{
    while let Some(frame) = framer.next()? {
        form.print(alloc, &frame, output)?;
    }
    Ok(())
}

/// Prints a line with the number of octets of an incomplete frame, if the framer holds such octets.
fn print_rest<W: Write>(alloc: Global, framer: &Framer, output: &mut W) -> Result<(), Failure>
    requires { IsPartial framer.now.octets }
    ensures { Puts result (W.contents output.old) (W.contents output.new)
        (rest_line framer.now.octets) }
{
    let rest = framer.rest();
    if rest > 0 {
        let line = format!(in alloc; "rest {rest}\n").map_err(Memory::from)?;
        put(output, line.as_bytes())?;
    }
    Ok(())
}

/// A sink that prints a line for each whole frame of a stream.
#[derive(Drop)]
struct Namer<'a, L, W> {
    alloc: Global,
    form: &'a L,
    framer: Framer,
    output: &'a mut W,
}

impl<'a, L: FrameLine, W: Write> Namer<'a, L, W> {
    fn new(alloc: Global, form: &'a L, output: &'a mut W) -> Namer<'a, L, W>
        ensures same_reference { result.output.ghost_name ≡ output.entry.ghost_name }
        ensures output { result.output.now ≡ output.old }
        ensures framer { result.framer ≡ new_framer }
    {
        Namer {
            alloc,
            form,
            framer: Framer::new(alloc),
            output,
        }
    }
}

impl<L: FrameLine, W: Write> Sink for Namer<'_, L, W> {
    ghost use Rattle.std.specs.Prelude.{◌≡◌};
    ghost use Rattle.program_base.specs.Decoded.{NamesOctets, StopsNaming};
    ghost use Rattle.program_base.specs.NamingLaws.{names_none, names_both, stops_later};
    ghost use Rattle.std.proofs.Common.{refl, ◌∙◌};

    type Fault = Stop;

    ghost takes = { λ old octets new. (new.output.ghost_name ≡ old.output.ghost_name)
        × NamesOctets L.line old.framer octets new.framer
        (W.contents old.output.now) (W.contents new.output.now) };

    ghost refuses = { λ old octets new stop. (new.output.ghost_name ≡ old.output.ghost_name)
        × StopsNaming L.line old.framer octets stop
        (W.contents old.output.now) (W.contents new.output.now) };

    ghost takes_none = { λ namer. (
      refl,
      names_none L.line namer.framer (W.contents namer.output.now),
    ) };

    ghost takes_both = { λ old mid new first second some more. (
      more.0 ∙ some.0,
      names_both L.line old.framer mid.framer new.framer first second
          (W.contents old.output.now) (W.contents mid.output.now) (W.contents new.output.now)
          some.1 more.1,
    ) };

    ghost refuses_later = { λ old mid new first second stop some stops. (
      stops.0 ∙ some.0,
      stops_later L.line old.framer mid.framer first second stop (W.contents old.output.now)
          (W.contents mid.output.now) (W.contents new.output.now) some.1 stops.1,
    ) };

    /// Feeds the piece to the framer, prints a line for each frame that is then whole, and flushes
    /// the output.
    fn take(&mut self, piece: &[u8]) -> Result<(), Stop> {
        self.framer.feed(piece)?;
        print_frames(self.alloc, self.form, &mut self.framer, self.output)?;
        self.output.flush()?;
        Ok(())
    }
}

/// Prints a line for each frame of the input. If the input ends within a frame, prints a line with
/// the number of that frame's octets.
fn print_stream<L: FrameLine, R: Read, W: Write>(
    alloc: Global,
    form: &L,
    input: &mut R,
    output: &mut W,
) -> Result<(), Stop>
    ensures read { OnOk result (IsAtEnd (R.remaining input.new)) }
    ensures printed { OnOk result
        (Decodes L.line (R.remaining input.old) (W.contents output.old) (W.contents output.new)) }
    ensures long { result ≡ Err TooLong → RefusesWith L.line [] (R.remaining input.old)
        (W.contents output.old) (W.contents output.new) }
    ensures begun { Begins L.line [] (R.remaining input.old)
        (W.contents output.old) (W.contents output.new) }
{
    let mut room = room_for(alloc, BLOCK)?;
    let mut namer = Namer::new(alloc, form, output);
    let read = read_all(input, room.as_mut_slice(), &mut namer);
    let Namer { framer, output, .. } = namer;
    // This line does nothing at run time. From it the proof knows what `output` holds.
    let _ = &*output;
    read?;
    print_rest(alloc, &framer, output)?;
    Ok(())
}

/// Prints the lines of the stream. The last line is `fault F1` if a frame is too long.
fn print_all<L: FrameLine, R: Read, W: Write>(
    alloc: Global,
    form: &L,
    input: &mut R,
    output: &mut W,
) -> Result<(), Stop>
    ensures read { OnOk result (IsAtEnd (R.remaining input.new)) }
    ensures printed { OnOk result
        (Decodes L.line (R.remaining input.old) (W.contents output.old) (W.contents output.new)) }
    ensures begun { Begins L.line (codes "fault F1\n") (R.remaining input.old)
        (W.contents output.old) (W.contents output.new) }
{
    match print_stream(alloc, form, input, output) {
        Err(Stop::TooLong) => {
            put(output, b"fault F1\n")?;
            output.flush()?;
            Err(Stop::TooLong)
        }
        printed => {
            output.flush()?;
            printed
        }
    }
}

/// Prints a line with the name of each frame of the IPA stream on `input`, and answers the status
/// that the program ends with: 0, or 3 if a frame is too long, memory ran out or a device failed. A
/// frame that is too long is reported by `fault F1`, the last line of the output; the other
/// failures are reported on `errors`. The output is flushed after each read.
pub fn decode<R: Read, W: Write, E: Write>(
    alloc: Global,
    input: &mut R,
    output: &mut W,
    errors: &mut E,
) -> u8
    ensures status { (result ≡ 0) ⊎ (result ≡ 3) }
    // With status 0 the input is at its end, if its octets are known.
    ensures read { result ≡ 0 → IsAtEnd (R.remaining input.new) }
    // With status 0 the output grew by the lines of the input's frames, if the contents of both are
    // known.
    ensures printed { result ≡ 0 → Decodes frame_line (R.remaining input.old)
        (W.contents output.old) (W.contents output.new) }
    // If a frame is too long, the lines end with `fault F1`. With any status, the output grew by a
    // beginning of the lines, or by all of them.
    ensures begun { Begins frame_line (codes "fault F1\n") (R.remaining input.old)
        (W.contents output.old) (W.contents output.new) }
    ensures long { IfSome (R.remaining input.old) (λ stream.
        (text : List ℕ) → IsRefused frame_line stream text → result ≡ 3) }
{
    decode_as(alloc, &Named, input, output, errors)
}

/// Does the same as `decode`, but prints each frame's line in the form `form`.
pub fn decode_as<L: FrameLine, R: Read, W: Write, E: Write>(
    alloc: Global,
    form: &L,
    input: &mut R,
    output: &mut W,
    errors: &mut E,
) -> u8
    ensures status { (result ≡ 0) ⊎ (result ≡ 3) }
    ensures read { result ≡ 0 → IsAtEnd (R.remaining input.new) }
    ensures printed { result ≡ 0
        → Decodes L.line (R.remaining input.old) (W.contents output.old) (W.contents output.new) }
    ensures begun { Begins L.line (codes "fault F1\n") (R.remaining input.old)
        (W.contents output.old) (W.contents output.new) }
    ensures long { IfSome (R.remaining input.old) (λ stream.
        (text : List ℕ) → IsRefused L.line stream text → result ≡ 3) }
{
    match print_all(alloc, form, input, output) {
        Ok(()) => 0,
        Err(Stop::TooLong) => 3,
        Err(Stop::Failed(failure)) => {
            let _ = writeln!(errors, "bsc: {failure}");
            3
        }
    }
}
