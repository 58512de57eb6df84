// SPDX-License-Identifier: MIT OR Apache-2.0
ghost use Rattle.std.specs.Prelude.{◌≡◌, ◌≤◌, ◌+◌, ◌++◌, IfErr, OnOk, codes, decimal};
ghost use Rattle.std.specs.List.{flat_map};
ghost use Rattle.std.specs.Io.KnownBytes.{Appends};
ghost use Rattle.arrayvec.specs.ArrayVec.{array_vec_len};
ghost use Rattle.program_io.specs.Status.{status_of};
ghost use Rattle.dtap_codec.specs.Number.{count_of};
ghost use Rattle.trace_program.specs.TraceLines.{crossing_line, end_text, ends_text, event_line};
ghost use Rattle.trace_program.specs.TraceLines.{event_lines, frame_text, is_uplink};
ghost use Rattle.trace_program.specs.TraceLines.{outcome_text};

use crate::notes::write_notes;
use crate::words::{cause_text, fate_tab, tab_passage};
use arrayvec::{ArrayVec, CapacityError};
use dtap_codec::Modulus;
use frame_words::{write_digits_line, write_joined, write_said};
use itoa::Buffer;
use program_io::{Failure, Taken, put, put_at_once, put_joined};
use std::alloc::Global;
use std::io::Write;
use world_trace::{Cause, Crossing, End, EventTrace, Fate};

/// The columns between the number of an event and the event's line in the script.
const SCRIPT_COLUMNS: &[u8] = b"\tscript\tworld\t";

/// The columns after the line of an event that was taken.
const TAKEN_COLUMNS: &[u8] = b"\ttaken\t\n";

/// The length, in octets, up to which the line of an event is assembled before it is written.
const LINE_LIMIT: usize = 160;

/// The length, in octets, of the longest name of an end of a link, with the tab after the name.
const END_LIMIT: usize = 14;

/// The length, in octets, of the longest columns before the name of a frame: twenty digits, a tab,
/// and two ends.
const HEAD_LIMIT: usize = 21 + 2 * END_LIMIT;

/// Writes the line of an event, a line for each frame that crossed a link or was made at the event,
/// and a line for each note on a connection.
pub(crate) fn write_event<W: Write>(
    alloc: Global,
    modulus: Modulus,
    number: u64,
    line: &[u8],
    trace: &EventTrace,
    output: &mut W,
) -> Result<(), Failure>
    ensures text { OnOk result (Appends (W.contents output.old) (W.contents output.new)
        (event_lines (count_of modulus) number line.now
        trace.now.refusal trace.now.fate trace.now.crossings.items
        trace.now.made.items trace.now.notes.items)) }
    ensures err { IfErr result (λ failure. status_of failure ≡ 3) }
{
    write_event_line(number, line, trace.refusal, output)?;
    let crossings = trace.crossings.as_slice();
    write_crossings(alloc, modulus, number, trace.fate, crossings, output)?;
    write_crossings(alloc, modulus, number, None, trace.made.as_slice(), output)?;
    write_notes(number, trace.notes.as_slice(), output)
}

/// Writes the line of an event: the event's number, its line in the script, and whether it was
/// taken.
fn write_event_line<W: Write>(
    number: u64,
    line: &[u8],
    refusal: Option<Cause>,
    output: &mut W,
) -> Result<(), Failure>
    ensures text { OnOk result (Appends (W.contents output.old) (W.contents output.new)
        (event_line number line.now refusal)) }
    ensures err { IfErr result (λ failure. status_of failure ≡ 3) }
{
    let mut digits = Buffer::new();
    let digits = digits.format(number).as_bytes();
    match refusal {
        None => write_taken(digits, line, output),
        Some(_) => {
            write_joined(digits, SCRIPT_COLUMNS, line, output)?;
            write_outcome(refusal, output)
        }
    }
}

/// Writes the line of an event that was taken. The line is written as one piece if it has at most
/// `LINE_LIMIT` octets.
fn write_taken<W: Write>(digits: &[u8], line: &[u8], output: &mut W) -> Result<(), Failure>
    ensures text { OnOk result (Appends (W.contents output.old) (W.contents output.new)
        (digits.now ++ codes "\tscript\tworld\t" ++ line.now ++ codes "\ttaken\t\n")) }
    ensures err { IfErr result (λ failure. status_of failure ≡ 3) }
{
    let mut room = ArrayVec::new();
    if gather_taken(digits, line, &mut room).is_ok() {
        let sizes = [digits.len(), SCRIPT_COLUMNS.len(), line.len()];
        put_joined(output, room.as_slice(), &sizes)?;
        return Ok(());
    }
    write_joined(digits, SCRIPT_COLUMNS, line, output)?;
    put(output, TAKEN_COLUMNS)?;
    Ok(())
}

/// Appends the line of an event that was taken to `room`, or fails if the line doesn't fit.
fn gather_taken(
    digits: &[u8],
    line: &[u8],
    room: &mut ArrayVec<u8, LINE_LIMIT>,
) -> Result<(), CapacityError>
    ensures { OnOk result (room.new.items ≡ room.old.items
        ++ (digits.now ++ codes "\tscript\tworld\t" ++ line.now ++ codes "\ttaken\t\n")) }
{
    room.try_extend_from_slice(digits)?;
    room.try_extend_from_slice(SCRIPT_COLUMNS)?;
    room.try_extend_from_slice(line)?;
    room.try_extend_from_slice(TAKEN_COLUMNS)
}

/// Writes the columns after the line of an event: whether the event was taken, and why not.
fn write_outcome<W: Write>(refusal: Option<Cause>, output: &mut W) -> Result<(), Failure>
    ensures text { OnOk result (Appends (W.contents output.old) (W.contents output.new)
        (codes "\t" ++ outcome_text refusal ++ codes "\t\n")) }
    ensures err { IfErr result (λ failure. status_of failure ≡ 3) }
{
    match refusal {
        None => put(output, TAKEN_COLUMNS)?,
        Some(cause) => writeln!(output, "\tnot taken: {}\t", cause_text(cause))?,
    }
    Ok(())
}

fn write_crossings<W: Write>(
    alloc: Global,
    modulus: Modulus,
    number: u64,
    fate: Option<Fate>,
    crossings: &[Crossing],
    output: &mut W,
) -> Result<(), Failure>
    ensures text { OnOk result (Appends (W.contents output.old) (W.contents output.new)
        (flat_map (crossing_line (count_of modulus) number fate) crossings.now)) }
    ensures err { IfErr result (λ failure. status_of failure ≡ 3) }
{
    for crossing in crossings {
        write_crossing(alloc, modulus, number, fate, crossing, output)?;
    }
    Ok(())
}

fn write_crossing<W: Write>(
    alloc: Global,
    modulus: Modulus,
    number: u64,
    fate: Option<Fate>,
    crossing: &Crossing,
    output: &mut W,
) -> Result<(), Failure>
    ensures text { OnOk result (Appends (W.contents output.old) (W.contents output.new)
        (crossing_line (count_of modulus) number fate crossing.now)) }
    ensures err { IfErr result (λ failure. status_of failure ≡ 3) }
{
    write_head(number, crossing.from, crossing.to, output)?;
    write_frame(alloc, modulus, fate, crossing, output)
}

/// Writes the columns before the name of a frame, with one write if the output takes them whole.
fn write_head<W: Write>(number: u64, from: End, to: End, output: &mut W) -> Result<(), Failure>
    ensures text { OnOk result (Appends (W.contents output.old) (W.contents output.new)
        (decimal number ++ codes "\t" ++ ends_text from to)) }
    ensures err { IfErr result (λ failure. status_of failure ≡ 3) }
{
    match put_at_once(output, head_of(number, from, to).as_slice())? {
        Taken::All => Ok(()),
        Taken::Nothing(failure) => {
            write_columns(number, from, to, output)?;
            match failure {
                None => Ok(()),
                Some(error) => Err(error.into()),
            }
        }
    }
}

/// Writes the columns before the name of a frame, part by part.
#[cold]
fn write_columns<W: Write>(number: u64, from: End, to: End, output: &mut W) -> Result<(), Failure>
    ensures text { OnOk result (Appends (W.contents output.old) (W.contents output.new)
        (decimal number ++ codes "\t" ++ ends_text from to)) }
    ensures err { IfErr result (λ failure. status_of failure ≡ 3) }
{
    write!(output, "{number}\t")?;
    write_end(from, output)?;
    put(output, b"\t")?;
    write_end(to, output)?;
    put(output, b"\t")?;
    Ok(())
}

fn write_end<W: Write>(end: End, output: &mut W) -> Result<(), Failure>
    ensures text { OnOk result (Appends (W.contents output.old) (W.contents output.new)
        (end_text end)) }
    ensures err { IfErr result (λ failure. status_of failure ≡ 3) }
{
    match end {
        End::Switch => write!(output, "switch")?,
        End::Station(number) => write!(output, "station {number}")?,
        End::Controller => write!(output, "bsc")?,
    }
    Ok(())
}

/// The columns before the name of a frame: the number of the event, the end that the frame comes
/// from, and the end that the frame goes to.
fn head_of(number: u64, from: End, to: End) -> ArrayVec<u8, HEAD_LIMIT>
    ensures { result.items ≡ decimal number ++ codes "\t" ++ ends_text from to }
{
    let mut digits = Buffer::new();
    let mut head = ArrayVec::new();
    head.try_extend_from_slice(digits.format(number).as_bytes())
        .unwrap();
    head.push(b'\t');
    put_end(from, &mut head);
    put_end(to, &mut head);
    head
}

/// Appends the column of an end. Assumes: `head` has room for the column.
fn put_end(end: End, head: &mut ArrayVec<u8, HEAD_LIMIT>)
    requires { array_vec_len head.old + END_LIMIT ≤ HEAD_LIMIT }
    ensures text { head.new.items ≡ head.old.items ++ (end_text end ++ codes "\t") }
    ensures room { array_vec_len head.new ≤ array_vec_len head.old + END_LIMIT }
{
    match end {
        End::Switch => head.try_extend_from_slice(b"switch\t").unwrap(),
        End::Station(number) => put_station(number, head),
        End::Controller => head.try_extend_from_slice(b"bsc\t").unwrap(),
    }
}

/// Appends the column of a station. Assumes: `head` has room for the column.
fn put_station(number: u16, head: &mut ArrayVec<u8, HEAD_LIMIT>)
    requires { array_vec_len head.old + END_LIMIT ≤ HEAD_LIMIT }
    ensures text { head.new.items ≡ head.old.items
        ++ (codes "station " ++ decimal number ++ codes "\t") }
    ensures room { array_vec_len head.new ≤ array_vec_len head.old + END_LIMIT }
{
    let mut digits = Buffer::new();
    head.try_extend_from_slice(b"station ").unwrap();
    head.try_extend_from_slice(digits.format(number).as_bytes())
        .unwrap();
    head.push(b'\t');
}

/// Writes the name of a frame, the column of its details, and the octets of its body.
fn write_frame<W: Write>(
    alloc: Global,
    modulus: Modulus,
    fate: Option<Fate>,
    crossing: &Crossing,
    output: &mut W,
) -> Result<(), Failure>
    ensures text { OnOk result (Appends (W.contents output.old) (W.contents output.new)
        (frame_text (count_of modulus) fate crossing.now)) }
    ensures err { IfErr result (λ failure. status_of failure ≡ 3) }
{
    let word = tab_passage(crossing.passage);
    let is_numbered = is_uplink(crossing.from, crossing.to);
    write_said(alloc, modulus, &crossing.frame, word, is_numbered, output)?;
    let body = crossing.frame.body.as_slice();
    write_digits_line(alloc, fate_tab(fate), body, output)
}

/// Whether a frame goes from the mobiles' side to the switch's side.
fn is_uplink(from: End, to: End) -> bool
    ensures { result ≡ is_uplink from to }
{
    match (from, to) {
        (End::Station(_), _) => true,
        (_, End::Switch) => true,
        _ => false,
    }
}
