// SPDX-License-Identifier: MIT OR Apache-2.0
//! `bsc judge`.
ghost use Rattle.std.specs.Prelude.{◌≡◌, ◌⊎◌, IfErr, IfOk, OnOk};
ghost use Rattle.std.specs.Io.KnownBytes.{IsAtEnd};
ghost use Rattle.judge_report.specs.Sums.{status_of_sums};
ghost use Rattle.judge_program.specs.Judged.{FinishesWith, ReadsLines, Reports, ReportsBad};
ghost use Rattle.judge_program.specs.Judged.{ReportsStop, StopsReading};
ghost use Rattle.judge_program.specs.RunState.{seen};
ghost use Rattle.judge_program.specs.Stopping.{status_of_stop};

use crate::run::{Run, print_last};
use crate::stop::Stop;
use crate::verdicts::Verdicts;
use dtap_codec::CellDescription;
use judge_report::{Style, Sums, write_start};
use program_io::{read_all, room_for};
use std::alloc::Global;
use std::io::{Read, Write};

/// The greatest number of octets of one read.
const BLOCK: usize = 1 << 20;

/// Judges the order of messages by the lines of frames on `input`. Prints the verdict of each
/// connection when the connection ends, then the verdicts of the connections that are left, sorted
/// by number, and the sums. Verdicts are printed and flushed before more octets are read.
///
/// Returns the exit status: 1 if the controller has a fault, or if, under `Strict`, a connection
/// isn't judged to the end; 2 if a line is bad; 3 if an allocation or a device failed; else 0. If
/// the status is above 1, writes the reason to `errors`. A failure of this write is ignored.
pub fn judge<R: Read, W: Write, E: Write>(
    alloc: Global,
    style: Style,
    cells: Vec<CellDescription>,
    input: &mut R,
    output: &mut W,
    errors: &mut E,
) -> u8
    ensures status { (result ≡ 0) ⊎ (result ≡ 1) ⊎ (result ≡ 2) ⊎ (result ≡ 3) }
    // If the status is 0 or 1 and the contents of the input are known, all octets were read.
    ensures read { (result ≡ 0) ⊎ (result ≡ 1) → IsAtEnd (R.remaining input.new) }
    // If the status is 0 or 1 and the contents of input and output are known, no line is bad. The
    // output has the verdicts of all connections and the sums, from which the status follows.
    ensures printed { (result ≡ 0) ⊎ (result ≡ 1) → Reports style cells.items result
        (R.remaining input.old) (W.contents output.old) (W.contents output.new) }
    // If the status is 2 and the contents of input and output are known, a line is bad. The output
    // has the first line of TAP, if the form is TAP, and the verdicts of the connections that ended
    // before the bad line.
    ensures bad { result ≡ 2 → ReportsBad style cells.items (R.remaining input.old)
        (W.contents output.old) (W.contents output.new) }
{
    match judge_all(alloc, style, cells, input, output) {
        Ok(sums) => sums.status(style.strictness),
        Err(stop) => {
            let _ = writeln!(errors, "bsc: {stop}");
            stop.status()
        }
    }
}

/// Judges all lines, and prints the verdicts and the sums.
fn judge_all<R: Read, W: Write>(
    alloc: Global,
    style: Style,
    cells: Vec<CellDescription>,
    input: &mut R,
    output: &mut W,
) -> Result<Sums, Stop>
    ensures read { OnOk result (IsAtEnd (R.remaining input.new)) }
    ensures ok { IfOk result (λ sums. Reports style cells.items
        (status_of_sums style.strictness sums)
        (R.remaining input.old) (W.contents output.old) (W.contents output.new)) }
    ensures err { IfErr result (λ stop. ReportsStop style cells.items stop
        (R.remaining input.old) (W.contents output.old) (W.contents output.new)) }
{
    write_start(style.form, output)?;
    let read = read_lines(alloc, style, cells, input, output);
    // Also flushes the verdicts of connections that ended before a bad line.
    output.flush()?;
    let verdicts = read?;
    finish(verdicts, output)
}

/// Prints the verdicts of the connections that are left, and the sums.
fn finish<W: Write>(verdicts: Verdicts, output: &mut W) -> Result<Sums, Stop>
    ensures ok { IfOk result (λ sums. FinishesWith (seen verdicts) sums
        (W.contents output.old) (W.contents output.new)) }
    ensures err { IfErr result (λ stop. status_of_stop stop ≡ 3) }
{
    let sums = verdicts.finish(output)?;
    output.flush()?;
    Ok(sums)
}

/// Reads all lines, and prints the verdicts of the connections that the lines end.
fn read_lines<R: Read, W: Write>(
    alloc: Global,
    style: Style,
    cells: Vec<CellDescription>,
    input: &mut R,
    output: &mut W,
) -> Result<Verdicts, Stop>
    ensures read { OnOk result (IsAtEnd (R.remaining input.new)) }
    ensures ok { IfOk result (λ verdicts. ReadsLines style cells.items (seen verdicts)
        (R.remaining input.old) (W.contents output.old) (W.contents output.new)) }
    ensures err { IfErr result (λ stop. StopsReading style cells.items stop
        (R.remaining input.old) (W.contents output.old) (W.contents output.new)) }
{
    let mut room = room_for(alloc, BLOCK)?;
    let mut run = Run::new(alloc, style, cells, output);
    let read = read_all(input, room.as_mut_slice(), &mut run);
    let Run {
        mut lines,
        mut verdicts,
        output,
    } = run;
    // This use of `output` has no effect at run time. The proof needs it to know the contents of
    // `output`.
    let _ = &*output;
    match read {
        Ok(()) => {
            print_last(&mut lines, &mut verdicts, output)?;
            Ok(verdicts)
        }
        Err(unread) => {
            drop(verdicts);
            Err(Stop::from(unread))
        }
    }
}
