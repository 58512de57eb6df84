// SPDX-License-Identifier: MIT OR Apache-2.0
ghost use Rattle.std.specs.Prelude.{◌≡◌, [], IfErr, IfOk, Ok, OnOk};
ghost use Rattle.judge_lines.specs.Lines.{Takes, TakesAtEnd, new_lines};
ghost use Rattle.judge_program.specs.RunState.{Prints, PrintsAtEnd, StopsAtEnd, StopsLastLine};
ghost use Rattle.judge_program.specs.RunState.{StopsLine, StopsWith};
ghost use Rattle.judge_program.specs.RunState.{begun_verdicts, run_state, seen};

use crate::stop::Stop;
use crate::verdicts::Verdicts;
use dtap_codec::CellDescription;
use judge_lines::{FrameLines, Line};
use judge_report::Style;
use program_io::Sink;
use std::alloc::Global;
use std::io::Write;

/// Judges the lines of octets, which arrive in pieces of any size.
#[derive(Drop)]
pub(crate) struct Run<'a, W> {
    pub(crate) lines: FrameLines,
    pub(crate) verdicts: Verdicts,
    pub(crate) output: &'a mut W,
}

impl<'a, W: Write> Run<'a, W> {
    /// A run that has read no octet.
    pub(crate) fn new(
        alloc: Global,
        style: Style,
        cells: Vec<CellDescription>,
        output: &'a mut W,
    ) -> Run<'a, W>
        ensures same_reference { result.output.ghost_name ≡ output.entry.ghost_name }
        ensures output { result.output.now ≡ output.old }
        ensures lines { result.lines ≡ new_lines }
        ensures verdicts { seen result.verdicts ≡ begun_verdicts style cells.items }
    {
        Run {
            lines: FrameLines::new(alloc),
            verdicts: Verdicts::new(alloc, style, cells),
            output,
        }
    }
}

/// Takes the next line. `Ok(None)` if the line isn't whole yet. `Err` if the line is bad or an
/// allocation fails.
fn next_line(lines: &mut FrameLines) -> Result<Option<Line>, Stop>
    ensures ok { IfOk result (λ line. Takes lines.old (Ok line) lines.new) }
    ensures err { IfErr result (λ stop. StopsLine stop lines.old) }
{
    match lines.next() {
        Ok(line) => Ok(line),
        Err(fault) => Err(Stop::at_line(lines.count(), fault)),
    }
}

/// Takes the next line when no more octets come; the last line may lack its line feed. `Ok(None)`
/// if no octet is left. `Err` if the line is bad or an allocation fails.
fn next_last_line(lines: &mut FrameLines) -> Result<Option<Line>, Stop>
    ensures ok { IfOk result (λ line. TakesAtEnd lines.old (Ok line) lines.new) }
    ensures err { IfErr result (λ stop. StopsLastLine stop lines.old) }
{
    match lines.next_at_end() {
        Ok(line) => Ok(line),
        Err(fault) => Err(Stop::at_line(lines.count(), fault)),
    }
}

/// Takes the lines that are whole, and prints the verdicts of the connections that these lines end.
fn print_whole<W: Write>(
    lines: &mut FrameLines,
    verdicts: &mut Verdicts,
    output: &mut W,
) -> Result<(), Stop>
    ensures ok { OnOk result (Prints []
        (run_state lines.old (seen verdicts.old) (W.contents output.old))
        (run_state lines.new (seen verdicts.new) (W.contents output.new))) }
    ensures err { IfErr result (λ stop. StopsWith stop []
        (run_state lines.old (seen verdicts.old) (W.contents output.old)) (W.contents output.new)) }
{
    while let Some(line) = next_line(lines)? {
        verdicts.take(line, output)?;
    }
    Ok(())
}

/// Does the same as `print_whole` when no more octets come: the last line may lack its line feed.
pub(crate) fn print_last<W: Write>(
    lines: &mut FrameLines,
    verdicts: &mut Verdicts,
    output: &mut W,
) -> Result<(), Stop>
    ensures ok { OnOk result (PrintsAtEnd
        (run_state lines.old (seen verdicts.old) (W.contents output.old))
        (run_state lines.new (seen verdicts.new) (W.contents output.new))
        × (lines.new.octets ≡ [])) }
    ensures err { IfErr result (λ stop. StopsAtEnd stop
        (run_state lines.old (seen verdicts.old) (W.contents output.old)) (W.contents output.new)) }
{
    while let Some(line) = next_last_line(lines)? {
        verdicts.take(line, output)?;
    }
    Ok(())
}

impl<W: Write> Sink for Run<'_, W> {
    ghost use Rattle.std.specs.Prelude.{◌≡◌};
    ghost use Rattle.std.proofs.Common.{refl, ◌∙◌};
    ghost use Rattle.judge_program.specs.RunState.{Prints, StopsWith, run_state, seen};
    ghost use Rattle.judge_program.specs.RunLaws.{prints_both, prints_none, stops_later};

    type Fault = Stop;

    ghost takes = { λ old octets new. (new.output.ghost_name ≡ old.output.ghost_name)
        × Prints octets (run_state old.lines (seen old.verdicts) (W.contents old.output.now))
        (run_state new.lines (seen new.verdicts) (W.contents new.output.now)) };

    ghost refuses = { λ old octets new stop. (new.output.ghost_name ≡ old.output.ghost_name)
        × StopsWith stop octets
        (run_state old.lines (seen old.verdicts) (W.contents old.output.now))
        (W.contents new.output.now) };

    ghost takes_none = { λ run. (
      refl,
      prints_none (run_state run.lines (seen run.verdicts) (W.contents run.output.now)),
    ) };

    ghost takes_both = { λ old mid new first second some more. (
      more.0 ∙ some.0,
      prints_both first second
          (run_state old.lines (seen old.verdicts) (W.contents old.output.now))
          (run_state mid.lines (seen mid.verdicts) (W.contents mid.output.now))
          (run_state new.lines (seen new.verdicts) (W.contents new.output.now)) some.1 more.1,
    ) };

    ghost refuses_later = { λ old mid new first second stop some stops. (
      stops.0 ∙ some.0,
      stops_later first second stop
          (run_state old.lines (seen old.verdicts) (W.contents old.output.now))
          (run_state mid.lines (seen mid.verdicts) (W.contents mid.output.now))
          (W.contents new.output.now) some.1 stops.1,
    ) };

    /// Appends `piece`, and judges the lines that are whole then. Prints and flushes the verdicts
    /// of the connections that these lines end, before more octets are read.
    fn take(&mut self, piece: &[u8]) -> Result<(), Stop> {
        self.lines.feed(piece)?;
        print_whole(&mut self.lines, &mut self.verdicts, self.output)?;
        self.output.flush()?;
        Ok(())
    }
}
