// SPDX-License-Identifier: MIT OR Apache-2.0
ghost use Rattle.std.specs.Prelude.{◌≡◌, ◌++◌, IfErr, IfOk, OnOk, fold};
ghost use Rattle.std.specs.Io.KnownBytes.{Appends};
ghost use Rattle.dtap_codec.specs.Number.{count_of};
ghost use Rattle.judge_report.specs.Sums.{end_text, no_sums, with_one};
ghost use Rattle.program_io.specs.Status.{status_of};
ghost use Rattle.judge_lines.specs.declared.line.Line.TheVariants.{Frame, Hole};
ghost use Rattle.judge_program.specs.Judged.{FinishesWith};
ghost use Rattle.judge_program.specs.RunState.{TakesLine, begun_verdicts, seen, verdicts};
ghost use Rattle.judge_program.specs.RunState.{with_ended};

use dtap_codec::CellDescription;
use judge_lines::{Line, LinkFrame};
use judge_orders::{Judged, Orders};
use judge_report::{Style, Sums, write_end, write_judged};
use program_io::Failure;
use run_judge::read_said;
use std::alloc::Global;
use std::io::Write;

/// The open connections, and the sums of the printed connections.
#[derive(Drop)]
pub(crate) struct Verdicts {
    alloc: Global,
    style: Style,
    orders: Orders,
    sums: Sums,
}

impl Verdicts {
    /// The state before the first line.
    pub(crate) fn new(alloc: Global, style: Style, cells: Vec<CellDescription>) -> Verdicts
        ensures { seen result ≡ begun_verdicts style cells.items }
    {
        Verdicts {
            alloc,
            style,
            orders: Orders::new(alloc, style.modulus, cells),
            sums: Sums::none(),
        }
    }

    /// Takes a line, and prints the verdicts that are final after the line. Fails if an allocation
    /// or a write fails. After an `Err`, here and below, the verdicts aren't to be used again.
    pub(crate) fn take<W: Write>(&mut self, line: Line, output: &mut W) -> Result<(), Failure>
        ensures taken { OnOk result (TakesLine line (seen self.old) (seen self.new)
            (W.contents output.old) (W.contents output.new)) }
        ensures err { IfErr result (λ failure. status_of failure ≡ 3) }
    {
        match line {
            Line::Frame(frame) => self.take_frame(frame, output),
            Line::Hole(number) => self.take_hole(number, output),
            Line::Other => Ok(()),
        }
    }

    fn take_frame<W: Write>(&mut self, frame: LinkFrame, output: &mut W) -> Result<(), Failure>
        ensures taken { OnOk result (TakesLine (Frame frame) (seen self.old) (seen self.new)
            (W.contents output.old) (W.contents output.new)) }
        ensures err { IfErr result (λ failure. status_of failure ≡ 3) }
    {
        let said = read_said(self.alloc, frame.link, frame.way, frame.body.as_slice())?;
        let judged = self.orders.take(frame.number, said)?;
        self.print(judged, output)
    }

    fn take_hole<W: Write>(&mut self, number: u64, output: &mut W) -> Result<(), Failure>
        ensures taken { OnOk result (TakesLine (Hole number) (seen self.old) (seen self.new)
            (W.contents output.old) (W.contents output.new)) }
        ensures err { IfErr result (λ failure. status_of failure ≡ 3) }
    {
        let judged = self.orders.miss(number)?;
        self.print(judged, output)
    }

    /// Prints the verdicts of connections, and adds them to the sums.
    fn print<W: Write>(&mut self, judged: Vec<Judged>, output: &mut W) -> Result<(), Failure>
        ensures new { OnOk result (seen self.new ≡ with_ended judged.items (seen self.old)) }
        ensures text { OnOk result (Appends (W.contents output.old) (W.contents output.new)
            (verdicts self.old.style self.old.sums judged.items)) }
        ensures err { IfErr result (λ failure. status_of failure ≡ 3) }
    {
        if judged.is_empty() {
            return Ok(());
        }
        self.sums = print_all(self.alloc, self.style, self.sums, judged.as_slice(), output)?;
        Ok(())
    }

    /// Prints the verdicts of the connections that are left, and the sums.
    pub(crate) fn finish<W: Write>(self, output: &mut W) -> Result<Sums, Failure>
        ensures ok { IfOk result (λ sums. FinishesWith (seen self) sums
            (W.contents output.old) (W.contents output.new)) }
        ensures err { IfErr result (λ failure. status_of failure ≡ 3) }
    {
        let Verdicts {
            alloc,
            style,
            orders,
            sums,
        } = self;
        let left = orders.finish()?;
        let sums = print_all(alloc, style, sums, left.as_slice(), output)?;
        write_end(style.form, sums, output)?;
        Ok(sums)
    }
}

/// Prints the verdicts of connections that follow the connections counted in `sums`. Returns the
/// sums of all these connections.
fn print_all<W: Write>(
    alloc: Global,
    style: Style,
    sums: Sums,
    judged: &[Judged],
    output: &mut W,
) -> Result<Sums, Failure>
    ensures sums { IfOk result (λ all. all ≡ fold with_one sums judged.now) }
    ensures text { OnOk result (Appends (W.contents output.old) (W.contents output.new)
        (verdicts style sums judged.now)) }
    ensures err { IfErr result (λ failure. status_of failure ≡ 3) }
{
    let mut all = sums;
    for one in judged {
        let with = all.with(one);
        write_judged(alloc, style, with.printed, one, output)?;
        all = with;
    }
    Ok(all)
}
