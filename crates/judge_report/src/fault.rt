// SPDX-License-Identifier: MIT OR Apache-2.0
ghost use Rattle.std.specs.Prelude.{◌≡◌, ◌++◌, IfErr, OnOk, codes};
ghost use Rattle.std.specs.Io.KnownBytes.{Appends};
ghost use Rattle.dtap_codec.specs.Number.{count_of};
ghost use Rattle.program_io.specs.Status.{status_of};
ghost use Rattle.run_judge.specs.declared.fault.Fault.TheVariants.{Changed, Doubled, Lost};
ghost use Rattle.run_judge.specs.declared.fault.Fault.TheVariants.{Overtaken};
ghost use Rattle.judge_report.specs.FaultText.{behind_text, due_text, fault_text};
ghost use Rattle.judge_report.specs.FaultText.{misplaced_text, passed_text};

use crate::direction::Direction;
use crate::message::write_message;
use dtap_codec::Modulus;
use octets::Octets;
use program_io::{Failure, put};
use run_judge::{Due, Fault};
use std::alloc::Global;
use std::io::Write;

/// Writes how the controller broke the order of a flow's messages.
pub(crate) fn write_fault<W: Write>(
    alloc: Global,
    modulus: Modulus,
    direction: Direction,
    fault: &Fault,
    output: &mut W,
) -> Result<(), Failure>
    ensures text { OnOk result (Appends (W.contents output.old) (W.contents output.new)
        (fault_text (count_of modulus) direction fault.now)) }
    ensures err { IfErr result (λ failure. status_of failure ≡ 3) }
{
    match fault {
        Fault::Lost { due, behind } => write_lost(alloc, modulus, direction, due, *behind, output),
        Fault::Overtaken { due, behind, frame } => {
            write_overtaken(alloc, modulus, direction, due, *behind, *frame, output)
        }
        Fault::Doubled {
            message,
            first,
            frame,
        } => write_doubled(alloc, modulus, direction, message, *first, *frame, output),
        Fault::Changed {
            due,
            message,
            frame,
        } => write_changed(alloc, modulus, direction, due, message, *frame, output),
        Fault::MadeUp { message, frame } => {
            write_passed(
                alloc,
                modulus,
                direction,
                "made up    ",
                message,
                *frame,
                output,
            )
        }
        Fault::HandedWhileChanging { message, frame } => {
            let kind = "handed while the channel changed ";
            write_misplaced(alloc, modulus, direction, kind, message, *frame, output)
        }
        Fault::HandedElsewhere { message, frame } => {
            let kind = "handed on a channel that isn't serving ";
            write_misplaced(alloc, modulus, direction, kind, message, *frame, output)
        }
        Fault::BehindClear { message, frame } => {
            write_behind(alloc, modulus, direction, message, *frame, output)
        }
    }
}

fn write_lost<W: Write>(
    alloc: Global,
    modulus: Modulus,
    direction: Direction,
    due: &Due,
    behind: u64,
    output: &mut W,
) -> Result<(), Failure>
    ensures text { OnOk result (Appends (W.contents output.old) (W.contents output.new)
        (fault_text (count_of modulus) direction (Lost due.now behind))) }
    ensures err { IfErr result (λ failure. status_of failure ≡ 3) }
{
    write_due(alloc, modulus, direction, "lost       ", due, output)?;
    write!(output, ", missed in frame {behind}")?;
    Ok(())
}

fn write_overtaken<W: Write>(
    alloc: Global,
    modulus: Modulus,
    direction: Direction,
    due: &Due,
    behind: u64,
    frame: u64,
    output: &mut W,
) -> Result<(), Failure>
    ensures text { OnOk result (Appends (W.contents output.old) (W.contents output.new)
        (fault_text (count_of modulus) direction (Overtaken due.now behind frame))) }
    ensures err { IfErr result (λ failure. status_of failure ≡ 3) }
{
    write_due(alloc, modulus, direction, "overtaken  ", due, output)?;
    let goal = direction.goal();
    write!(
        output,
        ", {goal} in frame {frame}, behind that of frame {behind}"
    )?;
    Ok(())
}

fn write_doubled<W: Write>(
    alloc: Global,
    modulus: Modulus,
    direction: Direction,
    message: &Octets,
    first: u64,
    frame: u64,
    output: &mut W,
) -> Result<(), Failure>
    ensures text { OnOk result (Appends (W.contents output.old) (W.contents output.new)
        (fault_text (count_of modulus) direction (Doubled message.now first frame))) }
    ensures err { IfErr result (λ failure. status_of failure ≡ 3) }
{
    write_passed(
        alloc,
        modulus,
        direction,
        "doubled    ",
        message,
        first,
        output,
    )?;
    write!(output, ", and again in frame {frame}")?;
    Ok(())
}

fn write_changed<W: Write>(
    alloc: Global,
    modulus: Modulus,
    direction: Direction,
    due: &Due,
    message: &Octets,
    frame: u64,
    output: &mut W,
) -> Result<(), Failure>
    ensures text { OnOk result (Appends (W.contents output.old) (W.contents output.new)
        (fault_text (count_of modulus) direction (Changed due.now message.now frame))) }
    ensures err { IfErr result (λ failure. status_of failure ≡ 3) }
{
    write_due(alloc, modulus, direction, "changed    ", due, output)?;
    write_passed(alloc, modulus, direction, ", into ", message, frame, output)
}

/// Writes some words, then a due message with its origin and its frame.
fn write_due<W: Write>(
    alloc: Global,
    modulus: Modulus,
    direction: Direction,
    words: &str,
    due: &Due,
    output: &mut W,
) -> Result<(), Failure>
    ensures text { OnOk result (Appends (W.contents output.old) (W.contents output.new)
        (words.now ++ due_text (count_of modulus) direction due.now)) }
    ensures err { IfErr result (λ failure. status_of failure ≡ 3) }
{
    put(output, words.as_bytes())?;
    write_message(alloc, modulus, direction, due.message.as_slice(), output)?;
    let origin = direction.origin();
    let frame = due.frame;
    write!(output, ", {origin} in frame {frame}")?;
    Ok(())
}

/// Writes some words, then a message that was passed on, with its goal and its frame.
fn write_passed<W: Write>(
    alloc: Global,
    modulus: Modulus,
    direction: Direction,
    words: &str,
    message: &Octets,
    frame: u64,
    output: &mut W,
) -> Result<(), Failure>
    ensures text { OnOk result (Appends (W.contents output.old) (W.contents output.new)
        (words.now ++ passed_text (count_of modulus) direction message.now frame)) }
    ensures err { IfErr result (λ failure. status_of failure ≡ 3) }
{
    put(output, words.as_bytes())?;
    write_message(alloc, modulus, direction, message.as_slice(), output)?;
    let goal = direction.goal();
    write!(output, ", {goal} in frame {frame}")?;
    Ok(())
}

/// Writes some words, then a message that was passed on where no message may be passed on, with its
/// frame.
fn write_misplaced<W: Write>(
    alloc: Global,
    modulus: Modulus,
    direction: Direction,
    words: &str,
    message: &Octets,
    frame: u64,
    output: &mut W,
) -> Result<(), Failure>
    ensures text { OnOk result (Appends (W.contents output.old) (W.contents output.new)
        (words.now ++ misplaced_text (count_of modulus) direction message.now frame)) }
    ensures err { IfErr result (λ failure. status_of failure ≡ 3) }
{
    put(output, words.as_bytes())?;
    write_message(alloc, modulus, direction, message.as_slice(), output)?;
    write!(output, ", in frame {frame}")?;
    Ok(())
}

/// Writes the fault of a DT1 after CLEAR COMPLETE, with the DTAP message of the DT1, if there is
/// one.
fn write_behind<W: Write>(
    alloc: Global,
    modulus: Modulus,
    direction: Direction,
    message: &Octets,
    frame: u64,
    output: &mut W,
) -> Result<(), Failure>
    ensures text { OnOk result (Appends (W.contents output.old) (W.contents output.new)
        (codes "sent behind CLEAR COMPLETE "
        ++ behind_text (count_of modulus) direction message.now frame)) }
    ensures err { IfErr result (λ failure. status_of failure ≡ 3) }
{
    let words = "sent behind CLEAR COMPLETE ";
    match message.as_slice() {
        [] => {
            put(output, words.as_bytes())?;
            write!(output, "in frame {frame}")?;
            Ok(())
        }
        [_, ..] => write_misplaced(alloc, modulus, direction, words, message, frame, output),
    }
}
