// SPDX-License-Identifier: MIT OR Apache-2.0
ghost use Rattle.std.specs.Prelude.{◌≡◌, IfErr, OnOk};
ghost use Rattle.std.specs.Io.KnownBytes.{Appends};
ghost use Rattle.dtap_codec.specs.Number.{count_of};
ghost use Rattle.program_io.specs.Status.{status_of};
ghost use Rattle.judge_report.specs.ConnectionText.{down_line, down_text, fault_line, fault_lines};
ghost use Rattle.judge_report.specs.ConnectionText.{lead_text, lines_down, lines_up, mobile_line};
ghost use Rattle.judge_report.specs.ConnectionText.{numbered_of, outside_line, switch_line};
ghost use Rattle.judge_report.specs.ConnectionText.{switch_text};
ghost use Rattle.judge_report.specs.ConnectionText.{unjudged_line, unjudged_text};

use crate::direction::Direction;
use crate::fault::write_fault;
use crate::style::{Form, Style};
use crate::verdict::{
    Standing, came_of, gone_of, has_fault, plural_end, reason_text, standing_of, sum_of,
};
use program_io::{Failure, put};
use run_judge::{Connection, Counts, Flows, Order, Unjudged};
use std::alloc::Global;
use std::io::Write;

/// The beginning of each line of a connection after the first line.
pub(crate) fn lead_of(form: Form) -> &'static str
    ensures { result.now ≡ lead_text form }
{
    match form {
        Form::Text => "  ",
        Form::Tap => "# ",
    }
}

/// Writes the uplink faults of the controller, the faults of a station and of the mobile, and how a
/// switch judges the uplink messages.
pub(crate) fn write_lines_up<W: Write>(
    alloc: Global,
    style: Style,
    connection: &Connection,
    output: &mut W,
) -> Result<(), Failure>
    ensures text { OnOk result (Appends (W.contents output.old) (W.contents output.new)
        (lines_up (count_of style.modulus) style.form connection.now)) }
    ensures err { IfErr result (λ failure. status_of failure ≡ 3) }
{
    write_fault_lines(alloc, style, Direction::Up, &connection.up, output)?;
    write_outside(style.form, connection.outside, output)?;
    write_mobile(
        style.form,
        has_fault(&connection.up),
        connection.mobile,
        output,
    )?;
    write_switch(style.form, connection.counts, output)
}

/// Writes the summary and the faults of the downlink. If the connection isn't judged to the end,
/// writes from which frame on, and why.
pub(crate) fn write_lines_down<W: Write>(
    alloc: Global,
    style: Style,
    connection: &Connection,
    output: &mut W,
) -> Result<(), Failure>
    ensures text { OnOk result (Appends (W.contents output.old) (W.contents output.new)
        (lines_down (count_of style.modulus) style.form connection.now)) }
    ensures err { IfErr result (λ failure. status_of failure ≡ 3) }
{
    write_down(
        style.form,
        connection.serving.at.station,
        &connection.down,
        output,
    )?;
    write_fault_lines(alloc, style, Direction::Down, &connection.down, output)?;
    write_unjudged_line(style.form, connection.unjudged, output)
}

/// Writes the faults of the flows of one direction.
fn write_fault_lines<W: Write>(
    alloc: Global,
    style: Style,
    direction: Direction,
    flows: &Flows,
    output: &mut W,
) -> Result<(), Failure>
    ensures text { OnOk result (Appends (W.contents output.old) (W.contents output.new)
        (fault_lines (count_of style.modulus) style.form direction flows.now)) }
    ensures err { IfErr result (λ failure. status_of failure ≡ 3) }
{
    write_fault_line(alloc, style, direction, flows.zero.order(), output)?;
    write_fault_line(alloc, style, direction, flows.three.order(), output)
}

fn write_fault_line<W: Write>(
    alloc: Global,
    style: Style,
    direction: Direction,
    order: &Order,
    output: &mut W,
) -> Result<(), Failure>
    ensures text { OnOk result (Appends (W.contents output.old) (W.contents output.new)
        (fault_line (count_of style.modulus) style.form direction order.now)) }
    ensures err { IfErr result (λ failure. status_of failure ≡ 3) }
{
    match order {
        Order::InOrder(_) => Ok(()),
        Order::Faulty(fault) => {
            put(output, lead_of(style.form).as_bytes())?;
            write_fault(alloc, style.modulus, direction, fault, output)?;
            put(output, b"\n")?;
            Ok(())
        }
    }
}

/// Writes the frame of the first message that a station brought outside the tenure of its channel,
/// if there is one.
fn write_outside<W: Write>(form: Form, outside: Option<u64>, output: &mut W) -> Result<(), Failure>
    ensures text { OnOk result (Appends (W.contents output.old) (W.contents output.new)
        (outside_line form outside)) }
    ensures err { IfErr result (λ failure. status_of failure ≡ 3) }
{
    let Some(frame) = outside else {
        return Ok(());
    };
    let lead = lead_of(form);
    writeln!(
        output,
        "{lead}a station's: a message outside the tenure of its channel, in frame {frame}"
    )?;
    Ok(())
}

/// Writes the frame of the first message whose N(SD) wasn't the mobile's next, if there is one and
/// no uplink flow has a fault.
fn write_mobile<W: Write>(
    form: Form,
    has_fault: bool,
    mobile: Option<u64>,
    output: &mut W,
) -> Result<(), Failure>
    ensures text { OnOk result (Appends (W.contents output.old) (W.contents output.new)
        (mobile_line form has_fault mobile)) }
    ensures err { IfErr result (λ failure. status_of failure ≡ 3) }
{
    match (has_fault, mobile) {
        (false, Some(frame)) => {
            let lead = lead_of(form);
            writeln!(
                output,
                "{lead}the mobile's: a number that isn't its next, at the switch in frame {frame}"
            )?;
            Ok(())
        }
        _ => Ok(()),
    }
}

/// Writes how a switch judges the numbered messages that it got.
fn write_switch<W: Write>(form: Form, counts: Counts, output: &mut W) -> Result<(), Failure>
    ensures text { OnOk result (Appends (W.contents output.old) (W.contents output.new)
        (switch_line form counts)) }
    ensures err { IfErr result (λ failure. status_of failure ≡ 3) }
{
    put(output, lead_of(form).as_bytes())?;
    let both = sum_of(counts.accepted, counts.duplicates);
    write_counts(sum_of(both, counts.behind_gap), counts, output)
}

fn write_counts<W: Write>(numbered: u64, counts: Counts, output: &mut W) -> Result<(), Failure>
    ensures text { OnOk result (Appends (W.contents output.old) (W.contents output.new)
        (switch_text numbered counts)) }
    ensures err { IfErr result (λ failure. status_of failure ≡ 3) }
{
    let Counts {
        accepted,
        duplicates,
        behind_gap,
    } = counts;
    let end = plural_end(numbered);
    write!(
        output,
        "a switch by TS 24.007 accepts {accepted} of {numbered} numbered message{end}"
    )?;
    writeln!(
        output,
        ", takes {duplicates} for a duplicate, drops {behind_gap} behind a gap"
    )?;
    Ok(())
}

/// Writes how many of the switch's messages were handed to the mobile, and how the downlink stands.
fn write_down<W: Write>(
    form: Form,
    station: u16,
    flows: &Flows,
    output: &mut W,
) -> Result<(), Failure>
    ensures text { OnOk result (Appends (W.contents output.old) (W.contents output.new)
        (down_line form station flows.now)) }
    ensures err { IfErr result (λ failure. status_of failure ≡ 3) }
{
    put(output, lead_of(form).as_bytes())?;
    write_handed(
        gone_of(flows),
        came_of(flows),
        standing_of(station, flows),
        output,
    )
}

fn write_handed<W: Write>(
    gone: u64,
    came: u64,
    stands: Standing,
    output: &mut W,
) -> Result<(), Failure>
    ensures text { OnOk result (Appends (W.contents output.old) (W.contents output.new)
        (down_text gone came stands)) }
    ensures err { IfErr result (λ failure. status_of failure ≡ 3) }
{
    let words = stands.text();
    writeln!(output, "down: {gone} of {came} handed, {words}")?;
    Ok(())
}

fn write_unjudged_line<W: Write>(
    form: Form,
    unjudged: Option<Unjudged>,
    output: &mut W,
) -> Result<(), Failure>
    ensures text { OnOk result (Appends (W.contents output.old) (W.contents output.new)
        (unjudged_line form unjudged)) }
    ensures err { IfErr result (λ failure. status_of failure ≡ 3) }
{
    let Some(unjudged) = unjudged else {
        return Ok(());
    };
    put(output, lead_of(form).as_bytes())?;
    write_unjudged(unjudged, output)?;
    put(output, b"\n")?;
    Ok(())
}

/// Writes from which frame on a connection isn't judged, and why.
pub(crate) fn write_unjudged<W: Write>(unjudged: Unjudged, output: &mut W) -> Result<(), Failure>
    ensures text { OnOk result (Appends (W.contents output.old) (W.contents output.new)
        (unjudged_text unjudged)) }
    ensures err { IfErr result (λ failure. status_of failure ≡ 3) }
{
    let frame = unjudged.frame;
    let reason = reason_text(unjudged.reason);
    write!(output, "not judged from frame {frame} on: {reason}")?;
    Ok(())
}
