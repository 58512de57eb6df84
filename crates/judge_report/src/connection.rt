// SPDX-License-Identifier: MIT OR Apache-2.0
ghost use Rattle.std.specs.Prelude.{◌≡◌, IfErr, OnOk};
ghost use Rattle.std.specs.Io.KnownBytes.{Appends};
ghost use Rattle.dtap_codec.specs.Number.{count_of};
ghost use Rattle.program_io.specs.Status.{status_of};
ghost use Rattle.judge_report.specs.ConnectionText.{connection_text, directive_text, first_line};
ghost use Rattle.judge_report.specs.ConnectionText.{name_text, point_line, reference_digits};
ghost use Rattle.judge_report.specs.ConnectionText.{summary_text, up_text};

use crate::lines::{write_lines_down, write_lines_up, write_unjudged};
use crate::style::{Form, Style};
use crate::verdict::{Outcome, Standing, came_of, gone_of, outcome_of, plural_end, standing_of};
use program_io::{Failure, put};
use run_judge::Connection;
use std::alloc::Global;
use std::io::Write;

/// Writes the verdict of a connection. `place` is the place of the connection among the printed
/// connections, from 1.
pub(crate) fn write_connection<W: Write>(
    alloc: Global,
    style: Style,
    place: u64,
    connection: &Connection,
    output: &mut W,
) -> Result<(), Failure>
    ensures text { OnOk result (Appends (W.contents output.old) (W.contents output.new)
        (connection_text (count_of style.modulus) style.form style.strictness place
        connection.now)) }
    ensures err { IfErr result (λ failure. status_of failure ≡ 3) }
{
    write_first_line(style, place, connection, output)?;
    write_lines_up(alloc, style, connection, output)?;
    write_lines_down(alloc, style, connection, output)
}

fn write_first_line<W: Write>(
    style: Style,
    place: u64,
    connection: &Connection,
    output: &mut W,
) -> Result<(), Failure>
    ensures text { OnOk result (Appends (W.contents output.old) (W.contents output.new)
        (first_line style.form style.strictness place connection.now)) }
    ensures err { IfErr result (λ failure. status_of failure ≡ 3) }
{
    match style.form {
        Form::Text => {
            write_summary(connection, output)?;
            put(output, b"\n")?;
            Ok(())
        }
        Form::Tap => {
            let outcome = outcome_of(style.strictness, connection);
            write_point(outcome, place, connection, output)
        }
    }
}

/// Writes the line of a test point.
fn write_point<W: Write>(
    outcome: Outcome,
    place: u64,
    connection: &Connection,
    output: &mut W,
) -> Result<(), Failure>
    ensures text { OnOk result (Appends (W.contents output.old) (W.contents output.new)
        (point_line outcome place connection.now)) }
    ensures err { IfErr result (λ failure. status_of failure ≡ 3) }
{
    let mark = outcome.mark();
    write!(output, "{mark}{place} - ")?;
    write_summary(connection, output)?;
    write_directive(outcome, output)
}

/// Writes the end of a test point's line, with the reason if the test point is skipped.
fn write_directive<W: Write>(outcome: Outcome, output: &mut W) -> Result<(), Failure>
    ensures text { OnOk result (Appends (W.contents output.old) (W.contents output.new)
        (directive_text outcome)) }
    ensures err { IfErr result (λ failure. status_of failure ≡ 3) }
{
    match outcome {
        Outcome::Skips(unjudged) => {
            put(output, b" # SKIP ")?;
            write_unjudged(unjudged, output)?;
            put(output, b"\n")?;
            Ok(())
        }
        Outcome::Passes | Outcome::Fails => {
            put(output, b"\n")?;
            Ok(())
        }
    }
}

/// Writes the name of a connection and the summary of its uplink.
fn write_summary<W: Write>(connection: &Connection, output: &mut W) -> Result<(), Failure>
    ensures text { OnOk result (Appends (W.contents output.old) (W.contents output.new)
        (summary_text connection.now)) }
    ensures err { IfErr result (λ failure. status_of failure ≡ 3) }
{
    let channels = u64::from(connection.serving.rank) + 1;
    let came = came_of(&connection.up);
    let gone = gone_of(&connection.up);
    let stands = standing_of(connection.serving.at.station, &connection.up);
    write_name(connection, output)?;
    write_up(channels, came, gone, stands, output)
}

fn write_name<W: Write>(connection: &Connection, output: &mut W) -> Result<(), Failure>
    ensures text { OnOk result (Appends (W.contents output.old) (W.contents output.new)
        (name_text connection.now)) }
    ensures err { IfErr result (λ failure. status_of failure ≡ 3) }
{
    let number = connection.number;
    write!(output, "connection {number} (reference ")?;
    put(output, &reference_digits(connection.reference))?;
    put(output, b"): ")?;
    Ok(())
}

/// The hexadecimal digits of a reference's lower three octets.
fn reference_digits(reference: u32) -> [u8; 6]
    ensures { result ≡ reference_digits reference }
{
    let [_, high, middle, low] = reference.to_be_bytes();
    let mut digits = [0; 6];
    hex::encode_to_slice([high, middle, low], &mut digits).unwrap();
    digits
}

/// Writes how many channels served, how many uplink messages came, how many of these messages are
/// at the switch, and the verdict on the uplink.
fn write_up<W: Write>(
    channels: u64,
    came: u64,
    gone: u64,
    stands: Standing,
    output: &mut W,
) -> Result<(), Failure>
    ensures text { OnOk result (Appends (W.contents output.old) (W.contents output.new)
        (up_text channels came gone stands)) }
    ensures err { IfErr result (λ failure. status_of failure ≡ 3) }
{
    let end = plural_end(channels);
    write!(output, "{channels} channel{end}, ")?;
    let end = plural_end(came);
    write!(output, "{came} message{end} up, ")?;
    let words = stands.text();
    write!(output, "{gone} at the switch: {words}")?;
    Ok(())
}
