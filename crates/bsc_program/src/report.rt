// SPDX-License-Identifier: MIT OR Apache-2.0
ghost use Rattle.std.specs.Prelude.{◌≡◌, ◌≤◌, ◌++◌, List, ℕ, IfErr, IfOk, OnOk, codes, length};
ghost use Rattle.std.specs.Io.KnownBytes.{Appends};
ghost use Rattle.hex.specs.Hex.{encode_lower};
ghost use Rattle.program_io.specs.Status.{status_of};
ghost use Rattle.bsc_program.specs.Report.{AreConnections, IsReport, WritesIfSome};
ghost use Rattle.bsc_program.specs.Report.{connection_text, counted_lines, list_text};
ghost use Rattle.bsc_program.specs.Report.{mobile_text, texts_to};

use octets::{Memory, Octets};
use program_io::{Failure, put_joined};
use std::alloc::Global;
use std::io::Write;
use world::World;

/// The length, in octets, up to which a message's digits are assembled on the stack. Nearly all
/// messages are shorter, and clearing a buffer for so many digits and a line feed costs little.
const SHORT: usize = 127;

/// Writes the report of a world. The report lists the messages that each mobile sent and received.
/// For each connection of the switch, it lists the messages that the switch took and accepted, and
/// the unnumbered ones. The last line is the number of events that were not taken. After an error,
/// a part may have been written.
pub(crate) fn write_report<W: Write>(
    alloc: Global,
    world: &World,
    output: &mut W,
) -> Result<(), Failure>
    ensures ok { OnOk result ((text : List ℕ) × IsReport world.now text
        × Appends (W.contents output.old) (W.contents output.new) text) }
    ensures err { IfErr result (λ failure. status_of failure ≡ 3) }
{
    write_each_mobile(alloc, world, output)?;
    write_each_connection(alloc, world, output)?;
    let not_taken = world.not_taken();
    writeln!(output, "events not taken {not_taken}")?;
    output.flush()?;
    Ok(())
}

/// Writes the lists of each mobile, in the order of the mobiles' numbers.
fn write_each_mobile<W: Write>(alloc: Global, world: &World, output: &mut W) -> Result<(), Failure>
    ensures ok { OnOk result (Appends (W.contents output.old) (W.contents output.new)
        (texts_to (mobile_text world.now.scene) 255)) }
    ensures err { IfErr result (λ failure. status_of failure ≡ 3) }
{
    for mobile in 1..=u8::MAX {
        write_mobile(alloc, world, mobile, output)?;
    }
    Ok(())
}

/// Writes the lists of each connection, from connection 1 up to the first number without a
/// connection.
fn write_each_connection<W: Write>(
    alloc: Global,
    world: &World,
    output: &mut W,
) -> Result<(), Failure>
    ensures ok { OnOk result ((text : List ℕ) × AreConnections world.now.scene text
        × Appends (W.contents output.old) (W.contents output.new) text) }
    ensures err { IfErr result (λ failure. status_of failure ≡ 3) }
{
    for connection in 1..=u32::MAX {
        if !write_connection(alloc, world, connection, output)? {
            break;
        }
    }
    Ok(())
}

/// Writes the lists of the mobile with this number; writes nothing if there is no such mobile.
fn write_mobile<W: Write>(
    alloc: Global,
    world: &World,
    mobile: u8,
    output: &mut W,
) -> Result<(), Failure>
    ensures ok { OnOk result (Appends (W.contents output.old) (W.contents output.new)
        (mobile_text world.now.scene mobile)) }
    ensures err { IfErr result (λ failure. status_of failure ≡ 3) }
{
    let (Some(sent), Some(received)) = (world.sent(mobile), world.received(mobile)) else {
        return Ok(());
    };
    let number = u32::from(mobile);
    write_list(alloc, "mobile ", number, " sent ", sent, output)?;
    write_list(alloc, "mobile ", number, " received ", received, output)
}

/// Writes the lists of the connection with this number, and answers whether there is such a
/// connection.
fn write_connection<W: Write>(
    alloc: Global,
    world: &World,
    connection: u32,
    output: &mut W,
) -> Result<bool, Failure>
    ensures ok { IfOk result (λ written. WritesIfSome written
        (connection_text world.now.scene connection)
        (W.contents output.old) (W.contents output.new)) }
    ensures err { IfErr result (λ failure. status_of failure ≡ 3) }
{
    let (Some(taken), Some(accepted), Some(unnumbered)) = (
        world.taken(connection),
        world.accepted(connection),
        world.unnumbered(connection),
    ) else {
        return Ok(false);
    };
    write_list(alloc, "conn ", connection, " taken ", taken, output)?;
    write_list(alloc, "conn ", connection, " accepted ", accepted, output)?;
    write_list(
        alloc,
        "conn ",
        connection,
        " unnumbered ",
        unnumbered,
        output,
    )?;
    Ok(true)
}

/// Writes a list of messages: the list's owner and kind, and then the messages.
fn write_list<W: Write>(
    alloc: Global,
    whose: &str,
    number: u32,
    what: &str,
    messages: &[Octets],
    output: &mut W,
) -> Result<(), Failure>
    ensures ok { OnOk result (Appends (W.contents output.old) (W.contents output.new)
        (list_text whose.now number what.now messages.now)) }
    ensures err { IfErr result (λ failure. status_of failure ≡ 3) }
{
    write!(output, "{whose}{number}{what}")?;
    write_messages(alloc, messages, output)
}

/// Ends a line with the number of messages, and writes each message as a line of lower-case
/// hexadecimal digits.
fn write_messages<W: Write>(
    alloc: Global,
    messages: &[Octets],
    output: &mut W,
) -> Result<(), Failure>
    ensures ok { OnOk result (Appends (W.contents output.old) (W.contents output.new)
        (counted_lines messages.now)) }
    ensures err { IfErr result (λ failure. status_of failure ≡ 3) }
{
    writeln!(output, "{}", messages.len())?;
    for message in messages {
        write_message(alloc, message, output)?;
    }
    Ok(())
}

/// Writes a message as a line of lower-case hexadecimal digits.
fn write_message<W: Write>(alloc: Global, message: &Octets, output: &mut W) -> Result<(), Failure>
    ensures ok { OnOk result (Appends (W.contents output.old) (W.contents output.new)
        (encode_lower message.now ++ codes "\n")) }
    ensures err { IfErr result (λ failure. status_of failure ≡ 3) }
{
    let octets = message.as_slice();
    if octets.len() <= SHORT {
        return write_short(octets, output);
    }
    let digits = hex::encode(alloc, octets).map_err(Memory::from)?;
    writeln!(output, "{digits}")?;
    Ok(())
}

/// Writes a short message as a line, with one write if the output takes it whole.
fn write_short<W: Write>(message: &[u8], output: &mut W) -> Result<(), Failure>
    requires { length message.now ≤ SHORT }
    ensures ok { OnOk result (Appends (W.contents output.old) (W.contents output.new)
        (encode_lower message.now ++ codes "\n")) }
    ensures err { IfErr result (λ failure. status_of failure ≡ 3) }
{
    let mut room = [0_u8; 2 * SHORT + 1];
    let end = 2 * message.len();
    let Ok(()) = hex::encode_to_slice(message, &mut room[..end]) else {
        unreachable!()
    };
    room[end] = b'\n';
    put_joined(output, &room[..end + 1], &[end])?;
    Ok(())
}
