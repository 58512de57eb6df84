// SPDX-License-Identifier: MIT OR Apache-2.0
ghost use Rattle.std.specs.Prelude.{◌≡◌, IfErr, OnOk};
ghost use Rattle.std.specs.List.{flat_map};
ghost use Rattle.std.specs.Io.KnownBytes.{Appends};
ghost use Rattle.connection_notes.specs.NoteText.{note_text};
ghost use Rattle.program_io.specs.Status.{status_of};
ghost use Rattle.trace_program.specs.TraceLines.{note_line};

use connection_notes::Note;
use program_io::Failure;
use std::io::Write;

/// Writes a line for each note at an event.
pub(crate) fn write_notes<W: Write>(
    number: u64,
    notes: &[Note],
    output: &mut W,
) -> Result<(), Failure>
    ensures text { OnOk result (Appends (W.contents output.old) (W.contents output.new)
        (flat_map (note_line number) notes.now)) }
    ensures err { IfErr result (λ failure. status_of failure ≡ 3) }
{
    for note in notes {
        write_note(number, *note, output)?;
    }
    Ok(())
}

fn write_note<W: Write>(number: u64, note: Note, output: &mut W) -> Result<(), Failure>
    ensures text { OnOk result (Appends (W.contents output.old) (W.contents output.new)
        (note_line number note)) }
    ensures err { IfErr result (λ failure. status_of failure ≡ 3) }
{
    let connection = note.number();
    writeln!(output, "{number}\tbsc\tbsc\tconn {connection}\t{note}\t")?;
    Ok(())
}

/// Writes the text of a note, without the number of its connection. After an error, a part may have
/// been written.
pub fn write_note_text<W: Write>(note: Note, output: &mut W) -> Result<(), Failure>
    ensures text { OnOk result (Appends (W.contents output.old) (W.contents output.new)
        (note_text note)) }
    ensures err { IfErr result (λ failure. status_of failure ≡ 3) }
{
    write!(output, "{note}")?;
    Ok(())
}
