// SPDX-License-Identifier: MIT OR Apache-2.0
ghost use Rattle.std.specs.Prelude.{◌≡◌, ◌++◌, IfErr, OnOk, codes, decimal};
ghost use Rattle.connection_notes.specs.NoteText.{note_text};
ghost use Rattle.program_io.specs.Status.{status_of};
ghost use Rattle.rerun_lines.specs.StepText.{note_line};

use crate::mark::Mark;
use crate::pieces::{put_clock, put_decimal, put_octets};
use connection_notes::Note;
use octets::Memory;
use program_io::Failure;
use std::io::Write;

/// Appends the line of what became of a connection.
pub(crate) fn put_note_line(mark: Mark, note: Note, text: &mut Vec<u8>) -> Result<(), Failure>
    ensures text { OnOk result (text.new.items ≡ text.old.items ++ note_line mark note) }
    ensures err { IfErr result (λ failure. status_of failure ≡ 3) }
{
    put_conn(mark.number, note.number(), text)?;
    put_note(note, text)?;
    put_clock(mark.stamp, text)?;
    Ok(())
}

/// Appends the columns before what became of a connection.
fn put_conn(number: u64, conn: u32, text: &mut Vec<u8>) -> Result<(), Memory>
    ensures { OnOk result (text.new.items ≡ text.old.items ++ (decimal number
        ++ codes "\tbsc\tbsc\tconn " ++ decimal conn ++ codes "\t")) }
{
    put_decimal(number, text)?;
    put_octets(b"\tbsc\tbsc\tconn ", text)?;
    put_decimal(u64::from(conn), text)?;
    put_octets(b"\t", text)
}

/// Appends what became of a connection, without its number.
fn put_note(note: Note, text: &mut Vec<u8>) -> Result<(), Failure>
    ensures text { OnOk result (text.new.items ≡ text.old.items ++ note_text note) }
    ensures err { IfErr result (λ failure. status_of failure ≡ 3) }
{
    write!(text, "{note}")?;
    Ok(())
}
