// SPDX-License-Identifier: MIT OR Apache-2.0
//! Writes the name and the fields of a frame, and reads the frame only once.
ghost use Rattle.std.specs.Prelude.{◌≡◌, ◌++◌, [], IfErr, OnOk, if◌then◌else◌};
ghost use Rattle.std.specs.Io.KnownBytes.{Appends};
ghost use Rattle.dtap_codec.specs.Number.{count_of};
ghost use Rattle.program_io.specs.Status.{status_of};
ghost use Rattle.frame_words.specs.Fields.{fields_text};
ghost use Rattle.frame_words.specs.MessageName.{message_name};
ghost use Rattle.frame_words.specs.Numbered.{number_field, number_in_frame};
ghost use Rattle.frame_words.specs.Said.{found_fields};

use crate::fields::{write_channel, write_reference};
use crate::message_name::write_names;
use crate::number::write_found;
use crate::said::{Fields, said_in};
use dtap_codec::Modulus;
use ipa_framing::Frame;
use program_io::{Failure, put_joined};
use std::alloc::Global;
use std::io::Write;

/// Writes the text of `write_message_name`, `word`, the text of `write_fields` and, if
/// `is_numbered`, the text of `write_number`. Reads the frame only once. After an error, a part may
/// have been written.
pub fn write_said<W: Write>(
    alloc: Global,
    modulus: Modulus,
    frame: &Frame,
    word: &str,
    is_numbered: bool,
    output: &mut W,
) -> Result<(), Failure>
    ensures text { OnOk result (Appends (W.contents output.old) (W.contents output.new)
        (message_name frame.now ++ (word.now ++ fields_text frame.now ++ (if is_numbered
        then number_field (number_in_frame (count_of modulus) frame.now) else [])))) }
    ensures err { IfErr result (λ failure. status_of failure ≡ 3) }
{
    let said = said_in(alloc, modulus, frame)?;
    write_names(said.name, said.carried, output)?;
    // The word's first octet separates two columns. If the output takes nothing of the word as one
    // piece, this octet is written separately.
    put_joined(output, word.as_bytes(), &[1])?;
    write_found_fields(&said.fields, output)?;
    let number = if is_numbered { said.number } else { None };
    write_found(number, output)
}

/// Writes the fields of a message: its channel, its references, or nothing.
fn write_found_fields<W: Write>(fields: &Fields, output: &mut W) -> Result<(), Failure>
    ensures text { OnOk result (Appends (W.contents output.old) (W.contents output.new)
        (found_fields fields.now)) }
    ensures err { IfErr result (λ failure. status_of failure ≡ 3) }
{
    match fields {
        Fields::Nothing => Ok(()),
        Fields::Channel(channel) => write_channel(Some(*channel), output),
        Fields::References {
            destination,
            source,
        } => {
            write_reference(" to ", *destination, output)?;
            write_reference(" from ", *source, output)
        }
    }
}
