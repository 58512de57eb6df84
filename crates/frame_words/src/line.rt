// SPDX-License-Identifier: MIT OR Apache-2.0
//! The line that `decode --long` prints for a frame. The line is assembled as one piece.
ghost use Rattle.std.specs.Prelude.{◌≡◌, ◌++◌, ◌∷◌, [], IfOk, OnOk, codes, drop, option_map};
ghost use Rattle.hex.specs.Hex.{encode_lower};
ghost use Rattle.frame_words.specs.Fields.{reference_field};
ghost use Rattle.frame_words.specs.LongLine.{long_line};
ghost use Rattle.frame_words.specs.MessageName.{behind_space};
ghost use Rattle.frame_words.specs.Numbered.{number_field};
ghost use Rattle.frame_words.specs.Said.{found_fields};

use crate::digits::{digits_of, reference_digits};
use crate::number::write_found;
use crate::said::{Fields, Said, said_in};
use dtap_codec::Modulus;
use ipa_framing::Frame;
use octets::Memory;
use program_io::Failure;
use std::alloc::Global;

/// The number of octets that are reserved for a line, besides the digits of the body. A longer line
/// is reallocated.
const LINE_ROOM: usize = 128;

/// The line of a frame. Fails only on allocation failure.
pub(crate) fn line_of(alloc: Global, frame: &Frame) -> Result<Vec<u8>, Failure>
    ensures { IfOk result (λ line. line.items ≡ long_line frame.now) }
{
    let said = said_in(alloc, Modulus::Four, frame)?;
    let digits = frame.body.len().saturating_mul(2);
    let room = LINE_ROOM.saturating_add(digits);
    let mut line = Vec::with_capacity(alloc, room).map_err(Memory::from)?;
    put_names(frame.stream, &said, &mut line)?;
    put_said(&said, &mut line)?;
    put_body(alloc, frame, &mut line)?;
    Ok(line)
}

/// Appends the stream of a frame, the frame's name, and the name of the message inside the frame.
fn put_names(stream: u8, said: &Said, line: &mut Vec<u8>) -> Result<(), Memory>
    ensures { OnOk result (line.new.items ≡ line.old.items
        ++ (encode_lower (stream ∷ []) ++ codes " " ++ said.now.name.now
        ++ behind_space (option_map (λ text. text.now) said.now.carried))) }
{
    line.extend_from_slice(&digits_of(stream))?;
    line.extend_from_slice(b" ")?;
    line.extend_from_slice(said.name.as_bytes())?;
    if let Some(carried) = said.carried {
        line.extend_from_slice(b" ")?;
        line.extend_from_slice(carried.as_bytes())?;
    }
    Ok(())
}

/// Appends the column of a frame's fields and number. A tab replaces the column's first space.
fn put_said(said: &Said, line: &mut Vec<u8>) -> Result<(), Failure>
    ensures { OnOk result (line.new.items ≡ line.old.items
        ++ (codes "\t" ++ drop 1 (found_fields said.now.fields ++ number_field said.now.number))) }
{
    let start = line.len();
    put_fields(&said.fields, line)?;
    write_found(said.number, line)?;
    if start < line.len() {
        line[start] = b'\t';
    } else {
        line.push(b'\t').map_err(Memory::from)?;
    }
    Ok(())
}

/// Appends the fields of a message, with a space before each word.
fn put_fields(fields: &Fields, line: &mut Vec<u8>) -> Result<(), Memory>
    ensures { OnOk result (line.new.items ≡ line.old.items ++ found_fields fields.now) }
{
    match fields {
        Fields::Nothing => Ok(()),
        Fields::Channel(channel) => {
            line.extend_from_slice(b" channel ")?;
            line.extend_from_slice(&digits_of(*channel))?;
            Ok(())
        }
        Fields::References {
            destination,
            source,
        } => {
            put_reference(" to ", destination, line)?;
            put_reference(" from ", source, line)
        }
    }
}

/// Appends `word` and the digits of the reference; appends nothing if there is no reference.
fn put_reference(word: &str, reference: &Option<[u8; 3]>, line: &mut Vec<u8>) -> Result<(), Memory>
    ensures { OnOk result
        (line.new.items ≡ line.old.items ++ reference_field word.now reference.now) }
{
    let Some(octets) = reference else {
        return Ok(());
    };
    line.extend_from_slice(word.as_bytes())?;
    line.extend_from_slice(&reference_digits(*octets))?;
    Ok(())
}

/// Appends the column with the octets of a frame's body, and the line feed.
fn put_body(alloc: Global, frame: &Frame, line: &mut Vec<u8>) -> Result<(), Memory>
    ensures { OnOk result (line.new.items ≡ line.old.items
        ++ (codes "\t" ++ encode_lower frame.now.body ++ codes "\n")) }
{
    let digits = hex::encode(alloc, frame.body.as_slice())?;
    line.extend_from_slice(b"\t")?;
    line.extend_from_slice(digits.as_bytes())?;
    line.extend_from_slice(b"\n")?;
    Ok(())
}
