// SPDX-License-Identifier: MIT OR Apache-2.0
//! `bsc decode --long`: prints the name, the fields and the octets of each frame of a link.
ghost use Rattle.std.specs.Prelude.{◌≡◌, ◌⊎◌, ℕ, List, IfSome, codes};
ghost use Rattle.std.specs.Io.KnownBytes.{IsAtEnd};
ghost use Rattle.frame_words.specs.LongLine.{long_line};
ghost use Rattle.program_base.specs.Decoded.{Begins, Decodes, IsRefused};
ghost use Rattle.program_io.specs.Output.{Puts};

use crate::line::line_of;
use ipa_framing::Frame;
use program_base::{FrameLine, decode_as};
use program_io::{Failure, put};
use std::alloc::Global;
use std::io::{Read, Write};

/// The form of line that `decode --long` prints for a frame.
#[derive(Clone, Copy)]
struct Long;

impl FrameLine for Long {
    ghost use Rattle.frame_words.specs.LongLine.{long_line};

    ghost line = { long_line };

    fn print<W: Write>(&self, alloc: Global, frame: &Frame, output: &mut W) -> Result<(), Failure> {
        print_line(alloc, frame, output)
    }
}

/// Assembles the line of a frame, and prints it.
fn print_line<W: Write>(alloc: Global, frame: &Frame, output: &mut W) -> Result<(), Failure>
    ensures { Puts result (W.contents output.old) (W.contents output.new) (long_line frame.now) }
{
    let line = line_of(alloc, frame)?;
    put(output, line.as_slice())?;
    Ok(())
}

/// Prints a line for each frame of the IPA stream on `input`. A line has three columns, separated
/// by tabs. The first column is the stream and the name that `decode` prints, followed by the name
/// of the message inside the frame. The second column is the channel or the references, and the
/// number N(SD). The third column is the octets of the body. The status, the line of an incomplete
/// frame and the reports of failures are those of `decode`.
pub fn decode_long<R: Read, W: Write, E: Write>(
    alloc: Global,
    input: &mut R,
    output: &mut W,
    errors: &mut E,
) -> u8
    ensures status { (result ≡ 0) ⊎ (result ≡ 3) }
    ensures read { result ≡ 0 → IsAtEnd (R.remaining input.new) }
    ensures printed { result ≡ 0 → Decodes long_line (R.remaining input.old)
        (W.contents output.old) (W.contents output.new) }
    ensures begun { Begins long_line (codes "fault F1\n") (R.remaining input.old)
        (W.contents output.old) (W.contents output.new) }
    ensures long { IfSome (R.remaining input.old) (λ stream.
        (text : List ℕ) → IsRefused long_line stream text → result ≡ 3) }
{
    decode_as(alloc, &Long, input, output, errors)
}
