// SPDX-License-Identifier: MIT OR Apache-2.0
ghost use Rattle.std.specs.Prelude.{◌≡◌, ◌++◌, IfErr, OnOk, option_map};
ghost use Rattle.std.specs.Io.KnownBytes.{Appends};
ghost use Rattle.program_io.specs.Status.{status_of};
ghost use Rattle.frame_words.specs.MessageName.{behind_space, message_name};

use crate::carried::carried_name;
use crate::joined::write_joined;
use ipa_framing::Frame;
use program_base::frame_name;
use program_io::{Failure, put};
use std::alloc::Global;
use std::io::Write;

/// Writes the name of a frame and, if there is a message inside the frame, a space and the name of
/// that message. After an error, a part may have been written.
pub fn write_message_name<W: Write>(
    alloc: Global,
    frame: &Frame,
    output: &mut W,
) -> Result<(), Failure>
    ensures text { OnOk result (Appends (W.contents output.old) (W.contents output.new)
        (message_name frame.now)) }
    ensures err { IfErr result (λ failure. status_of failure ≡ 3) }
{
    let name = frame_name(alloc, frame)?;
    let carried = carried_name(alloc, frame)?;
    write_names(name, carried, output)
}

/// Writes `name` and, if `carried` is `Some`, a space and the carried name.
pub(crate) fn write_names<W: Write>(
    name: &str,
    carried: Option<&str>,
    output: &mut W,
) -> Result<(), Failure>
    ensures text { OnOk result (Appends (W.contents output.old) (W.contents output.new)
        (name.now ++ behind_space (option_map (λ text. text.now) carried.entry))) }
    ensures err { IfErr result (λ failure. status_of failure ≡ 3) }
{
    match carried {
        None => put(output, name.as_bytes())?,
        Some(carried) => write_joined(name.as_bytes(), b" ", carried.as_bytes(), output)?,
    }
    Ok(())
}
