// SPDX-License-Identifier: MIT OR Apache-2.0
ghost use Rattle.std.specs.Prelude.{ℕ, List};
ghost use Rattle.ipa_framing.specs.declared.frame.Frame.{Frame as LinkFrame};
ghost use Rattle.program_io.specs.Output.{Puts};

use ipa_framing::Frame;
use program_io::Failure;
use std::alloc::Global;
use std::io::Write;

/// The form of the line that is printed for each frame of a stream.
pub trait FrameLine {
    ghost line: { LinkFrame → List ℕ };

    /// Prints the line of a frame. After an error, only a beginning of the line was printed, which
    /// may be empty.
    fn print<W: Write>(&self, alloc: Global, frame: &Frame, output: &mut W) -> Result<(), Failure>
        ensures { Puts result (W.contents output.old) (W.contents output.new) (line frame.now) };
}
