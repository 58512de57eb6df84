// SPDX-License-Identifier: MIT OR Apache-2.0
ghost use Rattle.std.specs.Prelude.{◌≡◌};
ghost use Rattle.program_base.specs.FirstLine.{behind_line, first_line};

use memchr::memchr;

/// Splits a script into its first line, without the line feed, and the octets after the line feed.
/// If there is no line feed, the line is the whole script.
pub fn split_first_line(script: &[u8]) -> (&[u8], &[u8])
    ensures line { result.0.now ≡ first_line script.now }
    ensures others { result.1.now ≡ behind_line script.now }
{
    match memchr(b'\n', script) {
        Some(end) => (&script[..end], &script[end + 1..]),
        None => (script, &[]),
    }
}
