// SPDX-License-Identifier: MIT OR Apache-2.0
ghost use Rattle.std.specs.Prelude.{◌≡◌};
ghost use Rattle.std.specs.List.{before_first};
ghost use Rattle.judge_lines.specs.Columns.{is_space, report_in};

use memchr::memchr;

/// A line's report on a link of the controller.
#[derive(Clone, Copy)]
pub(crate) enum Report {
    /// A frame was put on the link.
    Sent,
    /// Frames of the link are missing.
    Missing,
}

/// The report that the first word of `said` names, `sent` or `missing`; `None` for any other word.
pub(crate) fn report_of(said: &[u8]) -> Option<Report>
    ensures { result ≡ report_in said.now }
{
    match first_word(said) {
        b"sent" => Some(Report::Sent),
        b"missing" => Some(Report::Missing),
        _ => None,
    }
}

/// The octets before the first space; all octets if there is no space.
fn first_word(text: &[u8]) -> &[u8]
    ensures { result.now ≡ before_first is_space text.now }
{
    match memchr(b' ', text) {
        Some(end) => &text[..end],
        None => text,
    }
}
