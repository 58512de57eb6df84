// SPDX-License-Identifier: MIT OR Apache-2.0
// Lines of a text, counted from 1.
ghost use Rattle.std.specs.Prelude.{◌≡◌, ◌+◌, ◌≤◌, IfSome, length};
ghost use Rattle.memchr.specs.Find.{is_byte, places};
ghost use Rattle.settings_hint.specs.Lines.{octets_before};

use memchr::memchr_iter;

/// The line of the octet at `place`; places count from 0. If the text ends before `place`, the line
/// of the end of the text.
pub(crate) fn line_at(text: &[u8], place: usize) -> usize
    ensures { result ≡ length (places (is_byte 10) (octets_before place text.now)) + 1 }
{
    let before = &text[..place.min(text.len())];
    memchr_iter(b'\n', before).count() + 1
}

/// The line of the `number`-th head of a table with this name; heads count from 1. `None` if the
/// text doesn't have exactly `count` such heads. A table that is written with dotted keys or in
/// braces has no head.
pub(crate) fn line_of_head(text: &str, name: &str, number: usize, count: usize) -> Option<usize>
    ensures { IfSome result (λ line. 1 ≤ line) }
{
    let mut found = None;
    let mut heads = 0usize;
    for (place, line) in text.lines().enumerate() {
        if is_head(line, name) {
            heads = heads.saturating_add(1);
            if heads == number {
                found = Some(place.saturating_add(1));
            }
        }
    }
    if heads == count { found } else { None }
}

/// Whether a line is the head of a table with this name, `[name]` or `[[name]]`.
fn is_head(line: &str, name: &str) -> bool {
    let Some(inner) = line.trim_start().strip_prefix('[') else {
        return false;
    };
    let inner = match inner.strip_prefix('[') {
        Some(inner) => inner,
        None => inner,
    };
    let Some(behind) = inner.trim_start().strip_prefix(name) else {
        return false;
    };
    behind.trim_start().starts_with(']')
}
