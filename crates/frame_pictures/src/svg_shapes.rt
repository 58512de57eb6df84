// SPDX-License-Identifier: MIT OR Apache-2.0
use octets::Memory;
use std::alloc::Global;

/// The width of a column, in pixels.
const COLUMN: usize = 8;

/// The height of a row, in pixels.
const ROW: usize = 22;

/// The width of a character, in pixels; narrower than a column.
const CHARACTER: usize = 7;

/// The x coordinate of the middle of a column.
pub(crate) fn across(column: usize) -> usize {
    column.saturating_add(1).saturating_mul(COLUMN)
}

/// The y coordinate of the middle of a row.
pub(crate) fn down(row: usize) -> usize {
    row.saturating_add(1).saturating_mul(ROW)
}

pub(crate) fn put(out: &mut Vec<u8>, text: &str) -> Result<(), Memory> {
    out.extend_from_slice(text.as_bytes())?;
    Ok(())
}

/// Appends a line of the style class `class` between the points `from` and `to`.
pub(crate) fn put_stroke(
    alloc: Global,
    class: &str,
    from: (usize, usize),
    to: (usize, usize),
    out: &mut Vec<u8>,
) -> Result<(), Memory> {
    let (x, y) = from;
    let (end_x, end_y) = to;
    let line = format!(in alloc;
        "<line class=\"{class}\" x1=\"{x}\" y1=\"{y}\" x2=\"{end_x}\" y2=\"{end_y}\"/>\n"
    )?;
    put(out, line.as_str())
}

/// Appends a text on a background of its own. The text begins at `x`; its middle is at height `y`.
pub(crate) fn put_text(
    alloc: Global,
    class: &str,
    x: usize,
    y: usize,
    text: &[u8],
    out: &mut Vec<u8>,
) -> Result<(), Memory> {
    let width = text.len().saturating_mul(CHARACTER);
    put_ground(alloc, x, y, width, out)?;
    put_characters(alloc, class, x, y, text, out)
}

/// Appends a text on a background of its own, centred on (`x`, `y`). The style of `class` must set
/// `text-anchor` to `middle`.
pub(crate) fn put_middle_text(
    alloc: Global,
    class: &str,
    x: usize,
    y: usize,
    text: &[u8],
    out: &mut Vec<u8>,
) -> Result<(), Memory> {
    let width = text.len().saturating_mul(CHARACTER);
    put_ground(alloc, x.saturating_sub(width / 2), y, width, out)?;
    put_characters(alloc, class, x, y, text, out)
}

/// Appends the characters of a text, stretched to `CHARACTER` pixels each.
fn put_characters(
    alloc: Global,
    class: &str,
    x: usize,
    y: usize,
    text: &[u8],
    out: &mut Vec<u8>,
) -> Result<(), Memory> {
    let width = text.len().saturating_mul(CHARACTER);
    let base = y.saturating_add(4);
    let begin = format!(in alloc;
        "<text class=\"{class}\" x=\"{x}\" y=\"{base}\" textLength=\"{width}\">"
    )?;
    put(out, begin.as_str())?;
    put_escaped(text, out)?;
    put(out, "</text>\n")
}

/// Appends the background of a text, which hides the lines below it.
fn put_ground(
    alloc: Global,
    x: usize,
    y: usize,
    width: usize,
    out: &mut Vec<u8>,
) -> Result<(), Memory> {
    let left = x.saturating_sub(3);
    let top = y.saturating_sub(8);
    let wide = width.saturating_add(6);
    let ground = format!(in alloc;
        "<rect class=\"ground\" x=\"{left}\" y=\"{top}\" width=\"{wide}\" height=\"16\"/>\n"
    )?;
    put(out, ground.as_str())
}

/// Appends a text in which `&`, `<` and `>` are replaced by entities.
fn put_escaped(text: &[u8], out: &mut Vec<u8>) -> Result<(), Memory> {
    for octet in text {
        match *octet {
            b'&' => put(out, "&amp;")?,
            b'<' => put(out, "&lt;")?,
            b'>' => put(out, "&gt;")?,
            other => out.push(other)?,
        }
    }
    Ok(())
}

/// Appends an arrowhead with its tip at (`x`, `y`). It points right if `is_right`, else left.
pub(crate) fn put_point(
    alloc: Global,
    x: usize,
    y: usize,
    is_right: bool,
    out: &mut Vec<u8>,
) -> Result<(), Memory> {
    let point = if is_right {
        format!(in alloc; "<path class=\"point\" d=\"M{x} {y}l-9 -4v8z\"/>\n")?
    } else {
        format!(in alloc; "<path class=\"point\" d=\"M{x} {y}l9 -4v8z\"/>\n")?
    };
    put(out, point.as_str())
}

/// Appends a dot centred on (`x`, `y`).
pub(crate) fn put_dot(alloc: Global, x: usize, y: usize, out: &mut Vec<u8>) -> Result<(), Memory> {
    let dot = format!(in alloc; "<circle class=\"point\" cx=\"{x}\" cy=\"{y}\" r=\"4\"/>\n")?;
    put(out, dot.as_str())
}

/// Appends a ring of the style class `class` round (`x`, `y`).
pub(crate) fn put_ring(
    alloc: Global,
    class: &str,
    x: usize,
    y: usize,
    out: &mut Vec<u8>,
) -> Result<(), Memory> {
    let ring = format!(in alloc;
        "<circle class=\"ring {class}\" cx=\"{x}\" cy=\"{y}\" r=\"7\"/>\n"
    )?;
    put(out, ring.as_str())
}

/// Appends a cross centred on (`x`, `y`).
pub(crate) fn put_cross(
    alloc: Global,
    x: usize,
    y: usize,
    out: &mut Vec<u8>,
) -> Result<(), Memory> {
    let left = x.saturating_sub(5);
    let top = y.saturating_sub(5);
    let cross = format!(in alloc;
        "<path class=\"cross\" d=\"M{left} {top}l10 10m-10 0l10 -10\"/>\n"
    )?;
    put(out, cross.as_str())
}
