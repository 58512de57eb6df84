// SPDX-License-Identifier: MIT OR Apache-2.0
use crate::chart::{Arrow, Chart, ChartEvent, Fate, Mark};
use crate::layout::{Layout, NUMBER_WIDTH};
use crate::svg_shapes::{
    across, down, put, put_cross, put_dot, put_middle_text, put_point, put_ring, put_stroke,
    put_text,
};
use octets::Memory;
use std::alloc::Global;

/// The start of the root element, up to its size.
const ROOT: &str =
    "<svg xmlns=\"http://www.w3.org/2000/svg\" font-family=\"monospace\" font-size=\"11.5\"";

/// The style sheet. The background is drawn too, so that the picture is readable on a dark page.
const STYLE: &str = "<style>\n\
    .ground{fill:#ffffff}\n\
    text{fill:#1f2328;white-space:pre}\n\
    .label,.name{text-anchor:middle}\n\
    .label{font-weight:bold}\n\
    .words,.number{fill:#4b535d}\n\
    .refused,.lost{fill:#b3261e}\n\
    .life{stroke:#8c959f}\n\
    .rule{stroke:#e3e7eb}\n\
    .passed,.held,.dropped{stroke:#0b4f9e;stroke-width:1.5}\n\
    .held{stroke-dasharray:6 4}\n\
    .dropped{stroke-dasharray:2 4}\n\
    .point{fill:#0b4f9e}\n\
    .ring{fill:none}\n\
    .cross{stroke:#b3261e;stroke-width:2;fill:none}\n\
    </style>\n";

/// The chart as an SVG picture. Fails only if an allocation fails.
pub fn svg_of(alloc: Global, chart: &Chart) -> Result<Vec<u8>, Memory> {
    let layout = Layout::of(alloc, chart)?;
    let rows = rows_of(chart.events.as_slice());
    let mut out = Vec::new(alloc);
    put_beginning(alloc, &layout, rows, &mut out)?;
    put_lifelines(alloc, &layout, rows, &mut out)?;
    put_labels(alloc, &layout, chart.labels.as_slice(), &mut out)?;
    put_events(alloc, &layout, chart.events.as_slice(), &mut out)?;
    put(&mut out, "</svg>\n")?;
    Ok(out)
}

/// The number of rows of a chart with these events, including the row of the labels. Saturates.
fn rows_of(events: &[ChartEvent]) -> usize {
    let mut rows = 1_usize;
    for event in events {
        rows = rows.saturating_add(event.rows());
    }
    rows
}

/// Appends the root element with the picture's size, the style sheet and the background.
fn put_beginning(
    alloc: Global,
    layout: &Layout,
    rows: usize,
    out: &mut Vec<u8>,
) -> Result<(), Memory> {
    let width = across(layout.width());
    let height = down(rows);
    put(out, ROOT)?;
    let size = format!(in alloc;
        " width=\"{width}\" height=\"{height}\" viewBox=\"0 0 {width} {height}\">\n"
    )?;
    put(out, size.as_str())?;
    put(out, STYLE)?;
    put(
        out,
        "<rect class=\"ground\" width=\"100%\" height=\"100%\"/>\n",
    )
}

fn put_lifelines(
    alloc: Global,
    layout: &Layout,
    rows: usize,
    out: &mut Vec<u8>,
) -> Result<(), Memory> {
    let bottom = down(rows).saturating_sub(8);
    for column in layout.columns.as_slice() {
        let x = across(*column);
        put_stroke(alloc, "life", (x, down(0)), (x, bottom), out)?;
    }
    Ok(())
}

fn put_labels(
    alloc: Global,
    layout: &Layout,
    labels: &[Vec<u8>],
    out: &mut Vec<u8>,
) -> Result<(), Memory> {
    for (column, label) in layout.columns.iter().zip(labels.iter()) {
        put_middle_text(
            alloc,
            "label",
            across(*column),
            down(0),
            label.as_slice(),
            out,
        )?;
    }
    Ok(())
}

fn put_events(
    alloc: Global,
    layout: &Layout,
    events: &[ChartEvent],
    out: &mut Vec<u8>,
) -> Result<(), Memory> {
    let mut row = 1_usize;
    for event in events {
        put_event(alloc, layout, event, row, out)?;
        put_arrows(alloc, layout, event.arrows.as_slice(), row, out)?;
        let first = row.saturating_add(event.marks_begin());
        put_marks(alloc, layout, event.marks.as_slice(), first, out)?;
        row = row.saturating_add(event.rows());
    }
    Ok(())
}

/// Appends the rule above an event, then the event's number, its words and its actor's mark.
fn put_event(
    alloc: Global,
    layout: &Layout,
    event: &ChartEvent,
    row: usize,
    out: &mut Vec<u8>,
) -> Result<(), Memory> {
    let y = down(row);
    let above = y.saturating_sub(11);
    put_stroke(
        alloc,
        "rule",
        (0, above),
        (across(layout.width()), above),
        out,
    )?;
    put_number(alloc, event.number, y, out)?;
    let words = event.words(alloc)?;
    put_text(
        alloc,
        "words",
        across(NUMBER_WIDTH),
        y,
        words.as_slice(),
        out,
    )?;
    put_actor(alloc, layout, event, y, out)
}

/// Appends the number of an event, right-aligned.
fn put_number(alloc: Global, number: u64, y: usize, out: &mut Vec<u8>) -> Result<(), Memory> {
    let digits = format!(in alloc; "{number}")?;
    let column = NUMBER_WIDTH.saturating_sub(digits.len().saturating_add(1));
    put_text(alloc, "number", across(column), y, digits.as_bytes(), out)
}

/// Appends a dot on the actor's lifeline if the event was taken, else a cross with `not taken`.
fn put_actor(
    alloc: Global,
    layout: &Layout,
    event: &ChartEvent,
    y: usize,
    out: &mut Vec<u8>,
) -> Result<(), Memory> {
    let Some(column) = layout.columns.get(event.actor) else {
        return Ok(());
    };
    let x = across(*column);
    if event.is_taken {
        return put_dot(alloc, x, y, out);
    }
    put_cross(alloc, x, y, out)?;
    put_text(alloc, "refused", x.saturating_add(12), y, b"not taken", out)
}

fn put_arrows(
    alloc: Global,
    layout: &Layout,
    arrows: &[Arrow],
    row: usize,
    out: &mut Vec<u8>,
) -> Result<(), Memory> {
    for (place, arrow) in arrows.iter().enumerate() {
        put_arrow(alloc, layout, arrow, down(row.saturating_add(place)), out)?;
    }
    Ok(())
}

/// Appends the arrow of a message between two lifelines, with its name and fate in the middle.
fn put_arrow(
    alloc: Global,
    layout: &Layout,
    arrow: &Arrow,
    y: usize,
    out: &mut Vec<u8>,
) -> Result<(), Memory> {
    let Some((left, right)) = layout.span(arrow) else {
        return Ok(());
    };
    let (left, right) = (across(left), across(right));
    put_stroke(alloc, class_of(arrow.fate), (left, y), (right, y), out)?;
    let is_right = arrow.from < arrow.to;
    put_point(alloc, if is_right { right } else { left }, y, is_right, out)?;
    let name = arrow.words(alloc)?;
    let middle = left.saturating_add(right.saturating_sub(left) / 2);
    put_middle_text(alloc, "name", middle, y, name.as_slice(), out)
}

fn put_marks(
    alloc: Global,
    layout: &Layout,
    marks: &[Mark],
    row: usize,
    out: &mut Vec<u8>,
) -> Result<(), Memory> {
    for (place, mark) in marks.iter().enumerate() {
        put_mark(alloc, layout, mark, down(row.saturating_add(place)), out)?;
    }
    Ok(())
}

/// Appends a mark on its lifeline, a cross if the messages were dropped, else a ring, and the words
/// of the mark.
fn put_mark(
    alloc: Global,
    layout: &Layout,
    mark: &Mark,
    y: usize,
    out: &mut Vec<u8>,
) -> Result<(), Memory> {
    let Some(column) = layout.columns.get(mark.place) else {
        return Ok(());
    };
    let x = across(*column);
    let words = mark.text(alloc)?;
    match mark.fate {
        Fate::Dropped => put_cross(alloc, x, y, out)?,
        Fate::Passed | Fate::Held => put_ring(alloc, class_of(mark.fate), x, y, out)?,
    }
    let class = words_class_of(mark.fate);
    put_text(alloc, class, x.saturating_add(12), y, words.as_slice(), out)
}

fn words_class_of(fate: Fate) -> &'static str {
    match fate {
        Fate::Passed | Fate::Held => "mark",
        Fate::Dropped => "mark lost",
    }
}

fn class_of(fate: Fate) -> &'static str {
    match fate {
        Fate::Passed => "passed",
        Fate::Held => "held",
        Fate::Dropped => "dropped",
    }
}
