// SPDX-License-Identifier: MIT OR Apache-2.0
use crate::chart::{Arrow, Chart, ChartEvent, Mark};
use crate::layout::{Layout, NUMBER_WIDTH};
use octets::Memory;
use std::alloc::Global;

/// The chart as lines of text: one with the labels, then one or more for each event. Fails only if
/// an allocation fails.
pub fn text_of(alloc: Global, chart: &Chart) -> Result<Vec<u8>, Memory> {
    let layout = Layout::of(alloc, chart)?;
    let mut out = Vec::new(alloc);
    let labels = label_line(alloc, &layout, chart.labels.as_slice())?;
    put_line(labels.as_slice(), &mut out)?;
    for event in chart.events.as_slice() {
        put_event(alloc, &layout, event, &mut out)?;
    }
    Ok(out)
}

/// A line of `width` blanks.
fn blanks(alloc: Global, width: usize) -> Result<Vec<u8>, Memory> {
    let mut line = Vec::new(alloc);
    for _ in 0..width {
        line.push(b' ')?;
    }
    Ok(line)
}

/// Overwrites the line with `text`, from `column` on. Octets beyond the end of the line are
/// dropped.
fn write_at(line: &mut Vec<u8>, column: usize, text: &[u8]) {
    for (place, octet) in text.iter().enumerate() {
        set(line, column.saturating_add(place), *octet);
    }
}

fn set(line: &mut Vec<u8>, column: usize, octet: u8) {
    if column < line.len() {
        line[column] = octet;
    }
}

/// The line with the labels, each centred on its lifeline's column.
fn label_line(alloc: Global, layout: &Layout, labels: &[Vec<u8>]) -> Result<Vec<u8>, Memory> {
    let mut line = blanks(alloc, layout.width())?;
    for (column, label) in layout.columns.iter().zip(labels.iter()) {
        let left = column.saturating_sub(label.len() / 2);
        write_at(&mut line, left, label.as_slice());
    }
    Ok(line)
}

/// A line with nothing but the lifelines.
fn lifelines(alloc: Global, layout: &Layout) -> Result<Vec<u8>, Memory> {
    let mut line = blanks(alloc, layout.width())?;
    for column in layout.columns.as_slice() {
        set(&mut line, *column, b'|');
    }
    Ok(line)
}

/// Appends the lines of an event, one for each of its rows. The first line also has the event's
/// number, its words and its actor's mark.
fn put_event(
    alloc: Global,
    layout: &Layout,
    event: &ChartEvent,
    out: &mut Vec<u8>,
) -> Result<(), Memory> {
    for row in 0..event.rows() {
        let mut line = lifelines(alloc, layout)?;
        if row == 0 {
            write_words(alloc, event, &mut line)?;
            write_actor(layout, event, &mut line);
        }
        write_row(alloc, layout, event, row, &mut line)?;
        put_line(line.as_slice(), out)?;
    }
    Ok(())
}

/// Writes the arrow or the mark in row `row` of an event, if the row has one.
fn write_row(
    alloc: Global,
    layout: &Layout,
    event: &ChartEvent,
    row: usize,
    line: &mut Vec<u8>,
) -> Result<(), Memory> {
    if let Some(arrow) = event.arrows.get(row) {
        write_arrow(alloc, layout, arrow, line)
    } else if let Some(mark) = event.mark_in(row) {
        write_mark(alloc, layout, mark, line)
    } else {
        Ok(())
    }
}

/// Writes the right-aligned number of an event, and its words.
fn write_words(alloc: Global, event: &ChartEvent, line: &mut Vec<u8>) -> Result<(), Memory> {
    let number = event.number;
    let digits = format!(in alloc; "{number}")?;
    let left = NUMBER_WIDTH.saturating_sub(digits.len());
    write_at(line, left, digits.as_bytes());
    let words = event.words(alloc)?;
    write_at(line, NUMBER_WIDTH + 1, words.as_slice());
    Ok(())
}

/// Writes `*` on the actor's lifeline if the event was taken, else `x not taken`.
fn write_actor(layout: &Layout, event: &ChartEvent, line: &mut Vec<u8>) {
    let Some(column) = layout.columns.get(event.actor) else {
        return;
    };
    if event.is_taken {
        set(line, *column, b'*');
    } else {
        write_at(line, *column, b"x not taken");
    }
}

/// Writes an arrow between two lifelines, with its name and fate in the middle.
fn write_arrow(
    alloc: Global,
    layout: &Layout,
    arrow: &Arrow,
    line: &mut Vec<u8>,
) -> Result<(), Memory> {
    let Some((left, right)) = layout.span(arrow) else {
        return Ok(());
    };
    for column in left.saturating_add(1)..right {
        set(line, column, b'-');
    }
    if arrow.from < arrow.to {
        set(line, right.saturating_sub(1), b'>');
    } else {
        set(line, left.saturating_add(1), b'<');
    }
    let name = arrow.words(alloc)?;
    write_name(left, right, name.as_slice(), line);
    Ok(())
}

/// Writes a name, with a blank on either side, centred between two columns.
fn write_name(left: usize, right: usize, name: &[u8], line: &mut Vec<u8>) {
    let around = right.saturating_sub(left).saturating_sub(name.len());
    let first = left.saturating_add(around.saturating_add(1) / 2);
    set(line, first.saturating_sub(1), b' ');
    write_at(line, first, name);
    set(line, first.saturating_add(name.len()), b' ');
}

/// Writes the words of a mark on the right of its lifeline.
fn write_mark(
    alloc: Global,
    layout: &Layout,
    mark: &Mark,
    line: &mut Vec<u8>,
) -> Result<(), Memory> {
    let Some(column) = layout.columns.get(mark.place) else {
        return Ok(());
    };
    let words = mark.text(alloc)?;
    write_at(line, column.saturating_add(2), words.as_slice());
    Ok(())
}

/// Appends a line without its trailing blanks.
fn put_line(line: &[u8], out: &mut Vec<u8>) -> Result<(), Memory> {
    let mut end = line.len();
    while end > 0 && line[end - 1] == b' ' {
        end -= 1;
    }
    out.extend_from_slice(&line[..end])?;
    out.push(b'\n')?;
    Ok(())
}
