// SPDX-License-Identifier: MIT OR Apache-2.0
use crate::chart::{Arrow, Chart, ChartEvent, Mark, TEXT_WIDTH};
use octets::Memory;
use std::alloc::Global;

/// The number of columns for the number of an event.
pub(crate) const NUMBER_WIDTH: usize = 6;

/// The columns on the left of the lifelines: a number, a blank, words and two blanks.
const LEFT: usize = NUMBER_WIDTH + 1 + TEXT_WIDTH + 2;

/// The columns that an arrow needs besides its name: a dash and a blank on one side, a blank and
/// the arrow's head on the other, and the step to the next lifeline.
const AROUND_NAME: usize = 5;

/// The columns that a mark needs besides its words: a blank on either side, and the step to the
/// next lifeline.
const AROUND_MARK: usize = 3;

/// The least number of columns on the right of the last lifeline: enough for `x not taken`.
const RIGHT: usize = 12;

/// The column of each lifeline, and the number of columns on the right of the last lifeline.
#[derive(Drop)]
pub(crate) struct Layout {
    pub columns: Vec<usize>,
    right: usize,
}

impl Layout {
    /// Spaces the lifelines so that the labels, the arrows' names and the marks' words fit between
    /// them.
    pub(crate) fn of(alloc: Global, chart: &Chart) -> Result<Layout, Memory> {
        let mut columns = Vec::new(alloc);
        place_labels(chart.labels.as_slice(), &mut columns)?;
        let mut layout = Layout {
            columns,
            right: RIGHT,
        };
        for event in chart.events.as_slice() {
            place_event(alloc, event, &mut layout.columns)?;
            layout.place_marks(alloc, event.marks.as_slice())?;
        }
        Ok(layout)
    }

    /// Makes room for the words of an event's marks.
    fn place_marks(&mut self, alloc: Global, marks: &[Mark]) -> Result<(), Memory> {
        for mark in marks {
            let words = mark.text(alloc)?;
            self.place_mark(mark.place, words.len().saturating_add(AROUND_MARK));
        }
        Ok(())
    }

    /// Makes sure that the lifeline `place` has at least `room` columns on its right.
    fn place_mark(&mut self, place: usize, room: usize) {
        let next = place.saturating_add(1);
        if next == self.columns.len() {
            self.right = self.right.max(room);
        } else {
            place_arrow(place, next, room, &mut self.columns);
        }
    }

    /// The number of columns of the whole chart.
    pub(crate) fn width(&self) -> usize {
        match self.columns.last() {
            Some(column) => column.saturating_add(self.right),
            None => LEFT,
        }
    }

    /// The columns of an arrow's two lifelines, the left one first. `None` if a lifeline doesn't
    /// exist or if both lifelines have the same column.
    pub(crate) fn span(&self, arrow: &Arrow) -> Option<(usize, usize)> {
        let left = self.columns.get(arrow.from.min(arrow.to))?;
        let right = self.columns.get(arrow.from.max(arrow.to))?;
        if left < right {
            Some((*left, *right))
        } else {
            None
        }
    }
}

/// Places the lifelines so that their labels fit.
fn place_labels(labels: &[Vec<u8>], columns: &mut Vec<usize>) -> Result<(), Memory> {
    let mut column = LEFT;
    let mut behind = 0_usize;
    for label in labels {
        let half = label.len() / 2;
        column = column.saturating_add(behind).saturating_add(half);
        columns.push(column)?;
        behind = half.saturating_add(3);
    }
    Ok(())
}

/// Makes room for the names of an event's messages.
fn place_event(alloc: Global, event: &ChartEvent, columns: &mut Vec<usize>) -> Result<(), Memory> {
    for arrow in event.arrows.as_slice() {
        let name = arrow.words(alloc)?;
        let room = name.len().saturating_add(AROUND_NAME);
        place_arrow(
            arrow.from.min(arrow.to),
            arrow.from.max(arrow.to),
            room,
            columns,
        );
    }
    Ok(())
}

/// Makes sure that the lifelines `left` and `right` are at least `room` columns apart: moves
/// `right` and all lifelines after it to the right. No-op unless `left` is before `right` and both
/// exist.
fn place_arrow(left: usize, right: usize, room: usize, columns: &mut Vec<usize>) {
    if left < right && right < columns.len() {
        let there = columns[right].saturating_sub(columns[left]);
        move_right(right, room.saturating_sub(there), columns);
    }
}

fn move_right(first: usize, by: usize, columns: &mut Vec<usize>) {
    if by == 0 {
        return;
    }
    for place in first..columns.len() {
        columns[place] = columns[place].saturating_add(by);
    }
}
