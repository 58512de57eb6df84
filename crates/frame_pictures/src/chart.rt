// SPDX-License-Identifier: MIT OR Apache-2.0
use octets::Memory;
use std::alloc::Global;

/// A chart of messages: lifelines from left to right, and events from top to bottom.
#[derive(Drop)]
pub struct Chart {
    /// The text above each lifeline.
    pub labels: Vec<Vec<u8>>,
    pub events: Vec<ChartEvent>,
}

/// An event, the messages sent in it (`arrows`) and what became of waiting messages (`marks`).
#[derive(Drop)]
pub struct ChartEvent {
    pub number: u64,
    /// What happened, in words.
    pub text: Vec<u8>,
    /// The place of the actor's lifeline, from 0.
    pub actor: usize,
    pub is_taken: bool,
    pub arrows: Vec<Arrow>,
    pub marks: Vec<Mark>,
}

/// A message from one lifeline to another; lifelines count from 0.
#[derive(Drop)]
pub struct Arrow {
    pub from: usize,
    pub to: usize,
    pub name: Vec<u8>,
    pub fate: Fate,
}

/// What becomes of messages that wait or waited at a lifeline.
#[derive(Drop)]
pub struct Mark {
    pub place: usize,
    pub words: Vec<u8>,
    /// The fate of the messages: `Passed` if they waited and were sent.
    pub fate: Fate,
}

/// What becomes of a message.
#[derive(Clone, Copy, PartialEq, Eq)]
pub enum Fate {
    Passed,
    Held,
    Dropped,
}

impl Arrow {
    /// The text on the arrow: the name of the message, and its fate unless the message passed.
    pub(crate) fn words(&self, alloc: Global) -> Result<Vec<u8>, Memory> {
        let mut words = Vec::new(alloc);
        put_printable(self.name.as_slice(), self.name.len(), &mut words)?;
        match self.fate {
            Fate::Passed => {}
            Fate::Held => words.extend_from_slice(b" (held)")?,
            Fate::Dropped => words.extend_from_slice(b" (dropped)")?,
        }
        Ok(words)
    }
}

impl Mark {
    /// The text beside the mark.
    pub(crate) fn text(&self, alloc: Global) -> Result<Vec<u8>, Memory> {
        let mut text = Vec::new(alloc);
        put_printable(self.words.as_slice(), self.words.len(), &mut text)?;
        Ok(text)
    }
}

/// The greatest number of columns for an event's words.
pub(crate) const TEXT_WIDTH: usize = 24;

impl ChartEvent {
    /// What happened, in words. A text longer than `TEXT_WIDTH` is cut and ends in two dots.
    pub(crate) fn words(&self, alloc: Global) -> Result<Vec<u8>, Memory> {
        let mut words = Vec::new(alloc);
        let text = self.text.as_slice();
        if text.len() <= TEXT_WIDTH {
            put_printable(text, text.len(), &mut words)?;
        } else {
            put_printable(text, TEXT_WIDTH - 2, &mut words)?;
            words.extend_from_slice(b"..")?;
        }
        Ok(words)
    }

    /// The number of rows of an event, at least 1: one for each arrow and mark, and one for the
    /// words `not taken` if the event isn't taken and has no arrow.
    pub(crate) fn rows(&self) -> usize {
        self.marks_begin().saturating_add(self.marks.len()).max(1)
    }

    /// The row of the event's first mark , from 0: the number of arrows, but at least 1 if the
    /// event isn't taken, because row 0 then has the words `not taken`.
    pub(crate) fn marks_begin(&self) -> usize {
        if self.is_taken {
            self.arrows.len()
        } else {
            self.arrows.len().max(1)
        }
    }

    /// The mark in row `row` of the event. `None` if the row has no mark.
    pub(crate) fn mark_in(&self, row: usize) -> Option<&Mark> {
        let place = row.checked_sub(self.marks_begin())?;
        self.marks.get(place)
    }
}

/// Appends the first `count` octets of a text, with `?` for each octet that isn't printable ASCII.
fn put_printable(text: &[u8], count: usize, words: &mut Vec<u8>) -> Result<(), Memory> {
    for octet in text.iter().take(count) {
        if (32..127).contains(octet) {
            words.push(*octet)?;
        } else {
            words.push(b'?')?;
        }
    }
    Ok(())
}
