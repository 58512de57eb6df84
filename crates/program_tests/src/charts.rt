// SPDX-License-Identifier: MIT OR Apache-2.0
use frame_pictures::{Arrow, Chart, ChartEvent, Fate, Mark, svg_of, text_of};
use std::alloc::Global;
use std::test::Fail;

fn text(alloc: Global, characters: &str) -> Result<Vec<u8>, Fail> {
    Ok(Vec::from_slice(alloc, characters.as_bytes())?)
}

/// An arrow: the places where it begins and ends, the name of its message, and the message's fate.
struct ArrowRow {
    from: usize,
    to: usize,
    name: &'static str,
    fate: Fate,
}

/// A mark: its place, its words and its fate.
type MarkRow = (usize, &'static str, Fate);

/// An event of the chart.
struct EventRow {
    number: u64,
    text: &'static str,
    actor: usize,
    is_taken: bool,
    arrows: &'static [ArrowRow],
    marks: &'static [MarkRow],
}

/// In turn: a message of the station; two messages of the controller, one of which is dropped; an
/// event that isn't taken; an event with too many words. Then messages that waited: beside an
/// arrow, at an event without an arrow, and at the last lifeline.
const EVENTS: &[EventRow] = &[
    EventRow {
        number: 1,
        text: "basepush 1",
        actor: 0,
        is_taken: true,
        arrows: &[ArrowRow {
            from: 0,
            to: 1,
            name: "DATA INDICATION CC",
            fate: Fate::Passed,
        }],
        marks: &[],
    },
    EventRow {
        number: 2,
        text: "handle",
        actor: 1,
        is_taken: true,
        arrows: &[
            ArrowRow {
                from: 1,
                to: 2,
                name: "DT1 DTAP",
                fate: Fate::Passed,
            },
            ArrowRow {
                from: 1,
                to: 0,
                name: "ACK",
                fate: Fate::Dropped,
            },
        ],
        marks: &[(1, "relayed 1", Fate::Passed)],
    },
    EventRow {
        number: 3,
        text: "switchtakes",
        actor: 2,
        is_taken: false,
        arrows: &[],
        marks: &[],
    },
    EventRow {
        number: 104,
        text: "upper 1 0 052471030405060708",
        actor: 0,
        is_taken: true,
        arrows: &[],
        marks: &[
            (1, "held 12", Fate::Held),
            (2, "dropped 10 of it", Fate::Dropped),
        ],
    },
];

fn arrows(alloc: Global, rows: &[ArrowRow]) -> Result<Vec<Arrow>, Fail> {
    let mut arrows = Vec::new(alloc);
    for row in rows {
        let name = text(alloc, row.name)?;
        arrows.push(Arrow {
            from: row.from,
            to: row.to,
            name,
            fate: row.fate,
        })?;
    }
    Ok(arrows)
}

fn marks(alloc: Global, rows: &[MarkRow]) -> Result<Vec<Mark>, Fail> {
    let mut marks = Vec::new(alloc);
    for (place, words, fate) in rows {
        let words = text(alloc, words)?;
        marks.push(Mark {
            place: *place,
            words,
            fate: *fate,
        })?;
    }
    Ok(marks)
}

fn event(alloc: Global, row: &EventRow) -> Result<ChartEvent, Fail> {
    Ok(ChartEvent {
        number: row.number,
        text: text(alloc, row.text)?,
        actor: row.actor,
        is_taken: row.is_taken,
        arrows: arrows(alloc, row.arrows)?,
        marks: marks(alloc, row.marks)?,
    })
}

/// The chart of these events, in one cell and without a mobile.
fn one_cell(alloc: Global) -> Result<Chart, Fail> {
    let mut labels = Vec::new(alloc);
    for label in ["station 1", "bsc", "switch"] {
        labels.push(text(alloc, label)?)?;
    }
    let mut events = Vec::new(alloc);
    for row in EVENTS {
        events.push(event(alloc, row)?)?;
    }
    Ok(Chart { labels, events })
}

const LINES: &[&str] = &[
    "                                 station 1                 bsc        switch\n",
    "     1 basepush 1                    *- DATA INDICATION CC >|            |\n",
    "     2 handle                        |                      *- DT1 DTAP >|\n",
    "                                     |<-- ACK (dropped) ----|            |\n",
    "                                     |                      | relayed 1  |\n",
    "     3 switchtakes                   |                      |            x not taken\n",
    "   104 upper 1 0 052471030405..      *                      | held 12    |\n",
    "                                     |                      |            | dropped 10 of it\n",
];

fn joined(alloc: Global, lines: &[&str]) -> Result<Vec<u8>, Fail> {
    let mut text = Vec::new(alloc);
    for line in lines {
        text.extend_from_slice(line.as_bytes())?;
    }
    Ok(text)
}

#[test]
fn a_chart_is_lines_of_text(rt: HostRuntime) -> Result<(), Fail> {
    let chart = one_cell(rt.alloc())?;
    let lines = text_of(rt.alloc(), &chart)?;
    let expected = joined(rt.alloc(), LINES)?;
    assert!(rt; lines.as_slice() == expected.as_slice());
    Ok(())
}

/// Whether the octets contain a text.
fn contains(octets: &[u8], text: &str) -> bool {
    octets
        .windows(text.len().max(1))
        .any(|window| window == text.as_bytes())
}

#[test]
fn a_chart_is_a_picture(rt: HostRuntime) -> Result<(), Fail> {
    let chart = one_cell(rt.alloc())?;
    let picture = svg_of(rt.alloc(), &chart)?;
    let parts: [&str; 9] = [
        "<svg xmlns=",
        ">DATA INDICATION CC</text>",
        ">ACK (dropped)</text>",
        "<line class=\"dropped\" x1=\"",
        ">not taken</text>",
        "<circle class=\"ring passed\" cx=\"",
        ">held 12</text>",
        "<text class=\"mark lost\" x=\"",
        "</svg>\n",
    ];
    for part in parts {
        assert!(rt; contains(picture.as_slice(), part));
    }
    assert!(rt; !contains(picture.as_slice(), "<script"));
    Ok(())
}
