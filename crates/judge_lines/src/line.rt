// SPDX-License-Identifier: MIT OR Apache-2.0
ghost use Rattle.judge_lines.specs.Line.{Reads, line_said};

use crate::LineFault;
use crate::body::read_body;
use crate::columns::split_columns;
use crate::ends::{crossing_of, read_link};
use crate::number::read_number;
use crate::report::{Report, report_of};
use octets::Octets;
use run_judge::Way;
use std::alloc::Global;

/// The longest line in octets, without its line feed.
pub const MAX_LINE: usize = 1_048_576;

/// The content of a line.
#[derive(Drop)]
pub enum Line {
    /// A frame crossed a link of the controller.
    Frame(LinkFrame),
    /// Frames of a link of the controller are missing before the frame with this number.
    Hole(u64),
    /// Nothing about a link of the controller.
    Other,
}

/// A frame on a link of the controller.
#[derive(Drop)]
pub struct LinkFrame {
    /// The number in the first column, or the number of the line if the column holds no number
    /// below 2^64.
    pub number: u64,
    /// 0 for the switch's link, else the number of the station.
    pub link: u16,
    pub way: Way,
    pub body: Octets,
}

/// Reads a line, given without its line feed. `place` is the number of the line, from 1. The result
/// is `Line::Other` unless exactly one end is the controller and the first word of the report is
/// `sent` or `missing`. `Err` for the reasons that `LineFault` lists.
pub fn read_frame_line(alloc: Global, place: u64, line: &[u8]) -> Result<Line, LineFault>
    ensures { Reads result (line_said place line.now) }
{
    if line.len() > MAX_LINE {
        return Err(LineFault::TooLong);
    }
    let columns = split_columns(line)?;
    let Some(crossing) = crossing_of(columns.from, columns.to) else {
        return Ok(Line::Other);
    };
    let Some(report) = report_of(columns.said) else {
        return Ok(Line::Other);
    };
    let Some(link) = read_link(crossing.peer) else {
        return Err(LineFault::NoEnd);
    };
    let number = read_number(columns.number).unwrap_or(place);
    match report {
        Report::Missing => Ok(Line::Hole(number)),
        Report::Sent => Ok(Line::Frame(LinkFrame {
            number,
            link,
            way: crossing.way,
            body: read_body(alloc, columns.octets)?,
        })),
    }
}
