// SPDX-License-Identifier: MIT OR Apache-2.0
use judge_lines::{FrameLines, Line, LineFault};
use run_judge::Way;
use std::alloc::Global;
use std::test::Fail;

/// Four lines: a frame up, an event, a frame down, and a hole. The last line has no line feed.
const TEXT: &[u8] = b"35\tstation 2\tbsc\tRSL\tsent\t0C1101\n1\tscript\tworld\thandle\ttaken\t\n\
    36\tbsc\tswitch\tDT1\tsent N(SD)=1\t06\n-\tbsc\tstation 255\tRSL\tmissing\t";

/// A frame's number, its link, whether the frame goes to the controller, and its size in octets.
/// For a hole, only the number counts.
type Row = (u64, u16, bool, usize);

fn row_of(line: &Line) -> Row {
    match line {
        Line::Frame(frame) => (
            frame.number,
            frame.link,
            match frame.way {
                Way::ToController => true,
                Way::FromController => false,
            },
            frame.body.len(),
        ),
        Line::Hole(number) => (*number, 0, false, 0),
        Line::Other => (0, 0, false, 0),
    }
}

/// The rows of the text if it is fed in pieces of this size.
fn in_pieces(alloc: Global, size: usize) -> Result<Vec<Row>, LineFault> {
    let mut lines = FrameLines::new(alloc);
    let mut rows = Vec::new(alloc);
    for piece in TEXT.chunks(size.max(1)) {
        lines.feed(piece)?;
        for _ in 0..8 {
            let Some(line) = lines.next()? else {
                break;
            };
            rows.push(row_of(&line)).map_err(octets::Memory::from)?;
        }
    }
    if let Some(line) = lines.next_at_end()? {
        rows.push(row_of(&line)).map_err(octets::Memory::from)?;
    }
    Ok(rows)
}

#[test]
fn pieces_of_any_size_give_the_same_lines(rt: HostRuntime) -> Result<(), Fail> {
    let wanted: [Row; 4] = [
        (35, 2, true, 3),
        (0, 0, false, 0),
        (36, 0, false, 1),
        (4, 0, false, 0),
    ];
    for size in [1, 2, 7, 4096] {
        let rows = in_pieces(rt.alloc(), size)?;
        assert!(rt; rows.as_slice() == &wanted[..], "in pieces of {size}");
    }
    Ok(())
}
