// SPDX-License-Identifier: MIT OR Apache-2.0
//! Scripts of a world with a controller: mobiles connect, send and receive messages, are handed
//! over from cell to cell while messages wait, and are cleared.
use crate::draw::Draw;
use crate::lines::Lines;
use crate::report::{Neighbour, place_of, report};
use octets::Memory;
use std::alloc::Global;

/// How large a script is.
#[derive(Clone, Copy)]
pub struct Shape {
    /// How many cells and how many mobiles the script's network has.
    pub cells: u16,
    pub mobiles: u8,
    /// The least number of lines.
    pub lines: u32,
}

/// A mobile. After each block of lines, none of the mobile's messages is in flight.
#[derive(Clone, Copy)]
struct Mobile {
    number: u8,
    cell: u16,
}

/// The text of a script of a world with a controller. `Err`: memory ran out.
pub fn script(alloc: Global, shape: Shape, draw: &mut Draw) -> Result<Vec<u8>, Memory> {
    let mut lines = Lines::new(alloc);
    let mut mobiles = Vec::new(alloc);
    for number in 1..=shape.mobiles {
        let cell = (u16::from(number) - 1) % shape.cells.max(1) + 1;
        let mobile = Mobile { number, cell };
        connects(&mut lines, mobile, draw)?;
        mobiles.push(mobile)?;
    }
    for _ in 0..shape.lines {
        for mobile in mobiles.iter_mut() {
            *mobile = carries_on(&mut lines, *mobile, shape.cells, draw)?;
        }
        if lines.count() >= shape.lines {
            break;
        }
    }
    for mobile in &mobiles {
        is_cleared(&mut lines, *mobile)?;
    }
    Ok(lines.into_text())
}

/// The text of a script of the fixed world, of at least `count` lines. `Err`: memory ran out.
pub fn fixed_script(alloc: Global, count: u32, draw: &mut Draw) -> Result<Vec<u8>, Memory> {
    let mut lines = Lines::new(alloc);
    for _ in 0..count {
        speaks_to(&mut lines, 1, draw)?;
        lines.put("switchtakes", &[])?;
        if lines.count() >= count {
            break;
        }
    }
    Ok(lines.into_text())
}

/// A message in each direction or, in one of four cases, a handover.
fn carries_on(
    lines: &mut Lines,
    mobile: Mobile,
    cells: u16,
    draw: &mut Draw,
) -> Result<Mobile, Memory> {
    if cells > 1 && draw.is_one_in(4) {
        return moves(lines, mobile, cells, draw);
    }
    speaks(lines, mobile, draw)?;
    hears(lines, mobile, draw)?;
    if draw.is_one_in(8) {
        lines.put("tick", &[u32::from(draw.below(90)) + 10])?;
    }
    Ok(mobile)
}

/// The controller gets the next message of a source, and handles it.
fn handled(lines: &mut Lines, source: u16) -> Result<(), Memory> {
    lines.put("basepush", &[u32::from(source)])?;
    lines.put("handle", &[])
}

fn connects(lines: &mut Lines, mobile: Mobile, draw: &mut Draw) -> Result<(), Memory> {
    let number = u32::from(mobile.number);
    let cell = u32::from(mobile.cell);
    lines.begin("connect", &[number, cell])?;
    lines.octets(&[0x05, 0x24, 0x71, draw.octet()])?;
    lines.end(" y")?;
    for _ in 0..2 {
        handled(lines, mobile.cell)?;
        lines.put("basetakes", &[cell])?;
    }
    lines.put("airup", &[number, 0])?;
    handled(lines, mobile.cell)?;
    lines.put("switchtakes", &[])?;
    lines.put("airack", &[number, 0])?;
    handled(lines, 0)
}

/// The upper layers send a message, and the station takes and acknowledges it.
fn speaks_to(lines: &mut Lines, mobile: u8, draw: &mut Draw) -> Result<(), Memory> {
    let number = u32::from(mobile);
    lines.begin("upper", &[number, 0])?;
    lines.message(0x03, 0x05, draw)?;
    lines.end("")?;
    lines.put("airup", &[number, 0])?;
    lines.put("airack", &[number, 0])
}

fn speaks(lines: &mut Lines, mobile: Mobile, draw: &mut Draw) -> Result<(), Memory> {
    speaks_to(lines, mobile.number, draw)?;
    handled(lines, mobile.cell)?;
    lines.put("switchtakes", &[])
}

/// The switch sends a message, which is carried as far as the controller.
fn is_called(lines: &mut Lines, mobile: Mobile, draw: &mut Draw) -> Result<(), Memory> {
    lines.begin("switchdoes dtap", &[u32::from(mobile.number), 0])?;
    lines.message(0x83, 0x07, draw)?;
    lines.end("")?;
    handled(lines, 0)
}

fn hears(lines: &mut Lines, mobile: Mobile, draw: &mut Draw) -> Result<(), Memory> {
    is_called(lines, mobile, draw)?;
    lines.put("basetakes", &[u32::from(mobile.cell)])?;
    lines.put("airdown", &[u32::from(mobile.number)])
}

/// A handover to the next cell, while a message in each direction waits.
fn moves(lines: &mut Lines, mobile: Mobile, cells: u16, draw: &mut Draw) -> Result<Mobile, Memory> {
    let number = u32::from(mobile.number);
    let to = mobile.cell % cells.max(1) + 1;
    let better = Neighbour {
        level: 40,
        place: place_of(to, mobile.cell),
        bsic: 9,
    };
    lines.begin("report", &[number])?;
    lines.octets(&report(20, &[better]))?;
    lines.end("")?;
    handled(lines, mobile.cell)?;
    lines.put("basetakes", &[u32::from(to)])?;
    handled(lines, to)?;
    lines.begin("upper", &[number, 0])?;
    lines.message(0x03, 0x08, draw)?;
    lines.end("")?;
    lines.put("airup", &[number, 0])?;
    is_called(lines, mobile, draw)?;
    lines.put("basetakes", &[u32::from(mobile.cell)])?;
    for kind in ["airdown", "move", "touch", "arrive"] {
        lines.put(kind, &[number])?;
    }
    for _ in 0..2 {
        lines.put("airup", &[number, 0])?;
        lines.put("airack", &[number, 0])?;
    }
    has_moved(lines, mobile, to)?;
    Ok(Mobile { cell: to, ..mobile })
}

/// The controller first handles the messages on the new channel, and then the late messages on the
/// old channel, which is then released.
fn has_moved(lines: &mut Lines, mobile: Mobile, to: u16) -> Result<(), Memory> {
    for _ in 0..4 {
        handled(lines, to)?;
    }
    handled(lines, mobile.cell)?;
    lines.put("basetakes", &[u32::from(mobile.cell)])?;
    handled(lines, mobile.cell)?;
    for _ in 0..3 {
        lines.put("switchtakes", &[])?;
    }
    lines.put("basetakes", &[u32::from(to)])?;
    lines.put("airdown", &[u32::from(mobile.number)])
}

fn is_cleared(lines: &mut Lines, mobile: Mobile) -> Result<(), Memory> {
    let number = u32::from(mobile.number);
    let cell = u32::from(mobile.cell);
    lines.put("switchdoes clear", &[number])?;
    handled(lines, 0)?;
    lines.put("basetakes", &[cell])?;
    lines.put("airdown", &[number])?;
    lines.put("basetakes", &[cell])?;
    handled(lines, mobile.cell)?;
    lines.put("switchtakes", &[])?;
    handled(lines, 0)?;
    lines.put("switchtakes", &[])
}
