// SPDX-License-Identifier: MIT OR Apache-2.0
ghost use Rattle.std.specs.Prelude.{◌≡◌};

use crate::frames::{frame, is_frame};
use octets::Memory;
use ruled_relay::{Full, Line, Outbox, Putter};
use std::alloc::Global;
use std::sync::Wait;
use std::test::Fail;

/// The lines of two frames of one octet.
fn lines(alloc: Global, first: u8, second: u8) -> Result<(Line, Line), Memory> {
    let first = Line::Frame(frame(alloc, first)?);
    let second = Line::Frame(frame(alloc, second)?);
    Ok((first, second))
}

/// Whether the line is that of the frame with the octet `octet`, or the mark if `octet` is `None`.
fn is_line(line: Option<Line>, octet: Option<u8>) -> bool {
    match (line, octet) {
        (Some(Line::Frame(frame)), Some(octet)) => is_frame(&frame, octet),
        (Some(Line::End), None) => true,
        _ => false,
    }
}

/// Whether the put hands the line back, and the putter then counts `refusals` refusals.
fn is_refused<R: Wait>(
    rt: &R,
    putter: &mut Putter,
    line: Line,
    octet: Option<u8>,
    refusals: u32,
) -> bool
    ensures { putter.new.queue ≡ putter.old.queue }
{
    match putter.put(rt, line) {
        Err(Full(back)) => is_line(Some(back), octet) && putter.refusals() == refusals,
        Ok(()) => false,
    }
}

#[test]
fn an_outbox_of_one_line(rt: HostRuntime) -> Result<(), Fail> {
    let alloc = rt.alloc();
    let (one, two) = lines(alloc, 8, 9)?;
    let (mut putter, mut taker) = Outbox::new(alloc, 1)?;
    assert!(rt; putter.put(&rt, one).is_ok());
    assert!(rt; is_refused(&rt, &mut putter, two, Some(9), 1));
    assert!(rt; is_refused(&rt, &mut putter, Line::End, None, 1));
    assert!(rt; is_line(taker.take(&rt), Some(8)));
    assert!(rt; putter.put(&rt, Line::End).is_ok());
    assert!(rt; is_line(taker.take(&rt), None));
    assert!(rt; taker.take(&rt).is_none());
    let mut unsent = Outbox::finish(putter, taker);
    assert!(rt; unsent.next(&rt).is_none());
    Ok(())
}
