// SPDX-License-Identifier: MIT OR Apache-2.0
use crate::devices::{Flushed, PING, Sink, ended, is_fault};
use crate::waits::is_over;
use ipa_framing::{CCM_STREAM, Frame};
use link_workers::{HasWritten, IoFault, serve_writer};
use octets::{Memory, Octets};
use ruled_relay::{Line, Outbox, Putter, Taker};
use std::alloc::Global;
use std::sync::atomic::AtomicU64;
use std::sync::{Arc, Wait};
use std::test::Fail;
use std::thread;

/// The frame PING, twice.
const TWO_PINGS: &[u8] = &[0x00, 0x01, 0xfe, 0x00, 0x00, 0x01, 0xfe, 0x00];

/// The frame PING.
fn ping(alloc: Global) -> Result<Frame, Memory> {
    let body = Octets::copy(alloc, &[0x00])?;
    Ok(Frame {
        stream: CCM_STREAM,
        body,
    })
}

/// Puts `frames` PING frames, and the mark that follows the last frame.
fn put_pings<R: Wait>(
    rt: &R,
    alloc: Global,
    putter: &mut Putter,
    frames: usize,
) -> Result<(), Fail> {
    for _ in 0..frames {
        if putter.put(rt, Line::Frame(ping(alloc)?)).is_err() {
            return Err(Fail::new("the outbox is full"));
        }
    }
    match putter.put(rt, Line::End) {
        Ok(()) => Ok(()),
        Err(_) => Err(Fail::new("the outbox is full")),
    }
}

/// Writes `frames` PING frames to a device.
fn write<R: Wait>(
    rt: &R,
    alloc: Global,
    frames: usize,
    sink: Sink,
) -> Result<(Sink, Option<IoFault>), Fail> {
    let (mut putter, taker) = Outbox::new(alloc, 8)?;
    put_pings(rt, alloc, &mut putter, frames)?;
    let HasWritten {
        writer,
        mut taker,
        fault,
    } = serve_writer(rt, alloc, sink, taker);
    match taker.take(rt) {
        None => Ok((writer, fault)),
        Some(_) => Err(Fail::new("not all was taken")),
    }
}

/// A row of the test: how many PING frames are written to a device, and how the writer ends.
/// `interrupted`, `failed` and `idle` are the number, from 1, of the write that is interrupted,
/// fails or takes nothing; 0 stands for never. The last fields are the writer's fault and the
/// octets that the device has got.
struct Writing<'a> {
    frames: usize,
    interrupted: u64,
    failed: u64,
    idle: u64,
    fault: Option<IoFault>,
    got: &'a [u8],
}

const WRITINGS: [Writing<'_>; 3] = [
    Writing {
        frames: 2,
        interrupted: 3,
        failed: 0,
        idle: 0,
        fault: None,
        got: TWO_PINGS,
    },
    Writing {
        frames: 3,
        interrupted: 0,
        failed: 4,
        idle: 0,
        fault: Some(IoFault::WriteFailed),
        got: &[0x00, 0x01, 0xfe],
    },
    Writing {
        frames: 3,
        interrupted: 0,
        failed: 0,
        idle: 5,
        fault: Some(IoFault::WriteFailed),
        got: PING,
    },
];

/// Whether a writer ends as `writing` says, and the writer's device was flushed once.
fn ends_so<R: Wait>(rt: &R, alloc: Global, writing: &Writing<'_>) -> Result<bool, Fail> {
    let sink = Sink {
        interrupted: writing.interrupted,
        failed: writing.failed,
        idle: writing.idle,
        ..Sink::new(alloc)
    };
    let (sink, fault) = write(rt, alloc, writing.frames, sink)?;
    Ok(sink.got.as_slice() == writing.got && sink.flushes == 1 && is_fault(fault, writing.fault))
}

#[test]
fn a_device_that_takes_an_octet_at_a_time_gets_all_until_it_fails(
    rt: HostRuntime,
) -> Result<(), Fail> {
    for (place, writing) in WRITINGS.iter().enumerate() {
        assert!(rt; ends_so(&rt, rt.alloc(), writing)?, "writing {place}");
    }
    Ok(())
}

/// Writes the queued lines to a device. Returns whether there was no fault and the device got the
/// frame PING.
fn write_ping<R: Wait>(rt: &R, alloc: Global, sink: Flushed, taker: Taker) -> bool {
    let written = serve_writer(rt, alloc, sink, taker);
    written.fault.is_none() && written.writer.got.as_slice() == PING
}

#[test]
fn a_device_is_flushed_once_an_outbox_that_was_given_up_is_empty(rt: HostRuntime) {
    let alloc = rt.alloc();
    let (mut putter, taker) = Outbox::new(alloc, 8).expect(&rt, "an outbox");
    let frame = ping(alloc).expect(&rt, "a frame");
    assert!(rt; putter.put(&rt, Line::Frame(frame)).is_ok());
    putter.give_up();
    let flushes = Arc::new(alloc, AtomicU64::new(0)).expect(&rt, "a count");
    let sink = Flushed {
        got: Vec::new(alloc),
        flushes: Arc::try_clone(&flushes).expect(&rt, "a share of it"),
    };
    let writer = thread::spawn(&rt, move || write_ping(&rt, alloc, sink, taker)).expect(
        &rt, "a thread",
    );
    assert!(rt; is_over(&rt, &flushes, 0, 5_000), "a flush is missing");
    assert!(rt; putter.put(&rt, Line::End).is_ok());
    putter.ring();
    assert!(rt;
        is_over(&rt, &flushes, 1, 5_000),
        "the flush at the end is missing"
    );
    assert!(rt; writer.join(&rt));
}

#[test]
fn a_writer_that_wants_memory_writes_a_first_part(rt: HostRuntime) -> Result<(), Fail> {
    let alloc = rt.alloc();
    let sink = Sink {
        got: Vec::with_capacity(alloc, 8)?,
        ..Sink::new(alloc)
    };
    let (sink, fault) = write(&rt, alloc, 2, sink)?;
    assert!(rt; TWO_PINGS.starts_with(sink.got.as_slice()));
    assert!(rt; sink.got.len() == 8 || fault.is_some());
    ended(fault)
}
