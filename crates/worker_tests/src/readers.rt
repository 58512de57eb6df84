// SPDX-License-Identifier: MIT OR Apache-2.0
ghost use Rattle.std.specs.Prelude.{◌<◌};

use crate::devices::{Call, Counts, PING, Shut, Source, ended, is_fault};
use crate::waits::is_over;
use ipa_framing::CCM_STREAM;
use link_workers::{Gate, IoFault, serve_link_reader, serve_reader};
use ruled_relay::{Desk, Inbox, Item, SourcePass, What};
use std::alloc::{AllocError, Global};
use std::process::Abort;
use std::sync::atomic::{AtomicU64, Ordering};
use std::sync::{Arc, Wait};
use std::test::Fail;
use std::thread;
use std::time::{Clock, Duration, Instant};

const OPEN: Shut = Shut {
    left: 0,
    refused: 0,
    asked: 0,
    passed: Some(0),
};

/// The desk of an inbox with one source, and the source's pass.
fn inbox(alloc: Global, capacity: usize) -> Result<(Desk, SourcePass), Fail>
    requires { 0 < capacity }
{
    let (desk, mut passes) = Inbox::new(alloc, 1, capacity)?;
    match passes.pop() {
        Some(pass) => Ok((desk, pass)),
        None => Err(Fail::new("no pass")),
    }
}

/// Whether the next item is the frame PING.
fn is_ping<R: Wait>(rt: &R, desk: &mut Desk) -> bool {
    match desk.take(rt) {
        Some(
            Item {
                source: 0,
                what: What::Frame(frame),
            },
        ) => frame.stream == CCM_STREAM && frame.body.as_slice() == [0x00u8].as_slice(),
        _ => false,
    }
}

/// Whether the next item says that the link is down, and no item follows.
fn is_down_last<R: Wait>(rt: &R, desk: &mut Desk) -> bool {
    matches!(
        desk.take(rt),
        Some(Item {
            source: 0,
            what: What::Down
        })
    ) && desk.take(rt).is_none()
}

/// The end of a reader: the fault that the reader's device was told of, how often the reader's gate
/// was asked, and the reader's own fault.
#[derive(Drop)]
struct Ended {
    desk: Desk,
    told: Option<IoFault>,
    asked: u32,
    fault: Option<IoFault>,
}

/// Reads the octets that the device gives, with a gate that refuses `refused` times and an inbox of
/// 8 items.
fn read<R: Wait>(
    rt: &R,
    alloc: Global,
    calls: &[Call<'_>],
    refused: u32,
    limit: u32,
) -> Result<Ended, Fail> {
    let (desk, pass) = inbox(alloc, 8)?;
    let gate = Shut {
        left: refused,
        ..OPEN
    };
    let read = serve_link_reader(rt, alloc, Source::new(calls), gate, pass, limit);
    Ok(Ended {
        desk,
        told: read.reader.told,
        asked: read.gate.asked,
        fault: read.fault,
    })
}

/// A row of the test. Its first fields are the calls of a device, how often the device's gate
/// refuses, and which refusal in a row is one too many. The other fields say how the reader ends,
/// and whether it has put the frame PING before `Down`.
struct Reading<'a> {
    calls: &'a [Call<'a>],
    refused: u32,
    limit: u32,
    fault: Option<IoFault>,
    told: Option<IoFault>,
    asked: u32,
    ping: bool,
}

/// The length field of a frame that is too long.
const TOO_LONG: &[u8] = &[0x08, 0x01];

/// A device that works and gives octets in pieces. The last piece isn't a whole frame.
const WORKS: Reading<'_> = Reading {
    calls: &[
        Call::Octets(&[0x00, 0x01]),
        Call::Interrupted,
        Call::Octets(&[0xfe, 0x00]),
        Call::Octets(&[0x00, 0x01, 0xfe]),
    ],
    refused: 0,
    limit: 10_000,
    fault: None,
    told: None,
    asked: 2,
    ping: true,
};

const FAILS_AFTER_A_FRAME: Reading<'_> = Reading {
    calls: &[Call::Octets(PING), Call::Failed, Call::Octets(PING)],
    fault: Some(IoFault::ReadFailed),
    told: Some(IoFault::ReadFailed),
    ..WORKS
};

/// A read that times out counts as failed, as after the cut of a cable.
const TIMES_OUT_AFTER_A_FRAME: Reading<'_> = Reading {
    calls: &[Call::Octets(PING), Call::TimedOut, Call::Octets(PING)],
    ..FAILS_AFTER_A_FRAME
};

const GIVES_TOO_LONG_A_FRAME: Reading<'_> = Reading {
    calls: &[
        Call::Octets(PING),
        Call::Octets(TOO_LONG),
        Call::Octets(PING),
    ],
    fault: Some(IoFault::FrameFault),
    told: Some(IoFault::FrameFault),
    ..WORKS
};

const GATE_ALWAYS_REFUSES: Reading<'_> = Reading {
    calls: &[Call::Octets(PING)],
    refused: 1_000,
    limit: 3,
    fault: Some(IoFault::GateShut),
    told: Some(IoFault::GateShut),
    asked: 3,
    ping: false,
};

/// The gate refuses only `Down`. The device is told of the earlier fault.
const GATE_SHUT_AT_DOWN: Reading<'_> = Reading {
    calls: &[Call::Failed],
    refused: 2,
    limit: 2,
    fault: Some(IoFault::GateShut),
    told: Some(IoFault::ReadFailed),
    asked: 2,
    ping: false,
};

const GATE_OPENS_AT_DOWN: Reading<'_> = Reading {
    limit: 3,
    fault: Some(IoFault::ReadFailed),
    asked: 3,
    ..GATE_SHUT_AT_DOWN
};

const READINGS: [Reading<'_>; 7] = [
    WORKS,
    FAILS_AFTER_A_FRAME,
    TIMES_OUT_AFTER_A_FRAME,
    GIVES_TOO_LONG_A_FRAME,
    GATE_ALWAYS_REFUSES,
    GATE_SHUT_AT_DOWN,
    GATE_OPENS_AT_DOWN,
];

/// Whether a reader ends as `reading` says.
fn ends_so<R: Wait>(rt: &R, alloc: Global, reading: &Reading<'_>) -> Result<bool, Fail> {
    let mut ended = read(rt, alloc, reading.calls, reading.refused, reading.limit)?;
    let put = (!reading.ping || is_ping(rt, &mut ended.desk)) && is_down_last(rt, &mut ended.desk);
    Ok(
        put && ended.asked == reading.asked
            && is_fault(ended.fault, reading.fault)
            && is_fault(ended.told, reading.told),
    )
}

#[test]
fn a_reader_puts_what_was_whole_and_its_device_gets_the_fault(rt: HostRuntime) -> Result<(), Fail> {
    for (place, reading) in READINGS.iter().enumerate() {
        assert!(rt; ends_so(&rt, rt.alloc(), reading)?, "reading {place}");
    }
    Ok(())
}

/// A gate that remains shut is asked again, each time after a pause. All pauses except the first
/// two last a millisecond.
#[test]
fn a_gate_that_refuses_is_asked_again_after_a_pause(rt: HostRuntime) -> Result<(), Fail> {
    let begin = Instant::now(&rt)?;
    let ended = read(&rt, rt.alloc(), &[Call::Octets(PING)], 316, 10_000)?;
    assert!(rt; ended.asked == 318 && ended.fault.is_none());
    assert!(rt; begin.elapsed(&rt)?.as_millis() >= 300);
    Ok(())
}

/// How many frames arrive before `Down`. `None` if `Down` isn't among the next four items, or if
/// another item follows it.
fn frames_before_down<R: Wait>(rt: &R, desk: &mut Desk) -> Option<u32> {
    for frames in 0..4 {
        if let What::Down = desk.take(rt)?.what {
            return if desk.take(rt).is_none() {
                Some(frames)
            } else {
                None
            };
        }
    }
    None
}

#[test]
fn a_reader_that_wants_memory_puts_a_first_part(rt: HostRuntime) -> Result<(), Fail> {
    let calls = [Call::Octets(PING); 3];
    let mut read = read(&rt, rt.alloc(), &calls, 0, 10_000)?;
    match frames_before_down(&rt, &mut read.desk) {
        Some(frames) => assert!(rt; frames == 3 || read.fault.is_some()),
        None => assert!(rt; false),
    }
    ended(read.fault)
}

/// How many looks at a desk are made before an item counts as lost. A look that finds nothing waits
/// for 100 ms.
const LOOKS: u32 = 2_000;

/// How many frames arrive before `Down`; `None` if `Down` doesn't arrive within `LOOKS` looks.
fn count_frames<R: Wait>(rt: &R, desk: &mut Desk) -> Option<u32> {
    let mut frames = 0u32;
    for _ in 0..LOOKS {
        match desk.take(rt) {
            Some(item) => match item.what {
                What::Frame(_) => frames = frames.saturating_add(1),
                What::Down => return Some(frames),
            },
            None => desk.wait(rt, Duration::from_millis(100)),
        }
    }
    None
}

/// Reads 100 frames into an inbox of one item.
fn flood<R: Wait>(rt: &R, alloc: Global, pass: SourcePass) -> Option<IoFault> {
    let calls = [Call::Octets(PING); 100];
    let source = pass.source();
    serve_reader(rt, alloc, Source::new(&calls), OPEN, pass, source, 10_000).fault
}

#[test]
fn a_reader_that_finds_the_inbox_full_gets_on(rt: HostRuntime) -> Result<(), Fail> {
    let alloc = rt.alloc();
    let (mut desk, pass) = inbox(alloc, 1)?;
    let reader = thread::spawn(&rt, move || flood(&rt, alloc, pass)).expect(&rt, "a thread");
    assert!(rt; count_frames(&rt, &mut desk) == Some(100));
    assert!(rt; reader.join(&rt).is_none());
    Ok(())
}

/// The octets of a frame with a body of 321 octets. A shorter frame doesn't count as long.
fn long_frame(alloc: Global) -> Result<Vec<u8>, AllocError> {
    let mut text = vec![in alloc; 0; 324]?;
    text[0] = 0x01;
    text[1] = 0x41;
    text[2] = 0xfe;
    Ok(text)
}

/// Reads a frame 400 times. The gate counts the frames that are to be put.
fn flood_with<R: Wait>(
    rt: &R,
    alloc: Global,
    frame: &[u8],
    counts: Counts,
    pass: SourcePass,
) -> Option<IoFault> {
    let calls = [Call::Octets(frame); 400];
    serve_link_reader(rt, alloc, Source::new(&calls), counts, pass, 1).fault
}

/// Waits until a gate was asked more than 128 times, and then for 50 ms more. Returns how often the
/// gate was then asked.
fn await_asked<R: Abort + Clock>(rt: &R, asked: &AtomicU64) -> u64 {
    assert!(rt;
        is_over(rt, asked, 128, 20_000),
        "an item for the gate is missing"
    );
    thread::sleep(rt, Duration::from_millis(50));
    asked.load(Ordering::SeqCst)
}

#[test]
fn long_frames_wait_until_few_items_do(rt: HostRuntime) -> Result<(), Fail> {
    let alloc = rt.alloc();
    let (mut desk, pass) = inbox(alloc, 1_024)?;
    let asked = Arc::new(alloc, AtomicU64::new(0)).expect(&rt, "a count");
    let counts = Counts {
        asked: Arc::try_clone(&asked).expect(&rt, "a share of it"),
    };
    let text = long_frame(alloc).expect(&rt, "a frame");
    let reader = thread::spawn(
        &rt,
        move || flood_with(&rt, alloc, text.as_slice(), counts, pass),
    )
    .expect(&rt, "a thread");
    // 128 frames wait in the queue, and another frame is to be put
    assert!(rt; await_asked(&rt, &asked) == 129);
    assert!(rt; count_frames(&rt, &mut desk) == Some(400));
    ended(reader.join(&rt))
}
