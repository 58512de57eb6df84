// SPDX-License-Identifier: MIT OR Apache-2.0
use crate::deadline::Deadline;
use crate::devices::{Got, Held, Sink, Still};
use crate::relay::settings;
use controller::Controller;
use link_workers::{IoFault, LinkReader};
use station_io::{Link, serve_links};
use std::alloc::{AllocError, Global};
use std::io::{self, Read};
use std::sync::Arc;
use std::sync::atomic::{AtomicU64, Ordering};
use std::test::Fail;
use std::thread;
use std::time::{Clock, Duration, Instant};

/// The frame PING, whose answer has as many octets as PING.
const PING: [u8; 4] = [0x00, 0x01, 0xfe, 0x00];

/// How many messages go through the relay. Each message is sent once the message before it was
/// answered.
const MESSAGES: u64 = 200;

/// The seconds that all messages together may take. For each message, a call worker for which
/// nobody rings takes up to 100 ms, and a writer up to a second.
const PATIENCE: u64 = 5;

/// How many times at most a device looks for an answer.
const LOOKS: u32 = 100_000;

/// How many octets the writer of the first station's link has got.
fn octets_of_first(got: &Got) -> u64 {
    match got.get(1) {
        Some(octets) => octets.load(Ordering::SeqCst),
        None => 0,
    }
}

/// A device that gives a number of messages, each once the message before it was answered. Then, or
/// once a message isn't answered, the device is at its end.
#[derive(Drop)]
struct Asking<R> {
    rt: R,
    got: Got,
    left: u64,
    asked: u64,
    told: Option<IoFault>,
}

impl<R: Clock> Asking<R> {
    /// Waits until the first station's link has got an answer to each message. Returns whether that
    /// happens within `LOOKS` looks.
    fn is_answered(&self) -> bool {
        for _ in 0..LOOKS {
            if octets_of_first(&self.got) >= self.asked {
                return true;
            }
            thread::sleep(&self.rt, Duration::from_micros(50));
        }
        false
    }
}

impl<R: Clock> Read for Asking<R> {
    fn read(&mut self, buf: &mut [u8]) -> io::Result<usize> {
        if !self.is_answered() || self.left == 0 {
            return Ok(0);
        }
        self.left -= 1;
        self.asked = self.asked.saturating_add(4);
        PING.as_slice().read(buf)
    }
}

impl<R: Clock> LinkReader for Asking<R> {
    ghost told = { λ asking. asking.told };

    fn break_off(&mut self, fault: IoFault) {
        self.told = Some(fault);
    }
}

/// A link whose device gives this many messages. The octets that its writer gets are counted for
/// the link with this number.
fn link_of<R: Copy + Drop>(
    rt: R,
    alloc: Global,
    got: &Got,
    link: usize,
    messages: u64,
) -> Result<Link<Asking<R>, Sink, Held<R>>, AllocError> {
    let kept = Vec::new(alloc);
    let reader = Asking {
        rt,
        got: Arc::try_clone(got)?,
        left: messages,
        asked: 0,
        told: None,
    };
    let writer = Sink {
        kept,
        room: usize::MAX,
        link,
        got: Arc::try_clone(got)?,
    };
    let gate = Held {
        rt,
        got: Arc::try_clone(got)?,
        frames: 0,
        frames_after: [0; 3],
        down_after: [0; 3],
        refused: 0,
    };
    Ok(Link {
        reader,
        writer,
        gate,
    })
}

/// Each bell is rung: messages that come one at a time are relayed, and no worker waits for a
/// timeout.
#[test]
fn one_message_at_a_time_waits_for_no_time(rt: HostRuntime) -> Result<(), Fail> {
    let alloc = rt.alloc();
    let counters = [AtomicU64::new(0), AtomicU64::new(0), AtomicU64::new(0)];
    let got = Arc::new(alloc, counters)?;
    let mut links = Vec::with_capacity(alloc, 3)?;
    let asked = [0, MESSAGES, 0];
    for (link, messages) in asked.iter().enumerate() {
        links.push(link_of(rt, alloc, &got, link, *messages)?)?;
    }
    let controller = Controller::new(alloc, settings(alloc)?)?;
    let begin = Instant::now(&rt)?;
    let deadline = Deadline::new(rt, alloc, "one message at a time")?;
    let served = serve_links(rt, alloc, controller, links, Still, 1).is_ok();
    deadline.meet(&rt);
    let took = begin.elapsed(&rt)?.as_secs();
    if !served || octets_of_first(&got) != 4 * MESSAGES {
        return Err(Fail::new("not each message was answered"));
    }
    if took >= PATIENCE {
        return Err(Fail::new("the messages waited for a time"));
    }
    Ok(())
}
