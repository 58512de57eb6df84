// SPDX-License-Identifier: MIT OR Apache-2.0
ghost use Rattle.std.specs.Prelude.{◌≡◌, ◌<◌, length, vec_len};
ghost use Rattle.controller_worker.specs.Call.{AreNew, AreUnmarked};

use crate::script::{ENDED, Script};
use crate::waits::is_over;
use controller::Controller;
use controller_worker::{Marks, call_worker};
use ipa_framing::{CCM_STREAM, Frame, RSL_STREAM};
use link_workers::IoFault;
use octets::Octets;
use ruled_relay::{Desk, Inbox, Item, Line, Outbox, Putter, SourcePass, Taker, What};
use settings::Settings;
use std::alloc::Global;
use std::process::Abort;
use std::sync::Wait;
use std::sync::atomic::{AtomicU64, Ordering};
use std::thread::{self, Threads};
use std::time::{Clock, Duration};

const ONE_CELL: &str =
    "[network]\nmcc = \"001\"\nmnc = \"01\"\n[switch]\naddress = \"127.0.0.1:5000\"\n\
[[cell]]\nlisten = \"127.0.0.1:3003\"\nlac = 1\nci = 1\narfcn = 20\nbsic = 9\n\
channels = [0x41, 0x49, 0x0a]\n";

/// A frame: its stream and its body.
pub(crate) type Text<'a> = (u8, &'a [u8]);

pub(crate) const CHANNEL_REQUIRED: Text<'_> = (
    RSL_STREAM,
    &[0x0c, 0x13, 0x01, 0x88, 0x13, 0x7f, 0x01, 0x02, 0x11, 0x05],
);

pub(crate) const ACTIVATION: Text<'_> = (
    RSL_STREAM,
    &[
        0x08, 0x21, 0x01, 0x41, 0x03, 0x00, 0x06, 0x04, 0x00, 0x03, 0x01, 0x00,
    ],
);

const SECOND_ACTIVATION: Text<'_> = (
    RSL_STREAM,
    &[
        0x08, 0x21, 0x01, 0x49, 0x03, 0x00, 0x06, 0x04, 0x00, 0x03, 0x01, 0x00,
    ],
);

pub(crate) const ACTIVATION_ACK: Text<'_> = (
    RSL_STREAM,
    &[0x08, 0x22, 0x01, 0x41, 0x08, 0x00, 0x00],
);

const RELEASE: Text<'_> = (RSL_STREAM, &[0x08, 0x2e, 0x01, 0x41]);

const PING: Text<'_> = (CCM_STREAM, &[0x00]);

const PONG: Text<'_> = (CCM_STREAM, &[0x01]);

/// The call worker's ends of the queues of the switch's link and of one station's link.
#[derive(Drop)]
pub(crate) struct Ends {
    pub(crate) desk: Desk,
    pub(crate) putters: Vec<Putter>,
    pub(crate) marks: Marks,
}

/// A link's ends of the queues that the call worker doesn't hold.
#[derive(Drop)]
pub(crate) struct Link {
    pub(crate) pass: SourcePass,
    pub(crate) taker: Taker,
}

/// New queues for the switch's link and one station's link: the call worker's ends, the switch's
/// link and the station's link. `rooms` says how many lines the outboxes of the switch and of the
/// station hold.
pub(crate) fn queues<R: Abort>(rt: &R, alloc: Global, rooms: (usize, usize)) -> (Ends, Link, Link)
    requires { (0 < rooms.0) × (0 < rooms.1) }
    ensures new { AreNew result.0.putters.items }
    ensures sources { length result.0.desk ≡ vec_len result.0.putters }
    ensures marks { AreUnmarked (vec_len result.0.putters) result.0.marks }
{
    let (desk, mut passes) = Inbox::new(alloc, 2, 8).expect(rt, "an inbox");
    let station_pass = passes.pop().expect(rt, "the station's pass");
    let switch_pass = passes.pop().expect(rt, "the switch's pass");
    let (switch, switch_taker) = Outbox::new(alloc, rooms.0).expect(rt, "an outbox");
    let (station, station_taker) = Outbox::new(alloc, rooms.1).expect(rt, "an outbox");
    let mut putters = Vec::with_capacity(alloc, 2).expect(rt, "room for two");
    putters.push(switch).expect(rt, "room for the switch's");
    putters.push(station).expect(rt, "room for the station's");
    let marks = Marks::new(alloc, putters.len()).expect(rt, "marks");
    let ends = Ends {
        desk,
        putters,
        marks,
    };
    let switch = Link {
        pass: switch_pass,
        taker: switch_taker,
    };
    let station = Link {
        pass: station_pass,
        taker: station_taker,
    };
    (ends, switch, station)
}

/// How a run of the call worker ended.
#[derive(Clone, Copy)]
pub(crate) struct Ended {
    pub(crate) fault: Option<IoFault>,
    pub(crate) ignored: u64,
    /// How often the outbox of the switch and the outbox of the station refused a frame.
    pub(crate) refusals: (u32, u32),
}

/// A controller of one cell.
pub(crate) fn controller<R: Abort>(rt: &R, alloc: Global) -> Controller {
    let settings = Settings::read(alloc, ONE_CELL).expect(rt, "the settings");
    Controller::new(alloc, settings).expect(rt, "a controller")
}

/// Runs the call worker of a controller that has one cell.
pub(crate) fn run<R: Abort + Wait>(rt: &R, alloc: Global, ends: Ends, clock: Script) -> Ended
    requires new { AreNew ends.putters.items }
    requires sources { length ends.desk ≡ vec_len ends.putters }
    requires marks { AreUnmarked (vec_len ends.putters) ends.marks }
{
    let Ends {
        desk,
        putters,
        marks,
    } = ends;
    let controller = controller(rt, alloc);
    let relayed = call_worker(rt, alloc, controller, desk, putters, marks, clock);
    relayed.clock.end();
    Ended {
        fault: relayed.fault,
        ignored: relayed.controller.ignored(),
        refusals: refusals(relayed.putters.as_slice()),
    }
}

/// How often the outbox of the switch and the outbox of the station refused a frame.
fn refusals(putters: &[Putter]) -> (u32, u32) {
    match putters {
        [switch, station] => (switch.refusals(), station.refusals()),
        _ => (u32::MAX, u32::MAX),
    }
}

/// Puts an item of the link that has this pass.
fn put<R: Abort + Wait>(rt: &R, pass: &mut SourcePass, what: What) {
    let source = pass.source();
    assert!(rt; pass.put(rt, Item { source, what }).is_ok());
}

/// Puts these frames.
pub(crate) fn put_frames<R>(rt: &R, alloc: Global, pass: &mut SourcePass, texts: &[Text])
where
    R: Abort + Wait,
{
    for (stream, body) in texts {
        let body = Octets::copy(alloc, *body).expect(rt, "a body");
        let stream = *stream;
        put(rt, pass, What::Frame(Frame { stream, body }));
    }
}

/// Puts these frames, and then `Down`.
pub(crate) fn put_all<R>(rt: &R, alloc: Global, pass: &mut SourcePass, texts: &[Text])
where
    R: Abort + Wait,
{
    put_frames(rt, alloc, pass, texts);
    put(rt, pass, What::Down);
    pass.ring();
}

/// How many times, a millisecond apart, a wait for the clock looks at most.
const LOOKS: u32 = 20_000;

/// Waits until the clock was asked more than `often` times. After `LOOKS` looks the test fails.
pub(crate) fn await_asked<R: Abort + Clock>(rt: &R, asked: &AtomicU64, often: u64) {
    assert!(rt;
        is_over(rt, asked, often, LOOKS),
        "the clock was asked {often} times at most"
    );
}

/// Waits until the call worker has ended. After `LOOKS` looks the test fails.
pub(crate) fn await_end<R: Abort + Clock>(rt: &R, asked: &AtomicU64) {
    assert!(rt;
        is_over(rt, asked, ENDED, LOOKS),
        "the call worker doesn't end"
    );
}

/// How many waits of 10 ms in a row may end without a line. After these waits a line counts as
/// lost.
const WAITS: u32 = 1_000;

/// The next line of an outbox; `None` if no line arrives within `WAITS` waits.
fn next<R: Wait>(rt: &R, taker: &mut Taker) -> Option<Line> {
    for _ in 0..WAITS {
        match taker.take(rt) {
            Some(line) => return Some(line),
            None => taker.wait(rt, Duration::from_millis(10)),
        }
    }
    None
}

/// Whether an outbox gives these frames, then the mark that follows the last frame, and nothing
/// more.
pub(crate) fn gives<R: Wait>(rt: &R, taker: &mut Taker, texts: &[Text]) -> bool {
    for (stream, body) in texts {
        match next(rt, taker) {
            Some(Line::Frame(frame)) if frame.stream == *stream && frame.body.as_slice() == *body =>
                {}
            _ => return false,
        }
    }
    matches!(next(rt, taker), Some(Line::End)) && taker.take(rt).is_none()
}

#[test]
fn a_timer_expires_between_two_items(rt: HostRuntime) {
    let alloc = rt.alloc();
    let (ends, mut switch, mut station) = queues(&rt, alloc, (8, 8));
    put_all(&rt, alloc, &mut station.pass, &[CHANNEL_REQUIRED]);
    let (clock, asked) = Script::counted(&rt, alloc, 1, 3000);
    let ender = thread::spawn(&rt, move || {
        await_asked(&rt, &asked, 3);
        put_all(&rt, alloc, &mut switch.pass, &[]);
        assert!(rt;
            gives(&rt, &mut switch.taker, &[]),
            "a line of the switch is missing"
        );
        await_end(&rt, &asked);
    })
    .expect(&rt, "a thread");
    let ended = run(&rt, alloc, ends, clock);
    assert!(rt; ended.fault.is_none());
    assert!(rt;
        gives(&rt, &mut station.taker, &[ACTIVATION, RELEASE]),
        "a line of the station is missing"
    );
    ender.join(&rt);
}

/// A link whose outbox nobody empties until the outbox was given up.
#[derive(Clone, Copy)]
struct Full<'a> {
    /// Whether the link is the switch's; otherwise it is the station's.
    is_switch: bool,
    /// The frames that the link gives before it is down.
    gives: &'a [Text<'a>],
    /// The milliseconds that the clock answers when it is asked for the third time.
    ms: u32,
    /// The frames for which the link's outbox has room.
    gets: &'a [Text<'a>],
}

/// While the outbox of the link is tried again, the frames and the `Down` that the link gives are
/// taken. The `Down` that is added after that is ignored. In the last row one step puts two frames
/// for the link; the second frame isn't tried any more.
const FULL: [Full<'_>; 4] = [
    Full {
        is_switch: false,
        gives: &[CHANNEL_REQUIRED, ACTIVATION_ACK],
        ms: 0,
        gets: &[ACTIVATION],
    },
    Full {
        is_switch: false,
        gives: &[CHANNEL_REQUIRED, ACTIVATION_ACK, CHANNEL_REQUIRED],
        ms: 0,
        gets: &[ACTIVATION],
    },
    Full {
        is_switch: true,
        gives: &[PING, PING, PING],
        ms: 0,
        gets: &[PONG],
    },
    Full {
        is_switch: false,
        gives: &[CHANNEL_REQUIRED, CHANNEL_REQUIRED],
        ms: 3000,
        gets: &[ACTIVATION, SECOND_ACTIVATION],
    },
];

/// The number of lines for which an outbox needs room: that of the texts, but at least one.
fn room_for(texts: &[Text]) -> usize
    ensures { 0 < result }
{
    if texts.is_empty() { 1 } else { texts.len() }
}

/// Whether the outbox of this row was given up, and gives the frames for which it had room.
fn gives_first<R: Wait>(rt: &R, taker: &mut Taker, number: usize) -> bool {
    let rows = FULL;
    match rows.get(number) {
        Some(row) => taker.was_given_up() && gives(rt, taker, row.gets),
        None => false,
    }
}

/// Whether the link's outbox is given up at the 1,000th refusal, and the rest is as this row says.
fn is_given_up<R>(rt: R, alloc: Global, number: usize, row: &Full<'_>) -> bool
where
    R: Abort + Clock + Threads + Wait + Copy + Drop + Send + 'static,
{
    let room = room_for(row.gets);
    let rooms = if row.is_switch { (room, 8) } else { (8, room) };
    let (ends, switch, station) = queues(&rt, alloc, rooms);
    let (mut full, mut other) = if row.is_switch {
        (switch, station)
    } else {
        (station, switch)
    };
    put_all(&rt, alloc, &mut full.pass, row.gives);
    let (clock, asked) = Script::counted(&rt, alloc, 2, row.ms);
    let others = thread::spawn(&rt, move || {
        await_asked(&rt, &asked, 5);
        put_all(&rt, alloc, &mut other.pass, &[PING]);
        await_asked(&rt, &asked, 10);
        assert!(rt;
            gives_first(&rt, &mut full.taker, number),
            "row {number}: a line is missing, or that the outbox was given up"
        );
        assert!(rt;
            gives(&rt, &mut other.taker, &[PONG]),
            "row {number}: a line of the other link is missing"
        );
        await_end(&rt, &asked);
    })
    .expect(&rt, "a thread");
    let ended = run(&rt, alloc, ends, clock);
    let refusals = if row.is_switch {
        (1_000, 0)
    } else {
        (0, 1_000)
    };
    others.join(&rt);
    ended.fault.is_none() && ended.ignored == 1 && ended.refusals == refusals
}

#[test]
fn an_outbox_that_nobody_empties_is_given_up_and_its_down_is_next(rt: HostRuntime) {
    for (number, row) in FULL.iter().enumerate() {
        assert!(rt; is_given_up(rt, rt.alloc(), number, row), "row {number}");
    }
}
