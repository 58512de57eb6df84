// SPDX-License-Identifier: MIT OR Apache-2.0
use crate::script::Script;
use crate::worker::{
    ACTIVATION, ACTIVATION_ACK, CHANNEL_REQUIRED, Text, await_asked, await_end, gives, put_all,
    put_frames, queues, run,
};
use ipa_framing::RSL_STREAM;
use std::thread;

const ESTABLISH_INDICATION: Text<'_> = (
    RSL_STREAM,
    &[
        0x02, 0x06, 0x01, 0x41, 0x02, 0x00, 0x0b, 0x00, 0x03, 0x05, 0x24, 0x71,
    ],
);

/// The station's last frame arrives once the station's outbox was given up. The clock tells when
/// that is: the clock is asked before each of two items, and then at least once in 300 tries. The
/// `Down` that is added as the next step ends the station's connection, so the switch gets no CR.
/// The switch's `Down` would end the connection, too, so it arrives later.
#[test]
fn no_item_is_taken_before_the_down_that_is_added(rt: HostRuntime) {
    let alloc = rt.alloc();
    let (ends, mut switch, mut station) = queues(&rt, alloc, (8, 1));
    put_frames(
        &rt,
        alloc,
        &mut station.pass,
        &[CHANNEL_REQUIRED, ACTIVATION_ACK],
    );
    let (clock, asked) = Script::counted(&rt, alloc, 0, 0);
    let links = thread::spawn(&rt, move || {
        await_asked(&rt, &asked, 10);
        put_all(&rt, alloc, &mut station.pass, &[ESTABLISH_INDICATION]);
        await_asked(&rt, &asked, 16);
        put_all(&rt, alloc, &mut switch.pass, &[]);
        assert!(rt;
            gives(&rt, &mut station.taker, &[ACTIVATION]),
            "a line of the station is missing"
        );
        assert!(rt;
            gives(&rt, &mut switch.taker, &[]),
            "the switch gets a frame, or no end"
        );
        await_end(&rt, &asked);
    })
    .expect(&rt, "a thread");
    let ended = run(&rt, alloc, ends, clock);
    links.join(&rt);
    assert!(rt; ended.fault.is_none() && ended.refusals == (0, 1_000));
    assert!(rt; ended.ignored == 2, "the frame and the station's own Down");
}
