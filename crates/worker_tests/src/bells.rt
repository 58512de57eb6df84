// SPDX-License-Identifier: MIT OR Apache-2.0
use ruled_relay::{Desk, Inbox, Line, Outbox, Putter, Taker};
use std::process::Abort;
use std::sync::Wait;
use std::thread;
use std::time::{Clock, Duration, Instant};

/// How many seconds a wait lasts if no bell ends it.
const LONG: u64 = 20;

/// How many milliseconds a wait lasts if nobody rings the bell.
const SHORT: u64 = 20;

fn now<R: Abort + Clock>(rt: &R) -> Instant {
    Instant::now(rt).expect(rt, "a clock")
}

/// How long ago this instant was.
fn since<R: Abort + Clock>(rt: &R, begin: Instant) -> Duration {
    begin.elapsed(rt).expect(rt, "a clock")
}

/// Whether a wait at a desk lasts for its whole time if nobody rings the desk's bell.
fn rests_at_desk<R: Abort + Clock + Wait>(rt: &R, desk: &Desk) -> bool {
    let begin = now(rt);
    desk.wait(rt, Duration::from_millis(SHORT));
    since(rt, begin).as_millis() >= u128::from(SHORT)
}

#[test]
fn a_desk_waits_until_a_pass_rings(rt: HostRuntime) {
    let (desk, passes) = Inbox::new(rt.alloc(), 33, 1).expect(&rt, "an inbox");
    assert!(rt; rests_at_desk(&rt, &desk));
    let begin = now(&rt);
    for pass in &passes {
        pass.ring();
        desk.wait(&rt, Duration::from_secs(LONG));
    }
    assert!(rt; since(&rt, begin).as_secs() < LONG);
}

/// Puts the mark that follows the last frame.
fn put_end<R: Abort + Wait>(rt: &R, putter: &mut Putter) {
    assert!(rt; putter.put(rt, Line::End).is_ok());
}

/// Whether a bell ends the wait of a taker.
pub(crate) fn is_woken<R: Abort + Clock + Wait>(rt: &R, taker: &Taker) -> bool {
    let begin = now(rt);
    taker.wait(rt, Duration::from_secs(LONG));
    since(rt, begin).as_secs() < LONG
}

#[test]
fn a_putter_wakes_a_taker_that_sleeps(rt: HostRuntime) {
    let (mut putter, taker) = Outbox::new(rt.alloc(), 1).expect(&rt, "an outbox");
    put_end(&rt, &mut putter);
    taker.wait(&rt, Duration::from_millis(1));
    let ringer = thread::spawn(&rt, move || {
        thread::sleep(&rt, Duration::from_millis(100));
        putter.ring();
    })
    .expect(&rt, "a thread");
    assert!(rt; is_woken(&rt, &taker));
    ringer.join(&rt);
}

/// Whether the wait of a taker lasts for its whole time if nobody rings the taker's bell.
fn rests<R: Abort + Clock + Wait>(rt: &R, taker: &Taker) -> bool {
    let begin = now(rt);
    taker.wait(rt, Duration::from_millis(SHORT));
    since(rt, begin).as_millis() >= u128::from(SHORT)
}

#[test]
fn each_line_that_is_put_is_rung_for_once(rt: HostRuntime) {
    let (mut putter, taker) = Outbox::new(rt.alloc(), 4).expect(&rt, "an outbox");
    for _ in 0..3 {
        put_end(&rt, &mut putter);
        putter.ring();
        assert!(rt; is_woken(&rt, &taker));
        putter.ring();
        assert!(rt; rests(&rt, &taker));
    }
}

#[test]
fn a_taker_learns_once_that_its_outbox_was_given_up(rt: HostRuntime) {
    let (putter, taker) = Outbox::new(rt.alloc(), 1).expect(&rt, "an outbox");
    assert!(rt; !taker.was_given_up());
    putter.give_up();
    assert!(rt; is_woken(&rt, &taker));
    assert!(rt; taker.was_given_up());
    assert!(rt; !taker.was_given_up());
}
