// SPDX-License-Identifier: MIT OR Apache-2.0
use crate::frames::{frame, is_frame};
use ruled_relay::{
    Desk, Full, Inbox, Item, Line, Outbox, PutFault, Putter, SourcePass, Taker, What,
};
use std::alloc::Global;
use std::process::Abort;
use std::sync::Wait;
use std::thread;
use std::time::{Clock, Duration};

const SOURCES: u16 = 33;

/// The number of frames that each source puts. The frames are numbered from 0.
const FRAMES: u8 = 50;

/// How many looks in a row may find nothing. So many looks take some seconds; after them an item
/// counts as lost, and the test ends.
const LOOKS: u32 = 10_000_000;

/// How many waits of 100 ms in a row may end without an item.
const WAITS: u32 = 100;

/// Puts an item once there is room for it. Returns whether there was room within `LOOKS` looks.
fn is_put<R: Wait>(rt: &R, pass: &mut SourcePass, mut item: Item) -> bool {
    for _ in 0..LOOKS {
        match pass.put(rt, item) {
            Ok(()) => return true,
            Err(PutFault::Full(back) | PutFault::Foreign(back)) => item = back,
        }
        pass.ring();
        thread::yield_now();
    }
    false
}

/// Puts the frames 0, 1 and so on, and `Down` after the last frame.
fn feed<R: Abort + Wait>(rt: &R, alloc: Global, mut pass: SourcePass) {
    let source = pass.source();
    for octet in 0..FRAMES {
        let what = What::Frame(frame(alloc, octet).expect(rt, "a frame"));
        if !is_put(rt, &mut pass, Item { source, what }) {
            return;
        }
    }
    let what = What::Down;
    is_put(rt, &mut pass, Item { source, what });
    pass.ring();
}

/// The next item of a desk; `None` if no item arrives within `WAITS` waits.
fn next_of<R: Wait>(rt: &R, desk: &mut Desk) -> Option<Item> {
    for _ in 0..WAITS {
        match desk.take(rt) {
            Some(item) => return Some(item),
            None => desk.wait(rt, Duration::from_millis(100)),
        }
    }
    None
}

/// Takes items until each source is down. Returns whether all frames of each source arrived in
/// order.
fn take_all<R: Wait>(rt: &R, desk: &mut Desk) -> bool {
    let mut next = [0u8; SOURCES as usize];
    for _ in 0..u32::from(SOURCES) * (u32::from(FRAMES) + 1) {
        let Some(item) = next_of(rt, desk) else {
            return false;
        };
        let Some(expected) = next.get_mut(usize::from(item.source)) else {
            return false;
        };
        if let What::Frame(frame) = item.what {
            if !is_frame(&frame, *expected) {
                return false;
            }
            *expected = expected.saturating_add(1);
        }
    }
    next.iter().all(|count| *count == FRAMES)
}

#[test]
fn everything_comes_in_order_from_each_of_many_threads(rt: HostRuntime) {
    let alloc = rt.alloc();
    let (mut desk, passes) = Inbox::new(alloc, SOURCES, 4).expect(&rt, "an inbox");
    let mut threads = Vec::with_capacity(alloc, usize::from(SOURCES)).expect(&rt, "room");
    for pass in passes {
        let thread = thread::spawn(&rt, move || feed(&rt, alloc, pass)).expect(&rt, "a thread");
        threads.push(thread).expect(&rt, "room");
    }
    assert!(rt; take_all(&rt, &mut desk));
    for thread in threads {
        thread.join(&rt);
    }
    assert!(rt; desk.take(&rt).is_none());
}

/// How many sources put items.
const PUTTERS: u16 = 6;

/// How often each source puts an item. A source puts each item once the item before it was taken.
const PUTS: u32 = 10_000;

/// Puts items, each once the item before it was taken.
fn put_often<R: Wait>(rt: &R, mut pass: SourcePass) {
    let source = pass.source();
    for _ in 0..PUTS {
        let what = What::Down;
        if !is_put(rt, &mut pass, Item { source, what }) {
            return;
        }
    }
}

/// Whether a desk gives this many items, each within `LOOKS` looks.
fn gives<R: Wait>(rt: &R, desk: &mut Desk, count: u32) -> bool {
    for _ in 0..count {
        let mut is_taken = false;
        for _ in 0..LOOKS {
            if desk.take(rt).is_some() {
                is_taken = true;
                break;
            }
            thread::yield_now();
        }
        if !is_taken {
            return false;
        }
    }
    true
}

/// The desk passes over queues that it found empty. An item that is put into such a queue at that
/// moment isn't lost.
#[test]
fn an_item_that_is_put_while_its_queue_is_found_empty_is_taken(rt: HostRuntime) {
    let alloc = rt.alloc();
    let (mut desk, passes) = Inbox::new(alloc, PUTTERS, 1).expect(&rt, "an inbox");
    let mut threads = Vec::with_capacity(alloc, usize::from(PUTTERS)).expect(&rt, "room");
    for pass in passes {
        let thread = thread::spawn(&rt, move || put_often(&rt, pass)).expect(&rt, "a thread");
        threads.push(thread).expect(&rt, "room");
    }
    assert!(rt; gives(&rt, &mut desk, u32::from(PUTTERS) * PUTS));
    for thread in threads {
        thread.join(&rt);
    }
    assert!(rt; desk.take(&rt).is_none());
}

/// How many bursts of one item each source puts. Each source puts as many bursts of two items.
const BURSTS: u32 = 1_000;

/// Puts one item and then two items, again and again. Each burst follows the taking of the burst
/// before it after a pause of varying length, so that items arrive at any moment of the desk's
/// work.
fn put_in_bursts<R: Wait>(rt: &R, mut pass: SourcePass) {
    for burst in 0..2 * BURSTS {
        if !is_emptied(rt, &mut pass) {
            return;
        }
        for _ in 0..burst % 31 {
            pass.waiting(rt);
        }
        let count = 1 + burst % 2;
        if !are_put(rt, &mut pass, count) {
            return;
        }
    }
}

/// Puts this many items, each once there is room for it. Returns whether there was room for each
/// item within `LOOKS` looks.
fn are_put<R: Wait>(rt: &R, pass: &mut SourcePass, count: u32) -> bool {
    let source = pass.source();
    for _ in 0..count {
        let what = What::Down;
        if !is_put(rt, pass, Item { source, what }) {
            return false;
        }
    }
    true
}

/// Whether all items of a source are taken within a bounded number of looks.
fn is_emptied<R: Wait>(rt: &R, pass: &mut SourcePass) -> bool {
    for look in 0..64 * LOOKS {
        if pass.waiting(rt) == 0 {
            return true;
        }
        if look % 64 == 63 {
            thread::yield_now();
        }
    }
    false
}

/// How many looks in a row may find only items of one source before other threads get time.
const OWN_LOOKS: u32 = 1_000;

/// How often the other threads get a millisecond before an item counts as put off.
const RESTS: u32 = 1_000;

/// Looks for an item of another source, while the source of `busy` has an item at each look.
/// Returns whether the desk gave an item of another source.
fn finds_other<R: Wait>(rt: &R, desk: &mut Desk, busy: &mut SourcePass) -> bool {
    let source = busy.source();
    for _ in 0..OWN_LOOKS {
        let what = What::Down;
        // the queue may be full, which keeps the source as busy
        let _ = busy.put(rt, Item { source, what });
        match desk.take(rt) {
            Some(item) if item.source != source => return true,
            _ => {}
        }
    }
    false
}

/// Whether a desk gives an item of another source in time, while the source of `busy` has an item
/// at each look.
fn gives_beside<R: Clock + Wait>(rt: &R, desk: &mut Desk, busy: &mut SourcePass) -> bool {
    for _ in 0..RESTS {
        if finds_other(rt, desk, busy) {
            return true;
        }
        thread::sleep(rt, Duration::from_millis(1));
    }
    false
}

/// If one source always has an item, each look of the desk finds one, so the desk never asks all
/// sources: only signs and earlier looks lead to the items of the other sources. No item is put off
/// once the sign of its source is raised. A look that lowers the sign too late, after the look
/// found the queue empty, is detected only if threads run at once, on two processors.
#[test]
fn items_that_are_put_while_a_queue_is_found_empty_are_not_put_off(rt: HostRuntime) {
    let alloc = rt.alloc();
    let (mut desk, mut passes) = Inbox::new(alloc, PUTTERS, 2).expect(&rt, "an inbox");
    let mut busy = passes.pop().expect(&rt, "a pass");
    let mut threads = Vec::with_capacity(alloc, usize::from(PUTTERS)).expect(&rt, "room");
    for pass in passes {
        let thread = thread::spawn(&rt, move || put_in_bursts(&rt, pass)).expect(&rt, "a thread");
        threads.push(thread).expect(&rt, "room");
    }
    for _ in 0..u32::from(PUTTERS - 1) * 3 * BURSTS {
        assert!(rt; gives_beside(&rt, &mut desk, &mut busy));
    }
    for thread in threads {
        thread.join(&rt);
    }
}

/// Puts a line once there is room for it. Returns whether there was room within `LOOKS` looks.
fn is_line_put<R: Wait>(rt: &R, putter: &mut Putter, mut line: Line) -> bool {
    for _ in 0..LOOKS {
        match putter.put(rt, line) {
            Ok(()) => {
                putter.ring();
                return true;
            }
            Err(Full(back)) => line = back,
        }
        thread::yield_now();
    }
    false
}

/// Puts the frames 0, 1 and so on, and the mark that follows the last frame.
fn feed_outbox<R: Abort + Wait>(rt: &R, alloc: Global, putter: &mut Putter) {
    for octet in 0..FRAMES {
        let frame = frame(alloc, octet).expect(rt, "a frame");
        if !is_line_put(rt, putter, Line::Frame(frame)) {
            return;
        }
    }
    is_line_put(rt, putter, Line::End);
}

/// The next line of an outbox; `None` if no line arrives within `WAITS` waits.
fn next_line<R: Wait>(rt: &R, taker: &mut Taker) -> Option<Line> {
    for _ in 0..WAITS {
        match taker.take(rt) {
            Some(line) => return Some(line),
            None => taker.wait(rt, Duration::from_millis(100)),
        }
    }
    None
}

/// Takes lines until the mark. Returns whether all frames arrived in order.
fn take_lines<R: Wait>(rt: &R, taker: &mut Taker) -> bool {
    for octet in 0..FRAMES {
        match next_line(rt, taker) {
            Some(Line::Frame(frame)) if is_frame(&frame, octet) => {}
            _ => return false,
        }
    }
    matches!(next_line(rt, taker), Some(Line::End))
}

#[test]
fn a_thread_gets_all_lines_of_an_outbox(rt: HostRuntime) {
    let alloc = rt.alloc();
    let (mut putter, mut taker) = Outbox::new(alloc, 4).expect(&rt, "an outbox");
    let thread = thread::spawn(&rt, move || feed_outbox(&rt, alloc, &mut putter)).expect(
        &rt, "a thread",
    );
    assert!(rt; take_lines(&rt, &mut taker));
    thread.join(&rt);
}
