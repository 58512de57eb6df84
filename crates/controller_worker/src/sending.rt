// SPDX-License-Identifier: MIT OR Apache-2.0
//! Sends the outputs of a step to the outboxes of their links. If a full outbox refuses a frame,
//! this frame and the following frames of the link wait in a list.
ghost use Rattle.std.specs.Prelude.{◌≡◌, ◌<◌, ℕ, List, [], ◌∷◌, length, true, false};
ghost use Rattle.controller_worker.specs.Advancing.{SendsAll, SendsSome, RemainOpen};
ghost use Rattle.controller_worker.specs.Links.{is_given_up as given_up};
ghost use Rattle.ipa_framing.specs.declared.frame.Frame.{Frame};
ghost use Rattle.ruled_relay.specs.declared.outbox.Line.TheVariants as marks;

use crate::limits::{MAX_REFUSALS, MAX_WAITING};
use crate::mark::Mark;
use crate::waiting::Waiting;
use conn_messages::{Out, Outputs};
use ipa_framing::Frame;
use link_workers::Pauses;
use ruled_relay::{Full, Line, Putter};
use std::sync::Wait;

/// What the sender of outputs has to know of their outboxes.
#[derive(Clone, Copy)]
pub(crate) struct Sent {
    /// Whether a frame waits for an outbox of one of the outputs.
    pub(crate) waits: bool,
    /// Whether an outbox of one of the outputs is given up, now or before.
    pub(crate) gives_up: bool,
}

impl Sent {
    fn and(self, other: Sent) -> Sent
        ensures waits { result.waits ≡ false → (self.waits ≡ false) × (other.waits ≡ false) }
        ensures gives_up { result.gives_up ≡ false
            → (self.gives_up ≡ false) × (other.gives_up ≡ false) }
    {
        Sent {
            waits: self.waits || other.waits,
            gives_up: self.gives_up || other.gives_up,
        }
    }
}

/// Puts each output into the outbox of its link, in order, or lets the output wait, and leaves
/// `outputs` empty. Drops an output whose link doesn't exist or whose outbox is given up.
pub(crate) fn send_all<R: Wait>(
    rt: &R,
    putters: &mut Vec<Putter>,
    marks: &mut Vec<Mark>,
    outputs: &mut Outputs,
) -> Sent
    requires { length marks.old.items ≡ length putters.old.items }
    ensures sent { (tries : List ℕ) × SendsAll putters.old.items marks.old.items
        outputs.old.outs tries putters.new.items marks.new.items }
    ensures remain { result.gives_up ≡ false → RemainOpen putters.old.items putters.new.items }
    ensures none { outputs.new.outs ≡ [] }
{
    let mut sent = Sent {
        waits: false,
        gives_up: false,
    };
    outputs.reverse();
    while let Some(out) = outputs.pop() {
        sent = sent.and(send_to(rt, putters, marks, out));
    }
    sent
}

fn send_to<R: Wait>(rt: &R, putters: &mut Vec<Putter>, marks: &mut Vec<Mark>, out: Out) -> Sent
    requires { length marks.old.items ≡ length putters.old.items }
    ensures sent { (tries : List ℕ) × SendsAll putters.old.items marks.old.items (out ∷ []) tries
        putters.new.items marks.new.items }
    ensures remain { result.gives_up ≡ false → RemainOpen putters.old.items putters.new.items }
{
    let link = usize::from(out.to);
    if link >= putters.len() {
        return Sent {
            waits: false,
            gives_up: false,
        };
    }
    let putter = &mut putters[link];
    let mark = &mut marks[link];
    let waits = send(rt, putter, &mut mark.waiting, out.frame);
    let gives_up = is_given_up(putter);
    Sent { waits, gives_up }
}

/// For each outbox, puts its waiting frames until the outbox refuses a frame. Returns whether any
/// frame still waits.
pub(crate) fn try_all<R: Wait>(rt: &R, putters: &mut Vec<Putter>, marks: &mut Vec<Mark>) -> bool
    requires { length marks.old.items ≡ length putters.old.items }
    ensures { (tries : List ℕ) × SendsAll putters.old.items marks.old.items [] tries
        putters.new.items marks.new.items }
{
    let mut is_slow = false;
    for link in 0..putters.len() {
        if put_waiting(rt, &mut putters[link], &mut marks[link].waiting) {
            is_slow = true;
        }
    }
    is_slow
}

// Sends `frame` to a link. If the link's list of waiting frames is full, first waits until the list
// has room; if the outbox is given up, drops the frame. Returns whether a frame of the link waits.
fn send<R: Wait>(rt: &R, putter: &mut Putter, waiting: &mut Waiting, frame: Frame) -> bool
    ensures { SendsSome putter.old waiting.old (frame ∷ []) putter.new waiting.new }
{
    make_room(rt, putter, waiting);
    if is_given_up(putter) {
        return false;
    }
    let is_first = waiting.is_empty();
    waiting.push(frame);
    if is_first {
        try_first(rt, putter, waiting);
    }
    !waiting.is_empty()
}

// Puts waiting frames until the list has room or the outbox is given up, with pauses between the
// tries.
fn make_room<R: Wait>(rt: &R, putter: &mut Putter, waiting: &mut Waiting)
    ensures sends { SendsSome putter.old waiting.old [] putter.new waiting.new }
    ensures room { given_up putter.new ≡ false → length waiting.new < MAX_WAITING }
    ensures none { length waiting.old < MAX_WAITING
        → (waiting.new ≡ waiting.old) × (putter.new ≡ putter.old) }
{
    let mut pauses = Pauses::new();
    for _ in rt.forever() {
        if is_given_up(putter) || !waiting.is_full() {
            return;
        }
        if !try_first(rt, putter, waiting) {
            putter.ring();
            pauses.pause(rt);
        }
    }
    unreachable!()
}

// Puts waiting frames until no frame waits or the outbox refuses a frame. Returns whether a frame
// waits.
fn put_waiting<R: Wait>(rt: &R, putter: &mut Putter, waiting: &mut Waiting) -> bool
    ensures { SendsSome putter.old waiting.old [] putter.new waiting.new }
{
    for _ in 0..MAX_WAITING {
        if is_given_up(putter) || !try_first(rt, putter, waiting) {
            break;
        }
    }
    putter.ring();
    !waiting.is_empty()
}

// Tries to put the first waiting frame, and returns whether the frame was put. If the outbox
// refuses the frame, the frame remains the first in the list; but if the outbox is then given up,
// all waiting frames are dropped.
fn try_first<R: Wait>(rt: &R, putter: &mut Putter, waiting: &mut Waiting) -> bool
    requires { given_up putter.old ≡ false }
    ensures { SendsSome putter.old waiting.old [] putter.new waiting.new }
{
    let Some(frame) = waiting.pop() else {
        return false;
    };
    match putter.put(rt, Line::Frame(frame)) {
        Ok(()) => true,
        Err(Full(line)) => {
            keep(putter, waiting, line);
            false
        }
    }
}

// Puts a refused frame back as the first in the list; if the outbox is given up, drops all waiting
// frames instead.
fn keep(putter: &Putter, waiting: &mut Waiting, line: Line)
    requires { length waiting.old < MAX_WAITING }
    ensures dropped { given_up putter.now ≡ true → waiting.new ≡ [] }
    ensures kept { given_up putter.now ≡ false → (frame : Frame) → line ≡ marks.Frame frame
        → waiting.new ≡ frame ∷ waiting.old }
{
    if is_given_up(putter) {
        waiting.clear();
    } else if let Line::Frame(frame) = line {
        waiting.push_first(frame);
    }
}

/// Whether the outbox is given up, so that it gets no more frames.
pub(crate) fn is_given_up(putter: &Putter) -> bool
    ensures { result ≡ given_up putter.now }
{
    putter.refusals() >= MAX_REFUSALS
}

/// For each of these outboxes, wakes the taker of its lines if a line was put since the taker was
/// last woken.
pub(crate) fn ring_all(putters: &mut Vec<Putter>)
    ensures { putters.new.items ≡ putters.old.items }
{
    for link in 0..putters.len() {
        putters[link].ring();
    }
}

/// Tells the writer of link `link` that the link's outbox was given up; a no-op if there is no such
/// link.
pub(crate) fn tell_given_up(putters: &[Putter], link: usize) {
    if let Some(putter) = putters.get(link) {
        putter.give_up();
    }
}
