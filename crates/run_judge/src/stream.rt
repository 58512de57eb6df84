// SPDX-License-Identifier: MIT OR Apache-2.0
ghost use Rattle.std.specs.Prelude.{◌≡◌, ◌<◌, IfOk, IfSome, OnOk, ℕ, [], ◌∷◌, ◌++◌, drop, length};
ghost use Rattle.std.specs.Prelude.{map, nat_lt, not, option_to_list, slice_get};
ghost use Rattle.std.specs.List.{position_or_len};
ghost use Rattle.run_judge.specs.declared.flow.Order.TheVariants.{InOrder};
ghost use Rattle.run_judge.specs.Dues.{NoneAbove, is_first};
ghost use Rattle.run_judge.specs.Flow as flow;
ghost use Rattle.run_judge.specs.Flow.{among_optional, fault_by, fault_with, has_copy};
ghost use Rattle.run_judge.specs.Flow.{has_octets, insert_due, last_frame, last_passed, next_due};
ghost use Rattle.run_judge.specs.Flow.{optional, passed_in, stream_passed, taken_at, taken_by};

use crate::flow::Passing;
use crate::{Due, Fault, Passed};
use octets::{Memory, Octets};
use std::alloc::Global;
use std::collections::VecDeque;
use std::marker::Model;

/// The messages of a flow without a fault.
#[derive(Drop)]
pub struct Stream {
    /// The due messages, sorted by rank and within a rank by arrival.
    due: VecDeque<Due>,
    passed: Vec<Passed>,
    /// The highest rank of a message that was passed on; 0 at first.
    reached: u32,
    /// An upper bound of the ranks in `due`.
    highest: u32,
}

impl Model for Stream {
    ghost use Rattle.run_judge.specs.Dues.{NoneAbove};
    ghost use Rattle.run_judge.specs.StreamState.{StreamState};

    ghost Value = { StreamState };

    ghost view = { λ s. record {
      due = s.due.items;
      passed = s.passed.items;
      reached = s.reached;
    } };

    ghost invariant = { λ s. NoneAbove s.highest s.due.items };
}

impl Stream {
    /// A stream without messages.
    pub(crate) fn new(alloc: Global) -> Stream
        ensures { result ≡ record { due = []; passed = []; reached = 0 } }
    {
        Stream {
            due: VecDeque::new(alloc),
            passed: Vec::new(alloc),
            reached: 0,
            highest: 0,
        }
    }

    /// A stream with one message, which was passed on in the frame `frame`.
    pub(crate) fn begun(alloc: Global, message: Octets, frame: u64) -> Result<Stream, Memory>
        ensures { IfOk result (λ stream. stream
            ≡ record { due = []; passed = passed_in 0 frame message ∷ []; reached = 0 }) }
    {
        let mut passed = Vec::new(alloc);
        passed.push(Passed {
            rank: 0,
            message,
            frame,
        })?;
        Ok(Stream {
            due: VecDeque::new(alloc),
            passed,
            reached: 0,
            highest: 0,
        })
    }

    /// Whether a message of a later channel than that of `due` was passed on.
    pub(crate) fn is_late(&self, due: &Due) -> bool
        ensures { result ≡ nat_lt due.now.rank self.now.reached }
    {
        due.rank < self.reached
    }

    /// Whether a message with the octets of `due` was passed on from a later channel.
    pub(crate) fn has_passed_copy(&self, due: &Due) -> bool
        ensures { result ≡ has_copy due.now.rank due.now.message self.now.passed }
    {
        has_copy(self.passed.as_slice(), due.rank, due.message.as_slice())
    }

    /// The frame of the message that was passed on last; 0 if no message was passed on.
    pub(crate) fn last_frame(&self) -> u64
        ensures { result ≡ last_frame self.now.passed }
    {
        match self.passed.last() {
            Some(passed) => passed.frame,
            None => 0,
        }
    }

    /// Whether a message has the octets of the one that was passed on last.
    pub(crate) fn is_repetition(&self, message: &[u8]) -> bool
        ensures { result ≡ has_octets message.now (last_passed self.now.passed) }
    {
        match self.passed.last() {
            Some(passed) => passed.message.as_slice() == message,
            None => false,
        }
    }

    /// Inserts a due message after all due messages of the same or a lower rank.
    pub(crate) fn arrive(&mut self, due: Due) -> Result<(), Memory>
        ensures { OnOk result
            (self.new ≡ record self.old { due = insert_due due self.old.due }) }
    {
        insert(&mut self.due, &mut self.highest, due)
    }

    /// Makes all due messages optional.
    pub(crate) fn reject(&mut self)
        ensures { self.new ≡ record self.old { due = map optional self.old.due } }
    {
        make_optional(self.due.make_contiguous());
    }

    /// The place of `message` in `due` if it may be passed on next: it is the first due message
    /// that isn't optional, or an optional message before that one. `None` otherwise.
    pub(crate) fn place_of(&self, message: &[u8]) -> Option<usize>
        ensures place { next_due message.now self.now.due ≡ taken_by result self.now.due }
        ensures within { IfSome result (λ place. place < length self.now.due) }
    {
        place_of(&self.due, message)
    }

    /// Passes on the due message at `place`, and drops the due messages before it.
    pub(crate) fn pass(&mut self, place: usize, passing: Passing) -> Result<(), Memory>
        requires { place < length self.old.due }
        ensures { OnOk result (InOrder self.new ≡
            stream_passed passing.message passing.frame self.old (taken_at place self.old.due)) }
    {
        let Some(due) = take_at(&mut self.due, place) else {
            return Ok(());
        };
        self.reached = due.rank.max(self.reached);
        let Passing { message, frame } = passing;
        self.passed.push(Passed {
            rank: due.rank,
            message,
            frame,
        })?;
        Ok(())
    }

    /// The fault of passing on a message that `place_of` doesn't find. Drops the due messages up to
    /// the first one that isn't optional.
    pub(crate) fn fault(&mut self, passing: Passing) -> Fault
        ensures { result ≡ fault_by passing.message passing.frame self.old }
    {
        let is_due = is_due(&self.due, passing.message.as_slice());
        let before = passed_before(self.passed.as_slice(), passing.message.as_slice());
        let place = standing_place(&self.due);
        fault_of(is_due, before, take_at(&mut self.due, place), passing)
    }
}

/// Inserts a due message after all due messages of the same or a lower rank. `highest` is an upper
/// bound of the ranks in `due`, before and after the call.
fn insert(due: &mut VecDeque<Due>, highest: &mut u32, message: Due) -> Result<(), Memory>
    requires { NoneAbove highest.old due.old.items }
    ensures items { OnOk result (due.new.items ≡ insert_due message due.old.items) }
    ensures above { NoneAbove highest.new due.new.items }
{
    due.reserve(1)?;
    if *highest <= message.rank {
        *highest = message.rank;
        due.push_back_reserved(message);
    } else {
        let place = place_above(due, message.rank);
        due.insert(place, message)?;
    }
    Ok(())
}

/// The place of the first due message with a rank above `rank`; the length of `due` if there is no
/// such message.
fn place_above(due: &VecDeque<Due>, rank: u32) -> usize
    ensures { result ≡ position_or_len (λ d. nat_lt rank d.rank) due.now.items }
{
    for place in 0..due.len() {
        if rank < due[place].rank {
            return place;
        }
    }
    due.len()
}

/// The place of the first message that isn't optional; the length of `due` if there is no such
/// message.
fn standing_place(due: &VecDeque<Due>) -> usize
    ensures { result ≡ position_or_len (λ d. not d.is_optional) due.now.items }
{
    for place in 0..due.len() {
        if !due[place].is_optional {
            return place;
        }
    }
    due.len()
}

/// Makes all messages optional.
fn make_optional(due: &mut [Due])
    ensures { due.new ≡ map optional due.old }
{
    for d in due.iter_mut() {
        d.is_optional = true;
    }
}

/// Drops the first `count` messages.
fn drop_front(due: &mut VecDeque<Due>, count: usize)
    ensures { due.new.items ≡ drop count due.old.items }
{
    for _place in 0..count {
        let _ = due.pop_front();
    }
}

/// Takes the message at `place`, if there is one, and drops the messages before `place`.
fn take_at(due: &mut VecDeque<Due>, place: usize) -> Option<Due>
    ensures taken { drop place due.old.items ≡ option_to_list result ++ due.new.items }
    ensures first { result ≡ slice_get (drop place due.old.items) 0 }
    ensures above { (high : ℕ) → NoneAbove high due.old.items → NoneAbove high due.new.items }
{
    drop_front(due, place);
    due.pop_front()
}

/// The place of `message` in `due` if it may be passed on next: it is the first due message that
/// isn't optional, or an optional message before that one. `None` otherwise.
fn place_of(due: &VecDeque<Due>, message: &[u8]) -> Option<usize>
    ensures place { next_due message.now due.now.items ≡ taken_by result due.now.items }
    ensures within { IfSome result (λ place. place < length due.now.items) }
{
    let place = standing_place(due);
    if is_at(due, place, message) {
        Some(place)
    } else {
        optional_place(due, message)
    }
}

/// Whether the due message at `place` has the octets `message`.
fn is_at(due: &VecDeque<Due>, place: usize, message: &[u8]) -> bool
    ensures { result ≡ is_first message.now (drop place due.now.items) }
{
    match due.get(place) {
        Some(found) => found.message.as_slice() == message,
        None => false,
    }
}

/// The place of `message` among the optional messages at the front of `due`; `None` if it isn't
/// there.
fn optional_place(due: &VecDeque<Due>, message: &[u8]) -> Option<usize>
    ensures place { among_optional message.now due.now.items ≡ taken_by result due.now.items }
    ensures within { IfSome result (λ place. place < length due.now.items) }
{
    for place in 0..due.len() {
        let found = &due[place];
        if !found.is_optional {
            return None;
        }
        if found.message.as_slice() == message {
            return Some(place);
        }
    }
    None
}

fn is_due(due: &VecDeque<Due>, message: &[u8]) -> bool
    ensures { result ≡ flow.is_due message.now due.now.items }
{
    for place in 0..due.len() {
        if due[place].message.as_slice() == message {
            return true;
        }
    }
    false
}

fn has_copy(passed: &[Passed], rank: u32, message: &[u8]) -> bool
    ensures { result ≡ has_copy rank message.now passed.now }
{
    for p in passed {
        if rank < p.rank && p.message.as_slice() == message {
            return true;
        }
    }
    false
}

fn passed_before(passed: &[Passed], message: &[u8]) -> Option<u64>
    ensures { result ≡ flow.passed_before message.now passed.now }
{
    for p in passed {
        if p.message.as_slice() == message {
            return Some(p.frame);
        }
    }
    None
}

fn fault_of(is_due: bool, before: Option<u64>, next: Option<Due>, passing: Passing) -> Fault
    ensures { result ≡ fault_with is_due before passing.message passing.frame next }
{
    let Passing { message, frame } = passing;
    match (is_due, before, next) {
        (true, _, Some(due)) => Fault::Lost { due, behind: frame },
        (false, Some(first), _) => Fault::Doubled {
            message,
            first,
            frame,
        },
        (false, None, Some(due)) if has_header_of(due.message.as_slice(), message.as_slice()) => {
            Fault::Changed {
                due,
                message,
                frame,
            }
        }
        _ => Fault::MadeUp { message, frame },
    }
}

/// Whether two messages have the same first two octets: discriminator, transaction, type and
/// number.
fn has_header_of(one: &[u8], other: &[u8]) -> bool
    ensures { result ≡ flow.has_header_of one.now other.now }
{
    match (one, other) {
        ([a, b, ..], [c, d, ..]) => a == c && b == d,
        _ => false,
    }
}
