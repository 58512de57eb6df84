// SPDX-License-Identifier: MIT OR Apache-2.0
ghost use Rattle.std.specs.Prelude.{◌≡◌, ◌<◌, true, [], IfOk, MatchOption, MatchResult};
ghost use Rattle.crossbeam_queue.specs.Passes.{IsPassOf, ruled_capacity, view};
ghost use Rattle.ruled_relay.specs.Ends.{AreNew, IsDrained, Joins, Puts, Takes, WasFull};
ghost use Rattle.ruled_relay.specs.Rule.{known, left_over, putting};

use crate::rule::{Ends, InOrder, Known, Putting, Taking, Wider};
use crossbeam_queue::{Pass, RuledArrayQueue};
use octets::Memory;
use std::alloc::Global;
use std::marker::Model;
use std::sync::{Arc, Wait};

type Queue<T> = RuledArrayQueue<T, Known<T>, InOrder>;

/// An end of a queue: the putting end, the taking end, or both joined.
#[derive(Drop)]
pub(crate) struct End<T> {
    queue: Arc<Queue<T>, Global>,
    pass: Pass<T, Known<T>>,
}

impl<T> Model for End<T> {
    ghost use Rattle.crossbeam_queue.specs.Passes.{view as pass_view, IsPassOf, ruled_capacity};
    ghost use Rattle.std.specs.Arc.{arc_value};
    ghost use Rattle.std.specs.Prelude.{◌≡◌, false};
    ghost use Rattle.ruled_relay.specs.Ends.{EndView};

    ghost Value = { EndView T };

    ghost view = { λ e. record {
      queue = e.pass.table_id;
      capacity = ruled_capacity (arc_value e.queue);
      seen = (pass_view e.pass).seen;
    } };

    ghost invariant = { λ e. IsPassOf (arc_value e.queue) e.pass
        × ((pass_view e.pass).seen.takes ≡ false
        → (pass_view e.pass).room ≡ ruled_capacity (arc_value e.queue)) };
}

/// Makes a queue with this capacity, and returns its taking end and its putting end, in this order.
/// Returns `Err` only if memory runs out.
pub(crate) fn ends<T: Drop>(alloc: Global, capacity: usize) -> Result<(End<T>, End<T>), Memory>
    requires { 0 < capacity }
    ensures { IfOk result (λ r. AreNew capacity r.0 r.1) }
{
    let (queue, mut pass) = Queue::<T>::ruled(alloc, capacity)?;
    tell_room(&queue, &mut pass);
    let queue = Arc::new(alloc, queue)?;
    let other = Arc::try_clone(&queue)?;
    let putter = queue.another::<Ends>(&mut pass);
    Ok((
        End { queue, pass },
        End {
            queue: other,
            pass: putter,
        },
    ))
}

/// Makes the capacity of the queue known to the pass of the taking end. Each step adds one item to
/// the capacity that the pass knows, since knowledge changes only by fixed steps.
fn tell_room<T: Drop>(queue: &Queue<T>, pass: &mut Pass<T, Known<T>>)
    requires queue { IsPassOf queue.now pass.old }
    requires first { view pass.old ≡ known 0 (left_over [] []) }
    ensures queue { IsPassOf queue.now pass.new }
    ensures told { view pass.new ≡ known (ruled_capacity queue.now) (left_over [] []) }
{
    for _ in 0..queue.capacity() {
        queue.another::<Wider>(pass);
    }
}

impl<T: Drop> End<T> {
    /// Puts an item at the end of the queue. If the queue is full, `Err` hands the item back and
    /// nothing changes.
    pub(crate) fn put<R: Wait>(&mut self, rt: &R, item: T) -> Result<(), T>
        requires { self.old.seen ≡ putting self.old.seen.put }
        ensures { MatchResult result (λ _. Puts self.old item self.new)
            (λ x. (x ≡ item) × (self.new ≡ self.old) × WasFull self.old.capacity self.old.seen) }
    {
        self.queue.push_as::<Putting, R>(rt, &mut self.pass, item)
    }

    /// Takes the first item. `None` if the queue was empty.
    pub(crate) fn take<R: Wait>(&mut self, rt: &R) -> Option<T>
        requires { self.old.seen.takes ≡ true }
        ensures { MatchOption result ((self.new ≡ self.old) × IsDrained self.old.seen)
            (λ x. Takes self.old x self.new) }
    {
        self.queue.pop_as::<Taking, R>(rt, &mut self.pass)
    }

    /// The number of items in the queue. The contract doesn't promise this.
    pub(crate) fn waiting<R: Wait>(&mut self, rt: &R) -> usize
        requires { self.old.seen.puts ≡ true }
        ensures { self.new ≡ self.old }
    {
        self.queue.len_as::<Putting, R>(rt, &mut self.pass)
    }

    /// Joins `other`, the putting end of the queue, into this taking end.
    pub(crate) fn join(&mut self, other: End<T>)
        requires queue { other.queue ≡ self.old.queue }
        requires takes { self.old.seen.takes ≡ true }
        requires puts { other.seen ≡ putting other.seen.put }
        ensures { Joins self.old other self.new }
    {
        self.queue.absorb::<Ends>(&mut self.pass, other.pass);
        self.queue.learn_as::<Taking>(&mut self.pass);
    }
}
