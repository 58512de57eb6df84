// SPDX-License-Identifier: MIT OR Apache-2.0
ghost use Rattle.std.specs.Prelude.{◌≡◌, ◌+◌, ◌≤◌, ◌<◌, ◌^◌, ◌↔◌, []};
ghost use Rattle.std.specs.Prelude.{◌∷◌, ◌++◌, length, reverse as reversed, IsTrue, IfOk, OnOk};
ghost use Rattle.std.specs.Prelude.{OnErr, MatchOption, option_map, slice_get};
ghost use Rattle.std.specs.List.{AllByRecursion};
ghost use Rattle.conn_messages.specs.Out.{IsSound, IsWritable, out_of, outs_of};
ghost use Rattle.conn_messages.specs.OutputsState.{IsSendable};

use crate::framing::frame_of;
use crate::{Message, Messages, Out};
use octets::Memory;
use std::alloc::Global;
use std::marker::Model;

/// The frames that are to be sent, in order. The body of each frame has at most 2048 octets, so a
/// link can carry the frame. In contracts the value consists of `outs`, the list of the frames, and
/// `spare`, the number of frames that can be appended without allocation.
#[derive(Drop)]
pub struct Outputs {
    outs: Vec<Out>,
}

impl Model for Outputs {
    ghost use Rattle.std.specs.Prelude.{◌-◌, vec_capacity, vec_len};
    ghost use Rattle.std.specs.List.{AllByRecursion};
    ghost use Rattle.conn_messages.specs.OutputsState.{IsSendable, OutputsState};

    ghost Value = { OutputsState };

    ghost view = { λ o. record {
      outs = o.outs.items;
      spare = vec_capacity o.outs - vec_len o.outs;
    } };

    ghost invariant = { λ o. AllByRecursion IsSendable o.outs.items };
}

impl Outputs {
    /// An empty list without spare room. Allocates nothing; `alloc` is kept for later calls.
    pub fn new(alloc: Global) -> Outputs
        ensures { result ≡ record { outs = []; spare = 0 } }
    {
        Outputs {
            outs: Vec::new(alloc),
        }
    }

    /// The frames of `messages` of the connection with the number `number`, in order. `Err` only if
    /// an allocation fails. Assumes: `number` is below 2^24.
    pub fn made(alloc: Global, number: u32, messages: &Messages) -> Result<Outputs, Memory>
        requires { number < 2 ^ 24 }
        ensures made { IfOk result (λ made. made.outs ≡ outs_of number messages.now) }
        ensures sound { AllByRecursion IsSound messages.now }
    {
        let mut made = Outputs::new(alloc);
        for message in messages.as_slice() {
            let out = frame_of(alloc, number, message)?;
            made.push(out)?;
        }
        Ok(made)
    }

    /// Appends `out`. On `Err` (allocation failure) nothing changes. Assumes: the body of the frame
    /// has at most 2048 octets.
    pub fn push(&mut self, out: Out) -> Result<(), Memory>
        requires { IsSendable out }
        ensures ok { OnOk result (self.new.outs ≡ self.old.outs ++ out ∷ []) }
        ensures err { OnErr result (self.new ≡ self.old) }
    {
        self.outs.reserve(1)?;
        self.outs.push_reserved(out);
        Ok(())
    }

    /// Appends the frame of `message` of the connection with the number `number`. On `Err`
    /// (allocation failure) nothing changes. Assumes: `number` is below 2^24, and the message can
    /// be written.
    pub fn put(&mut self, alloc: Global, number: u32, message: &Message) -> Result<(), Memory>
        requires number { number < 2 ^ 24 }
        requires writable { IsWritable message.now }
        ensures ok { OnOk result
            (self.new.outs ≡ self.old.outs ++ out_of number message.now ∷ []) }
        ensures err { OnErr result (self.new ≡ self.old) }
    {
        let out = frame_of(alloc, number, message)?;
        self.push(out)
    }

    /// Appends the frames of all `messages` of the connection with the number `number`, in order.
    /// On `Err` (allocation failure) nothing changes. Assumes: `number` is below 2^24.
    pub fn put_all(&mut self, alloc: Global, number: u32, messages: &Messages) -> Result<(), Memory>
        requires { number < 2 ^ 24 }
        ensures ok { OnOk result (self.new.outs ≡ self.old.outs ++ outs_of number messages.now) }
        ensures sound { AllByRecursion IsSound messages.now }
        ensures err { OnErr result (self.new ≡ self.old) }
    {
        match messages.as_slice() {
            [message] => self.put(alloc, number, message),
            _ => self.put_list(alloc, number, messages),
        }
    }

    // Does the same as `put_all`, but makes the list of the new frames first. If `self` has no
    // capacity, that list becomes the list of `self`.
    fn put_list(&mut self, alloc: Global, number: u32, messages: &Messages) -> Result<(), Memory>
        requires { number < 2 ^ 24 }
        ensures ok { OnOk result (self.new.outs ≡ self.old.outs ++ outs_of number messages.now) }
        ensures err { OnErr result (self.new ≡ self.old) }
    {
        let made = Outputs::made(alloc, number, messages)?;
        if self.outs.capacity() == 0 {
            *self = made;
            return Ok(());
        }
        self.reserve(made.len())?;
        self.append(made);
        Ok(())
    }

    /// Makes room for at least `additional` more frames. On `Err` (allocation failure) nothing
    /// changes.
    pub fn reserve(&mut self, additional: usize) -> Result<(), Memory>
        ensures outs { self.new.outs ≡ self.old.outs }
        ensures ok { OnOk result (additional ≤ self.new.spare) }
        ensures grows { self.old.spare ≤ self.new.spare }
        ensures err { OnErr result (self.new ≡ self.old) }
    {
        self.outs.reserve(additional)?;
        Ok(())
    }

    /// Appends the frames of `other` without allocating. Assumes: `spare` is at least the number of
    /// these frames.
    pub fn append(&mut self, other: Outputs)
        requires { length other.outs ≤ self.old.spare }
        ensures outs { self.new.outs ≡ self.old.outs ++ other.outs }
        ensures spare { self.old.spare ≤ self.new.spare + length other.outs }
    {
        let Outputs { mut outs } = other;
        match self.outs.append(&mut outs) {
            Ok(()) => {}
            Err(_) => unreachable!(),
        }
    }

    /// Reverses the order of the frames. `pop` then takes the frames in their former order.
    pub fn reverse(&mut self)
        ensures { self.new ≡ record self.old { outs = reversed self.old.outs } }
    {
        self.outs.reverse();
    }

    /// Removes and returns the last frame; `None` if there is no frame. The capacity is kept.
    pub fn pop(&mut self) -> Option<Out>
        ensures { MatchOption result ((self.old.outs ≡ []) × (self.new.outs ≡ []))
            (λ out. self.old.outs ≡ self.new.outs ++ out ∷ []) }
    {
        self.outs.pop()
    }

    /// Drops all frames and keeps the capacity.
    pub fn clear(&mut self)
        ensures { self.new.outs ≡ [] }
    {
        self.outs.clear();
    }

    /// How many frames there are.
    pub fn len(&self) -> usize
        ensures { result ≡ length self.now.outs }
    {
        self.outs.len()
    }

    /// Whether there are no frames.
    pub fn is_empty(&self) -> bool
        ensures { IsTrue result ↔ (self.now.outs ≡ []) }
    {
        self.outs.is_empty()
    }

    /// The frame at `place`, from 0; `None` if there are at most `place` frames.
    pub fn get(&self, place: usize) -> Option<&Out>
        ensures { option_map (λ out. out.now) result ≡ slice_get self.now.outs place }
    {
        self.outs.get(place)
    }

    /// The frames, in order.
    pub fn as_slice(&self) -> &[Out]
        ensures outs { result.now ≡ self.now.outs }
        ensures sendable { AllByRecursion IsSendable result.now }
    {
        self.outs.as_slice()
    }

    /// Converts `self` into a vector of the frames, in order. Allocates nothing.
    pub fn into_vec(self) -> Vec<Out>
        ensures outs { result.items ≡ self.outs }
        ensures sendable { AllByRecursion IsSendable result.items }
    {
        let Outputs { outs } = self;
        outs
    }
}
