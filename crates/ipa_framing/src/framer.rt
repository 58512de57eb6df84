// SPDX-License-Identifier: MIT OR Apache-2.0
ghost use Rattle.std.specs.Prelude.{◌≡◌, ◌++◌, ℕ, List, length, option_map, true};
ghost use Rattle.octets.specs.Answer.{result_map};
ghost use Rattle.octets.specs.Element.{AreOctets};
ghost use Rattle.ipa_framing.specs.declared.frame.Frame.{Frame as FrameValue};
ghost use Rattle.ipa_framing.specs.Frame.{IsTooLong, Splits};
ghost use Rattle.ipa_framing.specs.Framer.{Call, Feeds, FramerState, Run, Takes, new_framer};
ghost use Rattle.ipa_framing.specs.Framer.{octets_of, frames_of};
ghost use Rattle.ipa_framing.specs.Front.{FrontIs, front_of};

use crate::frame::HEADER_LENGTH;
use crate::{Frame, FrameFault, MAX_BODY};
use bytes::BytesMut;
use octets::{Memory, Octets};
use std::alloc::Global;
use std::marker::Model;

/// Splits the octets of a link into frames, however the octets were cut into pieces.
///
/// A body of more than `MAX_BODY` octets ends the stream: once `next` has read the length of such a
/// body, every call of `feed` and `next` returns `TooLong`.
#[derive(Drop)]
pub struct Framer {
    alloc: Global,
    buffer: BytesMut,
    failed: bool,
}

impl Model for Framer {
    ghost use Rattle.ipa_framing.specs.Framer.{FramerState};

    ghost Value = { FramerState };

    ghost view = { λ framer. record { octets = framer.buffer.items; failed = framer.failed } };
}

/// A frame at the front of octets, and the octets after it.
#[derive(Clone, Copy)]
struct FrontFrame<'a> {
    stream: u8,
    body: &'a [u8],
    rest: &'a [u8],
}

/// The frame at the front of `octets`. `Err(TooLong)` if its length octets give more than
/// `MAX_BODY`; `Ok(None)` if the frame isn't complete.
fn front(octets: &[u8]) -> Result<Option<FrontFrame<'_>>, FrameFault>
    ensures found { result_map (option_map (λ f. (f.stream, f.body.now, f.rest.now))) result ≡
        front_of octets.now }
    ensures is { FrontIs octets.now
        (result_map (option_map (λ f. (f.stream, f.body.now, f.rest.now))) result) }
{
    let [high, low, behind @ ..] = octets else {
        return Ok(None);
    };
    let size = usize::from(u16::from_be_bytes([*high, *low]));
    if size > MAX_BODY {
        return Err(FrameFault::TooLong);
    }
    let [stream, behind @ ..] = behind else {
        return Ok(None);
    };
    if behind.len() < size {
        return Ok(None);
    }
    Ok(Some(FrontFrame {
        stream: *stream,
        body: &behind[..size],
        rest: &behind[size..],
    }))
}

impl Framer {
    /// A framer that holds no octets.
    pub fn new(alloc: Global) -> Framer
        ensures { result ≡ new_framer }
    {
        Framer {
            alloc,
            buffer: BytesMut::new(alloc),
            failed: false,
        }
    }

    /// Appends `piece`, the next octets of the link. `Err(TooLong)` if `next` has returned
    /// `TooLong` before; otherwise `Err(Memory)` if the allocation fails. On `Err` nothing changes.
    pub fn feed(&mut self, piece: &[u8]) -> Result<(), FrameFault>
        ensures { Feeds self.old piece.now result self.new }
    {
        if self.failed {
            return Err(FrameFault::TooLong);
        }
        self.buffer.extend_from_slice(piece).map_err(Memory::from)?;
        Ok(())
    }

    /// Takes the next frame; `Ok(None)` if that frame isn't complete. `Err(TooLong)` if the frame's
    /// length octets give more than `MAX_BODY`; every later call then returns `TooLong`.
    /// `Err(Memory)` if the allocation fails; nothing is taken then.
    pub fn next(&mut self) -> Result<Option<Frame>, FrameFault>
        ensures { Takes self.old result self.new }
    {
        let (stream, body) = match front(self.buffer.as_slice()) {
            Ok(Some(frame)) => (frame.stream, Octets::copy(self.alloc, frame.body)?),
            Ok(None) => return Ok(None),
            Err(fault) => {
                self.failed = true;
                return Err(fault);
            }
        };
        self.buffer.advance(HEADER_LENGTH + body.len());
        Ok(Some(Frame { stream, body }))
    }

    /// The number of held octets after the last whole frame. If there are any, they begin a frame
    /// that isn't complete or is too long.
    pub fn rest(&self) -> usize
        ensures { (frames : List FrameValue) (rest : List ℕ) → Splits self.now.octets frames rest →
            result ≡ length rest }
    {
        let mut octets = self.buffer.as_slice();
        loop {
            match front(octets) {
                Ok(Some(frame)) => octets = frame.rest,
                Ok(None) => return octets.len(),
                Err(_) => return octets.len(),
            }
        }
    }
}

/// Law: the octets of a stream split into frames and a rest in just one way. However the octets
/// that `feed` accepted were cut into pieces, they split into the frames that `next` returned, the
/// frames that the framer still holds, and the rest that the framer holds. If `next` has refused a
/// frame as too long, the octets that the framer holds begin with the length of a frame that is too
/// long.
pub fn stream_is_its_frames()
    ensures split { (stream : List ℕ) → AreOctets stream →
        (frames : List FrameValue) × (rest : List ℕ) × Splits stream frames rest }
    ensures only { (stream : List ℕ) (frames : List FrameValue) (rest : List ℕ)
        (others : List FrameValue) (other : List ℕ) →
        Splits stream frames rest → Splits stream others other →
        (frames ≡ others) × (rest ≡ other) }
    ensures calls { (calls : List Call) (framer : FramerState) (frames : List FrameValue)
        (rest : List ℕ) →
        Run new_framer calls framer → Splits framer.octets frames rest →
        Splits (octets_of calls) (frames_of calls ++ frames) rest }
    ensures refused { (calls : List Call) (framer : FramerState) →
        Run new_framer calls framer → framer.failed ≡ true → IsTooLong framer.octets }
{}
