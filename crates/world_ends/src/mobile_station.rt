// SPDX-License-Identifier: MIT OR Apache-2.0
ghost use Rattle.std.specs.Prelude.{◌≡◌, IsSome, IfOk, OnOk, OnErr, true, unwrap_or};
ghost use Rattle.dtap_codec.specs.Number.{count_of};
ghost use Rattle.mobile_end.specs.Lawful.{is_initial};
ghost use Rattle.rsl_codec.specs.Rsl.{IsL3};
ghost use Rattle.world_model.specs.Mobiles.{connected, may_send};
ghost use Rattle.world_model.specs.Stations.{is_on, is_same};
ghost use Rattle.world_model.specs.Takes.{Takes};
ghost use Rattle.world_ends.specs.Mobiles.{acknowledging, after_opening, frame_of, sending, taking};

use dtap_codec::{Modulus, Sapi};
use mobile_end::MobileEnd;
use octets::{Memory, Octets};
use std::alloc::Global;
use std::marker::Model;
use world_model::{Seat, Tenure};

/// A mobile: its end of the radio link, its seat, and the messages that it received. If the mobile
/// is moving, its end is between two channels. The messages of its data links have 1 to 251 octets.
#[derive(Drop)]
pub struct MobileStation {
    pub(crate) number: u8,
    pub(crate) end: MobileEnd,
    /// Whether the mobile accepts the data link of SAPI 3.
    pub(crate) accepts_sapi_three: bool,
    pub(crate) seat: Seat,
    /// Whether the mobile's next frame of SAPI 0 is the initial message.
    pub(crate) opens: bool,
    pub(crate) received: Vec<Octets>,
}

impl Model for MobileStation {
    ghost use Rattle.world_model.specs.World.{Mobile};
    ghost use Rattle.world_ends.specs.Placed.{IsFit};

    ghost Value = { Mobile };

    ghost view = { λ m. record {
      number = m.number;
      end = m.end;
      accepts_sapi_three = m.accepts_sapi_three;
      seat = m.seat;
      opens = m.opens;
      received = m.received.items;
    } };

    ghost invariant = { λ m. IsFit m.seat m.end };
}

impl MobileStation {
    /// A mobile that asked for a channel and whose first message is `initial`. `Memory` on
    /// allocation failure. Assumes: `initial` is of mobility management or of radio resource
    /// management (`is_initial`).
    pub(crate) fn connected(
        alloc: Global,
        modulus: Modulus,
        number: u8,
        initial: &[u8],
        accepts_sapi_three: bool,
    ) -> Result<MobileStation, Memory>
        requires { is_initial initial.now ≡ true }
        ensures { IfOk result (λ m.
            m ≡ connected (count_of modulus) number initial.now accepts_sapi_three) }
    {
        let initial = Octets::copy(alloc, initial)?;
        let mut end = MobileEnd::new(alloc, modulus);
        match end.connect(Some(initial.into_vec())) {
            Ok(()) => Ok(MobileStation {
                number,
                end,
                accepts_sapi_three,
                seat: Seat::Asking,
                opens: true,
                received: Vec::new(alloc),
            }),
            Err(_) => Err(Memory),
        }
    }

    pub fn number(&self) -> u8
        ensures { result ≡ self.now.number }
    {
        self.number
    }

    /// The seat of the mobile.
    pub fn seat(&self) -> Seat
        ensures { result ≡ self.now.seat }
    {
        self.seat
    }

    /// Whether the mobile is on the channel of this tenure, in this tenure.
    pub(crate) fn is_on(&self, tenure: &Tenure) -> bool
        ensures { result ≡ is_on tenure.now self.now.seat }
    {
        match self.seat {
            Seat::On { tenure: other, .. } => is_same(tenure, &other),
            _ => false,
        }
    }

    /// Whether the mobile's next frame of SAPI 0 is the initial message.
    pub fn opens(&self) -> bool
        ensures { result ≡ self.now.opens }
    {
        self.opens
    }

    /// Whether the mobile accepts the data link of SAPI 3.
    pub fn accepts_sapi_three(&self) -> bool
        ensures { result ≡ self.now.accepts_sapi_three }
    {
        self.accepts_sapi_three
    }

    /// The messages of the flow that the mobile's upper layers sent, in order, without numbers.
    pub fn sent(&self) -> &[Octets]
        ensures { result.now ≡ self.now.end.sent }
    {
        self.end.sent()
    }

    /// The messages that the mobile received, in order.
    pub fn received(&self) -> &[Octets]
        ensures { result.now ≡ self.now.received }
    {
        self.received.as_slice()
    }

    /// The mobile's upper layers send a message. Returns `false`, and changes nothing, if the
    /// mobile is neither on a channel nor moving, or if its end refuses the message. `Memory` on
    /// allocation failure.
    pub(crate) fn send(&mut self, alloc: Global, sapi: Sapi, message: &[u8]) -> Result<bool, Memory>
        ensures ok { IfOk result (λ taken.
            Takes self.old (sending sapi message.now self.old) taken self.new) }
        ensures memory { OnErr result (IsSome (sending sapi message.now self.old)) }
        ensures number { self.new.number ≡ self.old.number }
    {
        if !self.may_send() || self.end.refusal(sapi, message).is_some() {
            return Ok(false);
        }
        let copy = Octets::copy(alloc, message)?;
        match self.end.send(sapi, copy.into_vec()) {
            Ok(()) => Ok(true),
            Err(_) => Err(Memory),
        }
    }

    fn may_send(&self) -> bool
        ensures { result ≡ may_send self.now.seat }
    {
        match self.seat {
            Seat::On { .. } => true,
            Seat::Moving { .. } => true,
            Seat::Asking => false,
            Seat::Gone => false,
        }
    }

    /// The station takes the frame that the mobile has in the air on `sapi`, which has 1 to 251
    /// octets. Returns `None`, and changes nothing, if the station can take no frame. `Memory` on
    /// allocation failure.
    pub(crate) fn frame(&mut self, alloc: Global, sapi: Sapi) -> Result<Option<Octets>, Memory>
        ensures frame { IfOk result (λ frame. frame ≡ frame_of sapi self.old) }
        ensures l3 { IfOk result IsL3 }
        ensures after { OnOk result (self.new ≡ unwrap_or (taking sapi self.old) self.old) }
        ensures memory { OnErr result (IsSome (frame_of sapi self.old)) }
        ensures number { self.new.number ≡ self.old.number }
    {
        let frame = match self.end.frame(sapi) {
            Ok(Some(frame)) => Octets::copy(alloc, frame)?,
            Ok(None) => return Ok(None),
            Err(_) => return Ok(None),
        };
        self.opened(sapi);
        Ok(Some(frame))
    }

    fn opened(&mut self, sapi: Sapi)
        ensures { self.new ≡ after_opening sapi self.old }
    {
        match sapi {
            Sapi::Zero => self.opens = false,
            Sapi::Three => {}
        }
    }

    /// The station acknowledges the frame that it took from the mobile on `sapi`. Returns `false`,
    /// and changes nothing, if the mobile is between two channels or no frame was taken that isn't
    /// acknowledged yet.
    pub(crate) fn acknowledge(&mut self, sapi: Sapi) -> bool
        ensures takes { Takes self.old (acknowledging sapi self.old) result self.new }
        ensures number { self.new.number ≡ self.old.number }
    {
        self.end.acked(sapi)
    }
}

fn is_same(one: &Tenure, other: &Tenure) -> bool
    ensures { result ≡ is_same one.now other.now }
{
    one.at.station == other.at.station
        && one.at.number == other.at.number
        && one.number == other.number
}
