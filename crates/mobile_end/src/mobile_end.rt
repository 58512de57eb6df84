// SPDX-License-Identifier: MIT OR Apache-2.0
ghost use Rattle.std.specs.Prelude.{◌≡◌, true, None, OnOk, OnErr, IsOk, option_map};
ghost use Rattle.std.specs.Result.{result_map_both};
ghost use Rattle.std.specs.Borrow.{sem};
ghost use Rattle.octets.specs.Refusal.{RefusesBy};
ghost use Rattle.dtap_codec.specs.Message.{is_flow_message};
ghost use Rattle.dtap_codec.specs.Number.{count_of};
ghost use Rattle.mobile_end.specs.Mobile.{new_mobile, after_number, after_queue};
ghost use Rattle.mobile_end.specs.Mobile.{after_connect, refusal_of_connect};
ghost use Rattle.mobile_end.specs.Mobile.{frame_answer, after_acked, is_acknowledged};
ghost use Rattle.mobile_end.specs.Mobile.{after_leave, after_arrival, refusal_of_send};
ghost use Rattle.mobile_end.specs.Control.{is_control};
ghost use Rattle.mobile_end.specs.RestsFramed.{RestsFramed};

use crate::MobileFault;
use crate::data_link::DataLink;
use crate::lawful::{is_initial, is_sendable};
use dtap_codec::{Modulus, Sapi, is_flow, with_number};
use octets::{Memory, Octets};
use std::alloc::Global;
use std::marker::Model;

/// Whether the mobile is connected.
#[derive(Clone, Copy, PartialEq, Eq)]
pub enum Stage {
    New,
    Connected,
}

/// Whether the mobile is on a channel.
#[derive(Clone, Copy, PartialEq, Eq)]
pub enum Place {
    /// On a channel; before the first call of `leave`, on the mobile's first channel.
    OnChannel,
    /// Between two channels.
    Moving,
}

/// A mobile. The number of a message of the flow is the place of the message in the sent list,
/// modulo `modulus` (TS 24.007 clause 11.2.3.2.3). The mobile puts one message at a time into the
/// air per SAPI (TS 44.006). After a change of channel, it sends the unacknowledged message again
/// with the same number, and no acknowledged message.
#[derive(Drop)]
pub struct MobileEnd {
    alloc: Global,
    modulus: Modulus,
    stage: Stage,
    place: Place,
    sent: Vec<Octets>,
    /// V(SD), the number of the next message of the flow.
    send_sequence: u8,
    zero: DataLink,
    three: DataLink,
}

impl Model for MobileEnd {
    ghost use Rattle.std.specs.Prelude.{◌≡◌, ◌%◌, length};
    ghost use Rattle.dtap_codec.specs.Number.{count_of};
    ghost use Rattle.mobile_end.specs.MobileState.{MobileState};

    ghost Value = { MobileState };

    ghost view = { λ mobile. record {
      modulus = count_of mobile.modulus;
      stage = mobile.stage;
      place = mobile.place;
      sent = mobile.sent.items;
      zero = mobile.zero;
      three = mobile.three;
    } };

    ghost invariant = { λ mobile. mobile.send_sequence ≡
        length mobile.sent.items % count_of mobile.modulus };
}

impl MobileEnd {
    /// A mobile that isn't connected. Allocates nothing.
    pub fn new(alloc: Global, modulus: Modulus) -> MobileEnd
        ensures { result ≡ new_mobile (count_of modulus) }
    {
        MobileEnd {
            alloc,
            modulus,
            stage: Stage::New,
            place: Place::OnChannel,
            sent: Vec::new(alloc),
            send_sequence: 0,
            zero: DataLink::new(alloc),
            three: DataLink::new(alloc),
        }
    }

    /// Connects the mobile. The initial message, if there is one, is sent first; if it is of
    /// mobility management, it is the first message of the flow. Returns `BadMessage` if
    /// `is_initial` refuses the initial message, `Memory` on allocation failure. Without an initial
    /// message, returns `Ok`. On `Err`, nothing changes. Assumes: the stage is `New`.
    pub fn connect(&mut self, initial: Option<Vec<u8>>) -> Result<(), MobileFault>
        requires { self.old.stage ≡ Stage.New }
        ensures ok { OnOk result
            (self.new ≡ after_connect self.old (option_map (λ message. message.items) initial)) }
        ensures without_initial { initial ≡ None → IsOk result }
        ensures refused { RefusesBy MobileFault.Memory result
            (refusal_of_connect (option_map (λ message. message.items) initial)) }
        ensures err { OnErr result (self.new ≡ self.old) }
    {
        if let Some(message) = initial {
            if !is_initial(&message) {
                return Err(MobileFault::BadMessage);
            }
            self.queue(Sapi::Zero, message)?;
        }
        self.stage = Stage::Connected;
        Ok(())
    }

    /// Sends a message of the upper layers. The message waits until the air of its SAPI is free. On
    /// `Err`, nothing changes. If several of these faults occur, the first in this list is
    /// returned:
    ///
    /// - `NotConnected`: the mobile isn't connected.
    /// - `BadMessage`: the message hasn't 1 to 251 octets, or is of radio resource management.
    /// - `BadMessage`: the message is of the flow, and lacks an octet of its header or has a number
    ///   in it.
    /// - `BadMessage`: the message is on the wrong SAPI. Short messages belong on SAPI 3, all
    ///   others on SAPI 0.
    /// - `Memory`: an allocation failed.
    pub fn send(&mut self, sapi: Sapi, message: Vec<u8>) -> Result<(), MobileFault>
        ensures ok { OnOk result (self.new ≡ after_queue self.old sapi message.items) }
        ensures refused { RefusesBy MobileFault.Memory result
            (refusal_of_send self.old sapi message.items) }
        ensures err { OnErr result (self.new ≡ self.old) }
    {
        if let Some(fault) = self.refusal(sapi, &message) {
            return Err(fault);
        }
        self.queue(sapi, message)?;
        Ok(())
    }

    /// The fault with which `send` refuses this message, apart from `Memory`; `None` if `send` can
    /// fail only with `Memory`.
    pub fn refusal(&self, sapi: Sapi, message: &[u8]) -> Option<MobileFault>
        ensures { result ≡ refusal_of_send self.now sapi message.now }
    {
        if self.stage == Stage::New {
            return Some(MobileFault::NotConnected);
        }
        if !is_sendable(sapi, message) {
            return Some(MobileFault::BadMessage);
        }
        None
    }

    /// Queues a message on the data link of `sapi`; queues a message of the flow with its number on
    /// SAPI 0. Returns `Err` on allocation failure; nothing changes then.
    fn queue(&mut self, sapi: Sapi, message: Vec<u8>) -> Result<(), Memory>
        ensures ok { OnOk result (self.new ≡ after_queue self.old sapi message.items) }
        ensures err { OnErr result (self.new ≡ self.old) }
    {
        if is_flow(&message) {
            return self.number(message);
        }
        match sapi {
            Sapi::Zero => self.zero.push(Octets::new(message)),
            Sapi::Three => self.three.push(Octets::new(message)),
        }
    }

    /// Queues a message of the flow with its number on SAPI 0, and appends the message without the
    /// number to the sent list. Returns `Err` on allocation failure; nothing changes then.
    fn number(&mut self, message: Vec<u8>) -> Result<(), Memory>
        requires { is_flow_message message.items ≡ true }
        ensures ok { OnOk result (self.new ≡ after_number self.old message.items) }
        ensures err { OnErr result (self.new ≡ self.old) }
    {
        self.sent.reserve(1)?;
        let numbered = with_number(self.alloc, &message, self.send_sequence, self.modulus)?;
        self.zero.push(Octets::new(numbered))?;
        self.sent.push_reserved(Octets::new(message));
        self.send_sequence = (self.send_sequence + 1) % self.modulus.count();
        Ok(())
    }

    /// Lends the message in the air on this SAPI to the station, which thereby takes the message.
    /// If the air is empty, first moves the first waiting message into the air. Returns
    /// `NotConnected` before `connect`. Returns `None` between two channels, if there is no
    /// message, or if the station took the message in the air already. Allocates nothing.
    pub fn frame(&mut self, sapi: Sapi) -> Result<Option<&[u8]>, MobileFault>
        ensures* after { sem 𝓛 (RestsFramed self.entry sapi) }
        ensures frame { result_map_both (option_map (λ frame. frame.now)) (λ fault. fault) result ≡
            frame_answer self.old sapi }
    {
        if self.stage == Stage::New {
            return Err(MobileFault::NotConnected);
        }
        if self.place == Place::Moving {
            return Ok(None);
        }
        match sapi {
            Sapi::Zero => Ok(self.zero.lend()),
            Sapi::Three => Ok(self.three.lend()),
        }
    }

    /// Empties the air on this SAPI, since the station acknowledges the frame that it took. Returns
    /// whether the station had taken the frame in the air; between two channels, returns `false`.
    /// On `false`, nothing changes.
    pub fn acked(&mut self, sapi: Sapi) -> bool
        ensures acknowledged { result ≡ is_acknowledged self.old sapi }
        ensures after { self.new ≡ after_acked self.old sapi }
    {
        if self.place == Place::Moving {
            return false;
        }
        match sapi {
            Sapi::Zero => self.zero.ack(),
            Sapi::Three => self.three.ack(),
        }
    }

    /// Leaves the channel on command. The data links are suspended (TS 44.006 clause 5.4.3): no
    /// frame is taken or acknowledged until the mobile is on a channel again.
    pub fn leave(&mut self)
        ensures { self.new ≡ after_leave self.old }
    {
        self.place = Place::Moving;
    }

    /// Arrives on another channel: resumes the data links, and sends `complete` first on SAPI 0 (TS
    /// 44.006 clause 5.4.3). The unacknowledged message follows with its number unchanged. Messages
    /// of radio resource management that belong to earlier channels are dropped. Returns `Memory`
    /// on allocation failure; nothing changes then. Assumes: the mobile is between two channels,
    /// and `complete` is of radio resource management.
    pub fn arrive(&mut self, complete: Vec<u8>) -> Result<(), MobileFault>
        requires moving { self.old.place ≡ Place.Moving }
        requires control { is_control complete.items ≡ true }
        ensures ok { OnOk result (self.new ≡ after_arrival self.old complete.items) }
        ensures refused { RefusesBy MobileFault.Memory result None }
        ensures err { OnErr result (self.new ≡ self.old) }
    {
        self.resume(complete)
    }

    /// Gives up the other channel and returns to the channel that the mobile left. Effect, fault
    /// and assumptions are those of `arrive`, with `failure` in place of `complete` (TS 44.006
    /// clause 5.4.3).
    pub fn give_up(&mut self, failure: Vec<u8>) -> Result<(), MobileFault>
        requires moving { self.old.place ≡ Place.Moving }
        requires control { is_control failure.items ≡ true }
        ensures ok { OnOk result (self.new ≡ after_arrival self.old failure.items) }
        ensures refused { RefusesBy MobileFault.Memory result None }
        ensures err { OnErr result (self.new ≡ self.old) }
    {
        self.resume(failure)
    }

    /// Resumes the data links on a channel, and sends `control` first there on SAPI 0. Returns
    /// `Memory` on allocation failure; nothing changes then.
    fn resume(&mut self, control: Vec<u8>) -> Result<(), MobileFault>
        ensures ok { OnOk result (self.new ≡ after_arrival self.old control.items) }
        ensures refused { RefusesBy MobileFault.Memory result None }
        ensures err { OnErr result (self.new ≡ self.old) }
    {
        self.zero.resume(control)?;
        self.three.repeat();
        self.place = Place::OnChannel;
        Ok(())
    }

    /// The sent list: the messages of the flow that the upper layers sent, in order, without
    /// numbers.
    pub fn sent(&self) -> &[Octets]
        ensures { result.now ≡ self.now.sent }
    {
        self.sent.as_slice()
    }
}
