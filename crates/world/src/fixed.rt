// SPDX-License-Identifier: MIT OR Apache-2.0
ghost use Rattle.std.specs.Prelude.{◌≡◌, IfOk, IsSome, OnErr};
ghost use Rattle.dtap_codec.specs.Number.{count_of};
ghost use Rattle.nsd_filter.specs.AcceptedList.{accepted_list, not_of_the_flow};
ghost use Rattle.world_model.specs.Takes.{Takes};
ghost use Rattle.world.specs.Fixed.{fixed_beginning, after_upper, after_air_up};
ghost use Rattle.world.specs.Fixed.{after_air_ack, after_switch_takes, fixed_after};

use crate::Event;
use dtap_codec::{Modulus, Sapi};
use mobile_end::MobileEnd;
use nsd_filter::Reception;
use octets::{Memory, Octets};
use std::alloc::Global;
use std::collections::VecDeque;
use std::marker::Model;

/// The number of the mobile of the fixed world.
pub(crate) const FIXED_MOBILE: u8 = 1;

/// The connection of the switch in the fixed world.
pub(crate) const FIXED_CONNECTION: u32 = 1;

/// One mobile on one channel that never changes, and the switch. The frames that the station takes
/// from the mobile on SAPI 0 are put into the switch's outbox, and the switch takes them from
/// there. An `Err` is an allocation failure.
#[derive(Drop)]
pub(crate) struct FixedWorld {
    alloc: Global,
    mobile: MobileEnd,
    outbox: VecDeque<Octets>,
    switch: Reception,
}

impl Model for FixedWorld {
    ghost use Rattle.world.specs.FixedState.{FixedState};

    ghost Value = { FixedState };

    ghost view = { λ world. record {
      mobile = world.mobile;
      outbox = world.outbox.items;
      switch = world.switch;
    } };
}

impl FixedWorld {
    /// The fixed world before any event: the mobile is connected without an initial message.
    /// Allocates nothing.
    pub(crate) fn new(alloc: Global, modulus: Modulus) -> FixedWorld
        ensures { result ≡ fixed_beginning (count_of modulus) }
    {
        let mut mobile = MobileEnd::new(alloc, modulus);
        mobile.connect(None).unwrap();
        FixedWorld {
            alloc,
            mobile,
            outbox: VecDeque::new(alloc),
            switch: Reception::new(alloc, modulus),
        }
    }

    /// Lets the actor of the event act. Returns whether the actor took the event; if not, nothing
    /// changes.
    pub(crate) fn take(&mut self, event: &Event) -> Result<bool, Memory>
        ensures ok { IfOk result (λ taken.
            Takes self.old (fixed_after self.old event.now) taken self.new) }
        // An allocation can only fail for an event that the actor can take.
        ensures memory { OnErr result (IsSome (fixed_after self.old event.now)) }
    {
        match event {
            Event::Upper {
                mobile: FIXED_MOBILE,
                sapi,
                message,
            } => self.upper(*sapi, message),
            Event::AirUp {
                mobile: FIXED_MOBILE,
                sapi: Sapi::Zero,
            } => self.air_up(),
            Event::AirAck {
                mobile: FIXED_MOBILE,
                sapi: Sapi::Zero,
            } => Ok(self.air_ack()),
            Event::SwitchTakes => self.switch_takes(),
            _ => Ok(false),
        }
    }

    /// The mobile's upper layers send a message. Returns whether the mobile accepted the message;
    /// if not, nothing changes.
    fn upper(&mut self, sapi: Sapi, message: &Octets) -> Result<bool, Memory>
        ensures ok { IfOk result (λ taken.
            Takes self.old (after_upper self.old sapi message.now) taken self.new) }
        ensures memory { OnErr result (IsSome (after_upper self.old sapi message.now)) }
    {
        if self.mobile.refusal(sapi, message.as_slice()).is_some() {
            return Ok(false);
        }
        let copy = Octets::copy(self.alloc, message.as_slice())?;
        self.mobile.send(sapi, copy.into_vec()).map_err(|_| Memory)?;
        Ok(true)
    }

    /// The station takes the frame that the mobile has in the air, and puts it into the switch's
    /// outbox. Returns whether there was a frame to take; if not, nothing changes.
    fn air_up(&mut self) -> Result<bool, Memory>
        ensures ok { IfOk result (λ taken. Takes self.old (after_air_up self.old) taken self.new) }
        ensures memory { OnErr result (IsSome (after_air_up self.old)) }
    {
        match self.mobile.frame(Sapi::Zero) {
            Ok(Some(frame)) => {
                let frame = Octets::copy(self.alloc, frame)?;
                self.outbox.push_back(frame)?;
                Ok(true)
            }
            Ok(None) => Ok(false),
            Err(_) => Ok(false),
        }
    }

    /// The station acknowledges the frame that it took. Returns whether a frame was taken and not
    /// yet acknowledged; if not, nothing changes.
    fn air_ack(&mut self) -> bool
        ensures { Takes self.old (after_air_ack self.old) result self.new }
    {
        self.mobile.acked(Sapi::Zero)
    }

    /// The switch takes the first message of its outbox. Returns whether there was a message; if
    /// the outbox is empty, nothing changes.
    fn switch_takes(&mut self) -> Result<bool, Memory>
        ensures ok { IfOk result (λ taken.
            Takes self.old (after_switch_takes self.old) taken self.new) }
        ensures memory { OnErr result (IsSome (after_switch_takes self.old)) }
    {
        match self.outbox.pop_front() {
            Some(message) => {
                self.switch.take(message)?;
                Ok(true)
            }
            None => Ok(false),
        }
    }

    pub(crate) fn sent(&self) -> &[Octets]
        ensures { result.now ≡ self.now.mobile.sent }
    {
        self.mobile.sent()
    }

    pub(crate) fn taken(&self) -> &[Octets]
        ensures { result.now ≡ self.now.switch.taken }
    {
        self.switch.taken()
    }

    pub(crate) fn accepted(&self) -> &[Octets]
        ensures { result.now ≡ accepted_list self.now.switch.modulus self.now.switch.taken }
    {
        self.switch.accepted()
    }

    pub(crate) fn unnumbered(&self) -> &[Octets]
        ensures { result.now ≡ not_of_the_flow self.now.switch.taken }
    {
        self.switch.unnumbered()
    }
}
