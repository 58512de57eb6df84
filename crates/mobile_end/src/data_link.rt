// SPDX-License-Identifier: MIT OR Apache-2.0
ghost use Rattle.std.specs.Prelude.{◌≡◌, ◌≤◌, [], option_map, OnOk, OnErr};
ghost use Rattle.std.specs.VecDeque.{deque_len, deque_capacity};
ghost use Rattle.std.specs.Borrow.{sem};
ghost use Rattle.link_model.specs.declared.air_link.Air.TheVariants.{Empty};
ghost use Rattle.link_model.specs.AirLink.{is_reached};
ghost use Rattle.mobile_end.specs.Control.{is_control, without_control};
ghost use Rattle.mobile_end.specs.DataLink.{waits, after_load, lent_message};
ghost use Rattle.mobile_end.specs.DataLink.{after_acknowledgement, after_resume, after_repeat};
ghost use Rattle.mobile_end.specs.RestsLent.{RestsLent};

use dtap_codec::{RADIO_RESOURCE, pd_of};
use link_model::AirLink;
use octets::{Memory, Octets};
use std::alloc::Global;
use std::collections::VecDeque;
use std::marker::Model;

/// The data link of one SAPI (TS 44.006): the message in the air, and the messages that wait after
/// it.
#[derive(Drop)]
pub(crate) struct DataLink {
    waiting: VecDeque<Octets>,
    air: AirLink,
}

impl Model for DataLink {
    ghost use Rattle.mobile_end.specs.DataLinkState.{DataLinkState};

    ghost Value = { DataLinkState };

    ghost view = { λ link. record { waiting = link.waiting.items; air = link.air } };
}

impl DataLink {
    /// A link with no message.
    pub(crate) fn new(alloc: Global) -> DataLink
        ensures { result ≡ record { waiting = []; air = Empty } }
    {
        DataLink {
            waiting: VecDeque::new(alloc),
            air: AirLink::new(),
        }
    }

    /// Appends a message to the waiting messages. Returns `Err` on allocation failure; nothing
    /// changes then.
    pub(crate) fn push(&mut self, message: Octets) -> Result<(), Memory>
        ensures ok { OnOk result (self.new ≡ waits self.old message) }
        ensures err { OnErr result (self.new ≡ self.old) }
    {
        self.waiting.push_back(message)?;
        Ok(())
    }

    /// Lends the message in the air to the station, which thereby takes the message. If the air is
    /// empty, first moves the first waiting message into the air. Returns `None` if there is no
    /// message, or if the station took the message in the air already.
    pub(crate) fn lend(&mut self) -> Option<&[u8]>
        ensures* after { sem 𝓛 (RestsLent self.entry) }
        ensures message { option_map (λ message. message.now) result ≡ lent_message self.old }
    {
        self.load();
        self.air.reach()
    }

    /// Moves the first waiting message into the air, if the air is empty.
    fn load(&mut self)
        ensures { self.new ≡ after_load self.old }
    {
        if self.air.is_empty() {
            if let Some(message) = self.waiting.pop_front() {
                self.air.give(message.into_vec()).unwrap();
            }
        }
    }

    /// Empties the air, since the station acknowledges the message that it took. Returns whether
    /// the station had taken the message in the air; if not, nothing changes.
    pub(crate) fn ack(&mut self) -> bool
        ensures acknowledged { result ≡ is_reached self.old.air }
        ensures after { self.new ≡ after_acknowledgement self.old }
    {
        self.air.ack()
    }

    /// Takes the link to another channel, with `control` in the air. The messages not acknowledged
    /// yet wait after `control`, in order; control messages of earlier channels are dropped.
    /// Returns `Err` on allocation failure; nothing changes then.
    pub(crate) fn resume(&mut self, control: Vec<u8>) -> Result<(), Memory>
        ensures ok { OnOk result (self.new ≡ after_resume self.old control.items) }
        ensures err { OnErr result (self.new ≡ self.old) }
    {
        self.waiting.reserve(1)?;
        drop_control(&mut self.waiting);
        if let Some(message) = self.air.cut() {
            if !is_control(&message) {
                self.waiting.push_front_reserved(Octets::new(message));
            }
        }
        self.air.give(control).unwrap();
        Ok(())
    }

    /// Takes the link to another channel without a control message. If a message is in the air, the
    /// station can take that message there, even if a station took it before.
    pub(crate) fn repeat(&mut self)
        ensures { self.new ≡ after_repeat self.old }
    {
        if let Some(message) = self.air.cut() {
            self.air.give(message).unwrap();
        }
    }
}

/// Removes the control messages from the waiting messages.
fn drop_control(waiting: &mut VecDeque<Octets>)
    ensures items { waiting.new.items ≡ without_control waiting.old.items }
    ensures length { deque_len waiting.new ≤ deque_len waiting.old }
    ensures capacity { deque_capacity waiting.new ≡ deque_capacity waiting.old }
{
    waiting.retain(|message| !is_control(message.as_slice()));
}

/// Whether a message is a control message, that is, of radio resource management.
pub(crate) fn is_control(message: &[u8]) -> bool
    ensures { result ≡ is_control message.now }
{
    pd_of(message) == Some(RADIO_RESOURCE)
}
