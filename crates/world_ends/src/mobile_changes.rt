// SPDX-License-Identifier: MIT OR Apache-2.0
ghost use Rattle.std.specs.Prelude.{◌≡◌, IfOk, OnOk, None, Ok, true};
ghost use Rattle.dtap_codec.specs.RrText.{rr_text};
ghost use Rattle.world_model.specs.declared.seat.Seat.TheVariants.{On};
ghost use Rattle.world_model.specs.Mobiles.{complete as complete_of, controlled};
ghost use Rattle.world_model.specs.Mobiles.{failure as failure_of, hearing, remembering};
ghost use Rattle.world_ends.specs.Mobiles.{arriving, assigned_to, is_moving, leaving};

use crate::mobile_station::MobileStation;
use conn_messages::Change;
use conn_messages::causes::NORMAL_EVENT;
use controller_parts::is_dtap;
use dtap_codec::{RrCause, RrFault, RrMessage};
use octets::{Memory, Octets};
use std::alloc::Global;
use world_model::{AirMessage, Command, Seat, TIMER_EXPIRED, Tenure};

/// The messages that the mobile takes from the air, and its changes of channel.
impl MobileStation {
    /// Takes a message from the air. The mobile keeps DTAP as received and remembers a command of
    /// the controller; after a CHANNEL RELEASE it is `Gone`. Any other message is ignored.
    pub(crate) fn hear(&mut self, alloc: Global, heard: AirMessage) -> Result<(), Memory>
        ensures after { OnOk result (self.new ≡ hearing self.old heard) }
        ensures number { self.new.number ≡ self.old.number }
    {
        if is_dtap(heard.message.as_slice()) {
            self.received.push(heard.message)?;
            return Ok(());
        }
        match RrMessage::read(alloc, heard.message.as_slice()) {
            Ok(message) => {
                self.obey(&message, heard.target);
                Ok(())
            }
            Err(RrFault::Memory) => Err(Memory),
            Err(_) => Ok(()),
        }
    }

    fn obey(&mut self, message: &RrMessage, target: Option<Tenure>)
        ensures after { self.new ≡ controlled self.old target (Ok message.now) }
        ensures number { self.new.number ≡ self.old.number }
    {
        match (message, target) {
            (RrMessage::ChannelRelease { .. }, _) => self.seat = Seat::Gone,
            (RrMessage::AssignmentCommand { .. }, Some(target)) => {
                self.remember(Change::Assignment, target);
            }
            (RrMessage::HandoverCommand { .. }, Some(target)) => {
                self.remember(Change::Handover, target);
            }
            _ => {}
        }
    }

    fn remember(&mut self, change: Change, target: Tenure)
        ensures after { self.new ≡ remembering self.old change target self.old.seat }
        ensures number { self.new.number ≡ self.old.number }
    {
        if let Seat::On { tenure, .. } = self.seat {
            self.seat = Seat::On {
                tenure,
                command: Some(Command { change, target }),
            };
        }
    }

    /// The mobile leaves its channel, `from`, on this command.
    pub(crate) fn leave(&mut self, from: Tenure, command: Command)
        ensures after { self.new ≡ leaving from command self.old }
        ensures number { self.new.number ≡ self.old.number }
    {
        self.end.leave();
        self.seat = Seat::Moving { from, command };
        self.opens = false;
    }

    /// The mobile arrives on the channel of `tenure` after a change and sends COMPLETE first.
    /// Assumes: the mobile is moving.
    pub(crate) fn arrive(
        &mut self,
        alloc: Global,
        tenure: Tenure,
        change: Change,
    ) -> Result<(), Memory>
        requires { is_moving self.old.seat ≡ true }
        ensures after { OnOk result (self.new ≡ arriving tenure (complete_of change) self.old) }
        ensures number { self.new.number ≡ self.old.number }
    {
        let complete = complete(alloc, change)?;
        match self.end.arrive(complete.into_vec()) {
            Ok(()) => {
                self.seat = seat_on(tenure);
                Ok(())
            }
            Err(_) => Err(Memory),
        }
    }

    /// The mobile returns to the channel of `tenure`, which it left, and sends FAILURE first.
    /// Assumes: the mobile is moving.
    pub(crate) fn give_up(
        &mut self,
        alloc: Global,
        tenure: Tenure,
        change: Change,
    ) -> Result<(), Memory>
        requires { is_moving self.old.seat ≡ true }
        ensures after { OnOk result (self.new ≡ arriving tenure (failure_of change) self.old) }
        ensures number { self.new.number ≡ self.old.number }
    {
        let failure = failure(alloc, change)?;
        match self.end.give_up(failure.into_vec()) {
            Ok(()) => {
                self.seat = seat_on(tenure);
                Ok(())
            }
            Err(_) => Err(Memory),
        }
    }

    /// Puts the mobile on the channel of `tenure`, which was assigned to it at its request.
    pub(crate) fn assign(&mut self, tenure: Tenure)
        ensures after { self.new ≡ assigned_to tenure self.old }
        ensures number { self.new.number ≡ self.old.number }
    {
        self.seat = seat_on(tenure);
    }
}

// The seat on the channel of this tenure, without a command.
fn seat_on(tenure: Tenure) -> Seat
    ensures { result ≡ On tenure None }
{
    Seat::On {
        tenure,
        command: None,
    }
}

// The COMPLETE of a change.
fn complete(alloc: Global, change: Change) -> Result<Octets, Memory>
    ensures { IfOk result (λ text. text ≡ complete_of change) }
{
    match change {
        Change::Assignment => text(
            alloc,
            &RrMessage::AssignmentComplete {
                cause: RrCause(NORMAL_EVENT),
            },
        ),
        Change::Handover => text(
            alloc,
            &RrMessage::HandoverComplete {
                cause: RrCause(NORMAL_EVENT),
            },
        ),
    }
}

// The FAILURE of a change.
fn failure(alloc: Global, change: Change) -> Result<Octets, Memory>
    ensures { IfOk result (λ text. text ≡ failure_of change) }
{
    match change {
        Change::Assignment => text(
            alloc,
            &RrMessage::AssignmentFailure {
                cause: RrCause(TIMER_EXPIRED),
            },
        ),
        Change::Handover => text(
            alloc,
            &RrMessage::HandoverFailure {
                cause: RrCause(TIMER_EXPIRED),
            },
        ),
    }
}

fn text(alloc: Global, message: &RrMessage) -> Result<Octets, Memory>
    ensures { IfOk result (λ text. text ≡ rr_text message.now) }
{
    let mut text = Vec::new(alloc);
    message.write(alloc, &mut text)?;
    Ok(Octets::new(text))
}
