// SPDX-License-Identifier: MIT OR Apache-2.0
ghost use Rattle.std.specs.Prelude.{◌≡◌, ◌≢◌, ◌≤◌, ◌++◌, ◌∷◌, []};
ghost use Rattle.std.specs.Prelude.{false, length};
ghost use Rattle.std.specs.Prelude.{IsSome, IfOk, IfSome, OnOk, OnErr, option_map, slice_get};
ghost use Rattle.std.specs.List.{AllByRecursion};
ghost use Rattle.dtap_codec.specs.Number.{count_of};
ghost use Rattle.ipa_framing.specs.declared.streams.TheConstants.{SCCP_STREAM};
ghost use Rattle.msc_end.specs.declared.fault.MscFault.TheVariants.{Memory as OutOfMemory};
ghost use Rattle.msc_end.specs.Switch.{connection_of, has_gap_on, replies};
ghost use Rattle.nsd_filter.specs.AcceptedList.{accepted_list, not_of_the_flow};
ghost use Rattle.octets.specs.declared.limits.TheConstants.{MESSAGE_LIMIT};
ghost use Rattle.world_model.specs.Lists.{behind_first, first_in};
ghost use Rattle.world_model.specs.SwitchSide.{sccp_in as message_in};
ghost use Rattle.world_model.specs.Takes.{Takes};
ghost use Rattle.world_ends.specs.Switch.{assigning, clearing, sending, took};
ghost use Rattle.world_ends.specs.SwitchWritten.{IsShort, IsWritten};

use crate::switch_frame::sccp_in;
use bssmap_codec::Sccp;
use dtap_codec::{Modulus, Sapi};
use ipa_framing::Frame;
use msc_end::{MscEnd, MscFault};
use octets::{Memory, Octets};
use std::alloc::Global;
use std::collections::VecDeque;
use std::marker::Model;

/// The switch of a world: its end of the interface, and the messages that it made and hasn't given
/// out yet, in order. Each of these messages can be written. An `Err` is an allocation failure,
/// after which nothing is known of the switch.
#[derive(Drop)]
pub struct Switch {
    alloc: Global,
    end: MscEnd,
    made: VecDeque<Sccp>,
}

impl Model for Switch {
    ghost use Rattle.std.specs.List.{AllByRecursion};
    ghost use Rattle.world_ends.specs.SwitchSideState.{SwitchSideState};
    ghost use Rattle.world_ends.specs.SwitchWritten.{IsWritten};

    ghost Value = { SwitchSideState };

    ghost view = { λ s. record { switch = s.end; made = s.made.items } };

    ghost invariant = { λ s. AllByRecursion IsWritten s.made.items };
}

impl Switch {
    /// A switch without connections. Allocates nothing.
    pub fn new(alloc: Global, modulus: Modulus) -> Switch
        ensures { result ≡
            record { switch = record { modulus = count_of modulus; connections = [] }; made = [] } }
    {
        Switch {
            alloc,
            end: MscEnd::new(alloc, modulus),
            made: VecDeque::new(alloc),
        }
    }

    /// Takes a frame and makes the replies to its message; no-op if the frame can't be read or is
    /// of another stream. An allocation can fail only for a frame of the SCCP stream.
    pub fn take(&mut self, frame: &Frame) -> Result<(), Memory>
        ensures ok { OnOk result (self.new ≡ took (message_in frame.now) self.old) }
        ensures memory { OnErr result (frame.now.stream ≡ SCCP_STREAM) }
    {
        let Some(message) = sccp_in(self.alloc, frame)? else {
            return Ok(());
        };
        self.on_message(&message)
    }

    fn on_message(&mut self, message: &Sccp) -> Result<(), Memory>
        requires { IsShort message.now }
        ensures { OnOk result (self.new ≡ took (Some message.now) self.old) }
    {
        let mut replies = Vec::new(self.alloc);
        self.end.on_message(message, &mut replies)?;
        self.make_all(replies)
    }

    /// Makes an assignment request on a connection. Returns whether the connection exists and is
    /// open; if not, nothing changes.
    pub fn assign(&mut self, connection: u32) -> Result<bool, Memory>
        ensures ok { IfOk result (λ taken.
            Takes self.old (assigning connection self.old) taken self.new) }
        ensures memory { OnErr result (IsSome (assigning connection self.old)) }
    {
        let mut forms = Vec::new(self.alloc);
        match self.end.assign(connection, &mut forms) {
            Ok(()) => {
                self.make_all(forms)?;
                Ok(true)
            }
            Err(fault) => not_sent(fault),
        }
    }

    /// Makes a CLEAR COMMAND on a connection. Returns whether the connection exists and is open; if
    /// not, nothing changes.
    pub fn clear(&mut self, connection: u32) -> Result<bool, Memory>
        ensures ok { IfOk result (λ taken.
            Takes self.old (clearing connection self.old) taken self.new) }
        ensures memory { OnErr result (IsSome (clearing connection self.old)) }
    {
        let mut forms = Vec::new(self.alloc);
        match self.end.clear(connection, &mut forms) {
            Ok(()) => {
                self.make_all(forms)?;
                Ok(true)
            }
            Err(fault) => not_sent(fault),
        }
    }

    /// Makes a data form 1 with a layer 3 message for the mobile of a connection. Returns whether
    /// the connection exists and is open; if not, nothing changes. Assumes: the message has 1 to
    /// 251 octets.
    pub fn send(&mut self, connection: u32, sapi: Sapi, message: &[u8]) -> Result<bool, Memory>
        requires some { 1 ≤ length message.now }
        requires few { length message.now ≤ MESSAGE_LIMIT }
        ensures ok { IfOk result (λ taken.
            Takes self.old (sending connection sapi message.now self.old) taken self.new) }
        ensures memory { OnErr result (IsSome (sending connection sapi message.now self.old)) }
    {
        let mut forms = Vec::new(self.alloc);
        match self.end.send_dtap(connection, sapi, message, &mut forms) {
            Ok(()) => {
                self.make_all(forms)?;
                Ok(true)
            }
            Err(fault) => not_sent(fault),
        }
    }

    // Appends these messages to those that the switch made.
    fn make_all(&mut self, messages: Vec<Sccp>) -> Result<(), Memory>
        requires { AllByRecursion IsWritten messages.items }
        ensures { OnOk result
            (self.new ≡ record self.old { made = self.old.made ++ messages.items }) }
    {
        for message in messages {
            self.make(message)?;
        }
        Ok(())
    }

    fn make(&mut self, message: Sccp) -> Result<(), Memory>
        requires { IsWritten message }
        ensures { OnOk result
            (self.new ≡ record self.old { made = self.old.made ++ message ∷ [] }) }
    {
        self.made.push_back(message)?;
        Ok(())
    }

    /// Gives out the oldest message that wasn't given out yet, which can be written; `None` if
    /// there is no such message.
    pub fn next(&mut self) -> Option<Sccp>
        ensures message { result ≡ first_in self.old.made }
        ensures written { IfSome result IsWritten }
        ensures after { self.new ≡ record self.old { made = behind_first self.old.made } }
    {
        self.made.pop_front()
    }

    /// Discards the messages that weren't given out yet, since the link of the switch broke.
    pub fn take_down(&mut self)
        ensures { self.new ≡ record self.old { made = [] } }
    {
        self.made.clear();
    }

    /// All messages that the switch took on a connection, in order; `None` if the switch has no
    /// such connection.
    pub fn taken(&self, connection: u32) -> Option<&[Octets]>
        ensures { option_map (λ v. v.now) result ≡
            option_map (λ c. c.reception.taken)
            (connection_of self.now.switch.connections connection) }
    {
        self.end.taken(connection)
    }

    /// The messages of the flow that the switch accepted on a connection, in order, with numbers
    /// cleared; `None` if the switch has no such connection.
    pub fn accepted(&self, connection: u32) -> Option<&[Octets]>
        ensures { option_map (λ v. v.now) result ≡
            option_map (λ c. accepted_list c.reception.modulus c.reception.taken)
            (connection_of self.now.switch.connections connection) }
    {
        self.end.accepted(connection)
    }

    /// The messages without numbers that the switch took on a connection, in order; `None` if the
    /// switch has no such connection.
    pub fn unnumbered(&self, connection: u32) -> Option<&[Octets]>
        ensures { option_map (λ v. v.now) result ≡
            option_map (λ c. not_of_the_flow c.reception.taken)
            (connection_of self.now.switch.connections connection) }
    {
        self.end.unnumbered(connection)
    }

    /// Whether a gap was found in the flow of a connection; `None` if the switch has no such
    /// connection.
    pub fn has_gap(&self, connection: u32) -> Option<bool>
        ensures { result ≡ has_gap_on self.now.switch connection }
    {
        self.end.has_gap(connection)
    }

    /// The number of connections of the switch, including those that ended.
    pub fn connection_count(&self) -> usize
        ensures { result ≡ length self.now.switch.connections }
    {
        self.end.connection_count()
    }

    /// How many messages the switch made and hasn't given out yet.
    pub fn made_count(&self) -> usize
        ensures { result ≡ length self.now.made }
    {
        self.made.len()
    }

    /// The message at `place`, counted from 0, among those not given out yet, which can be written;
    /// `None` if there is no such place.
    pub fn made_at(&self, place: usize) -> Option<&Sccp>
        ensures message { option_map (λ m. m.now) result ≡ slice_get self.now.made place }
        ensures written { IfSome (option_map (λ m. m.now) result) IsWritten }
    {
        self.made.get(place)
    }
}

// The result of a call that the switch's end refused: `Memory` on allocation failure, `false` if
// there is no such connection or it isn't open.
fn not_sent(fault: MscFault) -> Result<bool, Memory>
    ensures refused { IfOk result (λ taken. (taken ≡ false) × (fault ≢ OutOfMemory)) }
    ensures memory { OnErr result (fault ≡ OutOfMemory) }
{
    match fault {
        MscFault::Memory => Err(Memory),
        MscFault::NoConnection => Ok(false),
        MscFault::Closed => Ok(false),
    }
}
