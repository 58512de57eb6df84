// SPDX-License-Identifier: MIT OR Apache-2.0
ghost use Rattle.std.specs.Prelude.{◌≡◌, ◌≤◌, ◌+◌, ◌-◌, ◌∷◌, []};
ghost use Rattle.std.specs.Prelude.{◌++◌, length};
ghost use Rattle.std.specs.Prelude.{Some, None, OnOk, OnErr, IfOk, MatchResult};
ghost use Rattle.std.specs.Prelude.{option_map, option_to_list};
ghost use Rattle.octets.specs.Refusal.{RefusesBy};
ghost use Rattle.octets.specs.declared.limits.TheConstants.{MESSAGE_LIMIT};
ghost use Rattle.dtap_codec.specs.Number.{count_of};
ghost use Rattle.msc_end.specs.declared.connection.Stage.TheVariants.{Clearing};
ghost use Rattle.msc_end.specs.declared.fault.MscFault.TheVariants.{Memory as OutOfMemory};
ghost use Rattle.msc_end.specs.Refusal.{send_fault, MayWantMemory};
ghost use Rattle.msc_end.specs.Switch.{after, after_clear, assignment_request, clear_command};
ghost use Rattle.msc_end.specs.Switch.{replies, reply_count, connection_in, accepted_on, taken_on};
ghost use Rattle.msc_end.specs.Switch.{unnumbered_on, data_form as data_form_of, data_forms_on};
ghost use Rattle.msc_end.specs.Switch.{dlci_for, initial_message_of, initial_messages};
ghost use Rattle.msc_end.specs.Switch.{has_gap_on};

use crate::bssap_data::{data_form, read_data};
use crate::parameters::{
    CALL_CONTROL_CAUSE, CONNECTION_LIMIT, REFERENCE_BASE, SAPI_0_LINK, SAPI_3_LINK, SPEECH_CHANNEL,
};
use crate::{Connection, MscFault, Stage};
use bssmap_codec::{Bssap, Bssmap, Cause, ChannelType, Dlci, Reference, Sccp};
use dtap_codec::{Modulus, Sapi};
use nsd_filter::Reception;
use octets::{Memory, Octets};
use std::alloc::Global;
use std::marker::Model;

/// The switch end. The n-th connection request opens connection n, with the reference 800000
/// hexadecimal plus n. Requests are refused once there are `CONNECTION_LIMIT` connections.
#[derive(Drop)]
pub struct MscEnd {
    alloc: Global,
    modulus: Modulus,
    connections: Vec<Connection>,
}

impl Model for MscEnd {
    ghost use Rattle.dtap_codec.specs.Number.{count_of};
    ghost use Rattle.msc_end.specs.SwitchState.{SwitchState};

    ghost Value = { SwitchState };

    ghost view = { λ switch. record {
      modulus = count_of switch.modulus;
      connections = switch.connections.items;
    } };
}

impl MscEnd {
    /// A switch without connections. Allocates nothing.
    pub fn new(alloc: Global, modulus: Modulus) -> MscEnd
        ensures { result ≡ record { modulus = count_of modulus; connections = [] } }
    {
        MscEnd {
            alloc,
            modulus,
            connections: Vec::new(alloc),
        }
    }

    /// Takes a message from the base station controller, and appends the reply to `out` if there is
    /// one. Returns `Err` on allocation failure; nothing changes then.
    pub fn on_message(&mut self, message: &Sccp, out: &mut Vec<Sccp>) -> Result<(), Memory>
        ensures state { OnOk result (self.new ≡ after self.old message.now) }
        ensures replies { OnOk result (out.new.items ≡ out.old.items
            ++ replies self.old.connections message.now) }
        // A connection request has one reply. A CLEAR REQUEST or a CLEAR COMPLETE on a connection
        // that hasn't ended has one reply. Any other message has no reply.
        ensures sent { OnOk result (length out.new.items ≡ length out.old.items
            + reply_count self.old.connections message.now) }
        ensures unchanged { OnErr result (self.new ≡ self.old) }
        ensures unanswered { OnErr result (out.new.items ≡ out.old.items) }
        // An allocation can only fail for a connection request, or for readable data on a
        // connection that hasn't ended.
        ensures memory { OnErr result (MayWantMemory self.old.connections message.now) }
    {
        match message {
            Sccp::ConnectionRequest { source, data } => self.on_request(*source, data, out),
            Sccp::DataForm1 { destination, data } => {
                self.on_data(*destination, data.as_slice(), out)
            }
            _ => Ok(()),
        }
    }

    // Takes a connection request. Refuses the request if there are `CONNECTION_LIMIT` connections.
    fn on_request(
        &mut self,
        source: Reference,
        user: &Option<Octets>,
        out: &mut Vec<Sccp>,
    ) -> Result<(), Memory>
        ensures state { OnOk result
            (self.new ≡ after self.old (Sccp.ConnectionRequest source user.now)) }
        ensures replies { OnOk result (out.new.items ≡ out.old.items
            ++ replies self.old.connections (Sccp.ConnectionRequest source user.now)) }
        ensures sent { OnOk result (length out.new.items ≡ length out.old.items + 1) }
        ensures unchanged { OnErr result (self.new ≡ self.old) }
        ensures unanswered { OnErr result (out.new.items ≡ out.old.items) }
    {
        out.reserve(1)?;
        let count = self.connections.len();
        if count >= CONNECTION_LIMIT {
            out.push_reserved(Sccp::ConnectionRefused {
                destination: source,
            });
            return Ok(());
        }
        self.connections.reserve(1)?;
        let reception = first_taken(self.alloc, self.modulus, user)?;
        let number = Reference::new(REFERENCE_BASE + (count as u32 + 1));
        self.connections.push_reserved(Connection {
            peer: source,
            number,
            stage: Stage::Open,
            reception,
        });
        out.push_reserved(Sccp::ConnectionConfirm {
            destination: source,
            source: number,
        });
        Ok(())
    }

    // Takes data of a connection. Ignores data that can't be read, and data of an unknown
    // connection or of a connection that has ended.
    fn on_data(
        &mut self,
        destination: Reference,
        user: &[u8],
        out: &mut Vec<Sccp>,
    ) -> Result<(), Memory>
        ensures state { OnOk result
            (self.new ≡ after self.old (Sccp.DataForm1 destination user.now)) }
        ensures replies { OnOk result (out.new.items ≡ out.old.items
            ++ replies self.old.connections (Sccp.DataForm1 destination user.now)) }
        ensures sent { OnOk result (length out.new.items ≡ length out.old.items
            + reply_count self.old.connections (Sccp.DataForm1 destination user.now)) }
        ensures unchanged { OnErr result (self.new ≡ self.old) }
        ensures unanswered { OnErr result (out.new.items ≡ out.old.items) }
        ensures memory { OnErr result
            (MayWantMemory self.old.connections (Sccp.DataForm1 destination user.now)) }
    {
        let number = destination.number().saturating_sub(REFERENCE_BASE) as usize;
        if number == 0 || number > self.connections.len() {
            return Ok(());
        }
        if self.connections[number - 1].has_ended() {
            return Ok(());
        }
        let Some(message) = read_data(self.alloc, user)? else {
            return Ok(());
        };
        out.reserve(1)?;
        let alloc = self.alloc;
        let connection = &mut self.connections[number - 1];
        let reply = connection.on_bssap(alloc, message)?;
        if let Some(reply) = reply {
            out.push_reserved(reply);
        }
        Ok(())
    }

    /// Sends a layer 3 message to the mobile of connection `conn`: appends a data form 1 with the
    /// message to `out`. Returns `NoConnection` if there is no such connection, else `Closed` if
    /// the connection isn't open, else `Memory` on allocation failure; on `Err`, nothing changes.
    /// Assumes: `message` has 1 to `MESSAGE_LIMIT` octets.
    pub fn send_dtap(
        &self,
        conn: u32,
        sapi: Sapi,
        message: &[u8],
        out: &mut Vec<Sccp>,
    ) -> Result<(), MscFault>
        requires some { 1 ≤ length message.now }
        requires few { length message.now ≤ MESSAGE_LIMIT }
        ensures ok { OnOk result (out.new.items ≡ out.old.items ++ data_forms_on
            (connection_in self.now conn) (Bssap.Transfer (dlci_for sapi) message.now)) }
        ensures sent { OnOk result (length out.new.items ≡ length out.old.items + 1) }
        ensures err { OnErr result (out.new.items ≡ out.old.items) }
        ensures refused { RefusesBy OutOfMemory result (send_fault (connection_in self.now conn)) }
    {
        let peer = self.open_peer(conn)?;
        let message = Bssap::Transfer {
            dlci: dlci(sapi),
            message: Octets::copy(self.alloc, message)?,
        };
        send(self.alloc, peer, &message, out)?;
        Ok(())
    }

    /// Sends ASSIGNMENT REQUEST for a speech channel on connection `conn`. Returns `NoConnection`
    /// if there is no such connection, else `Closed` if the connection isn't open, else `Memory` on
    /// allocation failure; on `Err`, nothing changes.
    pub fn assign(&self, conn: u32, out: &mut Vec<Sccp>) -> Result<(), MscFault>
        ensures ok { OnOk result (out.new.items ≡ out.old.items
            ++ data_forms_on (connection_in self.now conn) assignment_request) }
        ensures sent { OnOk result (length out.new.items ≡ length out.old.items + 1) }
        ensures err { OnErr result (out.new.items ≡ out.old.items) }
        ensures refused { RefusesBy OutOfMemory result (send_fault (connection_in self.now conn)) }
    {
        let peer = self.open_peer(conn)?;
        let channel_type = ChannelType(Octets::copy(self.alloc, &SPEECH_CHANNEL)?);
        let message = Bssap::Management(Bssmap::AssignmentRequest { channel_type });
        send(self.alloc, peer, &message, out)?;
        Ok(())
    }

    /// Sends CLEAR COMMAND with the cause call control on connection `conn`, and sets the stage of
    /// the connection to `Clearing`. Returns `NoConnection` if there is no such connection, else
    /// `Closed` if the connection isn't open, else `Memory` on allocation failure; on `Err`,
    /// nothing changes.
    pub fn clear(&mut self, conn: u32, out: &mut Vec<Sccp>) -> Result<(), MscFault>
        ensures ok { OnOk result (out.new.items ≡ out.old.items
            ++ data_forms_on (connection_in self.old conn) clear_command) }
        ensures sent { OnOk result (length out.new.items ≡ length out.old.items + 1) }
        ensures state { OnOk result (self.new ≡ after_clear self.old conn) }
        ensures err { OnErr result (out.new.items ≡ out.old.items) }
        ensures unchanged { OnErr result (self.new ≡ self.old) }
        ensures refused { RefusesBy OutOfMemory result (send_fault (connection_in self.old conn)) }
    {
        let peer = self.open_peer(conn)?;
        let cause = Cause::one(self.alloc, CALL_CONTROL_CAUSE)?;
        let message = Bssap::Management(Bssmap::ClearCommand { cause });
        send(self.alloc, peer, &message, out)?;
        self.begin_clear(conn);
        Ok(())
    }

    // Sets the stage of connection `conn` to `Clearing`. A no-op if there is no such connection.
    fn begin_clear(&mut self, conn: u32)
        ensures state { self.new ≡ after_clear self.old conn }
    {
        let number = conn as usize;
        if number == 0 || number > self.connections.len() {
            return;
        }
        let connection = &mut self.connections[number - 1];
        connection.stage = Stage::Clearing;
    }

    // The reference by which the controller knows connection `conn`. `NoConnection` if there is no
    // such connection, `Closed` if the connection isn't open.
    fn open_peer(&self, conn: u32) -> Result<Reference, MscFault>
        ensures peer { IfOk result (λ peer.
            option_map (λ c. c.peer) (connection_in self.now conn) ≡ Some peer) }
        ensures refused { MatchResult result
            (λ _. send_fault (connection_in self.now conn) ≡ None)
            (λ fault. send_fault (connection_in self.now conn) ≡ Some fault) }
    {
        match self.connection(conn) {
            None => Err(MscFault::NoConnection),
            Some(connection) => match connection.stage {
                Stage::Open => Ok(connection.peer),
                Stage::Clearing | Stage::Ended => Err(MscFault::Closed),
            },
        }
    }

    // The connection with this number, counted from 1; `None` if there is no such connection.
    fn connection(&self, conn: u32) -> Option<&Connection>
        ensures { option_map (λ c. c.now) result ≡ connection_in self.now conn }
    {
        if conn == 0 {
            return None;
        }
        self.connections.get(conn as usize - 1)
    }

    /// All messages of the mobile that were taken on a connection up to the CLEAR COMPLETE, in
    /// order. The initial message, if there was one, is the first. `None` if there is no such
    /// connection.
    pub fn taken(&self, conn: u32) -> Option<&[Octets]>
        ensures { option_map (λ v. v.now) result ≡ taken_on self.now conn }
    {
        match self.connection(conn) {
            Some(connection) => Some(connection.reception.taken()),
            None => None,
        }
    }

    /// The accepted list of a connection: the messages of the flow that were passed to the upper
    /// layers, in order, with their numbers cleared. `None` if there is no such connection.
    pub fn accepted(&self, conn: u32) -> Option<&[Octets]>
        ensures { option_map (λ v. v.now) result ≡ accepted_on self.now conn }
    {
        match self.connection(conn) {
            Some(connection) => Some(connection.reception.accepted()),
            None => None,
        }
    }

    /// The messages without a number that were taken on a connection, in order. `None` if there is
    /// no such connection.
    pub fn unnumbered(&self, conn: u32) -> Option<&[Octets]>
        ensures { option_map (λ v. v.now) result ≡ unnumbered_on self.now conn }
    {
        match self.connection(conn) {
            Some(connection) => Some(connection.reception.unnumbered()),
            None => None,
        }
    }

    /// Whether a gap was found in the numbers of the flow on a connection; `None` if there is no
    /// such connection.
    pub fn has_gap(&self, conn: u32) -> Option<bool>
        ensures { result ≡ has_gap_on self.now conn }
    {
        match self.connection(conn) {
            Some(connection) => Some(connection.reception.has_gap()),
            None => None,
        }
    }

    /// The number of connections, including those that ended.
    pub fn connection_count(&self) -> usize
        ensures { result ≡ length self.now.connections }
    {
        self.connections.len()
    }
}

// The reception of a new connection. The reception has taken the initial message in `user`, the
// data of the connection request, if there is one.
fn first_taken(alloc: Global, modulus: Modulus, user: &Option<Octets>) -> Result<Reception, Memory>
    ensures { IfOk result (λ reception.
        reception ≡ record { modulus = count_of modulus; taken = initial_messages user.now }) }
{
    match user {
        Some(data) => {
            let message = read_data(alloc, data.as_slice())?;
            started(alloc, modulus, initial_message(message))
        }
        None => Ok(Reception::new(alloc, modulus)),
    }
}

// The initial message that a COMPLETE LAYER 3 INFORMATION carries; `None` for any other message.
fn initial_message(message: Option<Bssap>) -> Option<Octets>
    ensures { option_to_list result ≡ initial_message_of message }
{
    match message {
        Some(Bssap::Management(message)) => layer3_of(message),
        Some(Bssap::Transfer { .. }) => None,
        None => None,
    }
}

fn layer3_of(message: Bssmap) -> Option<Octets>
    ensures { option_to_list result ≡ initial_message_of (Some (Bssap.Management message)) }
{
    match message {
        Bssmap::CompleteLayer3Information { layer3, .. } => Some(layer3),
        _ => None,
    }
}

// A reception that has taken the message `first` if it is `Some`, else no message.
fn started(alloc: Global, modulus: Modulus, first: Option<Octets>) -> Result<Reception, Memory>
    ensures { IfOk result (λ reception.
        reception ≡ record { modulus = count_of modulus; taken = option_to_list first }) }
{
    let mut reception = Reception::new(alloc, modulus);
    match first {
        Some(message) => {
            reception.take(message)?;
            Ok(reception)
        }
        None => Ok(reception),
    }
}

// The DLCI of a SAPI. The DLCI leaves the channel unspecified.
fn dlci(sapi: Sapi) -> Dlci
    ensures { result ≡ dlci_for sapi }
{
    match sapi {
        Sapi::Zero => Dlci::new(SAPI_0_LINK),
        Sapi::Three => Dlci::new(SAPI_3_LINK),
    }
}

// Appends a data form 1 with the message to `out` if the message can be encoded. Returns `Err` on
// allocation failure; nothing changes then.
fn send(alloc: Global, peer: Reference, message: &Bssap, out: &mut Vec<Sccp>) -> Result<(), Memory>
    ensures ok { OnOk result (out.new.items ≡ out.old.items
        ++ option_to_list (data_form_of peer message.now)) }
    ensures err { OnErr result (out.new.items ≡ out.old.items) }
{
    out.reserve(1)?;
    if let Some(form) = data_form(alloc, peer, message)? {
        out.push_reserved(form);
    }
    Ok(())
}
