// SPDX-License-Identifier: MIT OR Apache-2.0
ghost use Rattle.std.specs.Prelude.{◌≡◌, OnOk, OnErr, IfOk};
ghost use Rattle.msc_end.specs.Switch.{connection_after, live_connection_after};
ghost use Rattle.msc_end.specs.Switch.{live_reply_of, reply_of};
ghost use Rattle.msc_end.specs.Refusal.{has_ended};

use crate::bssap_data::data_form;
use bssmap_codec::{Bssap, Bssmap, Reference, Sccp};
use nsd_filter::Reception;
use octets::Memory;
use std::alloc::Global;

/// The stage that a connection has reached.
#[derive(Clone, Copy)]
pub enum Stage {
    /// Messages pass both ways.
    Open,
    /// A CLEAR COMMAND was sent; messages of the mobile are still taken.
    Clearing,
    /// The CLEAR COMPLETE was received.
    Ended,
}

/// A connection at the switch.
#[derive(Drop)]
pub struct Connection {
    /// The reference by which the base station controller knows the connection.
    pub peer: Reference,
    /// The reference by which the switch knows the connection.
    pub number: Reference,
    /// The stage that the connection has reached.
    pub stage: Stage,
    /// The messages taken on the connection.
    pub reception: Reception,
}

impl Connection {
    /// Whether the CLEAR COMPLETE was received.
    pub fn has_ended(&self) -> bool
        ensures { result ≡ has_ended self.now.stage }
    {
        match self.stage {
            Stage::Ended => true,
            Stage::Open | Stage::Clearing => false,
        }
    }

    /// Takes a BSSAP message, and returns the reply if there is one. A connection that has ended
    /// ignores the message. Returns `Err` on allocation failure; nothing changes then.
    pub fn on_bssap(&mut self, alloc: Global, message: Bssap) -> Result<Option<Sccp>, Memory>
        ensures state { OnOk result (self.new ≡ connection_after self.old message) }
        ensures reply { IfOk result (λ reply. reply ≡ reply_of self.old message) }
        ensures err { OnErr result (self.new ≡ self.old) }
    {
        match self.stage {
            Stage::Ended => Ok(None),
            Stage::Open | Stage::Clearing => self.take(alloc, message),
        }
    }

    // Takes a BSSAP message on a connection that hasn't ended.
    fn take(&mut self, alloc: Global, message: Bssap) -> Result<Option<Sccp>, Memory>
        ensures state { OnOk result (self.new ≡ live_connection_after self.old message) }
        ensures reply { IfOk result (λ reply. reply ≡ live_reply_of self.old message) }
        ensures err { OnErr result (self.new ≡ self.old) }
    {
        match message {
            Bssap::Transfer { message, .. } => {
                self.reception.take(message)?;
                Ok(None)
            }
            Bssap::Management(Bssmap::ClearRequest { cause }) => {
                let command = Bssap::Management(Bssmap::ClearCommand { cause });
                let reply = data_form(alloc, self.peer, &command)?;
                self.stage = Stage::Clearing;
                Ok(reply)
            }
            Bssap::Management(Bssmap::ClearComplete) => {
                self.stage = Stage::Ended;
                Ok(Some(Sccp::Released {
                    destination: self.peer,
                    source: self.number,
                }))
            }
            Bssap::Management(_) => Ok(None),
        }
    }
}
