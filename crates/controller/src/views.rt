// SPDX-License-Identifier: MIT OR Apache-2.0
ghost use Rattle.std.specs.Prelude.{◌≡◌, IfOk, filter, length, option_map, slice_get};
ghost use Rattle.std.specs.Option.{option_and_then};
ghost use Rattle.conn_fsm.specs.Doing.{WantsForHeld};
ghost use Rattle.conn_rules.specs.Streams.{is_dtap as dtap};
ghost use Rattle.conn_rules.specs.Timers.{after_pass};
ghost use Rattle.controller_model.specs.Controller.{entry_of};
ghost use Rattle.controller_model.specs.Life.{expiry};
ghost use Rattle.controller_model.specs.Views as words;
ghost use Rattle.controller.specs.Wanting.{all_held_for};

use crate::controller::Controller;
use crate::time::expiry_after;
use conn_fsm::{Conn, Input};
use controller_parts::is_dtap;
use dtap_codec::Sapi;
use octets::{Memory, Octets};

impl Controller {
    /// The number of items that were ignored: those that changed nothing and for which the table
    /// has no row. Saturates at 2^64 - 1.
    pub fn ignored(&self) -> u64
        ensures { result ≡ self.now.ignored }
    {
        self.ignored
    }

    /// The number of links: one for each cell, and one for the switch.
    pub fn links(&self) -> usize
        ensures { result ≡ words.links self.now }
    {
        self.links.len()
    }

    /// The average RXQUAL-FULL on the serving channel of connection `conn`; `None` if there is no
    /// report or no such connection.
    pub fn rxqual(&self, conn: u32) -> Option<u8>
        ensures { result ≡ words.rxqual self.now conn }
    {
        match self.connections.get(conn) {
            Some(entry) => entry.averages().rxqual(),
            None => None,
        }
    }

    /// A copy of the switch's DTAP messages of `sapi` that are held for connection `conn`, in
    /// order; empty if there is no such connection. Held messages of radio resource management are
    /// left out. Returns `Memory` if memory runs out, which is possible only if messages are held,
    /// DTAP or not.
    #[tactic(auto, using(crate::proofs::Wanting::held_there))]
    pub fn held(&self, conn: u32, sapi: Sapi) -> Result<Vec<Octets>, Memory>
        ensures list { IfOk result (λ list. list.items ≡ words.held self.now conn sapi) }
        ensures memory { WantsForHeld result (all_held_for sapi (entry_of self.now conn)) }
    {
        match self.connections.get(conn) {
            Some(entry) => Ok(dtap_of(entry.connection().held(sapi)?)),
            None => Ok(Vec::new(self.alloc)),
        }
    }

    /// A copy of the mobile's messages of `sapi` that are held for connection `conn`, in order, the
    /// oldest tenure first; empty if there is no such connection. Returns `Memory` if memory runs
    /// out, which is possible only if such messages are held.
    #[tactic(auto, using(crate::proofs::Held::joined_is, crate::proofs::Wanting::held_up_there))]
    pub fn held_up(&self, conn: u32, sapi: Sapi) -> Result<Vec<Octets>, Memory>
        ensures list { IfOk result (λ list. list.items ≡ words.held_up self.now conn sapi) }
        ensures memory { WantsForHeld result (words.held_up self.now conn sapi) }
    {
        match self.connections.get(conn) {
            Some(entry) => entry.connection().held_up(sapi),
            None => Ok(Vec::new(self.alloc)),
        }
    }

    /// The number of connections.
    pub fn connection_count(&self) -> usize
        ensures { result ≡ length self.now.entries }
    {
        self.connections.len()
    }

    /// The connection at `place`, counted from 0 in the order of their numbers; `None` if there is
    /// no connection at this place.
    pub fn connection_at(&self, place: usize) -> Option<&Conn>
        ensures { option_map (λ c. c.now) result
            ≡ option_map (λ e. e.connection) (slice_get self.now.entries place) }
    {
        match self.connections.at(place) {
            Some(entry) => Some(entry.connection()),
            None => None,
        }
    }

    /// The expiry that is due for the connection at `place` once `ms` more milliseconds have
    /// passed: that of the state's timer, else that of the drain time. `None` if neither has
    /// expired or there is no connection at this place.
    pub fn expiry_at(&self, place: usize, ms: u32) -> Option<Input>
        ensures { result ≡ option_and_then
            (λ e. expiry self.now.settings.timers (after_pass ms e.connection))
            (slice_get self.now.entries place) }
    {
        match self.connections.at(place) {
            Some(entry) => expiry_after(&self.settings, entry.connection(), ms),
            None => None,
        }
    }
}

// The DTAP among the messages: those that aren't of radio resource management.
fn dtap_of(mut messages: Vec<Octets>) -> Vec<Octets>
    ensures { result.items ≡ filter dtap messages.items }
{
    messages.retain(|message| is_dtap(message.as_slice()));
    messages
}
