// SPDX-License-Identifier: MIT OR Apache-2.0
ghost use Rattle.std.specs.Prelude.{◌≡◌, ◌<◌, ◌≤◌, ◌+◌, ◌++◌, IfOk, option_to_list, slice_get};
ghost use Rattle.std.specs.Prelude.{vec_capacity, vec_len};
ghost use Rattle.connection_notes.specs.Sights.{phase_in, phase_of, sight_of, sights_of};

use conn_fsm::Conn;
use conn_rules::{Stage, State};
use controller::Controller;
use dtap_codec::Sapi;
use octets::Memory;
use std::alloc::Global;

/// The phase of a connection.
#[derive(Clone, Copy)]
pub enum Phase {
    /// The connection doesn't exist yet, or has ended.
    Absent,
    /// The connection's access channel is being activated.
    WaitActivation,
    /// IMMEDIATE ASSIGNMENT was sent; the mobile hasn't established its data link yet.
    WaitEstablish,
    /// The switch was asked for a connection (CR) and hasn't answered.
    WaitConfirm,
    /// The connection uses its serving channel and no other.
    Active,
    /// The target of a change is being activated.
    Preparing,
    /// The mobile was commanded to the target channel.
    Changing,
    /// The mobile has left old channels that aren't released yet.
    Draining,
    /// The connection is closed; its channels are being released.
    Closed,
}

/// A view of a connection: its phase, and the number of messages of each SAPI that are held for the
/// mobile (`down`) and for the switch (`up`).
#[derive(Clone, Copy)]
pub struct Sight {
    pub number: u32,
    pub phase: Phase,
    pub down_zero: usize,
    pub down_three: usize,
    pub up_zero: usize,
    pub up_three: usize,
}

/// The views of a controller's connections, by rising number. `Err`: allocation failed.
pub fn sights(alloc: Global, controller: &Controller) -> Result<Vec<Sight>, Memory>
    ensures { IfOk result (λ sights. sights.items ≡ sights_of controller.now.entries) }
{
    let mut sights = Vec::with_capacity(alloc, controller.connection_count())?;
    for place in 0..controller.connection_count() {
        note_sight(controller, place, &mut sights);
    }
    Ok(sights)
}

/// Appends the view of the connection at index `place`, if there is one. Assumes: `sights` has
/// room.
#[tactic(auto, using(crate::proofs::Seeing::sight_some, crate::proofs::Seeing::sight_none))]
fn note_sight(controller: &Controller, place: usize, sights: &mut Vec<Sight>)
    requires { vec_len sights.old < vec_capacity sights.old }
    ensures items { sights.new.items ≡ sights.old.items ++ sights_of
        (option_to_list (slice_get controller.now.entries place)) }
    ensures len { vec_len sights.new ≤ vec_len sights.old + 1 }
    ensures capacity { vec_capacity sights.new ≡ vec_capacity sights.old }
{
    match controller.connection_at(place) {
        Some(conn) => sights.push_reserved(sight_of(conn)),
        None => {}
    }
}

/// The view of a connection. The calls that count messages come first, so that no other field has
/// to be kept during a call.
pub fn sight_of(conn: &Conn) -> Sight
    ensures { result ≡ sight_of conn.now }
{
    Sight {
        down_zero: conn.held_count(Sapi::Zero),
        down_three: conn.held_count(Sapi::Three),
        up_zero: conn.held_up_count(Sapi::Zero),
        up_three: conn.held_up_count(Sapi::Three),
        number: conn.number(),
        phase: phase_of(conn.state()),
    }
}

fn phase_of(state: State) -> Phase
    ensures { result ≡ phase_of state }
{
    match state {
        State::WaitActivation => Phase::WaitActivation,
        State::WaitEstablish => Phase::WaitEstablish,
        State::WaitConfirm => Phase::WaitConfirm,
        State::Live(_, stage) => phase_in(stage),
        State::Closed(_) => Phase::Closed,
        State::Removed => Phase::Absent,
    }
}

fn phase_in(stage: Stage) -> Phase
    ensures { result ≡ phase_in stage }
{
    match stage {
        Stage::Active => Phase::Active,
        Stage::Preparing(_) => Phase::Preparing,
        Stage::Changing(_) => Phase::Changing,
        Stage::Draining => Phase::Draining,
    }
}
