// SPDX-License-Identifier: MIT OR Apache-2.0
ghost use Rattle.std.specs.Prelude.{◌≡◌, ◌++◌, OnOk, option_to_list, slice_get};
ghost use Rattle.connection_notes.specs.Notes.{expiry_notes};
ghost use Rattle.world_trace.specs.Notes.{expired_at};

use connection_notes::{Note, note_timer, timer_by};
use octets::Memory;
use world_actors::Network;
use world_model::Event;

/// Appends a note for each timer that expires at `event`.
pub(crate) fn note_expired(
    network: &Network,
    event: &Event,
    notes: &mut Vec<Note>,
) -> Result<(), Memory>
    ensures { OnOk result (notes.new.items
        ≡ notes.old.items ++ expired_at network.now.controller event.now) }
{
    match event {
        Event::Tick(ms) => note_after(network, *ms, notes),
        _ => Ok(()),
    }
}

/// Appends a note for each timer that expires within the next `ms` milliseconds.
fn note_after(network: &Network, ms: u32, notes: &mut Vec<Note>) -> Result<(), Memory>
    ensures { OnOk result (notes.new.items ≡ notes.old.items
        ++ expiry_notes network.now.controller.settings.timers ms network.now.controller.entries) }
{
    for place in 0..network.connection_count() {
        note_expiry(network, place, ms, notes)?;
    }
    Ok(())
}

#[tactic(auto, using(connection_notes::proofs::Seeing::expiring))]
fn note_expiry(
    network: &Network,
    place: usize,
    ms: u32,
    notes: &mut Vec<Note>,
) -> Result<(), Memory>
    ensures { OnOk result (notes.new.items ≡ notes.old.items
        ++ expiry_notes network.now.controller.settings.timers ms
        (option_to_list (slice_get network.now.controller.entries place))) }
{
    let Some(conn) = network.connection_at(place) else {
        return Ok(());
    };
    let Some(input) = network.expiry_at(place, ms) else {
        return Ok(());
    };
    note_timer(conn.number(), timer_by(conn.state(), &input), notes)
}
