// SPDX-License-Identifier: MIT OR Apache-2.0
ghost use Rattle.std.specs.Prelude.{◌≡◌, ◌<◌, ◌≤◌, ◌+◌, ◌++◌, IfOk, option_to_list, slice_get};
ghost use Rattle.std.specs.Prelude.{vec_capacity, vec_len};
ghost use Rattle.connection_notes.specs.Sights.{sights_of};

use connection_notes::{Sight, sight_of};
use octets::Memory;
use std::alloc::Global;
use world_actors::Network;

/// The sight of each connection, in the order of connection numbers.
pub(crate) fn sights(alloc: Global, network: &Network) -> Result<Vec<Sight>, Memory>
    ensures { IfOk result (λ sights. sights.items ≡ sights_of network.now.controller.entries) }
{
    let mut sights = Vec::with_capacity(alloc, network.connection_count())?;
    for place in 0..network.connection_count() {
        note_sight(network, place, &mut sights);
    }
    Ok(sights)
}

/// Appends the sight of the connection at a place, if there is one. Assumes: `sights` has room.
#[tactic(auto, using(connection_notes::proofs::Seeing::seeing))]
fn note_sight(network: &Network, place: usize, sights: &mut Vec<Sight>)
    requires { vec_len sights.old < vec_capacity sights.old }
    ensures items { sights.new.items ≡ sights.old.items ++ sights_of
        (option_to_list (slice_get network.now.controller.entries place)) }
    ensures len { vec_len sights.new ≤ vec_len sights.old + 1 }
    ensures capacity { vec_capacity sights.new ≡ vec_capacity sights.old }
{
    match network.connection_at(place) {
        Some(conn) => sights.push_reserved(sight_of(conn)),
        None => {}
    }
}
