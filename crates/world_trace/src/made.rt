// SPDX-License-Identifier: MIT OR Apache-2.0
ghost use Rattle.std.specs.Prelude.{◌≡◌, ◌≤◌, ◌++◌, IfOk, OnOk, drop, length, option_to_list};
ghost use Rattle.std.specs.Prelude.{slice_get};
ghost use Rattle.std.specs.List.{flat_map};
ghost use Rattle.world_model.specs.Queues.{made_items};
ghost use Rattle.world_trace.specs.declared.crossing.Passage.TheVariants.{Made};
ghost use Rattle.world_trace.specs.Crossings.{up};
ghost use Rattle.world_trace.specs.Makings.{AreMakings, made_behind, sources, sources_at};

use crate::crossing::{Crossing, Passage};
use crate::turn::is_turn;
use octets::Memory;
use std::alloc::Global;
use world_actors::Network;
use world_model::Event;

/// The largest number of sources that are looked at. No settings have so many links.
pub const SOURCE_LIMIT: u16 = 256;

/// For each source, the number of its items that aren't in the inbox yet, before an event. The
/// first source is the switch.
#[derive(Drop)]
pub(crate) struct Makings {
    counts: Vec<usize>,
}

impl Makings {
    /// Counts the items of those sources that may make something at the event.
    pub(crate) fn of(alloc: Global, network: &Network, event: &Event) -> Result<Makings, Memory>
        ensures { IfOk result (λ makings. AreMakings network.now event.now makings) }
    {
        let sources = sources_at(network, event);
        let mut counts = Vec::with_capacity(alloc, usize::from(sources))?;
        for source in 0..sources {
            counts.push(network.made_count(source))?;
        }
        Ok(Makings { counts })
    }

    /// Appends the crossings of the items beyond these counts.
    pub(crate) fn note_behind(
        &self,
        alloc: Global,
        network: &Network,
        crossings: &mut Vec<Crossing>,
    ) -> Result<(), Memory>
        requires { length self.now.counts.items ≤ SOURCE_LIMIT }
        ensures { OnOk result (crossings.new.items
            ≡ crossings.old.items ++ made_behind self.now network.now) }
    {
        for source in 0..self.counts.len() {
            let count = self.counts[source];
            note_source(alloc, network, source as u16, count, crossings)?;
        }
        Ok(())
    }
}

/// Appends the crossings of the items that `source` made, from index `mark` on.
fn note_source(
    alloc: Global,
    network: &Network,
    source: u16,
    mark: usize,
    crossings: &mut Vec<Crossing>,
) -> Result<(), Memory>
    ensures { OnOk result (crossings.new.items ≡ crossings.old.items
        ++ flat_map (up Made) (drop mark (made_items network.now source))) }
{
    for place in mark..network.made_count(source) {
        note_made(alloc, network, source, place, crossings)?;
    }
    Ok(())
}

fn note_made(
    alloc: Global,
    network: &Network,
    source: u16,
    place: usize,
    crossings: &mut Vec<Crossing>,
) -> Result<(), Memory>
    ensures { OnOk result (crossings.new.items ≡ crossings.old.items ++ flat_map (up Made)
        (option_to_list (slice_get (made_items network.now source) place))) }
{
    let Some(item) = network.made_item(source, place)? else {
        return Ok(());
    };
    match Crossing::up(alloc, Passage::Made, &item)? {
        Some(crossing) => {
            crossings.push(crossing)?;
            Ok(())
        }
        None => Ok(()),
    }
}

/// The number of sources that may make something at an event: 0 if the event is the controller's
/// turn.
fn sources_at(network: &Network, event: &Event) -> u16
    ensures { result ≡ sources_at network.now event.now }
{
    if is_turn(event) { 0 } else { sources(network) }
}

/// The number of sources, at most `SOURCE_LIMIT`.
fn sources(network: &Network) -> u16
    ensures { result ≡ sources network.now }
{
    let links = network.link_count();
    if links < usize::from(SOURCE_LIMIT) {
        links as u16
    } else {
        SOURCE_LIMIT
    }
}
