// SPDX-License-Identifier: MIT OR Apache-2.0
ghost use Rattle.std.specs.Prelude.{◌≡◌, IfOk, OnOk};
ghost use Rattle.connection_notes.specs.Sights.{sights_of};
ghost use Rattle.world_model.specs.Life.{actors_after};
ghost use Rattle.world_trace.specs.Causes.{refusal};
ghost use Rattle.world_trace.specs.Crossings.{crossings};
ghost use Rattle.world_trace.specs.Fates.{fate_at};
ghost use Rattle.world_trace.specs.Makings.{made_at};
ghost use Rattle.world_trace.specs.Notes.{notes_at};

use crate::event_trace::{EventTrace, step_from};
use crate::sight::sights;
use crate::turn::is_turn;
use connection_notes::Sight;
use octets::Memory;
use std::alloc::Global;
use std::marker::Model;
use world_actors::Network;
use world_model::Event;

/// The sights of the controller's connections after the last event. The sights are kept from event
/// to event, so that each turn of the controller takes sights only after the turn.
#[derive(Drop)]
pub struct Tracing {
    alloc: Global,
    sights: Vec<Sight>,
}

impl Model for Tracing {
    ghost use Rattle.std.specs.Prelude.{List};
    ghost use Rattle.connection_notes.specs.declared.sight.Sight.{Sight};

    ghost Value = { List Sight };

    ghost view = { λ tracing. tracing.sights.items };
}

impl Tracing {
    /// Takes the sights of this network's connections. Fails only on allocation failure.
    pub fn of(alloc: Global, network: &Network) -> Result<Tracing, Memory>
        ensures { IfOk result (λ tracing. tracing ≡ sights_of network.now.controller.entries) }
    {
        let sights = sights(alloc, network)?;
        Ok(Tracing { alloc, sights })
    }

    /// Lets the event happen, and answers the same trace as the function `step`. Fails only on
    /// allocation failure; the actors are then unspecified. Assumes: the sights are those of
    /// `network`.
    #[tactic(auto, using(crate::proofs::Turning::seen_still))]
    pub fn step(&mut self, network: &mut Network, event: &Event) -> Result<EventTrace, Memory>
        requires { self.old ≡ sights_of network.old.controller.entries }
        ensures seen { OnOk result (self.new ≡ sights_of network.new.controller.entries) }
        ensures actors { OnOk result (network.new ≡ actors_after network.old event.now) }
        ensures refusal { IfOk result (λ trace. trace.refusal ≡ refusal network.old event.now) }
        ensures crossings { IfOk result (λ trace.
            trace.crossings.items ≡ crossings network.old event.now) }
        ensures fate { IfOk result (λ trace. trace.fate ≡ fate_at network.old event.now) }
        ensures made { IfOk result (λ trace. trace.made.items ≡ made_at network.old event.now) }
        ensures notes { IfOk result (λ trace. trace.notes.items ≡ notes_at network.old event.now) }
    {
        if !is_turn(event) {
            let (trace, _) = step_from(self.alloc, network, event, &[])?;
            return Ok(trace);
        }
        let before = self.sights.as_slice();
        let (trace, behind) = step_from(self.alloc, network, event, before)?;
        self.sights = behind;
        Ok(trace)
    }
}
