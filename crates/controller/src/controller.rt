// SPDX-License-Identifier: MIT OR Apache-2.0
ghost use Rattle.std.specs.Prelude.{◌≡◌, ◌≤◌, ◌+◌, ◌^◌, [], IfOk, length, replicate, true};
ghost use Rattle.controller_model.specs.Controller.{free_channels, is_up, new_controller, ignoring};
ghost use Rattle.controller.specs.Rest.{new_from};

use connections::Connections;
use controller_parts::Channels;
use octets::Memory;
use settings::Settings;
use std::alloc::Global;
use std::marker::Model;

/// The controller of the cells in its settings (TS 48.008 clause 3.1, TS 48.058 clause 4).
#[derive(Drop)]
pub struct Controller {
    pub(crate) alloc: Global,
    pub(crate) settings: Settings,
    /// For each link, whether the link is up; the switch's link is the first.
    pub(crate) links: Vec<bool>,
    pub(crate) channels: Channels,
    pub(crate) connections: Connections,
    /// The number that the next connection gets.
    pub(crate) next_number: u32,
    /// The number of handovers that have begun, modulo 256.
    pub(crate) handovers: u8,
    pub(crate) ignored: u64,
}

impl Model for Controller {
    ghost use Rattle.controller_model.specs.Controller.{Controller};
    ghost use Rattle.controller.specs.Consistent.{IsConsistent};

    ghost Value = { Controller };

    ghost view = { λ c. record {
      settings = c.settings;
      links = c.links.items;
      channels = c.channels;
      entries = c.connections.entries;
      next_number = c.next_number;
      handovers = c.handovers;
      ignored = c.ignored;
    } };

    ghost invariant = { λ c. IsConsistent c.settings c.connections c.links.items c.next_number };
}

impl Controller {
    /// A controller without connections, with all links up and all channels free. Keeps the
    /// allocator. Returns `Memory` if an allocation fails.
    pub fn new(alloc: Global, settings: Settings) -> Result<Controller, Memory>
        ensures { IfOk result (λ c. c ≡ new_controller settings) }
    {
        Controller::new_from(alloc, settings, 1)
    }

    /// Like `new`, but the next connection gets the number `number`, as if all smaller numbers were
    /// used. `number` must be 1 to 16,777,216. If it is 16,777,216, no number is left and no
    /// connection opens.
    pub fn new_from(alloc: Global, settings: Settings, number: u32) -> Result<Controller, Memory>
        requires from { 1 ≤ number }
        requires last { number ≤ 2 ^ 24 }
        ensures { IfOk result (λ c. c ≡ new_from settings number) }
    {
        match parts(alloc, &settings) {
            Ok((links, channels, connections)) => Ok(Controller {
                alloc,
                settings,
                links,
                channels,
                connections,
                next_number: number,
                handovers: 0,
                ignored: 0,
            }),
            Err(Memory) => {
                drop(settings);
                Err(Memory)
            }
        }
    }

    /// Whether link `source` is up; `false` if there is no such link.
    pub(crate) fn is_up(&self, source: u16) -> bool
        ensures { result ≡ is_up self.now source }
    {
        match self.links.get(usize::from(source)) {
            Some(up) => *up,
            None => false,
        }
    }

    /// Counts one more ignored item.
    pub(crate) fn ignore(&mut self)
        ensures { self.new ≡ (ignoring self.old).next }
    {
        self.ignored = self.ignored.saturating_add(1);
    }
}

// The parts of a new controller: all links up, all channels free, and no connections. Returns
// `Memory` if an allocation fails.
fn parts(alloc: Global, settings: &Settings) -> Result<(Vec<bool>, Channels, Connections), Memory>
    ensures links { IfOk result
        (λ parts. parts.0.items ≡ replicate (length settings.now.cells + 1) true) }
    ensures channels { IfOk result
        (λ parts. parts.1 ≡ replicate (length settings.now.cells + 1) free_channels) }
    ensures connections { IfOk result
        (λ parts. parts.2 ≡ record { settings = settings.now; entries = [] }) }
{
    let links = usize::from(settings.cell_count()) + 1;
    let up = vec![in alloc; true; links]?;
    let channels = Channels::new(alloc, links)?;
    let connections = Connections::new(alloc, settings)?;
    Ok((up, channels, connections))
}
